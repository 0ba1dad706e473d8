// Filters by name.
ghost use Rattle.std.specs.Prelude.{◌≡◌, ◌↔◌, IfOk, IsTrue};
ghost use Rattle.env_filters.specs.Filters.{LayerKindBit, filter_of, hits, Hits, hits_disable, HitsDisable, covers, word_of, is_word};

use crate::NoMemory;
use crate::entries::entries;
use crate::glob::Glob;
use std::alloc::Global;
use std::marker::Model;

/// The kind of a layer, as the words of the disable list tell kinds apart.
#[derive(Clone, Copy, Debug, PartialEq, Eq)]
pub enum LayerKindBit {
    /// Named by the application or by `VK_INSTANCE_LAYERS`.
    Explicit,
    /// Loaded by its own rules.
    Implicit,
}

/// A list of globs: the value of `VK_LOADER_LAYERS_DISABLE` and its kin.
pub struct FilterList {
    globs: Vec<Glob>,
}

impl Drop for FilterList {
    fn drop(self) {
        let FilterList { globs: _globs } = self;
    }
}

impl Model for FilterList {
    ghost use Rattle.std.specs.Prelude.{List};
    ghost use Rattle.env_filters.specs.Globs.{Pattern};

    ghost Value = { List Pattern };

    ghost view = { λ f. f.globs.items };
}

impl FilterList {
    /// Reads the globs between commas; empty entries are dropped.
    pub fn parse(alloc: Global, text: &str) -> Result<FilterList, NoMemory>
        ensures { IfOk result (λ f. f ≡ filter_of text.now) }
    {
        let mut globs = Vec::new(alloc);
        let entries = entries(alloc, text, ',')?;
        for entry in &entries {
            globs.push(Glob::parse(alloc, entry)?)?;
        }
        Ok(FilterList { globs })
    }

    /// Whether a glob of the list matches the name. The three words of the disable list are globs like any other here.
    pub fn hits(&self, name: &str) -> bool
        ensures test { result ≡ hits self.now name.now }
        ensures meaning { IsTrue result ↔ Hits self.now name.now }
    {
        self.globs.iter().any(|glob| glob.matches(name))
    }

    /// Whether the list disables a layer of the name and kind: by a glob, by `~all~`, or by its kind's word,
    /// `~implicit~` or `~explicit~`.
    pub fn hits_disable(&self, name: &str, kind: LayerKindBit) -> bool
        ensures test { result ≡ hits_disable self.now name.now kind }
        ensures meaning { IsTrue result ↔ HitsDisable self.now name.now kind }
    {
        self.globs
            .iter()
            .any(|glob| glob.matches(name) || covers(glob, kind))
    }
}

// Whether a glob is a word that covers all layers of the kind.
fn covers(glob: &Glob, kind: LayerKindBit) -> bool
    ensures { result ≡ covers kind glob.now }
{
    let word = match kind {
        LayerKindBit::Explicit => "~explicit~",
        LayerKindBit::Implicit => "~implicit~",
    };
    glob.is_word("~all~") || glob.is_word(word)
}

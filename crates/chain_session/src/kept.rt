// What a session keeps.
ghost use Rattle.std.specs.Prelude.{◌≡◌, ◌+◌, ◌<◌, ◌^◌, length};
ghost use Rattle.session_tables.specs.Births.{AreApart};

use crate::open_calls::OpenCalls;
use session_parts::SessionParts;
use session_tables::ObjectTable;

/// What is kept of the events so far: how many calls there were, how many of them were skipped, and how many reports; what the parts of the
/// session keep; and the open calls.
pub struct Kept {
    pub(crate) calls: u64,
    pub(crate) skipped: u64,
    pub(crate) reports: u64,
    pub(crate) parts: SessionParts,
    pub(crate) open_calls: OpenCalls,
}

impl Drop for Kept {
    fn drop(self) {
        let Kept {
            calls: _calls,
            skipped: _skipped,
            reports: _reports,
            parts: _parts,
            open_calls: _open_calls,
        } = self;
    }
}

// Each object that lives has one birth.
fn living_count(objects: &ObjectTable) -> usize
    ensures len { result ≡ length objects.now.births }
    ensures few { result < 2 ^ 62 }
    ensures apart { AreApart objects.now.births }
{
    objects.len()
}

impl Kept {
    /// How many names came to stand for objects, how many objects live and how many calls are open, in one sum.
    pub(crate) fn held(&self) -> usize
        ensures count { result ≡ self.now.parts.names.kept.count + length self.now.parts.names.kept.births + length self.now.open_calls }
        ensures apart { AreApart self.now.parts.names.kept.births }
    {
        self.parts.names.named().len()
            + living_count(self.parts.names.objects())
            + self.open_calls.len()
    }
}

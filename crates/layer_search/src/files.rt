//! The bytes of manifest files.
//! Source: this project, for the limit on a file's bytes.
ghost use Rattle.std.specs.Prelude.{◌≡◌, IfOk, IfErr};
ghost use Rattle.layer_search.specs.Causes.{WhereTold, HasSearchCause, IsNoLimit};
ghost use Rattle.layer_search.specs.Contents.{IsOfFile};
ghost use Rattle.layer_search.specs.Found.{bytes_of, content_by};

use crate::paths::rooted;
use crate::{NoteKind, SearchError};
use replay_base::{Tree, TreeRead};
use std::alloc::Global;

/// How many bytes a manifest file may have.
pub const MOST_BYTES: usize = 1_048_576;

/// The bytes of a manifest file, or why it isn't read.
pub(crate) fn bytes_of<T: Tree>(
    alloc: Global,
    tree: &mut T,
    root: &str,
    path: &str,
) -> Result<Result<Vec<u8>, NoteKind>, SearchError>
    ensures bytes { WhereTold (T.files tree.old) (λ files. IfOk result (λ read. content_by (λ bytes. bytes.items) read ≡ bytes_of files root.now path.now)) }
    ensures reason { IfOk result (λ read. IfErr read IsOfFile) }
    ensures limit { IfErr result IsNoLimit }
    ensures same { T.files tree.new ≡ T.files tree.old }
    ensures cause { HasSearchCause (T.faults tree.old) (T.faults tree.new) result }
{
    let at = rooted(alloc, root, path)?;
    let mut bytes = Vec::new(alloc);
    Ok(match tree.read(at.as_str(), MOST_BYTES, &mut bytes)? {
        TreeRead::Data => Ok(bytes),
        TreeRead::Absent => Err(NoteKind::Absent),
        TreeRead::TooLarge => Err(NoteKind::TooLarge),
    })
}

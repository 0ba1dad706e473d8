//! Texts of which the first occurrence counts.
ghost use Rattle.std.specs.Prelude.{◌≡◌, [], ◌∷◌, ◌++◌, List, ℕ, IfOk, not};
ghost use Rattle.std.specs.List.{list_any};
ghost use Rattle.std.specs.Str.{bytes_eq};
ghost use Rattle.layer_search.specs.Collecting.{Knows};

use std::alloc::{AllocError, Global};
use std::collections::BTreeSet;

/// Whether a text comes for the first time. It is known from then on.
pub(crate) fn is_new(
    alloc: Global,
    seen: &mut BTreeSet<String>,
    text: &str,
) -> Result<bool, AllocError>
    ensures { IfOk result (λ new. (texts : List (List ℕ)) → Knows seen.old texts
        → (new ≡ not (list_any (λ known. bytes_eq text.now known) texts)) × Knows seen.new (texts ++ text.now ∷ [])) }
{
    let kept = String::from_str(alloc, text)?;
    let new = seen.insert(kept)?;
    Ok(new)
}

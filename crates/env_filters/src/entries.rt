// Lists in the value of a variable.
ghost use Rattle.std.specs.Prelude.{◌≡◌, ◌==◌, ◌<◌, length, not, IfOk, map, string_bytes};
ghost use Rattle.env_filters.specs.Entries.{entries_of, layer_names_of, paths_of};

use crate::NoMemory;
use std::alloc::Global;

// Whether an entry counts.
fn is_filled(entry: &str) -> bool
    ensures { result ≡ not (length entry.now == 0) }
{
    !entry.is_empty()
}

/// The entries of a list between its separators, without empty ones.
pub(crate) fn entries(alloc: Global, text: &str, separator: char) -> Result<Vec<&str>, NoMemory>
    requires { separator < 128 }
    ensures { IfOk result (λ v. map (λ entry. entry.now) v.items ≡ entries_of separator text.now) }
{
    let entries = text
        .split(separator)
        .filter(|entry| is_filled(entry))
        .collect(alloc)?;
    Ok(entries)
}

// Entries as texts of their own.
fn texts_of(alloc: Global, entries: &[&str]) -> Result<Vec<String>, NoMemory>
    ensures { IfOk result (λ v. map string_bytes v.items ≡ map (λ entry. entry.now) entries.now) }
{
    let mut texts = Vec::new(alloc);
    for entry in entries {
        texts.push(String::from_str(alloc, entry)?)?;
    }
    Ok(texts)
}

/// The paths that a value names between colons, without empty ones: those of `XDG_DATA_DIRS` and its kin.
pub fn split_paths(alloc: Global, text: &str) -> Result<Vec<String>, NoMemory>
    ensures { IfOk result (λ v. map string_bytes v.items ≡ paths_of text.now) }
{
    let paths = entries(alloc, text, ':')?;
    texts_of(alloc, &paths)
}

/// The names of layers that an application gives between commas, without empty ones.
pub fn split_layer_names(alloc: Global, text: &str) -> Result<Vec<String>, NoMemory>
    ensures { IfOk result (λ v. map string_bytes v.items ≡ layer_names_of text.now) }
{
    let names = entries(alloc, text, ',')?;
    texts_of(alloc, &names)
}

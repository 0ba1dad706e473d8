// Where the library of a driver is.
// Source: Khronos Vulkan-Loader, LoaderDriverInterface.md, `library_path`.
ghost use Rattle.std.specs.Prelude.{◌≡◌, ◌++◌, OnOk};
ghost use Rattle.std.specs.List.{list_any};
ghost use Rattle.report_text.specs.Libraries.{folder_of, has_slash, is_from_folder, library_text};

use crate::put::put;
use std::alloc::AllocError;

fn has_slash(path: &str) -> bool
    ensures { result ≡ has_slash path.now }
{
    path.as_bytes().iter().any(|byte| *byte == b'/')
}

// Whether a path is one from a folder.
fn is_from_folder(path: &str) -> bool
    ensures { result ≡ is_from_folder path.now }
{
    has_slash(path) && path.as_bytes().first() != Some(&b'/')
}

// The folder of a file.
fn folder_of(path: &str) -> &str
    ensures { result.now ≡ folder_of path.now }
{
    match path.rsplit_once('/') {
        Some((folder, _)) => folder,
        None => ".",
    }
}

/// Where the library of a manifest at a path is.
#[tactic(auto, using(std::proofs::lemmas::List::append_assoc), unfolding(crate::specs::Libraries::library_text))]
pub(crate) fn put_library(
    manifest: &str,
    library: &str,
    out: &mut Vec<u8>,
) -> Result<(), AllocError>
    ensures { OnOk result (out.new.items ≡ out.old.items ++ library_text manifest.now library.now) }
{
    if is_from_folder(library) {
        put(folder_of(manifest), out)?;
        put("/", out)?;
    }
    put(library, out)
}

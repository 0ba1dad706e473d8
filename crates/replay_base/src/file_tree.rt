// The file system as a tree.
ghost use Rattle.std.specs.Prelude.{◌≡◌, ◌≤◌, None};
ghost use Rattle.replay_base.specs.Files.{ErrorHasCause};

use crate::{Tree, TreeError, TreeRead};
use std::fs;
use std::io::{self, ErrorKind, Read};
use std::rt::Files;

/// The file system that a runtime reaches, as a tree. It tells no files. A folder that isn't there, or that is none, is
/// empty; a name that isn't UTF-8 is left out; a path below a file is absent. Every other error of the system is a
/// fault, among them a folder that is read like a file.
#[derive(Drop)]
pub struct FsTree<'a, R> {
    rt: &'a R,
    faults: u64,
}

// Whether there is nothing at a path.
fn is_missing(error: &io::Error) -> bool {
    matches!(error.kind(), ErrorKind::NotFound | ErrorKind::NotADirectory)
}

// Adds the names in a folder.
fn add_names<R: Files + AllocGlobal + Clone + Drop>(
    rt: &R,
    folder: &str,
    out: &mut Vec<String>,
) -> io::Result<()> {
    let entries = match fs::read_dir(rt, folder) {
        Ok(entries) => entries,
        Err(error) if is_missing(&error) => return Ok(()),
        Err(error) => return Err(error),
    };
    for entry in entries {
        match entry {
            Ok(entry) => out.push(String::from_str(*out.allocator(), entry.file_name())?)?,
            // A name that is no text.
            Err(error) if error.kind() == ErrorKind::InvalidFilename => {}
            Err(error) => return Err(error),
        }
    }
    Ok(())
}

// Adds the bytes of a file, up to one more than `max`.
fn add_bytes<R: Files>(rt: &R, path: &str, max: usize, out: &mut Vec<u8>) -> io::Result<TreeRead> {
    let file = match fs::open(rt, path) {
        Ok(file) => file,
        Err(error) if is_missing(&error) => return Ok(TreeRead::Absent),
        Err(error) => return Err(error),
    };
    file.take((max as u64).saturating_add(1)).read_to_end(out)?;
    if out.len() > max {
        out.clear();
        return Ok(TreeRead::TooLarge);
    }
    Ok(TreeRead::Data)
}

impl<'a, R: Files + AllocGlobal + Clone + Drop> FsTree<'a, R> {
    pub fn new(rt: &'a R) -> FsTree<'a, R>
        ensures { ⟦<FsTree<'a, R> as Tree>⟧.faults result ≡ 0 }
    {
        FsTree { rt, faults: 0 }
    }

    // The answer to an error of the system, which is counted.
    fn refuse(&mut self, error: io::Error) -> TreeError
        ensures cause { ErrorHasCause self.old.faults self.new.faults result }
        ensures later { self.old.faults ≤ self.new.faults }
    {
        if error.kind() == ErrorKind::OutOfMemory {
            return TreeError::NoMemory;
        }
        self.faults = self.faults.saturating_add(1);
        TreeError::Failed
    }
}

impl<'a, R: Files + AllocGlobal + Clone + Drop> Tree for FsTree<'a, R> {
    ghost files = { λ _. None };

    ghost faults = { λ t. t.faults };

    fn list(&mut self, folder: &str, out: &mut Vec<String>) -> Result<(), TreeError> {
        out.clear();
        match add_names(self.rt, folder, out) {
            Ok(()) => Ok(()),
            Err(error) => Err(self.refuse(error)),
        }
    }

    fn read(&mut self, path: &str, max: usize, out: &mut Vec<u8>) -> Result<TreeRead, TreeError> {
        out.clear();
        match add_bytes(self.rt, path, max, out) {
            Ok(answer) => Ok(answer),
            Err(error) => Err(self.refuse(error)),
        }
    }
}

//! A folder of the system that can be opened, and fails within its names.
use replay_base::{FsTree, Tree, TreeError};
use std::alloc::{Allocator, Global};
use std::fs::{self, Metadata, OpenOptions};
use std::io::{self, ErrorKind, Read};
use std::process::Abort;
use std::rt::Files;
use std::test::Fail;

// Names as a folder's reader gives them, each ended by NUL. The second is no text.
static NAMES: [u8; 21] = *b"a.json\0\xff.json\0b.json\0";

// Gives these names, and then the end, or an error.
#[derive(Drop)]
struct Names {
    at: usize,
    fails: bool,
}

impl Read for Names {
    fn read(&mut self, buf: &mut [u8]) -> io::Result<usize> {
        let left = NAMES.get(self.at..).unwrap_or(&[]);
        if left.is_empty() && self.fails {
            return Err(io::Error::from(ErrorKind::Other));
        }
        let count = left.len().min(buf.len());
        buf[..count].copy_from_slice(&left[..count]);
        self.at = NAMES.len() - left.len() + count;
        Ok(count)
    }
}

// A runtime whose folders have these names.
#[derive(Clone, Drop)]
struct Folders {
    rt: HostRuntime,
    fails: bool,
}

fn refused<T>() -> io::Result<T> {
    Err(io::Error::from(ErrorKind::Other))
}

impl Alloc for Folders {
    type A = Global;

    fn alloc(&self) -> Global {
        self.rt.alloc()
    }
}

impl Files for Folders {
    type File = fs::File;

    type Dir = Names;

    fn open_file(&self, _how: &OpenOptions, _path: &str) -> io::Result<fs::File> {
        refused()
    }

    fn open_dir(&self, _path: &str) -> io::Result<Names> {
        Ok(Names {
            at: 0,
            fails: self.fails,
        })
    }

    fn metadata(&self, _path: &str) -> io::Result<Metadata> {
        refused()
    }

    fn symlink_metadata(&self, _path: &str) -> io::Result<Metadata> {
        refused()
    }

    fn copy(&self, _from: &str, _to: &str) -> io::Result<u64> {
        refused()
    }

    fn rename(&self, _from: &str, _to: &str) -> io::Result<()> {
        refused()
    }

    fn remove_file(&self, _path: &str) -> io::Result<()> {
        refused()
    }

    fn create_dir(&self, _path: &str) -> io::Result<()> {
        refused()
    }

    fn remove_dir(&self, _path: &str) -> io::Result<()> {
        refused()
    }

    fn remove_dir_all<B: Allocator>(&self, _alloc: B, _path: &str) -> io::Result<()> {
        refused()
    }
}

// How many names a folder lists, where it does.
fn listed(rt: HostRuntime, fails: bool) -> Result<usize, TreeError> {
    let folders = Folders { rt, fails };
    let mut tree = FsTree::new(&folders);
    let mut names = Vec::new(rt.alloc());
    tree.list("d", &mut names)?;
    Ok(names.len())
}

#[test]
fn a_folder_fails_within_its_names(rt: HostRuntime) -> Result<(), Fail> {
    let found = [listed(rt, false), listed(rt, true)];
    assert_eq!(rt; found, [Ok(2), Err(TreeError::Failed)]);
    Ok(())
}

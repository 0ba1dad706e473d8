// A tree in memory.
ghost use Rattle.std.specs.Prelude.{◌≡◌, ◌≢◌, List, ℕ, [], ◌∷◌, ◌++◌, IfOk, OnOk, OnErr, Some, MatchOption, position, option_map, string_bytes, map};
ghost use Rattle.std.specs.List.{cons_option};
ghost use Rattle.std.specs.Str.{bytes_eq};
ghost use Rattle.replay_base.specs.Files.{Lists, Reads, HasTreeCause, is_failed, is_name, path_in, name_in, names_in, put_file};
ghost use Rattle.replay_base.specs.Memory.{TreeState, called, is_listed};

use crate::{NoMemory, Tree, TreeError, TreeRead};
use std::alloc::{AllocError, Global};
use std::marker::Model;

#[derive(Drop)]
struct MemFile {
    path: String,
    bytes: Vec<u8>,
}

/// Files that are put, whose calls with the listed numbers fail. The calls of `list` and `read` together are numbered
/// from 1.
#[derive(Drop)]
pub struct MemTree {
    files: Vec<MemFile>,
    calls: u64,
    fails: Vec<u64>,
    faults: u64,
}

impl Model for MemTree {
    ghost use Rattle.std.specs.Prelude.{map, string_bytes};
    ghost use Rattle.replay_base.specs.Files.{File, PathsOnce};
    ghost use Rattle.replay_base.specs.Memory.{TreeState};

    ghost Value = { TreeState };

    ghost view = { λ t. record { files = map (λ f. record { path = string_bytes f.path; bytes = f.bytes.items }) t.files.items; calls = t.calls; fails = t.fails.items; faults = t.faults } };

    ghost invariant = { λ t. PathsOnce (map (λ f. record { path = string_bytes f.path; bytes = f.bytes.items }) t.files.items) };
}

// What stands behind a folder and a slash in a path.
fn below<'a>(folder: &str, path: &'a str) -> Option<&'a str>
    ensures { MatchOption result ((rest : List ℕ) → path.now ≢ path_in folder.now rest) (λ rest. path.now ≡ path_in folder.now rest.now) }
{
    path.strip_prefix(folder)?.strip_prefix('/')
}

// The name that a path has in a folder.
fn name_in<'a>(folder: &str, path: &'a str) -> Option<&'a str>
    ensures { option_map (λ name. name.now) result ≡ name_in folder.now path.now }
{
    let name = below(folder, path)?;
    if is_name(name) { Some(name) } else { None }
}

// Whether a text can be a name.
fn is_name(name: &str) -> bool
    ensures { result ≡ is_name name.now }
{
    !name.is_empty() && !name.as_bytes().contains(&b'/')
}

// Adds the name that a path has in a folder.
fn add_name(folder: &str, path: &str, out: &mut Vec<String>) -> Result<(), AllocError>
    ensures { OnOk result (map string_bytes out.new.items ≡ map string_bytes out.old.items ++ cons_option (name_in folder.now path.now) []) }
{
    if let Some(name) = name_in(folder, path) {
        let name = String::from_str(*out.allocator(), name)?;
        out.push(name)?;
    }
    Ok(())
}

// Where the file with a path stands.
fn place_of(files: &[MemFile], path: &str) -> Option<usize>
    ensures { result ≡ position (λ f. bytes_eq (string_bytes f.path) path.now) files.now }
{
    files.iter().position(|file| file.path.as_str() == path)
}

impl MemTree {
    pub fn new(alloc: Global) -> MemTree
        ensures { result ≡ record { files = []; calls = 0; fails = []; faults = 0 } }
    {
        MemTree {
            files: Vec::new(alloc),
            calls: 0,
            fails: Vec::new(alloc),
            faults: 0,
        }
    }

    /// Puts a file, in the place of one with its path.
    pub fn put(&mut self, path: &str, bytes: &[u8]) -> Result<(), NoMemory>
        ensures put { OnOk result (self.new ≡ record self.old { files = put_file self.old.files path.now bytes.now }) }
        ensures kept { OnErr result (self.new ≡ self.old) }
    {
        let alloc = *self.files.allocator();
        let path_kept = String::from_str(alloc, path)?;
        let bytes = Vec::from_slice(alloc, bytes)?;
        match place_of(&self.files, path) {
            Some(at) => self.files[at].bytes = bytes,
            None => self.files.push(MemFile {
                path: path_kept,
                bytes,
            })?,
        }
        Ok(())
    }

    /// Lets the call with this number fail, counted from the first call of `list` or `read`.
    pub fn fail_at(&mut self, call: u64) -> Result<(), NoMemory>
        ensures listed { OnOk result (self.new ≡ record self.old { fails = self.old.fails ++ call ∷ [] }) }
        ensures kept { OnErr result (self.new ≡ self.old) }
    {
        self.fails.push(call)?;
        Ok(())
    }

    // Counts a call, and its fault where it is to fail.
    fn step(&mut self) -> Result<(), TreeError>
        ensures counted { self.new ≡ called self.old }
        ensures fails { is_failed result ≡ is_listed self.old.fails self.old.calls }
        ensures cause { HasTreeCause self.old.faults self.new.faults result }
    {
        self.calls = self.calls.saturating_add(1);
        if self.fails.contains(&self.calls) {
            self.faults = self.faults.saturating_add(1);
            return Err(TreeError::Failed);
        }
        Ok(())
    }

    // Adds the names in a folder.
    fn add_names(&self, folder: &str, out: &mut Vec<String>) -> Result<(), AllocError>
        ensures { OnOk result (map string_bytes out.new.items ≡ map string_bytes out.old.items ++ names_in self.now.files folder.now) }
    {
        for file in &self.files {
            add_name(folder, file.path.as_str(), out)?;
        }
        Ok(())
    }
}

impl Tree for MemTree {
    ghost files = { λ t. Some t.files };

    ghost faults = { λ t. t.faults };

    fn list(&mut self, folder: &str, out: &mut Vec<String>) -> Result<(), TreeError>
        ensures names { OnOk result (Lists (Some self.old.files) folder.now (map string_bytes out.new.items)) }
        ensures same { Some self.new.files ≡ Some self.old.files }
        ensures cause { HasTreeCause self.old.faults self.new.faults result }
        ensures counted { self.new ≡ called self.old }
        ensures fails { is_failed result ≡ is_listed self.old.fails self.old.calls }
    {
        out.clear();
        self.step()?;
        self.add_names(folder, out)?;
        Ok(())
    }

    fn read(&mut self, path: &str, max: usize, out: &mut Vec<u8>) -> Result<TreeRead, TreeError>
        ensures bytes { IfOk result (λ answer. Reads (Some self.old.files) path.now max answer out.new.items) }
        ensures same { Some self.new.files ≡ Some self.old.files }
        ensures cause { HasTreeCause self.old.faults self.new.faults result }
        ensures counted { self.new ≡ called self.old }
        ensures fails { is_failed result ≡ is_listed self.old.fails self.old.calls }
    {
        out.clear();
        self.step()?;
        let Some(at) = place_of(&self.files, path) else {
            return Ok(TreeRead::Absent);
        };
        let bytes = &self.files[at].bytes;
        if bytes.len() > max {
            return Ok(TreeRead::TooLarge);
        }
        out.extend_from_slice(bytes)?;
        Ok(TreeRead::Data)
    }
}

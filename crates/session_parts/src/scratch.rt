// The lists that the steps of a call fill, and those of the next one fill again.
ghost use Rattle.std.specs.Prelude.{◌≡◌, ◌≤◌, ℕ, Some, length, map, slice_get, vec_capacity, IsOk, OnOk};
ghost use Rattle.session_parts.specs.Scratch.{HoldsCalls, KeepLists, KeepsScratch, scratch_room};

use object_model::Argument;
use replay_model::Born;
use std::alloc::{AllocError, Global};

// A call has six parameters at most.
const PARAMETERS: usize = 6;

/// What the steps of a call fill: a list for the arguments of each parameter, the handles of one parameter, and the results that are born.
#[derive(Drop)]
pub(crate) struct Scratch {
    pub(crate) args: Vec<Vec<Argument>>,
    pub(crate) handles: Vec<u64>,
    pub(crate) born: Vec<Born>,
}

impl Scratch {
    /// No lists yet. Takes no memory.
    pub(crate) fn new(alloc: Global) -> Scratch {
        Scratch {
            args: Vec::new(alloc),
            handles: Vec::new(alloc),
            born: Vec::new(alloc),
        }
    }

    /// Makes room for calls with so many arguments at each parameter, and so many results.
    pub(crate) fn reserve(&mut self, args: usize, results: usize) -> Result<(), AllocError>
        ensures ok { OnOk result (HoldsCalls args results (scratch_room self.new)) }
        ensures room { KeepsScratch (scratch_room self.old) (scratch_room self.new) }
    {
        self.handles.clear();
        self.handles.reserve(args)?;
        self.born.clear();
        self.born.reserve(results)?;
        add_lists(PARAMETERS, &mut self.args)?;
        widen(args, &mut self.args)
    }
}

// Adds lists up to so many.
pub(crate) fn add_lists(count: usize, all: &mut Vec<Vec<Argument>>) -> Result<(), AllocError>
    ensures count { OnOk result (count ≤ length all.new.items) }
    ensures room { KeepLists (map (λ v. vec_capacity v) all.old.items) (map (λ v. vec_capacity v) all.new.items) }
    ensures succeeds { count ≤ length all.old.items → IsOk result }
{
    let alloc = *all.allocator();
    while all.len() < count {
        all.push(Vec::new(alloc))?;
    }
    Ok(())
}

// A list can hold so many. What it held is gone.
fn widen_one(n: usize, places: &mut Vec<Argument>) -> Result<(), AllocError>
    ensures wide { OnOk result (n ≤ vec_capacity places.new) }
    ensures room { vec_capacity places.old ≤ vec_capacity places.new }
{
    places.clear();
    places.reserve(n)
}

// Each list can hold so many.
fn widen(n: usize, all: &mut Vec<Vec<Argument>>) -> Result<(), AllocError>
    ensures count { length all.new.items ≡ length all.old.items }
    ensures wide { OnOk result ((i : ℕ) (m : ℕ) → slice_get (map (λ v. vec_capacity v) all.new.items) i ≡ Some m → n ≤ m) }
    ensures room { KeepLists (map (λ v. vec_capacity v) all.old.items) (map (λ v. vec_capacity v) all.new.items) }
{
    for k in 0..all.len() {
        widen_one(n, &mut all[k])?;
    }
    Ok(())
}

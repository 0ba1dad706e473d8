//! The handles of a call.
ghost use Rattle.std.specs.Prelude.{◌≡◌, ◌≤◌, ◌<◌, ◌+◌, ◌^◌, ◌++◌, ◌∷◌, [], ℕ, length, map, sum, take, replicate, true, false, slice_index, slice_index_or, IfOk, IsOk, OnOk, OnErr};
ghost use Rattle.command_tables.specs.Handles.{HasMarks, HasPlace, HasRoom, count_in, cut, list_at, put};

use crate::memory::{NoMemory, make_room, refill};
use std::alloc::Global;
use std::marker::Model;

/// The handles of a call with at most `P` parameters: a list of handles for each parameter, and a mark beside each handle
/// which says that the name it was written with is not born yet. Contracts see besides how much can be held with no
/// further memory.
#[derive(Debug)]
pub struct HandleArgs<const P: usize> {
    lengths: Vec<usize>,
    handles: Vec<u64>,
    unborn: Vec<bool>,
}

impl<const P: usize> Drop for HandleArgs<P> {
    fn drop(self) {
        let HandleArgs {
            lengths: _lengths,
            handles: _handles,
            unborn: _unborn,
        } = self;
    }
}

impl<const P: usize> Model for HandleArgs<P> {
    ghost use Rattle.std.specs.Prelude.{min, vec_capacity};
    ghost use Rattle.command_tables.specs.Handles.{Handles, AreWhole, cut};

    ghost Value = { Handles };

    ghost view = { λ a. record { lists = cut a.lengths.items a.handles.items; marks = cut a.lengths.items a.unborn.items; slots = vec_capacity a.lengths; room = min (vec_capacity a.handles) (vec_capacity a.unborn) } };

    ghost invariant = { λ a. AreWhole P a.lengths.items a.handles.items a.unborn.items };
}

// The sum of lengths.
fn sum_of(lengths: &[usize]) -> usize
    requires { sum lengths.now < 2 ^ 64 }
    ensures { result ≡ sum lengths.now }
{
    lengths.iter().sum()
}

// The place at which a parameter's handles begin.
#[tactic(auto, using(crate::proofs::Cut::sum_of_part))]
fn start_of(lengths: &[usize], p: usize) -> usize
    requires within { p ≤ length lengths.now }
    requires fits { sum lengths.now < 2 ^ 64 }
    ensures { result ≡ sum (take p lengths.now) }
{
    sum_of(&lengths[..p])
}

// The place of a parameter's k-th handle.
#[tactic(auto, using(crate::proofs::Cut::end_of_piece))]
fn place_of(lengths: &[usize], p: usize, k: usize) -> usize
    requires param { p < length lengths.now }
    requires place { k < slice_index lengths.now p }
    requires fits { sum lengths.now < 2 ^ 64 }
    ensures value { result ≡ sum (take p lengths.now) + k }
    ensures within { result < sum lengths.now }
{
    start_of(lengths, p) + k
}

// A parameter's handles.
#[tactic(auto, using(crate::proofs::Cut::end_of_piece, crate::proofs::Cut::list_at_cut))]
fn piece_of<'a>(lengths: &[usize], handles: &'a [u64], p: usize) -> &'a [u64]
    requires param { p < length lengths.now }
    requires whole { sum lengths.now ≡ length handles.now }
    ensures { result.now ≡ list_at (cut lengths.now handles.now) p }
{
    let start = start_of(lengths, p);
    let end = start + lengths[p];
    &handles[start..end]
}

impl<const P: usize> HandleArgs<P> {
    /// No parameters.
    pub fn new(alloc: Global) -> HandleArgs<P>
        ensures lists { result.lists ≡ [] }
        ensures marks { result.marks ≡ [] }
    {
        HandleArgs {
            lengths: Vec::new(alloc),
            handles: Vec::new(alloc),
            unborn: Vec::new(alloc),
        }
    }

    /// No parameters, and room for `P` of them with so many handles in all.
    pub fn with_room(alloc: Global, handles: usize) -> Result<HandleArgs<P>, NoMemory>
        ensures lists { IfOk result (λ args. args.lists ≡ []) }
        ensures marks { IfOk result (λ args. args.marks ≡ []) }
        ensures room { IfOk result (λ args. HasRoom args P handles) }
    {
        let lengths = Vec::with_capacity(alloc, P)?;
        let places = Vec::with_capacity(alloc, handles)?;
        let unborn = Vec::with_capacity(alloc, handles)?;
        Ok(HandleArgs {
            lengths,
            handles: places,
            unborn,
        })
    }

    /// The number of parameters. There is one mark beside each handle.
    #[tactic(auto, using(crate::proofs::Cut::length_cut))]
    pub fn len(&self) -> usize
        ensures count { result ≡ length self.now.lists }
        ensures limit { result ≤ P }
        ensures marks { HasMarks self.now }
    {
        self.lengths.len()
    }

    /// Takes all parameters away and keeps the memory.
    pub fn clear(&mut self)
        ensures lists { self.new.lists ≡ [] }
        ensures marks { self.new.marks ≡ [] }
        ensures room { HasRoom self.new self.old.slots self.old.room }
    {
        self.lengths.clear();
        self.handles.clear();
        self.unborn.clear();
    }

    /// Adds a parameter with these handles behind the others, none of them marked. After `NoMemory` the lists and marks are
    /// as before; it comes only where there was no room.
    pub fn push_param(&mut self, handles: &[u64]) -> Result<(), NoMemory>
        requires { length self.old.lists < P }
        ensures lists { OnOk result (self.new.lists ≡ self.old.lists ++ handles.now ∷ []) }
        ensures marks { OnOk result (self.new.marks ≡ self.old.marks ++ replicate (length handles.now) false ∷ []) }
        ensures err_lists { OnErr result (self.new.lists ≡ self.old.lists) }
        ensures err_marks { OnErr result (self.new.marks ≡ self.old.marks) }
        ensures succeeds { HasRoom self.old (length self.old.lists + 1) (count_in self.old.lists + length handles.now) → IsOk result }
        ensures room { HasRoom self.new self.old.slots self.old.room }
    {
        self.lengths.reserve(1)?;
        self.handles.reserve(handles.len())?;
        self.unborn.reserve(handles.len())?;
        self.lengths.push(handles.len())?;
        self.handles.extend_from_slice(handles)?;
        self.unborn.resize(self.handles.len(), false)?;
        Ok(())
    }

    /// The handles of a parameter, from 0.
    pub fn param(&self, p: usize) -> &[u64]
        requires { p < length self.now.lists }
        ensures { result.now ≡ list_at self.now.lists p }
    {
        piece_of(&self.lengths, &self.handles, p)
    }

    /// Puts a handle at a place of a parameter's list, both from 0. The mark there stays.
    pub fn set(&mut self, p: usize, k: usize, value: u64)
        requires { HasPlace self.old.lists p k }
        ensures lists { self.new.lists ≡ put self.old.lists p k value }
        ensures marks { self.new.marks ≡ self.old.marks }
        ensures room { HasRoom self.new self.old.slots self.old.room }
    {
        let at = place_of(&self.lengths, p, k);
        self.handles[at] = value;
    }

    /// Marks a place as written with a name that is not born yet. The handle there stays.
    pub fn mark_unborn(&mut self, p: usize, k: usize)
        requires { HasPlace self.old.lists p k }
        ensures lists { self.new.lists ≡ self.old.lists }
        ensures marks { self.new.marks ≡ put self.old.marks p k true }
        ensures room { HasRoom self.new self.old.slots self.old.room }
    {
        let at = place_of(&self.lengths, p, k);
        self.unborn[at] = true;
    }

    /// Whether a place is marked as written with a name that is not born yet.
    pub fn unborn(&self, p: usize, k: usize) -> bool
        requires { HasPlace self.now.lists p k }
        ensures { result ≡ slice_index_or (list_at self.now.marks p) k false }
    {
        let at = place_of(&self.lengths, p, k);
        self.unborn[at]
    }

    /// Takes the parameters, handles and marks of another call. After `NoMemory` the lists and marks are as before; it comes
    /// only where there was no room.
    pub fn copy_from(&mut self, other: &HandleArgs<P>) -> Result<(), NoMemory>
        ensures lists { OnOk result (self.new.lists ≡ other.now.lists) }
        ensures marks { OnOk result (self.new.marks ≡ other.now.marks) }
        ensures err_lists { OnErr result (self.new.lists ≡ self.old.lists) }
        ensures err_marks { OnErr result (self.new.marks ≡ self.old.marks) }
        ensures succeeds { HasRoom self.old (length other.now.lists) (count_in other.now.lists) → IsOk result }
        ensures room { HasRoom self.new self.old.slots self.old.room }
    {
        make_room(&mut self.lengths, other.lengths.len())?;
        make_room(&mut self.handles, other.handles.len())?;
        make_room(&mut self.unborn, other.unborn.len())?;
        refill(&mut self.lengths, &other.lengths)?;
        refill(&mut self.handles, &other.handles)?;
        refill(&mut self.unborn, &other.unborn)?;
        Ok(())
    }
}

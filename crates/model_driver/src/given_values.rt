//! What one driver of a chain has given, and what has come back.
ghost use Rattle.std.specs.Prelude.{◌≡◌, ◌<◌, ◌≤◌, ◌+◌, ◌++◌, ℕ, [], length, is_some, IfOk, OnOk, OnErr, vec_capacity};
ghost use Rattle.std.specs.BinaryHeap.{heap_capacity, heap_items, heap_len};
ghost use Rattle.model_driver.specs.Books.{HasHeapRoom, IsBook, HasBook};
ghost use Rattle.model_driver.specs.Policies.{after_giving, gives_again, least_not_out, next_value, values_given, with_all_back, with_back, with_given};

use crate::driver::Policy;
use command_tables::NoMemory;
use std::alloc::Global;
use std::cmp::Reverse;
use std::collections::BinaryHeap;
use std::marker::Model;

/// The values that a driver has given, from 1 on. Each takes its memory when it is first given, so that none is needed
/// when it comes back. Only the first call after `Fresh` takes memory once more, for all values given so far.
pub struct GivenValues {
    driver: u32,
    // Of each value whether it has come back, and where values are given again those that have, the least first.
    back: Vec<bool>,
    free: Option<BinaryHeap<Reverse<u64>>>,
}

impl Drop for GivenValues {
    fn drop(self) {
        let GivenValues {
            driver: _driver,
            back: _back,
            free: _free,
        } = self;
    }
}

impl Model for GivenValues {
    ghost use Rattle.std.specs.Prelude.{length};
    ghost use Rattle.model_driver.specs.GivenValues.{GivenState};
    ghost use Rattle.model_driver.specs.Books.{HasHeapRoom, HasBook};

    ghost Value = { GivenState };

    ghost view = { λ s. record { driver = s.driver; back = s.back.items } };

    ghost invariant = { λ s. HasBook s.back.items s.free × HasHeapRoom s.free (length s.back.items) };
}

// A value that was never given.
fn give_new(back: &mut Vec<bool>) -> u64
    requires { length back.old.items < vec_capacity back.old }
    ensures value { result ≡ length back.old.items + 1 }
    ensures back { back.new.items ≡ with_given back.old.items result }
    ensures length { length back.new.items ≤ length back.old.items + 1 }
    ensures capacity { vec_capacity back.old ≤ vec_capacity back.new }
{
    back.push(false).unwrap();
    back.len() as u64
}

// The least value that is not out.
fn give_least(back: &mut Vec<bool>, free: &mut BinaryHeap<Reverse<u64>>) -> u64
    requires book { IsBook back.old.items (heap_items free.old) (heap_len free.old) }
    requires room { length back.old.items < vec_capacity back.old }
    ensures value { result ≡ least_not_out back.old.items }
    ensures back { back.new.items ≡ with_given back.old.items result }
    ensures length { length back.new.items ≤ length back.old.items + 1 }
    ensures book { IsBook back.new.items (heap_items free.new) (heap_len free.new) }
    ensures capacity { vec_capacity back.old ≤ vec_capacity back.new }
    ensures free { heap_capacity free.new ≡ heap_capacity free.old }
{
    match free.pop() {
        Some(Reverse(value)) => {
            back[value as usize - 1] = false;
            value
        }
        None => give_new(back),
    }
}

// Where 1 is not out it is the least value that is not.
fn give_by(policy: Policy, back: &mut Vec<bool>, free: &mut BinaryHeap<Reverse<u64>>) -> u64
    requires book { IsBook back.old.items (heap_items free.old) (heap_len free.old) }
    requires room { length back.old.items < vec_capacity back.old }
    ensures value { result ≡ next_value policy back.old.items }
    ensures back { back.new.items ≡ with_given back.old.items result }
    ensures length { length back.new.items ≤ length back.old.items + 1 }
    ensures book { IsBook back.new.items (heap_items free.new) (heap_len free.new) }
    ensures capacity { vec_capacity back.old ≤ vec_capacity back.new }
    ensures free { heap_capacity free.new ≡ heap_capacity free.old }
{
    match policy {
        Policy::Fresh => give_new(back),
        Policy::Reuse => give_least(back, free),
        Policy::Share => {
            if !back.is_empty() && !back[0] {
                1
            } else {
                give_least(back, free)
            }
        }
    }
}

// With no heap only new values are given.
fn give_one(
    policy: Policy,
    back: &mut Vec<bool>,
    free: &mut Option<BinaryHeap<Reverse<u64>>>,
) -> u64
    requires heap { is_some free.old ≡ gives_again policy }
    requires book { HasBook back.old.items free.old }
    requires room { length back.old.items < vec_capacity back.old }
    ensures value { result ≡ next_value policy back.old.items }
    ensures back { back.new.items ≡ with_given back.old.items result }
    ensures length { length back.new.items ≤ length back.old.items + 1 }
    ensures heap { is_some free.new ≡ is_some free.old }
    ensures book { HasBook back.new.items free.new }
    ensures capacity { vec_capacity back.old ≤ vec_capacity back.new }
    ensures free { (room : ℕ) → HasHeapRoom free.old room → HasHeapRoom free.new room }
{
    match free {
        Some(free) => give_by(policy, back, free),
        None => give_new(back),
    }
}

// A value comes back.
fn take_back_one(back: &mut Vec<bool>, free: &mut Option<BinaryHeap<Reverse<u64>>>, value: u64)
    requires book { HasBook back.old.items free.old }
    requires room { HasHeapRoom free.old (length back.old.items) }
    ensures back { back.new.items ≡ with_back back.old.items value }
    ensures heap { is_some free.new ≡ is_some free.old }
    ensures book { HasBook back.new.items free.new }
    ensures length { length back.new.items ≡ length back.old.items }
    ensures room { vec_capacity back.new ≡ vec_capacity back.old }
    ensures free { (room : ℕ) → HasHeapRoom free.old room → HasHeapRoom free.new room }
{
    if value != 0 && value <= back.len() as u64 && !back[value as usize - 1] {
        back[value as usize - 1] = true;
        if let Some(free) = free {
            free.push(Reverse(value)).unwrap();
        }
    }
}

/// These values come back; nulls and values that were never given are no matter.
pub fn take_back(back: &mut Vec<bool>, free: &mut Option<BinaryHeap<Reverse<u64>>>, values: &[u64])
    requires book { HasBook back.old.items free.old }
    requires room { HasHeapRoom free.old (length back.old.items) }
    ensures back { back.new.items ≡ with_all_back back.old.items values.now }
    ensures heap { is_some free.new ≡ is_some free.old }
    ensures book { HasBook back.new.items free.new }
    ensures length { length back.new.items ≡ length back.old.items }
    ensures room { vec_capacity back.new ≡ vec_capacity back.old }
    ensures free { (room : ℕ) → HasHeapRoom free.old room → HasHeapRoom free.new room }
{
    for value in values {
        take_back_one(back, free, *value);
    }
}

/// Adds so many values to the handles, one after another.
pub fn give(
    policy: Policy,
    back: &mut Vec<bool>,
    free: &mut Option<BinaryHeap<Reverse<u64>>>,
    count: usize,
    handles: &mut Vec<u64>,
)
    requires heap { is_some free.old ≡ gives_again policy }
    requires book { HasBook back.old.items free.old }
    requires room { length back.old.items + count ≤ vec_capacity back.old }
    requires handles { length handles.old.items + count ≤ vec_capacity handles.old }
    ensures handles { handles.new.items ≡ handles.old.items ++ values_given policy back.old.items count }
    ensures back { back.new.items ≡ after_giving policy back.old.items count }
    ensures heap { is_some free.new ≡ is_some free.old }
    ensures book { HasBook back.new.items free.new }
    ensures length { length back.new.items ≤ length back.old.items + count }
    ensures capacity { vec_capacity back.old ≤ vec_capacity back.new }
    ensures free { (room : ℕ) → HasHeapRoom free.old room → HasHeapRoom free.new room }
    ensures room { vec_capacity handles.old ≤ vec_capacity handles.new }
{
    for _turn in 0..count {
        let value = give_one(policy, back, free);
        handles.push(value).unwrap();
    }
}

// The values that have come back, the least first.
fn heap_of(alloc: Global, back: &[bool]) -> Result<BinaryHeap<Reverse<u64>>, NoMemory>
    ensures book { IfOk result (λ free. IsBook back.now (heap_items free) (heap_len free)) }
    ensures room { IfOk result (λ free. length back.now ≤ heap_capacity free) }
{
    let mut free = BinaryHeap::with_capacity(alloc, back.len())?;
    for place in 0..back.len() {
        if back[place] {
            free.push(Reverse(place as u64 + 1)).unwrap();
        }
    }
    Ok(free)
}

/// Keeps a heap just where the policy gives values again. After `NoMemory` there is none still.
pub fn keep_heap(
    alloc: Global,
    policy: Policy,
    back: &[bool],
    free: &mut Option<BinaryHeap<Reverse<u64>>>,
) -> Result<(), NoMemory>
    requires book { HasBook back.now free.old }
    requires room { HasHeapRoom free.old (length back.now) }
    ensures heap { OnOk result (is_some free.new ≡ gives_again policy) }
    ensures book { HasBook back.now free.new }
    ensures room { HasHeapRoom free.new (length back.now) }
{
    match policy {
        Policy::Fresh => *free = None,
        Policy::Reuse | Policy::Share => {
            if free.is_none() {
                *free = Some(heap_of(alloc, back)?);
            }
        }
    }
    Ok(())
}

/// Makes room for so many values more. Even after `NoMemory` no room is lost.
pub fn make_room(
    back: &mut Vec<bool>,
    free: &mut Option<BinaryHeap<Reverse<u64>>>,
    count: usize,
) -> Result<(), NoMemory>
    ensures values { back.new.items ≡ back.old.items }
    ensures heap { is_some free.new ≡ is_some free.old }
    ensures book { HasBook back.old.items free.old → HasBook back.new.items free.new }
    ensures room { OnOk result (length back.new.items + count ≤ vec_capacity back.new) }
    ensures within { OnOk result (HasHeapRoom free.new (length back.new.items + count)) }
    ensures capacity { vec_capacity back.old ≤ vec_capacity back.new }
    ensures capacity_free { (room : ℕ) → HasHeapRoom free.old room → HasHeapRoom free.new room }
{
    back.reserve(count)?;
    let values = back.len() + count;
    if let Some(free) = free {
        free.reserve(values.saturating_sub(free.len()))?;
    }
    Ok(())
}

impl GivenValues {
    pub fn new(alloc: Global, driver: u32) -> GivenValues
        ensures { result ≡ record { driver = driver; back = [] } }
    {
        GivenValues {
            driver,
            back: Vec::new(alloc),
            free: None,
        }
    }

    pub fn driver(&self) -> u32
        ensures { result ≡ self.now.driver }
    {
        self.driver
    }

    /// These values come back, where nulls and values that it never gave are no matter, and then so many are given. After
    /// `NoMemory` anything stands in `handles`.
    pub fn serve(
        &mut self,
        policy: Policy,
        ended: &[u64],
        count: u32,
        handles: &mut Vec<u64>,
    ) -> Result<(), NoMemory>
        ensures handles { OnOk result (handles.new.items ≡ values_given policy (with_all_back self.old.back ended.now) count) }
        ensures ok { OnOk result (self.new ≡ record self.old { back = after_giving policy (with_all_back self.old.back ended.now) count }) }
        ensures err { OnErr result (self.new ≡ self.old) }
    {
        let most = count as usize;
        handles.clear();
        handles.reserve(most)?;
        let alloc = *self.back.allocator();
        keep_heap(alloc, policy, &self.back, &mut self.free)?;
        make_room(&mut self.back, &mut self.free, most)?;
        take_back(&mut self.back, &mut self.free, ended);
        give(policy, &mut self.back, &mut self.free, most, handles);
        Ok(())
    }
}

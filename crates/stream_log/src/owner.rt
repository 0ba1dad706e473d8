//! The one that appends to a log.
ghost use Rattle.std.specs.Prelude.{◌≡◌, ◌+◌, ◌*◌, ◌^◌, ◌<◌, ◌≤◌, ℕ, [], ◌∷◌, length, take, Contains};
ghost use Rattle.atomic_table.specs.Seated.{TableId};
ghost use Rattle.stream_log.specs.Log.{OwnerView, SeenView, seen_view, appended, given, taken, last_time, line, IsPast};
ghost use Rattle.stream_log.specs.LogRule.{Place, Desk, IsWriting, written, grown, mark_of, IsHolding, less, token_of};

use crate::device_log::DeviceLog;
use crate::growth_rule::{Compares, Gives, Grows, Takes, Whose, Writes};
use crate::place::Place;
use crate::seen::Seen;
use atomic_table::Seat;
use std::marker::{Brand, Model};

/// The one that appends. Contracts see the log, its list, the threads whose tokens the owner holds, and for how many entries and
/// results there is room.
#[derive(Drop)]
pub struct Owner {
    pub(crate) seat: Seat<(), Place>,
    pub(crate) used: usize,
    pub(crate) entries: u32,
    pub(crate) results: u32,
    pub(crate) last: u64,
}

impl Model for Owner {
    ghost use Rattle.stream_log.specs.Log.{OwnerView};

    ghost Value = { OwnerView };

    ghost use Rattle.stream_log.specs.LogOwner.{view_of, IsAtRest};

    ghost view = { view_of };

    ghost invariant = { IsAtRest };
}

// The word that ends an entry: the thread in the low 32 bits, then whether a call begins, then how many results there are.
fn mark(thread: u32, begins: bool, count: usize) -> u64
    requires { count < 2 ^ 31 }
    ensures { result ≡ mark_of thread begins count }
{
    let flag = if begins { 1 } else { 0 };
    u64::from(thread) + (flag + 2 * (count as u64)) * 0x1_0000_0000
}

// Stores words behind what the owner has stored.
fn write(log: &DeviceLog, seat: &mut Seat<(), Place>, at: usize, words: &[u64])
    requires log { seat.old.table_id ≡ log.now }
    requires at { IsWriting at seat.old.me.0 }
    requires room { at + length words.now ≤ log.now.words }
    ensures same { (seat.new.table_id ≡ seat.old.table_id) × (seat.new.id ≡ seat.old.id) }
    ensures written { seat.new.me ≡ (written seat.old.me.0 words.now, seat.old.me.1) }
{
    let mut i = 0;
    while i < words.len() {
        log.table.shared.store::<Writes>(seat, at + i, words[i]);
        i += 1;
    }
}

// Cuts the token of a thread off the owner's seat.
fn give_to<M: Whose>(log: &DeviceLog, seat: &mut Seat<(), Place>, thread: u32) -> Seat<(), Place>
    requires log { (seat.old.table_id ≡ log.now) × (0 < log.now.words) }
    requires thread { M.thread ≡ thread }
    requires holds { IsHolding thread seat.old.me.0 }
    ensures given { (result.table_id ≡ log.now) × (result.me ≡ (token_of thread seat.old.me.0, [])) }
    ensures kept { (seat.new.table_id ≡ seat.old.table_id) × (seat.new.id ≡ seat.old.id) × (seat.new.me ≡ (less thread seat.old.me.0, seat.old.me.1)) }
{
    log.table.shared.split_seat::<Gives<M>>(seat)
}

impl Owner {
    /// Adds an entry of a thread whose token the owner holds, at a time above the last one's. It takes no memory.
    pub fn append(&mut self, log: &DeviceLog, thread: u32, time: u64, begins: bool, results: &[u64])
        requires log { self.old.log ≡ log.now }
        requires held { Contains self.old.held thread }
        requires room { (0 < self.old.entries) × (length results.now ≤ self.old.results) }
        requires time { last_time self.old.list < time }
        ensures { self.new ≡ appended self.old (line thread time begins results.now) }
    {
        let at = self.used;
        write(log, &mut self.seat, at, &[time]);
        write(log, &mut self.seat, at + 1, results);
        let end = at + 1 + results.len();
        let word = mark(thread, begins, results.len());
        // the entry counts from here on, at once
        log.table.shared.store::<Grows>(&mut self.seat, end, word);
        self.used = end + 1;
        self.entries -= 1;
        self.results -= results.len() as u32;
        self.last = time;
    }

    /// Gives the token of a thread, with the list as it is. It takes no memory.
    pub fn give(&mut self, log: &DeviceLog, thread: u32) -> Seen
        requires log { self.old.log ≡ log.now }
        requires held { Contains self.old.held thread }
        ensures token { result ≡ seen_view log.now thread self.old.list }
        ensures owner { self.new ≡ given self.old thread }
    {
        let seat = give_to::<Brand>(log, &mut self.seat, thread);
        Seen { seat }
    }

    /// Takes a token back. Its list is a beginning of the owner's, and no later entry is of its thread. It takes no memory.
    pub fn take(&mut self, log: &DeviceLog, seen: Seen)
        requires log { (self.old.log ≡ log.now) × (seen.log ≡ log.now) }
        ensures owner { self.new ≡ taken self.old seen.thread }
        ensures past { IsPast seen.thread seen.list self.old.list }
    {
        let Seen { seat } = seen;
        log.table.shared.join_seat::<Takes>(&mut self.seat, seat);
        log.table.shared.load::<Compares>(&mut self.seat, 0);
    }

    /// For how many more entries and results there is room.
    pub fn room(&self) -> (u32, u32)
        ensures { result ≡ (self.now.entries, self.now.results) }
    {
        (self.entries, self.results)
    }

    /// The time of the last entry, and 0 where there is none.
    pub fn last_time(&self) -> u64
        ensures { result ≡ last_time self.now.list }
    {
        self.last
    }
}

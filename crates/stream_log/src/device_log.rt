//! A log that only grows.
ghost use Rattle.std.specs.Prelude.{◌≡◌, ◌+◌, ◌*◌, ◌^◌, ◌<◌, ◌≤◌, ℕ, [], length, take, drop, map, reverse, nat_eq, IfOk};
ghost use Rattle.std.specs.List.{IsDistinct};
ghost use Rattle.std.specs.Mem.Slots.{slots_items, slots_len, IsFull};
ghost use Rattle.atomic_table.specs.Seated.{TableId};
ghost use Rattle.stream_log.specs.Log.{owner_view, line_of, RisesFrom};
ghost use Rattle.stream_log.specs.LogRule.{newcomer, IsCoded};

use crate::entry::Entry;
use crate::growth_rule::Growing;
use crate::log_key::LogKey;
use crate::memory::NoMemory;
use crate::owner::Owner;
use crate::place::Place;
use atomic_table::{Closed, Seat, Table};
use std::alloc::{AllocError, Global};
use std::marker::Model;

/// A list of entries that threads share and that only grows, in words that were all had when it was made: two for each entry and
/// one for each result. Contracts see which log it is.
#[derive(Drop)]
pub struct DeviceLog {
    pub(crate) table: Table<(), Place, LogKey, Growing, Global>,
}

impl Model for DeviceLog {
    ghost use Rattle.std.specs.Prelude.{◌≡◌, ◌^◌, ◌<◌};
    ghost use Rattle.atomic_table.specs.Seated.{TableId, table_id_coded};

    ghost Value = { TableId };

    ghost coded = { table_id_coded };

    ghost view = { λ l. l.table.shared.table_id };

    ghost invariant = { λ l. (l.table.shared.key.size ≡ l.table.shared.table_id.words) × (l.table.shared.table_id.slots ≡ 0) × (l.table.shared.table_id.words < 2 ^ 34) };
}

impl DeviceLog {
    /// An empty log with room for so many entries and results, whose owner holds the token of each thread. `NoMemory` comes where
    /// the log's words can't be had, which are always too many from 2^31 results on.
    pub fn new(
        alloc: Global,
        entries: u32,
        results: u32,
        threads: &[u32],
    ) -> Result<(DeviceLog, Owner), NoMemory>
        requires { IsDistinct nat_eq threads.now }
        ensures { IfOk result (λ r. r.1 ≡ owner_view r.0 [] threads.now entries results) }
    {
        if results >= 0x8000_0000 {
            return Err(NoMemory);
        }
        // one word more than the entries need, so that an empty log has a word too
        let size = 2 * (entries as usize) + results as usize + 1;
        let Ok((table, seat)) = open(alloc, size, threads) else {
            return Err(NoMemory);
        };
        let owner = Owner {
            seat,
            used: 0,
            entries,
            results,
            last: 0,
        };
        Ok((DeviceLog { table }, owner))
    }

    /// The owner's list, the first entry first, whose times rise from above 0. `NoMemory` comes where the list can't be had; the
    /// log is then gone.
    pub fn close(self, alloc: Global, owner: Owner) -> Result<Vec<Entry>, NoMemory>
        requires { owner.log ≡ self }
        ensures entries { IfOk result (λ v. map line_of v.items ≡ owner.list) }
        ensures rises { IfOk result (λ _. RisesFrom 0 owner.list) }
    {
        let DeviceLog { table } = self;
        let Owner {
            seat,
            used,
            entries: _,
            results: _,
            last: _,
        } = owner;
        let closed = table.close_with(seat);
        let read = read_back(alloc, &closed, used);
        closed.free();
        let Ok(mut entries) = read else {
            return Err(NoMemory);
        };
        entries.reverse();
        Ok(entries)
    }
}

// A table of so many words, all 0, with the owner's seat.
fn open(
    alloc: Global,
    size: usize,
    threads: &[u32],
) -> Result<(Table<(), Place, LogKey, Growing, Global>, Seat<(), Place>), AllocError>
    ensures { IfOk result (λ r. (r.1.table_id ≡ r.0.shared.table_id) × (r.0.shared.table_id.words ≡ size) × (r.0.shared.table_id.slots ≡ 0) × (r.0.shared.key.size ≡ size) × (r.1.me ≡ (newcomer threads.now, []))) }
{
    let mut key = LogKey {
        size,
        threads: Vec::new(alloc),
    };
    key.threads.extend_from_slice(threads)?;
    let words = vec![in alloc; 0u64; size]?;
    Ok(Table::of_words(alloc, words.as_slice(), &key)?)
}

// So many words, from one on.
fn read_words(
    alloc: Global,
    closed: &Closed<(), Global>,
    from: usize,
    count: usize,
) -> Result<Vec<u64>, AllocError>
    requires { IsFull closed.now.words × (from + count ≤ slots_len closed.now.words) }
    ensures { IfOk result (λ v. v.items ≡ take count (drop from (slots_items closed.now.words))) }
{
    let mut words = Vec::new(alloc);
    let mut i = 0;
    while i < count {
        words.push(closed.word(from + i))?;
        i += 1;
    }
    Ok(words)
}

// The entries of the words up to `used`, the last one first.
fn read_back(
    alloc: Global,
    closed: &Closed<(), Global>,
    used: usize,
) -> Result<Vec<Entry>, AllocError>
    requires full { IsFull closed.now.words }
    requires coded { (list : _) × IsCoded list used (slots_items closed.now.words) }
    ensures { IfOk result (λ v. (list : _) → IsCoded list used (slots_items closed.now.words) → map line_of v.items ≡ reverse list) }
{
    let mut entries = Vec::new(alloc);
    let mut end = used;
    while end > 0 {
        let word = closed.word(end - 1);
        let count = (word / 0x2_0000_0000) as usize;
        let start = end - 2 - count;
        let time = closed.word(start);
        let results = read_words(alloc, closed, start + 1, count)?;
        let entry = Entry {
            thread: (word % 0x1_0000_0000) as u32,
            time,
            begins: word / 0x1_0000_0000 % 2 == 1,
            results,
        };
        entries.push(entry)?;
        end = start;
    }
    Ok(entries)
}

//! The tokens of each stream.
ghost use Rattle.std.specs.Prelude.{ℕ, ◌≡◌, ◌≤◌, ◌<◌, ◌++◌, [], ◌∷◌, IfOk, OnOk, List, Some, length, map, replicate, reverse, slice_index_or, slice_set};
ghost use Rattle.std.specs.List.{AllByRecursion};
ghost use Rattle.stream_log.specs.Log.{SeenView};
ghost use Rattle.trace_format.specs.declared.event.Name.{Name};
ghost use Rattle.device_shard.specs.Making.{tokens_given};
ghost use Rattle.device_shard.specs.Shards.{ShardName};
ghost use Rattle.stream_crew.specs.Crews.{HaveThreads};
ghost use Rattle.stream_crew.specs.Dealing.{dealt, items_of, slot_of, slots_of};

use command_tables::NoMemory;
use std::alloc::Global;
use stream_log::Seen;
use trace_format::Name;

// No slot for each stream.
fn no_slots(alloc: Global, streams: usize) -> Result<Vec<Vec<Option<Seen>>>, NoMemory>
    ensures { IfOk result (λ slots. items_of slots.items ≡ replicate streams []) }
{
    let mut slots = Vec::new(alloc);
    for _stream in 0..streams {
        slots.push(Vec::new(alloc))?;
    }
    Ok(slots)
}

// A token more for the stream with a number.
fn add_slot(slots: &mut Vec<Vec<Option<Seen>>>, number: usize, token: Seen) -> Result<(), NoMemory>
    requires { number < length slots.old.items }
    ensures { OnOk result (items_of slots.new.items ≡ slice_set (items_of slots.old.items) number (slice_index_or (items_of slots.old.items) number [] ++ Some token ∷ [])) }
{
    slots[number].push(Some(token))?;
    Ok(())
}

// The last token for the first stream, the one before it for the next, and so on: one more for each.
fn deal_one_each(
    slots: &mut Vec<Vec<Option<Seen>>>,
    tokens: &mut Vec<(Name, Seen)>,
) -> Result<(), NoMemory>
    requires { length slots.old.items ≤ length tokens.old.items }
    ensures slots { OnOk result ((round rest : List (Name × SeenView)) → reverse tokens.old.items ≡ round ++ rest → length round ≡ length slots.old.items → items_of slots.new.items ≡ dealt (items_of slots.old.items) (map slot_of round)) }
    ensures tokens { OnOk result ((round rest : List (Name × SeenView)) → reverse tokens.old.items ≡ round ++ rest → length round ≡ length slots.old.items → reverse tokens.new.items ≡ rest) }
{
    for number in 0..slots.len() {
        let token = tokens.pop().unwrap();
        add_slot(slots, number, token.1)?;
    }
    Ok(())
}

/// The tokens of each of so many streams, one of each of so many plans, from those of all plans: by plans and then by streams.
pub(crate) fn deal(
    alloc: Global,
    mut tokens: Vec<(Name, Seen)>,
    plans: usize,
    streams: usize,
) -> Result<Vec<Vec<Option<Seen>>>, NoMemory>
    requires { (names : List ShardName) × (threads : List ℕ) × (length names ≡ plans) × (length threads ≡ streams) × HaveThreads threads (map (λ n. n.plan) names) × (tokens.items ≡ tokens_given names) }
    ensures { IfOk result (λ slots. (names : List ShardName) (threads : List ℕ) → length names ≡ plans → length threads ≡ streams → HaveThreads threads (map (λ n. n.plan) names) → tokens.items ≡ tokens_given names → items_of slots.items ≡ map (slots_of names) threads) }
{
    tokens.reverse();
    let mut slots = no_slots(alloc, streams)?;
    for _plan in 0..plans {
        deal_one_each(&mut slots, &mut tokens)?;
    }
    Ok(slots)
}

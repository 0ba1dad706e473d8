//! Numbers and names.
ghost use Rattle.std.specs.Prelude.{◌≡◌, ◌≤◌, ◌<◌, length};
ghost use Rattle.std.specs.Str.{all_ascii_digits};
ghost use Rattle.trace_format.specs.Words.{name_of, number_up_to, one_of, only_if, thread_of, value_after};

use crate::event::Name;
use crate::limits::{MAX_NAMES, MAX_THREADS};
use crate::parse::words::split_before;

/// The number that at most seven digits spell.
fn value(word: &[u8]) -> Option<u32>
    requires { length word.now ≤ 7 }
    ensures { result ≡ only_if (all_ascii_digits word.now) (value_after 0 word.now) }
{
    let mut value = 0;
    for digit in word {
        if !digit.is_ascii_digit() {
            return None;
        }
        value = value * 10 + u32::from(*digit - b'0');
    }
    Some(value)
}

/// A decimal number from 1 to `limit`, without leading zeros.
#[tactic(auto, unfolding(crate::specs::Words::number_up_to))]
fn number(limit: u32, word: &[u8]) -> Option<u32>
    requires { limit < 10000000 }
    ensures { result ≡ number_up_to limit word.now }
{
    if word.len() > 7 {
        return None;
    }
    let first = word.first()?;
    if *first == b'0' {
        return None;
    }
    let number = value(word)?;
    (number <= limit).then_some(number)
}

/// A thread, as 1 to 1,024.
pub fn thread(word: &[u8]) -> Option<u32>
    ensures { result ≡ thread_of word.now }
{
    number(MAX_THREADS, word)
}

/// A name, as `%` thread `.` number.
#[tactic(auto, unfolding(crate::specs::Words::name_of))]
pub fn name(word: &[u8]) -> Option<Name>
    ensures { result ≡ name_of word.now }
{
    let rest = word.strip_prefix(b"%")?;
    let (before, after) = split_before(b'.', rest);
    let thread = thread(before)?;
    let digits = after.strip_prefix(b".")?;
    let number = number(MAX_NAMES, digits)?;
    Some(Name { thread, number })
}

/// A name, or none for `null`.
#[tactic(auto, unfolding(crate::specs::Words::one_of))]
pub fn one(word: &[u8]) -> Option<Option<Name>>
    ensures { result ≡ one_of word.now }
{
    if word == b"null".as_slice() {
        return Some(None);
    }
    Some(Some(name(word)?))
}

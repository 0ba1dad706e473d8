//! The thread of a stream's heading, spelled as in an event.
ghost use Rattle.std.specs.Prelude.{◌≡◌, ◌≤◌, length};
ghost use Rattle.std.specs.Str.{all_ascii_digits};
ghost use Rattle.trace_format.specs.Words.{only_if, thread_of, value_after};

use trace_format::MAX_THREADS;

// The number that at most seven digits spell.
fn value(word: &[u8]) -> Option<u32>
    requires { length word.now ≤ 7 }
    ensures { result ≡ only_if (all_ascii_digits word.now) (value_after 0 word.now) }
{
    let mut value = 0;
    for digit in word {
        if !digit.is_ascii_digit() {
            return None;
        }
        value = value * 10 + u32::from(*digit - b'0');
    }
    Some(value)
}

/// A thread: a decimal number from 1 to `MAX_THREADS`, without leading zeros.
#[tactic(auto, unfolding(trace_format::specs::Words::number_up_to))]
pub fn thread(word: &[u8]) -> Option<u32>
    ensures { result ≡ thread_of word.now }
{
    if word.len() > 7 {
        return None;
    }
    let first = word.first()?;
    if *first == b'0' {
        return None;
    }
    let number = value(word)?;
    (number <= MAX_THREADS).then_some(number)
}

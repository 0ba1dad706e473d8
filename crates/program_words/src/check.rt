// Whether words are understood.
ghost use Rattle.std.specs.Prelude.{◌≡◌, ◌&&◌, [], None, not, IfOk, option_map};
ghost use Rattle.clap.specs.Lexer.{long_of, name_and_value, strip_byte};
ghost use Rattle.program_words.specs.Content.{given_pairs, known_of, word_if_any, words_of};
ghost use Rattle.program_words.specs.Words.{is_empty_value, is_given, is_one_of, is_value, may_stand, next_option, option_named, options_from, options_of};

use std::alloc::{AllocError, Global};

pub(crate) static RUN_OPTIONS: [&str; 3] = ["root", "driver", "exe"];

pub(crate) static CHAIN_OPTIONS: [&str; 3] = ["root", "exe", "layers"];

pub(crate) static GEN_OPTIONS: [&str; 2] = ["number", "calls"];

pub(crate) static SOAK_OPTIONS: [&str; 5] = ["root", "driver", "exe", "number", "calls"];

/// The options of a command.
pub(crate) fn options_of(command: &str) -> Option<&'static [&'static str]>
    ensures { option_map (λ s. known_of s.now) result ≡ options_of command.now }
{
    if command == "run" {
        Some(RUN_OPTIONS.as_slice())
    } else if command == "chain" {
        Some(CHAIN_OPTIONS.as_slice())
    } else if command == "gen" {
        Some(GEN_OPTIONS.as_slice())
    } else if command == "soak" {
        Some(SOAK_OPTIONS.as_slice())
    } else {
        None
    }
}

// What follows a first hyphen.
fn strip_dash(word: &str) -> Option<&str>
    ensures { word_if_any result ≡ strip_byte 45 word.now }
{
    word.strip_prefix('-')
}

// What stands before the first `=`, and what stands after it if there is one.
fn split_value(text: &str) -> (&str, Option<&str>)
    ensures { (result.0.now, word_if_any result.1) ≡ name_and_value text.now }
{
    match text.split_once('=') {
        Some((name, value)) => (name, Some(value)),
        None => (text, None),
    }
}

// `--name` or `--name=value`, as the name and the value.
fn split_word(word: &str) -> Option<(&str, Option<&str>)>
    ensures { option_map (λ p. (p.0.now, word_if_any p.1)) result ≡ long_of word.now }
{
    let rest = strip_dash(strip_dash(word)?)?;
    if rest.is_empty() {
        return None;
    }
    Some(split_value(rest))
}

fn is_value(word: &str) -> bool
    ensures { result ≡ is_value word.now }
{
    !word.is_empty() && strip_dash(word).is_none()
}

fn is_one_of(name: &str, known: &[&str]) -> bool
    ensures { result ≡ is_one_of name.now (known_of known.now) }
{
    for other in known {
        if *other == name {
            return true;
        }
    }
    false
}

fn is_given(name: &str, given: &[(&str, &str)]) -> bool
    ensures { result ≡ is_given name.now (given_pairs given.now) }
{
    for option in given {
        if option.0 == name {
            return true;
        }
    }
    false
}

fn may_stand(known: &[&str], given: &[(&str, &str)], name: &str) -> bool
    ensures { result ≡ may_stand (known_of known.now) (given_pairs given.now) name.now }
{
    is_one_of(name, known) && !is_given(name, given)
}

fn is_empty_value(value: Option<&str>) -> bool
    ensures { result ≡ is_empty_value (word_if_any value.entry) }
{
    match value {
        Some(text) => text.is_empty(),
        None => false,
    }
}

// The option that a word names, where it may stand, with its value if the word has one.
fn option_named<'a>(
    known: &[&str],
    given: &[(&str, &str)],
    word: &'a str,
) -> Option<(&'a str, Option<&'a str>)>
    ensures { option_map (λ p. (p.0.now, word_if_any p.1)) result ≡ option_named (known_of known.now) (given_pairs given.now) word.now }
{
    let (name, value) = split_word(word)?;
    if may_stand(known, given, name) && !is_empty_value(value) {
        Some((name, value))
    } else {
        None
    }
}

// The option that a word gives, where a name may wait for its value.
fn next_option<'a>(
    known: &[&str],
    given: &[(&str, &str)],
    waiting: Option<&'a str>,
    word: &'a str,
) -> Option<(&'a str, Option<&'a str>)>
    ensures { option_map (λ p. (p.0.now, word_if_any p.1)) result ≡ next_option (known_of known.now) (given_pairs given.now) (word_if_any waiting.entry) word.now }
{
    match waiting {
        Some(name) if is_value(word) => Some((name, Some(word))),
        Some(_) => None,
        None => option_named(known, given, word),
    }
}

/// The options of the words with their values, or none where the words are not understood.
pub(crate) fn options_from<'a>(
    alloc: Global,
    known: &[&str],
    words: &'a [String],
) -> Result<Option<Vec<(&'a str, &'a str)>>, AllocError>
    ensures { IfOk result (λ r. option_map (λ v. given_pairs v.items) r ≡ options_from (known_of known.now) [] None (words_of words.now)) }
{
    let mut given: Vec<(&'a str, &'a str)> = Vec::new(alloc);
    let mut waiting: Option<&'a str> = None;
    for word in words {
        let Some((name, value)) = next_option(known, &given, waiting, word) else {
            return Ok(None);
        };
        waiting = match value {
            Some(value) => {
                given.push((name, value))?;
                None
            }
            None => Some(name),
        };
    }
    match waiting {
        Some(_) => Ok(None),
        None => Ok(Some(given)),
    }
}

// One glob of a filter.
ghost use Rattle.std.specs.Prelude.{◌≡◌, ◌↔◌, IfOk, IsTrue};
ghost use Rattle.std.specs.List.{starts_with, ends_with};
ghost use Rattle.std.specs.Prelude.{nat_eq};
ghost use Rattle.env_filters.specs.Globs.{Form, Pattern, form_of, part_of, pattern_of, lowered, has_part, is_match, Match};
ghost use Rattle.env_filters.specs.Filters.{is_word};

use crate::NoMemory;
use std::alloc::Global;
use std::marker::Model;

/// Where the part of a glob has to stand in a name.
#[derive(Clone, Copy, Debug, PartialEq, Eq)]
pub enum Form {
    /// It is the whole name.
    Whole,
    /// The name begins with it.
    Prefix,
    /// The name ends with it.
    Suffix,
    /// It stands anywhere in the name.
    Infix,
}

/// A glob: `text`, `text*`, `*text` or `*text*`. Every other `*` is a plain character, and ASCII case is ignored.
#[derive(Drop)]
pub struct Glob {
    form: Form,
    part: String,
}

impl Model for Glob {
    ghost use Rattle.std.specs.Prelude.{string_bytes};
    ghost use Rattle.env_filters.specs.Globs.{Pattern};

    ghost Value = { Pattern };

    ghost view = { λ g. record { form = g.form; part = string_bytes g.part } };
}

// The form of a glob, and its text without the stars that make the form.
fn cut(text: &str) -> (Form, &str)
    ensures form { result.0 ≡ form_of text.now }
    ensures part { result.1.now ≡ part_of (form_of text.now) text.now }
{
    match text.strip_prefix('*') {
        Some(rest) => match rest.strip_suffix('*') {
            Some(middle) => (Form::Infix, middle),
            None => (Form::Suffix, rest),
        },
        None => match text.strip_suffix('*') {
            Some(front) => (Form::Prefix, front),
            None => (Form::Whole, text),
        },
    }
}

// Whether the name begins with the part.
fn begins_with(name: &[u8], part: &[u8]) -> bool
    ensures { result ≡ starts_with nat_eq (lowered name.now) (lowered part.now) }
{
    name.len() >= part.len() && name[..part.len()].eq_ignore_ascii_case(part)
}

// Whether the name ends with the part.
fn stops_with(name: &[u8], part: &[u8]) -> bool
    ensures { result ≡ ends_with nat_eq (lowered name.now) (lowered part.now) }
{
    name.len() >= part.len() && name[name.len() - part.len()..].eq_ignore_ascii_case(part)
}

// Whether the part stands anywhere in the name.
fn holds(name: &[u8], part: &[u8]) -> bool
    ensures { result ≡ has_part (lowered part.now) (lowered name.now) }
{
    for at in 0..name.len() {
        if begins_with(&name[at..], part) {
            return true;
        }
    }
    part.is_empty()
}

impl Glob {
    /// Reads a glob. Every text is one.
    pub fn parse(alloc: Global, text: &str) -> Result<Glob, NoMemory>
        ensures { IfOk result (λ g. g ≡ pattern_of text.now) }
    {
        let (form, part) = cut(text);
        let part = String::from_str(alloc, part)?;
        Ok(Glob { form, part })
    }

    /// Whether the glob matches the name, as this part of a filter does. It takes no memory.
    #[tactic(auto, using(crate::proofs::GlobLemmas::match_decides))]
    pub fn matches(&self, name: &str) -> bool
        ensures test { result ≡ is_match self.now name.now }
        ensures meaning { IsTrue result ↔ Match self.now name.now }
    {
        let part = self.part.as_bytes();
        let name = name.as_bytes();
        match self.form {
            Form::Whole => name.eq_ignore_ascii_case(part),
            Form::Prefix => begins_with(name, part),
            Form::Suffix => stops_with(name, part),
            Form::Infix => holds(name, part),
        }
    }

    // Whether the glob has no star and is the word.
    pub(crate) fn is_word(&self, word: &str) -> bool
        ensures { result ≡ is_word word.now self.now }
    {
        matches!(self.form, Form::Whole) && self.part.eq_ignore_ascii_case(word)
    }
}

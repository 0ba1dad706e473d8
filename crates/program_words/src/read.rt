// The words by `clap`.
ghost use Rattle.std.specs.Prelude.{◌≡◌, ◌≤◌, [], ◌∷◌, false, is_some, Some, None, IfOk, IfErr, IfSome, MatchResult, map, codes, option_map, true};
ghost use Rattle.clap.specs.Words.{app_of, rule_of, rows_of, found_of, subcommand_rows_of, with_subcommand};
ghost use Rattle.clap.specs.declared.builder.command.Command.TheViews.{out-Command};
ghost use Rattle.trace_gen.specs.declared.turns.TheConstants.{MOST_CALLS as MOST};
ghost use Rattle.program_words.specs.Content.{known_of, word_if_any, words_of};
ghost use Rattle.program_words.specs.Meant.{chain_meant, gen_meant, meant, run_meant, soak_meant};
ghost use Rattle.program_words.specs.Asked.{HasFewTurns, asked_of, chain_asked_of, gen_of, has_leading_zero, is_digits, is_numeral, number_given, number_up_to, policy_named, policy_of, run_of, soak_of, words_ask};
ghost use Rattle.program_words.specs.Words.{understood, value_given, value_or_empty, Word, GivenOptions};
ghost use Rattle.program_words.specs.Program.{alone, long_rule, new_leaf, program, option_row};

use crate::check::{
    CHAIN_OPTIONS, GEN_OPTIONS, RUN_OPTIONS, SOAK_OPTIONS, options_from, options_of,
};
use clap::error::ErrorKind;
use clap::{Arg, ArgMatches, Command};
use model_driver::Policy;
use std::alloc::{AllocError, Global};
use thiserror::Error;
use trace_gen::MOST_CALLS;

/// The settings of a replay.
#[derive(Clone, Copy)]
pub struct RunWords<'a> {
    /// The folder that stands for the root of the file system; empty for the root itself.
    pub root: &'a str,
    pub policy: Policy,
    /// The executable's path.
    pub exe: &'a str,
}

/// The settings of a chain that is shown.
#[derive(Clone, Copy)]
pub struct ChainWords<'a> {
    /// The folder that stands for the root of the file system; empty for the root itself.
    pub root: &'a str,
    /// The executable's path.
    pub exe: &'a str,
    /// The layers that the application names, between commas.
    pub layers: &'a str,
}

/// The settings of a trace that is generated.
#[derive(Clone, Copy)]
pub struct GenWords {
    /// What the trace is made from.
    pub number: u64,
    /// How many turns it has.
    pub calls: u32,
}

/// The settings of a replay of a generated trace.
#[derive(Clone, Copy)]
pub struct SoakWords<'a> {
    pub run: RunWords<'a>,
    pub made: GenWords,
}

/// What a list of words asks for.
#[derive(Clone, Copy)]
pub enum Request<'a> {
    /// To replay a trace.
    Run(RunWords<'a>),
    /// To show the chain of layers.
    Chain(ChainWords<'a>),
    /// To generate a trace.
    Gen(GenWords),
    /// To replay a generated trace.
    Soak(SoakWords<'a>),
}

/// Why words were not read.
#[derive(Clone, Copy, Debug, PartialEq, Eq, Error)]
pub enum WordsError {
    /// They aren't understood.
    #[error("words not understood")]
    Usage,
    /// There was no memory.
    #[error("out of memory")]
    NoMemory,
}

// `--name VALUE` or `--name=VALUE`
fn option<'a>(alloc: Global, name: &'a str) -> Arg<'a>
    ensures rule { rule_of result ≡ long_rule name.now }
    ensures local { result.global ≡ false }
{
    Arg::new(alloc, name).long(name)
}

// One command of the program, with its options.
fn command_of<'a>(
    alloc: Global,
    name: &'a str,
    options: &[&'a str],
) -> Result<Command<'a>, AllocError>
    ensures { IfOk result (λ c. (app_of c ≡ alone name.now (known_of options.now)) × ((out-Command c).has_globals ≡ false)) }
{
    let mut command = Command::new(alloc, name);
    for name in options {
        command = command.arg(option(alloc, *name))?;
    }
    Ok(command)
}

fn with_command<'a>(
    program: Command<'a>,
    alloc: Global,
    name: &'a str,
    options: &[&'a str],
) -> Result<Command<'a>, AllocError>
    ensures { IfOk result (λ c. app_of c ≡ with_subcommand (app_of program.entry) (new_leaf name.now (known_of options.now))) }
{
    program.subcommand(command_of(alloc, name, options)?)
}

fn program<'a>(alloc: Global) -> Result<Command<'a>, AllocError>
    ensures { IfOk result (λ c. app_of c ≡ program) }
{
    let top = Command::new(alloc, "vkreplay")
        .no_binary_name(true)
        .disable_help_flag(true)
        .disable_help_subcommand(true);
    let top = with_command(top, alloc, "run", RUN_OPTIONS.as_slice())?;
    let top = with_command(top, alloc, "chain", CHAIN_OPTIONS.as_slice())?;
    let top = with_command(top, alloc, "gen", GEN_OPTIONS.as_slice())?;
    with_command(top, alloc, "soak", SOAK_OPTIONS.as_slice())
}

// Whether the words are understood.
fn is_read(alloc: Global, words: &[String]) -> Result<bool, AllocError>
    ensures { IfOk result (λ b. b ≡ is_some (understood (words_of words.now))) }
{
    let Some((command, rest)) = words.split_first() else {
        return Ok(false);
    };
    let Some(known) = options_of(command) else {
        return Ok(false);
    };
    let options = options_from(alloc, known, rest)?;
    Ok(options.is_some())
}

// What `clap` finds in words that are understood. It refuses none of them.
fn matches<'a>(alloc: Global, words: &'a [String]) -> Result<ArgMatches<'a>, WordsError>
    ensures ok { (p : Word × GivenOptions) → understood (words_of words.now) ≡ Some p → IfOk result (λ m. subcommand_rows_of m ≡ Some (p.0, map option_row p.1)) }
    ensures err { (p : Word × GivenOptions) → understood (words_of words.now) ≡ Some p → IfErr result (λ e. e ≡ WordsError.NoMemory) }
{
    let Ok(command) = program(alloc) else {
        return Err(WordsError::NoMemory);
    };
    match command.try_get_matches_from(words) {
        Ok(matches) => Ok(matches),
        Err(error) => match error.kind() {
            ErrorKind::OutOfMemory => Err(WordsError::NoMemory),
            _ => Err(WordsError::Usage),
        },
    }
}

// The value of an option.
fn value_given<'a>(options: &ArgMatches<'a>, name: &str) -> Option<&'a str>
    ensures { (given : GivenOptions) → rows_of (found_of options.now) ≡ map option_row given → word_if_any result ≡ value_given name.now given }
{
    options.get_str(name)
}

// The value of an option, or an empty one.
fn value_or_empty<'a>(options: &ArgMatches<'a>, name: &str) -> &'a str
    ensures { (given : GivenOptions) → rows_of (found_of options.now) ≡ map option_row given → result.now ≡ value_or_empty name.now given }
{
    match value_given(options, name) {
        Some(value) => value,
        None => "",
    }
}

fn policy_named(name: &str) -> Option<Policy>
    ensures { result ≡ policy_named name.now }
{
    match name {
        "fresh" => Some(Policy::Fresh),
        "reuse" => Some(Policy::Reuse),
        "share" => Some(Policy::Share),
        _ => None,
    }
}

fn policy_of(value: Option<&str>) -> Option<Policy>
    ensures { result ≡ policy_of (word_if_any value.entry) }
{
    match value {
        Some(name) => policy_named(name),
        None => Some(Policy::Fresh),
    }
}

fn run_words<'a>(options: &ArgMatches<'a>) -> Option<RunWords<'a>>
    ensures { (given : GivenOptions) → rows_of (found_of options.now) ≡ map option_row given → option_map run_meant result ≡ run_of given }
{
    let root = value_or_empty(options, "root");
    let exe = value_or_empty(options, "exe");
    let policy = policy_of(value_given(options, "driver"))?;
    Some(RunWords { root, policy, exe })
}

fn chain_words<'a>(options: &ArgMatches<'a>) -> ChainWords<'a>
    ensures { (given : GivenOptions) → rows_of (found_of options.now) ≡ map option_row given → chain_meant result ≡ chain_asked_of given }
{
    ChainWords {
        root: value_or_empty(options, "root"),
        exe: value_or_empty(options, "exe"),
        layers: value_or_empty(options, "layers"),
    }
}

// Whether other digits follow a first `0`.
fn has_leading_zero(word: &str) -> bool
    ensures { result ≡ has_leading_zero word.now }
{
    let bytes = word.as_bytes();
    bytes.len() > 1 && bytes[0] == b'0'
}

fn is_digits(word: &str) -> bool
    ensures { result ≡ is_digits word.now }
{
    word.as_bytes().iter().all(|byte| byte.is_ascii_digit())
}

// Whether a word is one digit or more, without a leading zero.
fn is_numeral(word: &str) -> bool
    ensures { result ≡ is_numeral word.now }
{
    !word.is_empty() && is_digits(word) && !has_leading_zero(word)
}

// The number that a word spells, if it is at most `most`.
fn number_up_to(most: u64, word: &str) -> Option<u64>
    ensures { result ≡ number_up_to most word.now }
{
    if !is_numeral(word) {
        return None;
    }
    match word.parse::<u64>() {
        Ok(number) if number <= most => Some(number),
        _ => None,
    }
}

// The number that an option gives, if it is at most `most`.
fn number_given(options: &ArgMatches<'_>, most: u64, name: &str) -> Option<u64>
    ensures number { (given : GivenOptions) → rows_of (found_of options.now) ≡ map option_row given → result ≡ number_given most name.now given }
    ensures most { IfSome result (λ number. number ≤ most) }
{
    number_up_to(most, value_given(options, name)?)
}

fn gen_words(options: &ArgMatches<'_>) -> Option<GenWords>
    ensures words { (given : GivenOptions) → rows_of (found_of options.now) ≡ map option_row given → option_map gen_meant result ≡ gen_of given }
    ensures few { IfSome result (λ made. made.calls ≤ MOST) }
{
    let number = number_given(options, u64::MAX, "number")?;
    let calls = number_given(options, u64::from(MOST_CALLS), "calls")?;
    Some(GenWords {
        number,
        calls: calls as u32,
    })
}

fn soak_words<'a>(options: &ArgMatches<'a>) -> Option<SoakWords<'a>>
    ensures words { (given : GivenOptions) → rows_of (found_of options.now) ≡ map option_row given → option_map soak_meant result ≡ soak_of given }
    ensures few { IfSome result (λ soak. soak.made.calls ≤ MOST) }
{
    let run = run_words(options)?;
    let made = gen_words(options)?;
    Some(SoakWords { run, made })
}

fn request_of<'a>(command: &str, options: &ArgMatches<'a>) -> Option<Request<'a>>
    ensures words { (given : GivenOptions) → rows_of (found_of options.now) ≡ map option_row given → option_map meant result ≡ asked_of command.now given }
    ensures few { IfSome result (λ request. HasFewTurns (meant request)) }
{
    match command {
        "run" => Some(Request::Run(run_words(options)?)),
        "chain" => Some(Request::Chain(chain_words(options))),
        "gen" => Some(Request::Gen(gen_words(options)?)),
        "soak" => Some(Request::Soak(soak_words(options)?)),
        _ => None,
    }
}

/// Reads the words of a command line, without the program's name: a command, and then its options in any order, each at most
/// once, as `--name VALUE` or `--name=VALUE`. A value isn't empty, and as a word of its own it doesn't begin with `-`. There is
/// no help option. A number is digits alone, without a leading zero; the two numbers of `gen` and `soak` may not be left out.
///
/// `Usage` comes for every other list of words; `NoMemory` may come for any.
pub fn read_words<'a>(alloc: Global, words: &'a [String]) -> Result<Request<'a>, WordsError>
    // What is read is what the words ask for, and words are refused only where they are not understood. Only memory is free.
    ensures words { MatchResult result (λ r. words_ask (words_of words.now) ≡ Some (meant r)) (λ e. e ≡ WordsError.Usage → words_ask (words_of words.now) ≡ None) }
    ensures few { IfOk result (λ r. HasFewTurns (meant r)) }
{
    match is_read(alloc, words) {
        Ok(true) => {}
        Ok(false) => return Err(WordsError::Usage),
        Err(_) => return Err(WordsError::NoMemory),
    }
    let found = matches(alloc, words)?;
    let Some((command, options)) = found.subcommand() else {
        return Err(WordsError::Usage);
    };
    match request_of(command, options) {
        Some(request) => Ok(request),
        None => Err(WordsError::Usage),
    }
}

// What comes of the begin of a call before it is judged: at vkCreateInstance a chain, with its lines.
ghost use Rattle.std.specs.Prelude.{◌≡◌, ◌++◌, ◌<◌, ◌^◌, [], None, true, false, IfErr, IfOk, IsTrue, OnOk, if◌then◌else◌, length, map, string_bytes};
ghost use Rattle.std.specs.List.{AllByRecursion};
ghost use Rattle.command_tables.specs.Tests.{same_command};
ghost use Rattle.trace_format.specs.Grammar.{is_printable};
ghost use Rattle.env_filters.specs.Entries.{layer_names_of};
ghost use Rattle.chain_build.specs.Answers.{answer_content};
ghost use Rattle.chain_build.specs.Chain.{chain_of};
ghost use Rattle.chain_build.specs.Setup.{setup_content};
ghost use Rattle.replay_model.specs.Setup.{outcome_text, refusal_of};
ghost use Rattle.report_text.specs.Setups.{outcome_of, trace_setup};
ghost use Rattle.chain_session.specs.Creation as spec;

use crate::error::SessionError;
use chain_build::{Chain, ChainAnswer, ChainError, Setup, build};
use command_tables::{Code, CommandId};
use env_filters::split_layer_names;
use report_text::chain_lines;
use std::alloc::Global;

/// What comes of the begin of a call before it is judged.
#[derive(Debug, Drop)]
pub(crate) enum Creation {
    /// The command isn't vkCreateInstance.
    None,
    /// There is no chain, and this code is answered.
    Refused(Code),
    /// The chain that the call passes down.
    Starts(Chain),
}

// A payload as a text.
fn text_of(payload: &[u8]) -> &str
    requires { AllByRecursion (λ c. IsTrue (is_printable c)) payload.now }
    ensures { result.now ≡ payload.now }
{
    match str::from_utf8(payload) {
        Ok(text) => text,
        Err(_) => unreachable!(),
    }
}

// The layers that the application names.
fn layers_named(alloc: Global, payload: &[u8]) -> Result<Vec<String>, SessionError>
    requires { AllByRecursion (λ c. IsTrue (is_printable c)) payload.now }
    ensures ok { IfOk result (λ names. map string_bytes names.items ≡ layer_names_of payload.now) }
    ensures err { IfErr result (λ e. e ≡ SessionError.NoMemory) }
{
    match split_layer_names(alloc, text_of(payload)) {
        Ok(names) => Ok(names),
        Err(_) => Err(SessionError::NoMemory),
    }
}

// What was built, as what comes of the call.
fn creation_of(answer: ChainAnswer) -> Creation
    ensures { spec.IsCreation (outcome_of (answer_content answer)) result }
{
    match answer {
        ChainAnswer::Chain(chain) => Creation::Starts(chain),
        ChainAnswer::LayerNotPresent { name: _ } => Creation::Refused(Code::ErrorLayerNotPresent),
        ChainAnswer::NoDriver => Creation::Refused(Code::ErrorIncompatibleDriver),
        ChainAnswer::Unguarded { layer: _ } => Creation::Refused(Code::ErrorInitializationFailed),
    }
}

// What comes of the layers that the application names.
#[tactic(auto, using(report_text::proofs::Printing::built_is_printable, crate::proofs::Outcomes::same_text))]
fn built(
    alloc: Global,
    number: u64,
    names: &[String],
    setup: &Setup,
    lines: &mut Vec<u8>,
) -> Result<Creation, SessionError>
    requires { length (setup_content setup.now).drivers.list < 2 ^ 32 }
    ensures lines { let outcome = outcome_of (chain_of (setup_content setup.now) (map string_bytes names.now)) in
        OnOk result (lines.new.items ≡ lines.old.items ++ outcome_text outcome number) }
    ensures ok { let outcome = outcome_of (chain_of (setup_content setup.now) (map string_bytes names.now)) in
        IfOk result (spec.IsCreation outcome) }
    ensures err { let outcome = outcome_of (chain_of (setup_content setup.now) (map string_bytes names.now)) in
        IfErr result (spec.IsFaultOf outcome) }
{
    match build(alloc, setup, names) {
        Ok(answer) => {
            chain_lines(number, &answer, lines)?;
            Ok(creation_of(answer))
        }
        Err(ChainError::TooLong { count }) => Err(SessionError::Chain { count }),
        Err(ChainError::NoMemory) => Err(SessionError::NoMemory),
    }
}

/// What comes of the begin of a call, before it is judged: at vkCreateInstance the chain for the layers that its payload names between
/// commas, or its refusal, whose lines are added; at other commands nothing. `Chain` comes where the chain would have more than 64 layers.
/// After an error anything may stand behind the lines.
#[tactic(auto, unfolding(command_tables::specs::Tests::same_command))]
pub(crate) fn create(
    alloc: Global,
    number: u64,
    cmd: CommandId,
    payload: &[u8],
    setup: &Setup,
    lines: &mut Vec<u8>,
) -> Result<Creation, SessionError>
    requires payload { AllByRecursion (λ c. IsTrue (is_printable c)) payload.now }
    requires few { length (setup_content setup.now).drivers.list < 2 ^ 32 }
    ensures lines { let s = trace_setup (setup_content setup.now) in
        OnOk result (lines.new.items ≡ lines.old.items ++ (if same_command cmd CommandId.CreateInstance then outcome_text (s.outcome payload.now) number else [])) }
    ensures refusal { let s = trace_setup (setup_content setup.now) in
        IfOk result (λ creation. spec.refusal_in creation ≡ (if same_command cmd CommandId.CreateInstance then refusal_of (s.outcome payload.now) else None)) }
    ensures created { let s = trace_setup (setup_content setup.now) in
        IfOk result (spec.IsCreated (same_command cmd CommandId.CreateInstance) (s.outcome payload.now)) }
    ensures err { let s = trace_setup (setup_content setup.now) in
        IfErr result (spec.IsFault (same_command cmd CommandId.CreateInstance) (s.outcome payload.now)) }
{
    if cmd == CommandId::CreateInstance {
        let names = layers_named(alloc, payload)?;
        built(alloc, number, &names, setup, lines)
    } else {
        Ok(Creation::None)
    }
}

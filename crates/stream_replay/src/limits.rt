//! Whether the chains that events make are within their limit.
ghost use Rattle.std.specs.Prelude.{◌≡◌, IfOk, map, not};
ghost use Rattle.std.specs.List.{list_any};
ghost use Rattle.trace_format.specs.Content.{content};
ghost use Rattle.chain_build.specs.Setup.{setup_content};
ghost use Rattle.replay_model.specs.Setup.{is_too_long};
ghost use Rattle.replay_model.specs.Stop.{exceeds_layers};
ghost use Rattle.report_text.specs.Setups.{trace_setup};

use chain_build::{ChainError, Setup, build};
use command_tables::{CommandId, NoMemory};
use env_filters::split_layer_names;
use std::alloc::Global;
use trace_format::Event;

// Whether the chain for the layers that a payload names has at most 64.
fn is_short(alloc: Global, setup: &Setup, payload: &[u8]) -> Result<bool, NoMemory>
    ensures { IfOk result (λ b. b ≡ not (is_too_long ((trace_setup (setup_content setup.now)).outcome payload.now))) }
{
    // Each payload that is read from a file is text.
    let Ok(text) = str::from_utf8(payload) else {
        return Err(NoMemory);
    };
    let Ok(names) = split_layer_names(alloc, text) else {
        return Err(NoMemory);
    };
    match build(alloc, setup, &names) {
        Ok(_) => Ok(true),
        Err(ChainError::TooLong { count: _ }) => Ok(false),
        Err(ChainError::NoMemory) => Err(NoMemory),
    }
}

// Whether an event makes no chain of more than 64 layers.
#[tactic(auto, unfolding(command_tables::specs::Tests::same_command))]
fn is_within_at(alloc: Global, setup: &Setup, event: &Event) -> Result<bool, NoMemory>
    ensures { IfOk result (λ b. b ≡ not (exceeds_layers (trace_setup (setup_content setup.now)) (content event.now))) }
{
    match event {
        Event::Return { .. } => Ok(true),
        Event::Begin { cmd, payload, .. } => {
            if *cmd == CommandId::CreateInstance {
                is_short(alloc, setup, payload)
            } else {
                Ok(true)
            }
        }
    }
}

/// Whether no vkCreateInstance among events makes a chain of more than 64 layers.
pub fn is_within(alloc: Global, setup: &Setup, events: &[Event]) -> Result<bool, NoMemory>
    ensures { IfOk result (λ b. b ≡ not (list_any (exceeds_layers (trace_setup (setup_content setup.now))) (map content events.now))) }
{
    for event in events {
        if !is_within_at(alloc, setup, event)? {
            return Ok(false);
        }
    }
    Ok(true)
}

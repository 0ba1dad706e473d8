// What is said on the error sink, whose failure changes nothing else, and texts that are written one behind another.
ghost use Rattle.std.specs.Prelude.{◌≡◌, ◌++◌, OnOk, OnErr, decimal};
ghost use Rattle.replay_base.specs.Bytes.{grown, GrownByFront};
ghost use Rattle.replay_base.specs.Changes.{Change, changed};
ghost use Rattle.replay_base.specs.Faults.{HasCause};
ghost use Rattle.replay_tool.specs.Said.{Said, fault_line, kind_line, kind_text, limit_front, limit_line, limit_name, limit_text, most_of};

use chain_build::MOST_LAYERS;
use itoa::Buffer;
use layer_search::MOST_PATHS;
use replay_base::{Failed, MOST_LINE_BYTES, Sink, Which, put_all};
use replay_model::MOST_LINES;
use stream_model::{MOST_DEVICES, MOST_EVENTS};
use trace_format::{MAX_NAMES, TraceFault};

/// One line.
pub fn say<L: Sink>(errs: &mut L, line: &[u8])
    ensures { Said line.now (changed (L.held errs.old) (L.held errs.new) (L.faults errs.old) (L.faults errs.new)) }
{
    let _ = put_all(errs, line);
}

/// One text behind another. After `Failed` the sink took a front of them.
#[tactic(auto, using(crate::proofs::SaidLemmas::all_of_both, crate::proofs::SaidLemmas::front_more, crate::proofs::SaidLemmas::front_behind))]
pub fn put_two<L: Sink>(sink: &mut L, first: &[u8], second: &[u8]) -> Result<(), Failed>
    ensures all { OnOk result (L.held sink.new ≡ grown (L.held sink.old) (first.now ++ second.now)) }
    ensures front { OnErr result (GrownByFront (L.held sink.old) (L.held sink.new) (first.now ++ second.now)) }
    ensures cause { HasCause (L.faults sink.old) (L.faults sink.new) result }
{
    put_all(sink, first)?;
    put_all(sink, second)?;
    Ok(())
}

// A number behind a text.
fn put_number<L: Sink>(errs: &mut L, front: &[u8], number: u64) -> Result<(), Failed>
    ensures all { OnOk result (L.held errs.new ≡ grown (L.held errs.old) (front.now ++ decimal number)) }
    ensures front { OnErr result (GrownByFront (L.held errs.old) (L.held errs.new) (front.now ++ decimal number)) }
    ensures cause { HasCause (L.faults errs.old) (L.faults errs.new) result }
{
    put_two(errs, front, Buffer::new().format(number).as_bytes())?;
    Ok(())
}

fn put_kind<L: Sink>(errs: &mut L, kind: &str) -> Result<(), Failed>
    ensures all { OnOk result (L.held errs.new ≡ grown (L.held errs.old) (kind_text kind.now)) }
    ensures front { OnErr result (GrownByFront (L.held errs.old) (L.held errs.new) (kind_text kind.now)) }
    ensures cause { HasCause (L.faults errs.old) (L.faults errs.new) result }
{
    put_two(errs, b": ", kind.as_bytes())
}

fn put_refusal<L: Sink>(errs: &mut L, line: u64, kind: &str) -> Result<(), Failed>
    ensures { Said (kind_line line kind.now) (changed (L.held errs.old) (L.held errs.new) (L.faults errs.old) (L.faults errs.new)) }
{
    put_number(errs, b"vkreplay: line ", line)?;
    put_kind(errs, kind)?;
    put_all(errs, b"\n")?;
    Ok(())
}

/// The line of an input that is refused at a line of its own, by the name of the cause.
pub fn say_kind<L: Sink>(errs: &mut L, line: u64, kind: &str)
    ensures { Said (kind_line line kind.now) (changed (L.held errs.old) (L.held errs.new) (L.faults errs.old) (L.faults errs.new)) }
{
    let _ = put_refusal(errs, line, kind);
}

/// The line of a trace that stops.
pub fn say_fault<L: Sink>(errs: &mut L, line: u64, fault: TraceFault)
    ensures { Said (fault_line line fault) (changed (L.held errs.old) (L.held errs.new) (L.faults errs.old) (L.faults errs.new)) }
{
    say_kind(errs, line, fault.name())
}

fn name_of(which: Which) -> &'static str
    ensures { result.now ≡ limit_name which }
{
    match which {
        Which::Manifests => "Manifests",
        Which::Lines => "Lines",
        Which::LineBytes => "LineBytes",
        Which::Names => "Names",
        Which::Chain => "Chain",
        Which::Events => "Events",
        Which::Devices => "Devices",
    }
}

fn most_of(which: Which) -> u64
    ensures { result ≡ most_of which }
{
    match which {
        Which::Manifests => MOST_PATHS as u64,
        Which::Lines => MOST_LINES,
        Which::LineBytes => MOST_LINE_BYTES as u64,
        Which::Names => u64::from(MAX_NAMES),
        Which::Chain => MOST_LAYERS as u64,
        Which::Events => MOST_EVENTS as u64,
        Which::Devices => MOST_DEVICES as u64,
    }
}

fn put_name<L: Sink>(errs: &mut L, which: Which) -> Result<(), Failed>
    ensures all { OnOk result (L.held errs.new ≡ grown (L.held errs.old) (limit_front which)) }
    ensures front { OnErr result (GrownByFront (L.held errs.old) (L.held errs.new) (limit_front which)) }
    ensures cause { HasCause (L.faults errs.old) (L.faults errs.new) result }
{
    put_two(errs, b"vkreplay: limit ", name_of(which).as_bytes())?;
    Ok(())
}

fn put_limit<L: Sink>(errs: &mut L, which: Which, most: u64) -> Result<(), Failed>
    ensures { Said (limit_text which most) (changed (L.held errs.old) (L.held errs.new) (L.faults errs.old) (L.faults errs.new)) }
{
    put_name(errs, which)?;
    put_number(errs, b" ", most)?;
    put_all(errs, b"\n")?;
    Ok(())
}

/// The line of a limit that was reached, with the number that it allows where it was.
pub fn say_limit_of<L: Sink>(errs: &mut L, which: Which, most: u64)
    ensures { Said (limit_text which most) (changed (L.held errs.old) (L.held errs.new) (L.faults errs.old) (L.faults errs.new)) }
{
    let _ = put_limit(errs, which, most);
}

/// The line of a limit that a run reached.
pub fn say_limit<L: Sink>(errs: &mut L, which: Which)
    ensures { Said (limit_line which) (changed (L.held errs.old) (L.held errs.new) (L.faults errs.old) (L.faults errs.new)) }
{
    say_limit_of(errs, which, most_of(which))
}

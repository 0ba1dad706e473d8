//! What stands where a source, a sink, a tree or the error sink fails at one of its calls.
use crate::alone::{Ran, TWICE, TWICE_TEXT, ran_between, run_on, run_words};
use crate::ends::{PieceSource, piece_sink, source_of};
use crate::fixtures::{
    CHECKED, DRIVER, Machine, OVERRIDE, OVERRIDING, PLAIN, VALIDATION, lines_in, sink_of,
};
use model_driver::ModelDriver;
use replay_core::Status;
use replay_tool::BlockSink;
use std::alloc::Global;
use std::process::Abort;
use std::test::Fail;

fn whole_source(alloc: Global) -> Result<PieceSource, Fail> {
    Ok(source_of(alloc, TWICE, usize::MAX, usize::MAX)?)
}

// A run over a source that gives one byte a call and fails behind so many, and a sink that takes one and fails behind so many.
fn cut_run(alloc: Global, read: usize, written: usize) -> Result<Ran, Fail> {
    let trace = source_of(alloc, TWICE, 1, read)?;
    run_words(alloc, "run", trace, piece_sink(alloc, 1, written))
}

// How many lines are written, and how many calls the driver is told, by the number of lines of the trace.
const WRITTEN_BY: [usize; 12] = [0, 0, 2, 3, 3, 4, 4, 5, 5, 6, 7, 8];

const TOLD_BY: [usize; 12] = [0, 0, 1, 1, 2, 2, 3, 3, 4, 4, 4, 4];

// Whether these are whole lines of the text, the first ones.
fn has_whole_lines(out: &[u8]) -> bool {
    TWICE_TEXT.as_bytes().starts_with(out) && (out.is_empty() || out.ends_with(b"\n"))
}

#[test]
fn a_source_that_fails_leaves_its_whole_lines(rt: HostRuntime) -> Result<(), Fail> {
    for read in 0..=TWICE.len() {
        let cut = cut_run(rt.alloc(), read, usize::MAX)?;
        let lines = lines_in(&TWICE.as_bytes()[..read]);
        let wanted = (WRITTEN_BY.get(lines).copied(), TOLD_BY.get(lines).copied());
        let counts = (Some(lines_in(&cut.out.bytes)), Some(cut.told));
        let shown = (cut.ended.status, has_whole_lines(&cut.out.bytes), counts);
        assert_eq!(rt; shown, (Status::ReadFault, true, wanted), "{read}");
    }
    Ok(())
}

// The driver is told a call before its line is written, the first before the two lines of the chain, and four calls in all.
fn told_behind(text: &[u8]) -> usize {
    lines_in(text).saturating_sub(1).max(1).min(4)
}

// The line of the trace in whose text the sink failed: the first by which more lines are written than stand there, or the last.
fn line_of_cut(text: &[u8]) -> usize {
    let whole = lines_in(text);
    WRITTEN_BY
        .iter()
        .position(|written| *written > whole)
        .unwrap_or(11)
}

// Of a source of one byte a call just the lines up to the one in whose text the sink failed were read.
fn has_read_lines(cut: &Ran) -> bool {
    match TWICE.as_bytes().get(..cut.read) {
        None => false,
        Some(read) => read.ends_with(b"\n") && lines_in(read) == line_of_cut(&cut.out.bytes),
    }
}

// And where nothing fails, one byte a call is enough.
#[test]
fn a_sink_that_fails_has_a_front_of_the_text(rt: HostRuntime) -> Result<(), Fail> {
    for written in 0..TWICE_TEXT.len() {
        let cut = cut_run(rt.alloc(), usize::MAX, written)?;
        let is_front = cut.out.bytes.as_slice() == &TWICE_TEXT.as_bytes()[..written];
        let shown = (cut.ended.status, is_front, cut.told, has_read_lines(&cut));
        let told = told_behind(&cut.out.bytes);
        assert_eq!(rt; shown, (Status::WriteFault, true, told, true), "{written}");
    }
    let whole = cut_run(rt.alloc(), usize::MAX, usize::MAX)?;
    assert_eq!(rt; (whole.ended.status, whole.told), (Status::Reported, 4));
    assert!(rt; whole.out.bytes.as_slice() == TWICE_TEXT.as_bytes());
    Ok(())
}

// A run whose write with this number fails.
fn ran_to_write(alloc: Global, write: usize) -> Result<Ran, Fail> {
    let mut out = piece_sink(alloc, usize::MAX, usize::MAX);
    out.fails_call = write;
    run_words(alloc, "run", whole_source(alloc)?, out)
}

// Goes through the writes until one isn't made: there is one for each line, or fewer. Before that whole lines are written, and a call
// was told before its line stands there, the first behind the two lines of the chain.
#[test]
fn a_sink_that_fails_at_any_write_has_whole_lines(rt: HostRuntime) -> Result<(), Fail> {
    for write in 1..1000usize {
        let ran = ran_to_write(rt.alloc(), write)?;
        if ran.ended.status == Status::Reported {
            assert!(rt; ran.out.bytes.as_slice() == TWICE_TEXT.as_bytes());
            assert!(rt; 1 < write && write < 12);
            return Ok(());
        }
        let is_told = lines_in(&ran.out.bytes).saturating_sub(2).min(4) <= ran.told;
        let shown = (ran.ended.status, has_whole_lines(&ran.out.bytes), is_told);
        assert_eq!(rt; shown, (Status::WriteFault, true, true), "{write}");
    }
    Err("each write fails".into())
}

// How many pieces a sink in blocks hands on of a run over a source that gives so many bytes a call at most.
fn pieces_of(alloc: Global, most: usize) -> Result<usize, Fail> {
    let mut trace = source_of(alloc, TWICE, most, usize::MAX)?;
    let room = Vec::with_capacity(alloc, 4096)?;
    let mut out = BlockSink::new(piece_sink(alloc, usize::MAX, usize::MAX), room);
    let mut errs = sink_of(alloc, 4096, &[])?;
    let mut driver = ModelDriver::new(alloc);
    run_on(
        alloc,
        &PLAIN,
        0,
        &mut trace,
        &mut out,
        &mut errs,
        &mut driver,
    )?;
    Ok(out.inner.pieces)
}

// Seven events of the trace write something, and the end line is one piece more. Where the source gives all at once, all lines are one.
#[test]
fn nothing_is_held_back_while_the_source_may_wait(rt: HostRuntime) -> Result<(), Fail> {
    let pieces = [
        pieces_of(rt.alloc(), 1)?,
        pieces_of(rt.alloc(), usize::MAX)?,
    ];
    assert_eq!(rt; pieces, [8, 2]);
    Ok(())
}

// A run over a machine whose tree fails at the call with this number.
fn ran_failing(alloc: Global, machine: &Machine, call: u64) -> Result<Ran, Fail> {
    let out = piece_sink(alloc, usize::MAX, usize::MAX);
    ran_between(alloc, machine, call, whole_source(alloc)?, out, 4096)
}

// Nothing is read of the trace, written or told.
fn shows_nothing(rt: &impl Abort, ran: &Ran, words: &str, call: u64) {
    let shown = (
        ran.ended.status,
        ran.ended.comes_back,
        ran.errs.bytes(),
        [ran.out.bytes.len(), ran.read, ran.told],
    );
    let said = b"vkreplay: read fault\n".as_slice();
    assert_eq!(rt;
        shown,
        (Status::ReadFault, false, said, [0, 0, 0]),
        "{words} {call}"
    );
}

// No file, a driver with a layer, and besides an override with a folder of one layer; and how many calls there are. Where HOME is
// set, six folders are searched for drivers, six for implicit layers and six for explicit ones, two of them below HOME and four of
// the system's; and each file is read.
static TREES: [(Machine, u64); 3] = [
    (
        Machine {
            files: &[],
            ..PLAIN
        },
        18,
    ),
    (CHECKED, 20),
    (
        Machine {
            files: &[DRIVER, VALIDATION, OVERRIDE, OVERRIDING],
            ..PLAIN
        },
        23,
    ),
];

// A failure of any of them stops a command, and one behind them stops none.
fn stops_at_each_call(
    rt: &impl Abort,
    alloc: Global,
    machine: &Machine,
    count: u64,
) -> Result<(), Fail> {
    for call in 1..=count {
        let ran = ran_failing(alloc, machine, call)?;
        shows_nothing(rt, &ran, machine.words, call);
    }
    let ran = ran_failing(alloc, machine, count.saturating_add(1))?;
    assert!(rt; ran.errs.bytes().is_empty(), "{count}");
    Ok(())
}

#[test]
fn a_tree_that_fails_at_any_call_stops_a_command(rt: HostRuntime) -> Result<(), Fail> {
    for (machine, count) in TREES {
        for words in ["run", "chain", "soak --number 0 --calls 3"] {
            stops_at_each_call(&rt, rt.alloc(), &Machine { words, ..machine }, count)?;
        }
    }
    Ok(())
}

// The words and the trace of a run, the call of the tree that fails, or 0 for none, and behind how many bytes the sink does; and its
// status.
#[derive(Clone, Copy)]
struct Said {
    words: &'static str,
    trace: &'static str,
    call: u64,
    room: usize,
    status: Status,
}

const UNSAID: Said = Said {
    words: "run",
    trace: "vktrace 1\nb 1 vkCreateInstance = %1.1 VK_SUCCESS\nr 1\n",
    call: 0,
    room: usize::MAX,
    status: Status::Clean,
};

static SAID: [Said; 7] = [
    UNSAID,
    Said {
        trace: TWICE,
        status: Status::Reported,
        ..UNSAID
    },
    Said {
        words: "run --driver any",
        status: Status::Usage,
        ..UNSAID
    },
    Said {
        trace: "vktrace\n",
        status: Status::Malformed,
        ..UNSAID
    },
    Said {
        call: 3,
        status: Status::ReadFault,
        ..UNSAID
    },
    Said {
        words: "chain",
        call: 3,
        status: Status::ReadFault,
        ..UNSAID
    },
    Said {
        room: 0,
        status: Status::WriteFault,
        ..UNSAID
    },
];

// A run with room for so many bytes of what is said.
fn said_over(alloc: Global, said: &Said, room: usize) -> Result<Ran, Fail> {
    let machine = Machine {
        words: said.words,
        ..PLAIN
    };
    let trace = source_of(alloc, said.trace, usize::MAX, usize::MAX)?;
    let out = piece_sink(alloc, usize::MAX, said.room);
    ran_between(alloc, &machine, said.call, trace, out, room)
}

// An error sink with room for a part of the line has a front of it, and all else is as in the whole run.
#[test]
fn an_error_sink_that_fails_changes_no_status(rt: HostRuntime) -> Result<(), Fail> {
    for said in SAID.iter() {
        let whole = said_over(rt.alloc(), said, 4096)?;
        assert_eq!(rt; whole.ended.status, said.status);
        for room in 0..12 {
            let ran = said_over(rt.alloc(), said, room)?;
            let shown = (
                ran.ended.status,
                ran.out.bytes == whole.out.bytes,
                whole.errs.bytes().starts_with(ran.errs.bytes()),
            );
            assert_eq!(rt; shown, (said.status, true, true), "{room}");
        }
    }
    Ok(())
}

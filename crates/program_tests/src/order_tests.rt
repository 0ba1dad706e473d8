//! The steps of two threads on one device, in each order of their four events: no clause says that workers run beside each other, and
//! no stored output shows it. In some of them both calls are with the driver at once, which so is called under no lock. Beside that
//! each thread begins a call on a device of its own, under that device's lock, while the other does.
use crate::conductor::{CROWD, Conducted, Conductor, Step};
use crate::ends::source_of;
use crate::fixtures::{Machine, sink_of};
use crate::threads::{CHECKED, Ran, behind_device, is_done, is_refused, run_on};
use Step::{FirstBegins, FirstReturns, SecondBegins, SecondReturns};
use model_driver::{RecordingShared, SharedModel};
use replay_core::Status;
use std::alloc::{AllocError, Global};
use std::process::Abort;
use std::str::from_utf8;
use std::sync::Wait;
use std::sync::atomic::Ordering;
use std::test::Fail;
use std::thread::Threads;
use stream_workers::{Gate, NoGate};

// The shared device is the first one; the others are each thread's own.
const CROSSED: &str =
    "b 1 vkCreateDevice %1.2 = %1.4 VK_SUCCESS\nr 1\nb 1 vkCreateDevice %1.2 = %1.5 VK_SUCCESS\nr 1\nb 1 vkGetDeviceQueue %1.3 = %1.6 void : 0,0\nr 1\nstream 1\nb 1 vkDeviceWaitIdle %1.4 VK_SUCCESS\nr 1\nb 1 vkQueueSubmit %1.6 [] [] [] null VK_SUCCESS\nr 1\nstream 2\nb 2 vkCreateFence %1.5 = %2.1 VK_SUCCESS\nr 2\nb 2 vkQueueWaitIdle %1.6 VK_SUCCESS\nr 2\nteardown\n";

// Each order, and how many calls are reported: two uses of a queue that overlap, at the later.
static ORDERS: [([Step; 4], &str); 6] = [
    (
        [FirstBegins, FirstReturns, SecondBegins, SecondReturns],
        "reports=0\n",
    ),
    (
        [SecondBegins, SecondReturns, FirstBegins, FirstReturns],
        "reports=0\n",
    ),
    (
        [FirstBegins, SecondBegins, FirstReturns, SecondReturns],
        "reports=1\n",
    ),
    (
        [FirstBegins, SecondBegins, SecondReturns, FirstReturns],
        "reports=1\n",
    ),
    (
        [SecondBegins, FirstBegins, FirstReturns, SecondReturns],
        "reports=1\n",
    ),
    (
        [SecondBegins, FirstBegins, SecondReturns, FirstReturns],
        "reports=1\n",
    ),
];

// The line of a step: of the returns the last one of the trace.
fn line_of(step: Step) -> &'static str {
    match step {
        FirstBegins => "\nb 1 vkQueueSubmit",
        FirstReturns => "\nr 1\n",
        SecondBegins => "\nb 2 vkQueueWaitIdle",
        SecondReturns => "\nr 2\n",
    }
}

// Whether the steps stand in this order in what was printed, and the end is this.
fn is_in_order(printed: &str, order: &[Step; 4], end: &str) -> bool {
    let (trace, text) = printed.split_once("text\n").unwrap_or((printed, ""));
    let mut last = None;
    for step in order {
        let place = trace.rfind(line_of(*step));
        if place.is_none() || place <= last {
            return false;
        }
        last = place;
    }
    text.ends_with(end)
}

// A run of a file with this conductor.
fn conducted<H: Threads + Wait + Sync, G: Gate>(
    rt: &H,
    alloc: Global,
    machine: &Machine,
    rest: &str,
    conductor: &Conductor,
    gate: &G,
) -> Result<Ran, Fail> {
    let driver = RecordingShared::new(Conducted {
        inner: SharedModel::new(),
        by: conductor,
    });
    let file = behind_device(alloc, rest)?;
    let mut streams = source_of(alloc, &file, usize::MAX, usize::MAX)?;
    let out = sink_of(alloc, 65_536, &[])?;
    run_on(rt, alloc, machine, 0, &mut streams, out, &driver, gate)
}

fn makes<H: Abort + Threads + Wait + Sync>(
    rt: &H,
    alloc: Global,
    order: [Step; 4],
    end: &str,
) -> Result<(), Fail> {
    let conductor = Conductor::new(order);
    let ran = conducted(rt, alloc, &CHECKED, CROSSED, &conductor, &conductor)?;
    assert_eq!(rt; conductor.gave_up.load(Ordering::SeqCst), 0);
    assert_eq!(rt; conductor.apart.load(Ordering::SeqCst), 2);
    assert_eq!(rt; conductor.turn.load(Ordering::SeqCst), 4);
    let printed = from_utf8(ran.out.bytes()).ok().ok_or("no text")?;
    assert!(rt; is_in_order(printed, &order, end), "{printed}");
    Ok(())
}

#[test]
fn two_threads_in_each_order(rt: HostRuntime) -> Result<(), Fail> {
    for (order, end) in ORDERS {
        makes(&rt, rt.alloc(), order, end)?;
    }
    Ok(())
}

// What stands behind the device, how many layers are on, and how the run ends.
static REFUSED: [(&str, u32, Status, &str); 2] = [
    (
        "teardown\n",
        65,
        Status::Limit,
        "vkreplay: limit Chain 64\n",
    ),
    (
        "stream 1\nb 1 vkDestroyDevice %1.3 void\nr 1\nteardown\n",
        64,
        Status::Malformed,
        "vkreplay: line 10: NotInStream\n",
    ),
];

// That no driver is told anything of a file whose chain is too long, or that is refused at a line.
#[test]
fn no_driver_is_told_of_what_is_refused(rt: HostRuntime) -> Result<(), Fail> {
    for (rest, layers, status, said) in REFUSED {
        let conductor = Conductor::new(ORDERS[0].0);
        let machine = Machine {
            layers,
            env: &[("VK_LOADER_LAYERS_ENABLE", "*")],
            ..CHECKED
        };
        let ran = conducted(&rt, rt.alloc(), &machine, rest, &conductor, &conductor)?;
        is_refused(&rt, &ran, status, said);
        assert_eq!(rt; conductor.calls.load(Ordering::SeqCst), 0);
    }
    Ok(())
}

// As many streams as a file may have, each with one call that the driver keeps until all have come.
fn all_streams(alloc: Global) -> Result<String, AllocError> {
    let mut text = String::new(alloc);
    for stream in 1..CROWD + 1 {
        let call = format!(in alloc;
            "stream {stream}\nb {stream} vkDestroySampler %1.3 null void\nr {stream}\n"
        )?;
        text.push_str(&call)?;
    }
    text.push_str("teardown\n")?;
    Ok(text)
}

#[test]
fn all_streams_are_in_the_driver_at_once(rt: HostRuntime) -> Result<(), Fail> {
    let conductor = Conductor::new(ORDERS[0].0);
    let rest = all_streams(rt.alloc())?;
    let ran = conducted(&rt, rt.alloc(), &CHECKED, &rest, &conductor, &NoGate)?;
    let counts = (
        conductor.gave_up.load(Ordering::SeqCst),
        conductor.crowd.load(Ordering::SeqCst),
    );
    assert_eq!(rt; counts, (0, CROWD));
    is_done(&rt, &ran, Status::Clean, 132);
    Ok(())
}

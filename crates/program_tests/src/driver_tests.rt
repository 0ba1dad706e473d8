//! What the drivers are told, and that no text comes of which handles they answer. What each of these traces prints is a stored case.
ghost use Rattle.std.specs.Prelude.{IsTrue};
ghost use Rattle.model_driver.specs.Driver.{are_handles};

use crate::alone::run_on;
use crate::driver_table::{ANSWERED, BY_POLICY, FIRST, Row, SKIPPED_AND_LOST, TWICE_AND_AGAIN};
use crate::fixtures::{lines_of, put_told, sink_of};
use model_driver::{AdverseDriver, Driver, ModelDriver, RecordingDriver};
use replay_base::{MemSink, MemSource};
use std::alloc::{AllocError, Global};
use std::process::Abort;
use std::test::Fail;

fn trace_of(alloc: Global, row: &Row) -> Result<MemSource, AllocError> {
    let behind = if row.with_returns { "\n" } else { "\nr 1\n" };
    let events = lines_of(alloc, row.events, behind)?;
    let trace = format!(in alloc; "vktrace 1\n{events}")?;
    let bytes = Vec::from_slice(alloc, trace.as_bytes())?;
    Ok(MemSource::new(bytes, Vec::new(alloc)))
}

// What is printed, where nothing is said.
fn printed_under<D: Driver>(
    rt: &impl Abort,
    alloc: Global,
    row: &Row,
    driver: &mut D,
) -> Result<MemSink, Fail> {
    let mut trace = trace_of(alloc, row)?;
    let mut out = sink_of(alloc, 4096, &[])?;
    let mut errs = sink_of(alloc, 4096, &[])?;
    run_on(
        alloc,
        &row.machine,
        0,
        &mut trace,
        &mut out,
        &mut errs,
        driver,
    )?;
    assert!(rt; errs.bytes().is_empty());
    Ok(out)
}

fn tells<D: Driver + Drop>(
    rt: &impl Abort,
    alloc: Global,
    row: &Row,
    inner: D,
    told: &[&str],
) -> Result<MemSink, Fail> {
    let mut driver = RecordingDriver::new(alloc, inner);
    let out = printed_under(rt, alloc, row, &mut driver)?;
    let mut calls = String::new(alloc);
    put_told(&mut calls, driver.log())?;
    let told = lines_of(alloc, told, "\n")?;
    assert_eq!(rt; calls.as_str(), told.as_str());
    Ok(out)
}

// A driver that answers these handles, and 1 behind them: the text is the same.
fn prints_under(
    rt: &impl Abort,
    alloc: Global,
    row: &Row,
    handles: &[u64],
    text: &[u8],
) -> Result<(), Fail>
    requires { IsTrue (are_handles handles.now) }
{
    let mut driver = AdverseDriver::new(Vec::from_slice(alloc, handles)?);
    let out = printed_under(rt, alloc, row, &mut driver)?;
    assert!(rt; out.bytes() == text, "{handles:?}");
    Ok(())
}

// One handle for all; the greatest one for all; one for each object; those that the layer for unique handles counts itself; and
// these in another order.
fn prints_under_each(rt: &impl Abort, alloc: Global, row: &Row, text: &[u8]) -> Result<(), Fail> {
    const M: u64 = u64::MAX;
    prints_under(rt, alloc, row, &[1], text)?;
    prints_under(rt, alloc, row, &[M, M, M, M, M, M, M, M, M, M, M, M], text)?;
    prints_under(
        rt,
        alloc,
        row,
        &[109, 108, 107, 106, 105, 104, 103, 102, 101],
        text,
    )?;
    prints_under(
        rt,
        alloc,
        row,
        &[1, 2, 3, 4, 5, 6, 7, 8, 9, 10, 11, 12],
        text,
    )?;
    prints_under(
        rt,
        alloc,
        row,
        &[2, 1, 4, 3, 6, 5, 8, 7, 10, 9, 12, 11],
        text,
    )
}

// The drivers are told these calls, and the text is the same whatever they answer.
fn are_told(rt: &impl Abort, alloc: Global, rows: &[Row]) -> Result<(), Fail> {
    for row in rows {
        let out = tells(rt, alloc, row, ModelDriver::new(alloc), row.told)?;
        prints_under_each(rt, alloc, row, out.bytes())?;
    }
    Ok(())
}

#[test]
fn the_drivers_are_told_what_they_answered(rt: HostRuntime) -> Result<(), Fail> {
    are_told(&rt, rt.alloc(), &ANSWERED)
}

#[test]
fn no_driver_is_told_what_is_skipped(rt: HostRuntime) -> Result<(), Fail> {
    are_told(&rt, rt.alloc(), &SKIPPED_AND_LOST)
}

#[test]
fn the_drivers_are_told_their_last_values(rt: HostRuntime) -> Result<(), Fail> {
    are_told(&rt, rt.alloc(), &TWICE_AND_AGAIN)
}

#[test]
fn the_drivers_answer_by_the_policy_of_the_words(rt: HostRuntime) -> Result<(), Fail> {
    are_told(&rt, rt.alloc(), &BY_POLICY)
}

#[test]
fn the_driver_may_answer_one_handle_twice(rt: HostRuntime) -> Result<(), Fail> {
    let alloc = rt.alloc();
    let adverse = AdverseDriver::new(Vec::from_slice(alloc, &[7, 7, 9])?);
    let told = [
        "1 vkCreateInstance asked=1 VK_SUCCESS -> [7]",
        "1 vkEnumeratePhysicalDevices [7] asked=1 VK_SUCCESS -> [7]",
        "1 vkCreateDevice [7] asked=1 VK_SUCCESS -> [9]",
        "1 vkDestroyDevice [9] asked=0 void -> []",
        "1 vkDestroyInstance [7] asked=0 void -> []",
    ];
    tells(&rt, alloc, &FIRST, adverse, &told)?;
    Ok(())
}

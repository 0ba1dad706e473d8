//! All streams of a file beside each other.
ghost use Rattle.std.specs.Prelude.{◌≡◌, IfOk, Some, map, option_map};
ghost use Rattle.std.specs.List.{AllByRecursion, flat_map};
ghost use Rattle.trace_format.specs.Content.{content};
ghost use Rattle.model_driver.specs.Driver.{reply_shown};
ghost use Rattle.stream_model.specs.FileParts.{FileParts};
ghost use Rattle.threaded_replay.specs.Files.{file_parts};
ghost use Rattle.device_shard.specs.Making.{AreNamedBy};
ghost use Rattle.device_shard.specs.Plans.{plan_content};
ghost use Rattle.device_shard.specs.Sets.{log_of, logs_of};
ghost use Rattle.stream_crew.specs.Crews.{HaveRoom};
ghost use Rattle.stream_workers.specs.Work.{course};
ghost use Rattle.log_merge.specs.Numbered.{closed_lines};
ghost use Rattle.stream_run.specs.Gathering.{IsGathered};
ghost use Rattle.stream_run.specs.Naming.{CanRun};
ghost use Rattle.stream_run.specs.Preparing.{IsPrepared, calls_of_file};
ghost use Rattle.stream_run.specs.Running.{HasRun, IsReadyToRun};
ghost use Rattle.stream_run.specs.Spending.{tokens_held};
ghost use Rattle.stream_run.specs.Working.{HaveWorked, IsLeft};

use crate::laws::{a_ready_file_can_be_run, what_was_made_is_a_merge};
use crate::merged::{Merged, merged_of};
use crate::prepare::{Prepared, prepare};
use crate::spent::take_apart;
use chain_session::Session;
use command_tables::NoMemory;
use device_shard::{Plan, ShardNames, ShardSet};
use model_driver::SharedDriver;
use std::alloc::Global;
use std::marker::Brand;
use std::sync::Wait;
use std::thread::Threads;
use stream_crew::make_workers;
use stream_threads::run_all;
use stream_workers::{Gate, Worker};
use threaded_replay::StreamFile;

// A set of shards with these names, and the workers of a file, which have made all their calls over it; with the plans.
fn work_on<N: ShardNames + Send + Sync, H: Threads + Wait + Sync, D: SharedDriver, G: Gate>(
    rt: &H,
    alloc: Global,
    session: &Session,
    prepared: Prepared,
    driver: &D,
    gate: &G,
    seats: Vec<D::Seat>,
) -> Result<(ShardSet<N>, Vec<Plan>, Vec<Worker<D::Seat>>), NoMemory>
    requires can { (file : FileParts) × IsPrepared file prepared × CanRun (option_map (λ x. x.value.kept) session.now.started) file prepared N.shards × HaveRoom D.room seats.items (calls_of_file file) }
    requires clock { N.clock ≡ prepared.clock }
    ensures plans { IfOk result (λ r. r.1 ≡ prepared.plans) }
    ensures worked { IfOk result (λ r. (file : FileParts) → IsPrepared file prepared → CanRun (option_map (λ x. x.value.kept) session.now.started) file prepared N.shards → HaveRoom D.room seats.items (calls_of_file file) →
        HaveWorked D.room D.log (course N.shards N.clock (map plan_content prepared.plans.items)) file seats.items r.2.items) }
    ensures policy { IfOk result (λ r. map (λ w. D.answers_by w.seat) r.2.items ≡ map D.answers_by seats.items) }
{
    let Prepared {
        plans,
        places,
        threads,
        logs,
        clock,
        mut tick,
    } = prepared;
    let (set, tokens) = ShardSet::<N>::new(alloc, session, &plans, logs, &clock, &mut tick)?;
    let mut workers = make_workers(
        alloc, &plans, &threads, places, tokens, &clock, &mut tick, seats,
    )?;
    run_all(
        rt,
        &set,
        gate,
        session.table(),
        &plans,
        &clock,
        driver,
        &mut workers,
    );
    Ok((set, plans, workers))
}

// What workers leave that have made all their calls, with the closed logs and what these say.
fn close_all<N: ShardNames, S: Drop>(
    alloc: Global,
    file: &StreamFile,
    set: ShardSet<N>,
    plans: &[Plan],
    workers: Vec<Worker<S>>,
) -> Result<(Merged, Vec<S>), NoMemory>
    requires { AllByRecursion (λ t. log_of N.shards t.0 ≡ Some t.1.log) (flat_map (λ w. tokens_held (map (λ p. p.device) (map plan_content plans.now)) w.tokens.items) workers.items) }
    ensures seats { IfOk result (λ r. r.1.items ≡ map (λ w. w.seat) workers.items) }
    ensures left { IfOk result (λ r. IsLeft N.shards (map plan_content plans.now) workers.items r.0.logs.items) }
    ensures gathered { IfOk result (λ r. IsGathered (file_parts file.now).streams (map (λ w. w.sent.items) workers.items) (map closed_lines r.0.logs.items) (map content r.0.events.items) (map reply_shown r.0.replies.items)) }
{
    let spent = take_apart(alloc, plans, workers)?;
    let closed = set.close(alloc, spent.tokens)?;
    let merged = merged_of(alloc, file, closed, &spent.sent)?;
    Ok((merged, spent.seats))
}

// All of it, over a set of shards with these names.
fn run_on<N: ShardNames + Send + Sync, H: Threads + Wait + Sync, D: SharedDriver, G: Gate>(
    rt: &H,
    alloc: Global,
    file: &StreamFile,
    session: &Session,
    prepared: Prepared,
    driver: &D,
    gate: &G,
    seats: Vec<D::Seat>,
) -> Result<(Merged, Vec<D::Seat>), NoMemory>
    requires ready { IsReadyToRun (option_map (λ x. x.value.kept) session.now.started) (file_parts file.now) }
    requires prepared { IsPrepared (file_parts file.now) prepared }
    requires names { AreNamedBy (option_map (λ x. x.value.kept) session.now.started) (map plan_content prepared.plans.items) N.shards }
    requires logs { logs_of N.shards ≡ map (λ l. l.0) prepared.logs.items }
    requires clock { N.clock ≡ prepared.clock }
    requires seats { HaveRoom D.room seats.items (calls_of_file (file_parts file.now)) }
    ensures ran { IfOk result (λ r. HasRun D.log (option_map (λ x. x.value.kept) session.now.started) (file_parts file.now) seats.items (map content r.0.events.items) (map reply_shown r.0.replies.items) r.0.logs.items r.1.items) }
    ensures policy { IfOk result (λ r. map D.answers_by r.1.items ≡ map D.answers_by seats.items) }
{
    a_ready_file_can_be_run();
    what_was_made_is_a_merge();
    let (set, plans, workers) = work_on::<N, H, D, G>(
        rt, alloc, session, prepared, driver, gate, seats,
    )?;
    let ran = close_all(alloc, file, set, &plans, workers)?;
    Ok(ran)
}

/// Makes the calls of all streams of a file, those of a stream by one worker, each in a thread of its own where one can be made, and puts what they
/// did in one order. All room is taken before the first worker starts. There is a seat for each stream, in the file's order, with room for the
/// calls of the stream, their handles and their payload bytes; the seats come back in this order. After `NoMemory` they are gone. `gate` is called
/// after each step, under the lock of its device.
pub fn run_streams<H: Threads + Wait + Sync, D: SharedDriver, G: Gate>(
    rt: &H,
    alloc: Global,
    file: &StreamFile,
    session: &Session,
    driver: &D,
    gate: &G,
    seats: Vec<D::Seat>,
) -> Result<(Merged, Vec<D::Seat>), NoMemory>
    requires ready { IsReadyToRun (option_map (λ x. x.value.kept) session.now.started) (file_parts file.now) }
    requires seats { HaveRoom D.room seats.items (calls_of_file (file_parts file.now)) }
    ensures ran { IfOk result (λ r. HasRun D.log (option_map (λ x. x.value.kept) session.now.started) (file_parts file.now) seats.items (map content r.0.events.items) (map reply_shown r.0.replies.items) r.0.logs.items r.1.items) }
    ensures policy { IfOk result (λ r. map D.answers_by r.1.items ≡ map D.answers_by seats.items) }
{
    a_ready_file_can_be_run();
    let prepared = prepare(alloc, file)?;
    run_on::<Brand, H, D, G>(rt, alloc, file, session, prepared, driver, gate, seats)
}

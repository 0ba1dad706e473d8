//! Calls with their replies, in vectors that grow only where they are told to.
ghost use Rattle.std.specs.Prelude.{◌≡◌, ◌≤◌, ◌<◌, ◌+◌, ◌++◌, ◌∷◌, ◌^◌, [], drop, take, length, IfOk, OnOk};
ghost use Rattle.command_tables.specs.Handles.{count_in, list_at};
ghost use Rattle.model_driver.specs.Driver.{call_shown, reply_shown};
ghost use Rattle.model_driver.specs.Logs.{exchanges_shown};
ghost use Rattle.model_driver.specs.Flat.{AreCalls, FitsFlat, NoLess, TakesCall, exchange_of, exchanges_of};

use crate::call_head::CallHead;
use crate::driver::{DriverCall, DriverReply};
use crate::flat_lists::FlatLists;
use command_tables::{HandleArgs, LayerCall, NoMemory};
use std::alloc::Global;
use std::marker::Model;

/// Calls with their replies, in order. Contracts see besides what can be held with no further memory.
#[derive(Drop)]
pub struct FlatCalls {
    heads: Vec<CallHead>,
    // Of each call a list for each parameter, and then that of its reply.
    lists: FlatLists<u64>,
    payloads: FlatLists<u8>,
}

impl Model for FlatCalls {
    ghost use Rattle.std.specs.Prelude.{◌-◌, ◌<◌, ◌^◌, length, vec_capacity, vec_len};
    ghost use Rattle.model_driver.specs.Flat.{FlatCallsState, AreCalls, exchanges_of};

    ghost Value = { FlatCallsState };

    ghost view = { λ f. record { calls = exchanges_of f.heads.items f.lists.lists f.payloads.lists; room = record { heads = vec_capacity f.heads - vec_len f.heads; lists = f.lists.slots; payloads = f.payloads.slots; handles = f.lists.room; bytes = f.payloads.room } } };

    ghost invariant = { λ f. AreCalls f.heads.items (length f.lists.lists) (length f.payloads.lists) × (length f.lists.lists < 2 ^ 64) };
}

// Adds the list of each parameter.
#[tactic(auto, using(std::proofs::lemmas::List::take_all, crate::proofs::Flats::more_lists, crate::proofs::Flats::count_more, crate::proofs::Flats::count_within))]
fn push_args(lists: &mut FlatLists<u64>, args: &HandleArgs<6>)
    requires slots { length args.now.lists ≤ lists.old.slots }
    requires room { count_in args.now.lists ≤ lists.old.room }
    ensures lists { lists.new.lists ≡ lists.old.lists ++ args.now.lists }
    ensures count { lists.new.count ≡ lists.old.count + count_in args.now.lists }
    ensures slots { lists.old.slots ≤ lists.new.slots + length args.now.lists }
    ensures room { lists.old.room ≤ lists.new.room + count_in args.now.lists }
{
    for p in 0..args.len() {
        lists.push_reserved(args.param(p));
    }
}

// So many lists from a place on, as the parameters of a call.
#[tactic(auto, using(crate::proofs::Flats::more_at, crate::proofs::Flats::few_taken))]
fn args_at(
    alloc: Global,
    lists: &FlatLists<u64>,
    at: usize,
    params: usize,
) -> Result<HandleArgs<6>, NoMemory>
    requires few { params ≤ 6 }
    requires within { at + params ≤ length lists.now.lists }
    requires fits { length lists.now.lists < 2 ^ 64 }
    ensures { IfOk result (λ args. args.lists ≡ take params (drop at lists.now.lists)) }
{
    let mut args = HandleArgs::new(alloc);
    for p in 0..params {
        args.push_param(lists.list(at + p))?;
    }
    Ok(args)
}

// A call with its reply, whose lists stand from a place on.
fn exchange_at(
    alloc: Global,
    head: &CallHead,
    lists: &FlatLists<u64>,
    at: usize,
    payload: &[u8],
) -> Result<(DriverCall, DriverReply), NoMemory>
    requires few { head.now.params ≤ 6 }
    requires within { at + head.now.params < length lists.now.lists }
    requires fits { length lists.now.lists < 2 ^ 64 }
    ensures { IfOk result (λ made. (call_shown made.0, reply_shown made.1) ≡ exchange_of head.now (take head.now.params (drop at lists.now.lists)) payload.now (list_at lists.now.lists (at + head.now.params))) }
{
    let args = args_at(alloc, lists, at, head.params)?;
    let payload = Vec::from_slice(alloc, payload)?;
    let handles = Vec::from_slice(alloc, lists.list(at + head.params))?;
    let body = LayerCall {
        cmd: head.cmd,
        args,
        asked: head.asked,
        code: head.code,
        payload,
    };
    let call = DriverCall {
        driver: head.driver,
        body,
    };
    let reply = DriverReply {
        code: head.code,
        handles,
    };
    Ok((call, reply))
}

// Adds copies of calls with their replies.
fn append_calls(
    heads: &[CallHead],
    lists: &FlatLists<u64>,
    payloads: &FlatLists<u8>,
    out: &mut Vec<(DriverCall, DriverReply)>,
) -> Result<(), NoMemory>
    requires whole { AreCalls heads.now (length lists.now.lists) (length payloads.now.lists) }
    requires fits { length lists.now.lists < 2 ^ 64 }
    ensures { OnOk result (exchanges_shown out.new.items ≡ exchanges_shown out.old.items ++ exchanges_of heads.now lists.now.lists payloads.now.lists) }
{
    let alloc = *out.allocator();
    let mut at = 0;
    for i in 0..heads.len() {
        let head = heads[i];
        let made = exchange_at(alloc, &head, lists, at, payloads.list(i))?;
        out.push(made)?;
        at += head.params + 1;
    }
    Ok(())
}

impl FlatCalls {
    pub fn new(alloc: Global) -> FlatCalls
        ensures { result.calls ≡ [] }
    {
        FlatCalls {
            heads: Vec::new(alloc),
            lists: FlatLists::new(alloc),
            payloads: FlatLists::new(alloc),
        }
    }

    /// Makes room for so many calls more, with so many handles of their arguments and replies together, and so many payload
    /// bytes. Even after `NoMemory` no room is lost.
    pub fn reserve(&mut self, calls: u32, handles: u32, bytes: usize) -> Result<(), NoMemory>
        ensures calls { self.new.calls ≡ self.old.calls }
        ensures room { OnOk result (FitsFlat (record { calls = calls; handles = handles; bytes = bytes }) self.new.room) }
        ensures kept { NoLess self.old.room self.new.room }
    {
        self.heads.reserve(calls as usize)?;
        self.lists.reserve(7 * calls as usize, handles as usize)?;
        self.payloads.reserve(calls as usize, bytes)?;
        Ok(())
    }

    /// Adds a call with its reply, and says how many handles they have. It takes no memory.
    pub fn push_reserved(&mut self, call: &DriverCall, reply: &DriverReply) -> usize
        requires code { reply.now.code ≡ call.now.body.code }
        requires room { FitsFlat (record { calls = 1; handles = count_in call.now.body.args.lists + length reply.now.handles.items; bytes = length call.now.body.payload.items }) self.old.room }
        ensures calls { self.new.calls ≡ self.old.calls ++ (call_shown call.now, reply_shown reply.now) ∷ [] }
        ensures handles { result ≡ count_in call.now.body.args.lists + length reply.now.handles.items }
        ensures room { TakesCall (count_in call.now.body.args.lists + length reply.now.handles.items) (length call.now.body.payload.items) self.old.room self.new.room }
    {
        let params = call.body.args.len();
        let before = self.lists.count();
        push_args(&mut self.lists, &call.body.args);
        self.lists.push_reserved(&reply.handles);
        self.payloads.push_reserved(&call.body.payload);
        self.heads.push_reserved(CallHead {
            driver: call.driver,
            cmd: call.body.cmd,
            params,
            asked: call.body.asked,
            code: call.body.code,
        });
        self.lists.count() - before
    }

    /// Adds copies of the calls to a list. After `NoMemory` anything stands behind what was there.
    pub fn append_to(&self, out: &mut Vec<(DriverCall, DriverReply)>) -> Result<(), NoMemory>
        ensures { OnOk result (exchanges_shown out.new.items ≡ exchanges_shown out.old.items ++ self.now.calls) }
    {
        append_calls(&self.heads, &self.lists, &self.payloads, out)
    }
}

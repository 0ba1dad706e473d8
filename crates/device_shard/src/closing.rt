//! The closing of all logs of a set.
ghost use Rattle.std.specs.Prelude.{◌≡◌, ◌+◌, [], ◌∷◌, IfOk, OnOk, Some, is_some, length, map, nat_lt, position, take};
ghost use Rattle.std.specs.List.{AllByRecursion, AllZip};
ghost use Rattle.stream_log.specs.Log.{RisesFrom};
ghost use Rattle.trace_format.specs.Accepting.{same_name};
ghost use Rattle.device_shard.specs.Closing.{AreHeldFrom, IsClosed, IsOwnerOf, IsSeenIn, at_device, closed_in, closed_list, lists_of};
ghost use Rattle.device_shard.specs.Sets.{devices_of, log_of};
ghost use Rattle.device_shard.specs.Shards.{OfShard};

use crate::names::ShardNames;
use crate::set::{ShardSet, is_same};
use crate::shard::Shard;
use command_tables::NoMemory;
use std::alloc::Global;
use std::sync::Mutex;
use stream_log::{DeviceLog, Entry, Owner, Seen};
use trace_format::Name;

impl<N: ShardNames, const K: usize> Shard<N, K> {
    // The owner of the log.
    fn into_owner(self) -> Owner
        ensures { OfShard N.shards K (λ n. IsOwnerOf n result) }
    {
        let Shard {
            owner,
            tick: _,
            parts: _,
            lanes: _,
            calls: _,
            results: _,
            names: _,
        } = self;
        owner
    }
}

// Adds the owner of the plan with the number `K`, where there is one, to the owners of the plans before it.
fn add_owner<N: ShardNames, const K: usize>(
    owners: &mut Vec<Owner>,
    lock: Option<Mutex<Shard<N, K>>>,
) -> Result<(), NoMemory>
    requires before { AllZip IsOwnerOf (take K N.shards) owners.old.items }
    requires held { is_some lock ≡ nat_lt K (length N.shards) }
    ensures { OnOk result (AllZip IsOwnerOf (take (K + 1) N.shards) owners.new.items) }
{
    let Some(lock) = lock else {
        return Ok(());
    };
    owners.push(lock.into_inner().into_owner())?;
    Ok(())
}

// The owners of the first eight plans.
fn first_owners<N: ShardNames>(
    alloc: Global,
    p0: Option<Mutex<Shard<N, 0>>>,
    p1: Option<Mutex<Shard<N, 1>>>,
    p2: Option<Mutex<Shard<N, 2>>>,
    p3: Option<Mutex<Shard<N, 3>>>,
    p4: Option<Mutex<Shard<N, 4>>>,
    p5: Option<Mutex<Shard<N, 5>>>,
    p6: Option<Mutex<Shard<N, 6>>>,
    p7: Option<Mutex<Shard<N, 7>>>,
) -> Result<Vec<Owner>, NoMemory>
    requires { AreHeldFrom N.shards 0 (is_some p0 ∷ is_some p1 ∷ is_some p2 ∷ is_some p3 ∷ is_some p4 ∷ is_some p5 ∷ is_some p6 ∷ is_some p7 ∷ []) }
    ensures { IfOk result (λ owners. AllZip IsOwnerOf (take 8 N.shards) owners.items) }
{
    let mut owners = Vec::new(alloc);
    add_owner(&mut owners, p0)?;
    add_owner(&mut owners, p1)?;
    add_owner(&mut owners, p2)?;
    add_owner(&mut owners, p3)?;
    add_owner(&mut owners, p4)?;
    add_owner(&mut owners, p5)?;
    add_owner(&mut owners, p6)?;
    add_owner(&mut owners, p7)?;
    Ok(owners)
}

// Adds the owners of the plans after these.
fn add_last_owners<N: ShardNames>(
    owners: &mut Vec<Owner>,
    p8: Option<Mutex<Shard<N, 8>>>,
    p9: Option<Mutex<Shard<N, 9>>>,
    p10: Option<Mutex<Shard<N, 10>>>,
    p11: Option<Mutex<Shard<N, 11>>>,
    p12: Option<Mutex<Shard<N, 12>>>,
    p13: Option<Mutex<Shard<N, 13>>>,
    p14: Option<Mutex<Shard<N, 14>>>,
    p15: Option<Mutex<Shard<N, 15>>>,
) -> Result<(), NoMemory>
    requires before { AllZip IsOwnerOf (take 8 N.shards) owners.old.items }
    requires held { AreHeldFrom N.shards 8 (is_some p8 ∷ is_some p9 ∷ is_some p10 ∷ is_some p11 ∷ is_some p12 ∷ is_some p13 ∷ is_some p14 ∷ is_some p15 ∷ []) }
    ensures { OnOk result (AllZip IsOwnerOf (take 16 N.shards) owners.new.items) }
{
    add_owner(owners, p8)?;
    add_owner(owners, p9)?;
    add_owner(owners, p10)?;
    add_owner(owners, p11)?;
    add_owner(owners, p12)?;
    add_owner(owners, p13)?;
    add_owner(owners, p14)?;
    add_owner(owners, p15)
}

// The place of a device among these.
fn place_in(devices: &[Name], device: Name) -> Option<usize>
    ensures { result ≡ position (λ d. same_name d device) devices.now }
{
    devices.iter().position(|other| is_same(*other, device))
}

// Takes a token back, of the log of this device.
fn take_one(devices: &[Name], logs: &[DeviceLog], owners: &mut [Owner], device: Name, seen: Seen)
    requires owners { map (λ o. o.log) owners.old ≡ logs.now }
    requires token { at_device devices.now logs.now device ≡ Some seen.log }
    ensures logs { map (λ o. o.log) owners.new ≡ map (λ o. o.log) owners.old }
    ensures lists { lists_of owners.new ≡ lists_of owners.old }
    ensures past { IsSeenIn (at_device devices.now (lists_of owners.old) device) seen }
{
    let place = place_in(devices, device).unwrap();
    owners[place].take(&logs[place], seen);
}

// Takes all tokens back.
fn take_all(devices: &[Name], logs: &[DeviceLog], owners: &mut [Owner], tokens: Vec<(Name, Seen)>)
    requires owners { map (λ o. o.log) owners.old ≡ logs.now }
    requires tokens { AllByRecursion (λ t. at_device devices.now logs.now t.0 ≡ Some t.1.log) tokens.items }
    ensures logs { map (λ o. o.log) owners.new ≡ map (λ o. o.log) owners.old }
    ensures lists { lists_of owners.new ≡ lists_of owners.old }
    ensures past { AllByRecursion (λ t. IsSeenIn (at_device devices.now (lists_of owners.old) t.0) t.1) tokens.items }
{
    for (device, seen) in tokens {
        take_one(devices, logs, owners, device, seen);
    }
}

// Closes each log with its owner.
fn close_each(
    alloc: Global,
    devices: Vec<Name>,
    logs: Vec<DeviceLog>,
    owners: Vec<Owner>,
) -> Result<Vec<(Name, Vec<Entry>)>, NoMemory>
    requires owners { map (λ o. o.log) owners.items ≡ logs.items }
    requires devices { length devices.items ≡ length logs.items }
    ensures devices { IfOk result (λ v. map (λ x. x.0) v.items ≡ devices.items) }
    ensures lists { IfOk result (λ v. map closed_list v.items ≡ lists_of owners.items) }
    ensures rises { IfOk result (λ v. AllByRecursion (RisesFrom 0) (map closed_list v.items)) }
{
    let mut closed = Vec::new(alloc);
    let pairs = logs.into_iter().zip(owners);
    for (device, (log, owner)) in devices.into_iter().zip(pairs) {
        let Ok(entries) = log.close(alloc, owner) else {
            return Err(NoMemory);
        };
        closed.push((device, entries))?;
    }
    Ok(closed)
}

impl<N: ShardNames> ShardSet<N> {
    /// Each device with its closed log, in the order of the plans. Each token is one of its device's log: what it has seen is a beginning of the
    /// closed log, and no later entry is of its thread. Each closed log follows its device's plan. After `NoMemory` the set is gone.
    pub fn close(
        self,
        alloc: Global,
        tokens: Vec<(Name, Seen)>,
    ) -> Result<Vec<(Name, Vec<Entry>)>, NoMemory>
        requires { AllByRecursion (λ t. log_of N.shards t.0 ≡ Some t.1.log) tokens.items }
        ensures devices { IfOk result (λ v. map (λ x. x.0) v.items ≡ devices_of N.shards) }
        ensures past { IfOk result (λ v. AllByRecursion (λ t. IsSeenIn (closed_in v.items t.0) t.1) tokens.items) }
        ensures follows { IfOk result (λ v. AllZip IsClosed N.shards (map closed_list v.items)) }
    {
        let ShardSet {
            devices,
            logs,
            p0,
            p1,
            p2,
            p3,
            p4,
            p5,
            p6,
            p7,
            p8,
            p9,
            p10,
            p11,
            p12,
            p13,
            p14,
            p15,
        } = self;
        let mut owners = first_owners(alloc, p0, p1, p2, p3, p4, p5, p6, p7)?;
        add_last_owners(&mut owners, p8, p9, p10, p11, p12, p13, p14, p15)?;
        take_all(&devices, &logs, &mut owners, tokens);
        close_each(alloc, devices, logs, owners)
    }
}

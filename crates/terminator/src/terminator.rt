//! The terminator: its ids with the drivers' values, what it tells the drivers, and what becomes of their replies.
ghost use Rattle.std.specs.Prelude.{◌≡◌, ◌≤◌, ◌<◌, ◌+◌, ◌*◌, ◌^◌, ◌∷◌, [], map, length, max, IfOk, IsOk, OnErr, OnOk};
ghost use Rattle.command_tables.specs.Calls.{HasRoomFor, call_content};
ghost use Rattle.layer_model.specs.Ids.{at_key, issue, issue_all, no_ids};
ghost use Rattle.layer_model.specs.Routes.{add_route, route_all};
ghost use Rattle.object_model.specs.Routes.{driver_behind};
ghost use Rattle.object_model.specs.Values.{values_answered};
ghost use Rattle.layer_model.specs.Terminator.{told_call, values_from};
ghost use Rattle.model_driver.specs.Driver.{call_shown, reply_shown};
ghost use Rattle.terminator.specs.Calls.{KeepsCallRoom, born_where, drivers_for, left_by, routes_left, targets_of};
ghost use Rattle.terminator.specs.Shown.{IsKeyOf, answers_in, bytes_of, drivers_named, key_asked};
ghost use Rattle.terminator.specs.Room.{HasRoom, HasRoomForResults, bytes_with};

use crate::answers::Answers;
use crate::bare::issued_type;
use crate::issued::IssuedIds;
use crate::key::{RetrievedKey, key_at, payload_len};
use crate::reading::{first_object, key_of};
use crate::receivers::Receivers;
use crate::telling::tell;
use crate::value::DriverValue;
use command_tables::{LayerCall, NoMemory, ObjectType};
use model_driver::{DriverCall, DriverReply};
use std::alloc::Global;
use std::marker::Model;

/// The end of a chain: ids of dispatchable handles and surfaces, numbered over all of them from 1, each driver's values for
/// them, and the driver behind each that has one of its own.
pub struct Terminator {
    alloc: Global,
    drivers: u32,
    issued: IssuedIds,
    // Room for the values of one result.
    values: Vec<DriverValue>,
}

impl Drop for Terminator {
    fn drop(self) {
        let Terminator {
            alloc: _alloc,
            drivers: _drivers,
            issued: _issued,
            values: _values,
        } = self;
    }
}

impl Model for Terminator {
    ghost use Rattle.std.specs.Prelude.{min, vec_capacity};
    ghost use Rattle.terminator.specs.Calls.{TerminatorState};

    ghost Value = { TerminatorState };

    ghost view = { λ t. record { ids = t.issued.ids; routes = t.issued.routes; drivers = t.drivers; spare = t.issued.spare; values = min t.issued.room (vec_capacity t.values); bytes = t.issued.bytes } };
}

// As many calls as there are drivers to tell.
fn make_calls(alloc: Global, count: usize, calls: &mut Vec<DriverCall>) -> Result<(), NoMemory>
    ensures { OnOk result (length calls.new.items ≡ count) }
{
    calls.truncate(count);
    for place in 0..count {
        if calls.len() <= place {
            calls.push(DriverCall::with_room(alloc, 0, 0)?)?;
        }
    }
    Ok(())
}

impl Terminator {
    /// A terminator above so many drivers that has issued nothing.
    pub fn new(alloc: Global, drivers: u32) -> Terminator
        ensures ids { result.ids ≡ no_ids }
        ensures routes { result.routes ≡ [] }
        ensures drivers { result.drivers ≡ drivers }
    {
        Terminator {
            alloc,
            drivers,
            issued: IssuedIds::new(alloc),
            values: Vec::new(alloc),
        }
    }

    /// A terminator of its own above as many drivers, which has issued the same. Of room nothing is said.
    pub fn copy(&self) -> Result<Terminator, NoMemory>
        ensures ids { IfOk result (λ copy. copy.ids ≡ self.now.ids) }
        ensures routes { IfOk result (λ copy. copy.routes ≡ self.now.routes) }
        ensures drivers { IfOk result (λ copy. copy.drivers ≡ self.now.drivers) }
    {
        Ok(Terminator {
            alloc: self.alloc,
            drivers: self.drivers,
            issued: self.issued.copy()?,
            values: Vec::new(self.alloc),
        })
    }

    // Makes room for so many further ids of any owners, with so many values and so many bytes of payloads in all.
    fn make_room(&mut self, births: usize, values: usize, bytes: usize) -> Result<(), NoMemory>
        ensures ids { self.new.ids ≡ self.old.ids }
        ensures routes { self.new.routes ≡ self.old.routes }
        ensures drivers { self.new.drivers ≡ self.old.drivers }
        ensures ok_births { OnOk result (births ≤ self.new.spare) }
        ensures ok_values { OnOk result (values ≤ self.new.values) }
        ensures ok_bytes { OnOk result (bytes ≤ self.new.bytes) }
        ensures succeeds { births ≤ self.old.spare → values ≤ self.old.values → bytes ≤ self.old.bytes → IsOk result }
        ensures spare { self.old.spare ≤ self.new.spare }
        ensures values { self.old.values ≤ self.new.values }
        ensures bytes { self.old.bytes ≤ self.new.bytes }
    {
        self.issued.make_room(births, values, bytes)?;
        self.values.clear();
        self.values.reserve(values)?;
        Ok(())
    }

    /// Makes room for the births of so many further objects, each with a value of each driver, and for so many bytes of the payloads by
    /// which retrieved ones are kept. Takes no memory where there is room. After `NoMemory` what was issued is as before, and no room is
    /// lost.
    pub fn reserve(&mut self, births: usize, bytes: usize) -> Result<(), NoMemory>
        ensures ids { self.new.ids ≡ self.old.ids }
        ensures routes { self.new.routes ≡ self.old.routes }
        ensures drivers { self.new.drivers ≡ self.old.drivers }
        ensures ok_births { OnOk result (births ≤ self.new.spare) }
        ensures ok_values { OnOk result (births * max 1 self.old.drivers ≤ self.new.values) }
        ensures ok_bytes { OnOk result (bytes ≤ self.new.bytes) }
        ensures succeeds { births ≤ self.old.spare → births * max 1 self.old.drivers ≤ self.old.values → bytes ≤ self.old.bytes → IsOk result }
        ensures spare { self.old.spare ≤ self.new.spare }
        ensures values { self.old.values ≤ self.new.values }
        ensures bytes { self.old.bytes ≤ self.new.bytes }
    {
        // There is room for no more than can be counted.
        let _most = self.values.capacity();
        let Some(values) = births.checked_mul(self.drivers.max(1) as usize) else {
            return Err(NoMemory);
        };
        self.make_room(births, values, bytes)?;
        self.issued.reserve(births, values, bytes)
    }

    // Makes room for so many results of a call to so many drivers, each kept with so many bytes of payload.
    fn reserve_for(&mut self, births: usize, drivers: u32, payload: usize) -> Result<(), NoMemory>
        ensures ids { self.new.ids ≡ self.old.ids }
        ensures routes { self.new.routes ≡ self.old.routes }
        ensures drivers { self.new.drivers ≡ self.old.drivers }
        ensures ok { OnOk result (HasRoom self.new births drivers payload) }
        ensures succeeds { HasRoom self.old births drivers payload → IsOk result }
        ensures spare { self.old.spare ≤ self.new.spare }
        ensures values { self.old.values ≤ self.new.values }
        ensures bytes { self.old.bytes ≤ self.new.bytes }
    {
        // There is room for no more than can be counted.
        let _most = self.values.capacity();
        let _most_bytes = self.issued.bytes_left();
        if births > u32::MAX as usize {
            return Err(NoMemory);
        }
        let Some(values) = births.checked_mul(drivers as usize) else {
            return Err(NoMemory);
        };
        let Some(bytes) = births.checked_mul(payload) else {
            return Err(NoMemory);
        };
        self.make_room(births, values, bytes)
    }

    /// How many drivers there are. Takes no memory.
    pub fn drivers(&self) -> u32
        ensures { result ≡ self.now.drivers }
    {
        self.drivers
    }

    // The drivers that a call goes to.
    #[tactic(auto, unfolding(command_tables::specs::Tests::same_type))]
    fn receivers(&self, call: &LayerCall) -> Receivers
        ensures { drivers_named result ≡ drivers_for self.now (call_content call.now) }
    {
        match first_object(call) {
            None => Receivers::All(self.drivers),
            Some(first) if first.ty == ObjectType::Instance => Receivers::All(self.drivers),
            Some(first) => Receivers::One(self.issued.driver_of(first)),
        }
    }

    // Each driver of a call is told it.
    fn tell_each(
        &self,
        call: &LayerCall,
        receivers: Receivers,
        out: &mut Vec<DriverCall>,
    ) -> Result<(), NoMemory>
        requires { length out.old.items ≡ length (drivers_named receivers) }
        ensures told { OnOk result (map call_shown out.new.items ≡ map (told_call self.now.ids (call_content call.now)) (drivers_named receivers)) }
        ensures count { OnOk result (length out.new.items ≡ length (drivers_named receivers)) }
    {
        for place in 0..receivers.count() {
            let driver = receivers.at(place);
            tell(&self.issued, call, driver, &mut out[place as usize])?;
        }
        Ok(())
    }

    /// What each driver of a call is told, in order: the call in the driver's own values. What stood in `out` before is gone,
    /// and its room is used again. After `NoMemory` anything stands there.
    pub fn targets(&self, call: &LayerCall, out: &mut Vec<DriverCall>) -> Result<(), NoMemory>
        ensures told { OnOk result (map call_shown out.new.items ≡ targets_of self.now (call_content call.now)) }
        ensures count { OnOk result (length out.new.items ≡ length (drivers_for self.now (call_content call.now))) }
    {
        let receivers = self.receivers(call);
        make_calls(self.alloc, receivers.count() as usize, out)?;
        self.tell_each(call, receivers, out)
    }

    /// What the one driver of a call is told, in the place of what stood in `out`. Takes no memory, and no room is lost.
    #[tactic(auto, using(crate::proofs::Told::told_one))]
    pub fn target_into(&self, call: &LayerCall, out: &mut DriverCall)
        requires one { length (drivers_for self.now (call_content call.now)) ≡ 1 }
        requires room { HasRoomFor out.old.body (call_content call.now) }
        ensures told { targets_of self.now (call_content call.now) ≡ call_shown out.new ∷ [] }
        ensures room { KeepsCallRoom out.old.body out.new.body }
    {
        let driver = self.receivers(call).first();
        tell(&self.issued, call, driver, out).unwrap();
    }

    // The id of one result that is born, with the values that the drivers answered for it. After `NoMemory` all is as before.
    #[tactic(auto, using(crate::proofs::Leaving::key_type_at, crate::proofs::Room::bytes_at))]
    fn issue_one(
        &mut self,
        key: Option<RetrievedKey<'_>>,
        ty: ObjectType,
        answers: Answers<'_>,
        place: usize,
    ) -> Result<u64, NoMemory>
        requires key { IsKeyOf ty (key_asked key) }
        requires count { length answers.replies.now ≡ length (drivers_named answers.receivers) }
        ensures ids { IfOk result (λ id. record { id = id; ids = self.new.ids } ≡ issue self.old.ids (at_key (key_asked key.entry) place) ty (values_answered answers.entry.cmd (answers_in answers.entry) place)) }
        ensures positive { IfOk result (λ id. 1 ≤ id) }
        ensures routes { IfOk result (λ id. self.new.routes ≡ add_route self.old.routes (record { ty = ty; number = id }) (driver_behind answers.entry.cmd (drivers_named answers.entry.receivers) place)) }
        ensures drivers { self.new.drivers ≡ self.old.drivers }
        ensures err { OnErr result (self.new.ids ≡ self.old.ids) }
        ensures err_routes { OnErr result (self.new.routes ≡ self.old.routes) }
        ensures succeeds { 1 ≤ self.old.spare → length (drivers_named answers.entry.receivers) ≤ self.old.values → bytes_of (key_asked key.entry) ≤ self.old.bytes → place < 2 ^ 32 → IsOk result }
        ensures spare { self.old.spare ≤ self.new.spare + 1 }
        ensures values { self.old.values ≤ self.new.values + length (drivers_named answers.entry.receivers) }
        ensures bytes { self.old.bytes ≤ self.new.bytes + bytes_of (key_asked key.entry) }
    {
        answers.gather(place, &mut self.values)?;
        let driver = answers.driver_behind(place)?;
        self.issued
            .issue(key_at(key, place), ty, driver, &self.values)
    }

    // The results of a call of which each that is born gets an id; 0 stays.
    #[tactic(auto, using(crate::proofs::Issuing::lost_left, crate::proofs::Issuing::issued_left, crate::proofs::Room::one_more))]
    fn issue_each(
        &mut self,
        key: Option<RetrievedKey<'_>>,
        ty: ObjectType,
        answers: Answers<'_>,
        results: &mut [u64],
    ) -> Result<(), NoMemory>
        requires key { IsKeyOf ty (key_asked key) }
        requires count { length answers.replies.now ≡ length (drivers_named answers.receivers) }
        requires room { 1 < length results.old → HasRoom self.old (length results.old) (length (drivers_named answers.receivers)) (bytes_of (key_asked key)) }
        ensures ids { OnOk result (record { results = results.new; ids = self.new.ids } ≡ issue_all self.old.ids (key_asked key.entry) ty 0 (values_from answers.entry.cmd (answers_in answers.entry) 0 (born_where results.old))) }
        ensures routes { OnOk result (self.new.routes ≡ route_all self.old.routes answers.entry.cmd (drivers_named answers.entry.receivers) ty 0 results.new) }
        ensures drivers { self.new.drivers ≡ self.old.drivers }
        ensures err { OnErr result (self.new.ids ≡ self.old.ids) }
        ensures err_routes { OnErr result (self.new.routes ≡ self.old.routes) }
        ensures same { OnErr result (results.new ≡ results.old) }
        ensures succeeds { HasRoom self.old (length results.old) (length (drivers_named answers.entry.receivers)) (bytes_of (key_asked key.entry)) → IsOk result }
        ensures spare { self.old.spare ≤ self.new.spare + length results.old }
        ensures values { self.old.values ≤ self.new.values + length results.old * length (drivers_named answers.entry.receivers) }
        ensures bytes { self.old.bytes ≤ self.new.bytes + length results.old * bytes_of (key_asked key.entry) }
    {
        for place in 0..results.len() {
            if results[place] != 0 {
                results[place] = self.issue_one(key, ty, answers, place)?;
            }
        }
        Ok(())
    }

    // The same, with room made for them first.
    fn issue_all(
        &mut self,
        key: Option<RetrievedKey<'_>>,
        ty: ObjectType,
        answers: Answers<'_>,
        results: &mut [u64],
    ) -> Result<(), NoMemory>
        requires key { IsKeyOf ty (key_asked key) }
        requires count { length answers.replies.now ≡ length (drivers_named answers.receivers) }
        ensures ids { OnOk result (record { results = results.new; ids = self.new.ids } ≡ issue_all self.old.ids (key_asked key.entry) ty 0 (values_from answers.entry.cmd (answers_in answers.entry) 0 (born_where results.old))) }
        ensures routes { OnOk result (self.new.routes ≡ route_all self.old.routes answers.entry.cmd (drivers_named answers.entry.receivers) ty 0 results.new) }
        ensures drivers { self.new.drivers ≡ self.old.drivers }
        ensures err { OnErr result (self.new.ids ≡ self.old.ids) }
        ensures err_routes { OnErr result (self.new.routes ≡ self.old.routes) }
        ensures same { OnErr result (results.new ≡ results.old) }
        ensures succeeds { HasRoom self.old (length results.old) (length (drivers_named answers.entry.receivers)) (bytes_of (key_asked key.entry)) → IsOk result }
        ensures spare { self.old.spare ≤ self.new.spare + length results.old }
        ensures values { self.old.values ≤ self.new.values + length results.old * length (drivers_named answers.entry.receivers) }
        ensures bytes { self.old.bytes ≤ self.new.bytes + length results.old * bytes_of (key_asked key.entry) }
    {
        // One result alone leaves all as before where there is no memory.
        if results.len() > 1 {
            self.reserve_for(results.len(), answers.receivers.count(), payload_len(key))?;
        }
        self.issue_each(key, ty, answers, results)
    }

    /// Replies on their way up, by the call as it stood above, one for each of its drivers in order. A result that is flagged,
    /// by anything but 0, is born: it gets its id where the terminator issues ids for its type, else the first driver's handle;
    /// 0 stays. A created object gets a new id, one above the greatest, a retrieved one the kept id of its owner, type, place
    /// and a queue's payload, else a new one; its values are those answered now. After `NoMemory`, which comes only where there was
    /// no room, the terminator and the results are as before.
    #[tactic(auto, using(crate::proofs::Leaving::key_type_read, crate::proofs::Leaving::not_devices))]
    pub fn leave(
        &mut self,
        call: &LayerCall,
        replies: &[DriverReply],
        results: &mut [u64],
    ) -> Result<(), NoMemory>
        requires { length replies.now ≡ length (drivers_for self.old (call_content call.now)) }
        ensures ids { OnOk result (record { results = results.new; ids = self.new.ids } ≡ left_by self.old (call_content call.now) (map reply_shown replies.now) results.old) }
        ensures routes { OnOk result (self.new.routes ≡ routes_left self.old (call_content call.now) results.new) }
        ensures drivers { self.new.drivers ≡ self.old.drivers }
        ensures err { OnErr result (self.new.ids ≡ self.old.ids) }
        ensures err_routes { OnErr result (self.new.routes ≡ self.old.routes) }
        ensures same { OnErr result (results.new ≡ results.old) }
        ensures succeeds { HasRoomForResults self.old (call_content call.now) results.old → IsOk result }
        ensures spare { self.old.spare ≤ self.new.spare + length results.old }
        ensures values { self.old.values ≤ self.new.values + length results.old * length (drivers_for self.old (call_content call.now)) }
        ensures bytes { self.old.bytes ≤ self.new.bytes + length results.old * bytes_with (call_content call.now) }
    {
        let answers = Answers {
            cmd: call.cmd,
            receivers: self.receivers(call),
            replies,
        };
        match issued_type(call.cmd) {
            Some(ty) => self.issue_all(key_of(call), ty, answers, results),
            None => {
                answers.hand_up(results);
                Ok(())
            }
        }
    }
}

//! The machine on small inputs, by computation.
ghost use Rattle.std.specs.Prelude.{◌≡◌, ℕ, [], ◌∷◌, None, Some};
ghost use Rattle.command_tables.specs.declared.types.CommandId.TheVariants as cmd;
ghost use Rattle.command_tables.specs.declared.types.ObjectType.TheVariants as ty;
ghost use Rattle.command_tables.specs.declared.types.Rule.TheVariants as rule;
ghost use Rattle.object_model.specs.Findings.{at_place};
ghost use Rattle.object_model.specs.Rules.{failure};
ghost use Rattle.object_model.specs.Samples.{device, instance, physical_device};
ghost use Rattle.layer_model.specs.Examples.{call_on, device_and_buffer, gives_buffer, image_key, retrieved, values_one};
ghost use Rattle.layer_model.specs.Ids.{issue, issue_all, no_ids};
ghost use Rattle.layer_model.specs.Parts.{unique_enter, unique_leave};
ghost use Rattle.layer_model.specs.Routes.{drivers_at, route_all};
ghost use Rattle.layer_model.specs.Terminator.{told_call};
ghost use Rattle.layer_model.specs.Walks.{Lifetimes, Unique, enter_parts, leave_parts};

/// Ids are given out in order, over all types together, whatever stands below them; a lost result takes none.
pub fn ids_are_given_in_order()
    ensures one_call { (issue_all {V = ℕ} no_ids None ty.Buffer 0 (Some 7 ∷ None ∷ Some 7 ∷ [])).results ≡ 1 ∷ 0 ∷ 2 ∷ [] }
    ensures next_type { (issue {V = ℕ} (issue_all {V = ℕ} no_ids None ty.Buffer 0 (Some 7 ∷ None ∷ Some 7 ∷ [])).ids None ty.Fence 7).id ≡ 3 }
{}

/// A retrieved object keeps its id, with the value of its last retrieval; another place or another owner has an id of its own.
pub fn a_retrieved_object_keeps_its_id()
    ensures again { (issue_all (retrieved device) (Some (image_key device)) ty.Image 0 (Some 8 ∷ Some 9 ∷ [])).results ≡ 1 ∷ 2 ∷ [] }
    ensures value { (issue_all (retrieved device) (Some (image_key device)) ty.Image 0 (Some 8 ∷ [])).ids.entries ≡ values_one ty.Image 8 }
    ensures other_owner { (issue (retrieved device) (Some (image_key instance)) ty.Image 8).id ≡ 2 }
{}

/// A unique part replaces what it has given out, and what it hasn't by 0; dispatchable handles and surfaces pass it.
pub fn what_a_unique_part_replaces()
    ensures known { (unique_enter (record { entries = values_one ty.Buffer 7; kept = [] }) (call_on cmd.DestroyBuffer (3 ∷ 1 ∷ []))).args ≡ (3 ∷ []) ∷ (7 ∷ []) ∷ [] }
    ensures unknown { (unique_enter no_ids (call_on cmd.DestroyBuffer (3 ∷ 1 ∷ []))).args ≡ (3 ∷ []) ∷ (0 ∷ []) ∷ [] }
    ensures surface { (unique_leave no_ids (call_on cmd.CreateXcbSurfaceKHR (1 ∷ [])) (5 ∷ [])).results ≡ 5 ∷ [] }
    ensures queue { (unique_leave no_ids (call_on cmd.GetDeviceQueue (3 ∷ [])) (5 ∷ [])).results ≡ 5 ∷ [] }
{}

/// A lifetimes part that finds a failure stops the call there: no part below it is given the call, and nothing has ended.
pub fn a_stopped_call_goes_no_further()
    ensures reports { (enter_parts 1 5 1 (Lifetimes device_and_buffer ∷ Lifetimes device_and_buffer ∷ []) (call_on cmd.DestroyBuffer (3 ∷ 9 ∷ []))).found.reports
        ≡ at_place 1 (failure 1 0 rule.Parameter 0 ∷ []) }
    ensures stop { (enter_parts 1 5 1 (Lifetimes device_and_buffer ∷ Lifetimes device_and_buffer ∷ []) (call_on cmd.DestroyBuffer (3 ∷ 9 ∷ []))).found.stop ≡ Some 1 }
    ensures forms { (enter_parts 1 5 1 (Lifetimes device_and_buffer ∷ Lifetimes device_and_buffer ∷ []) (call_on cmd.DestroyBuffer (3 ∷ 9 ∷ []))).forms
        ≡ call_on cmd.DestroyBuffer (3 ∷ 9 ∷ []) ∷ [] }
    ensures states { (enter_parts 1 5 1 (Lifetimes device_and_buffer ∷ Lifetimes device_and_buffer ∷ []) (call_on cmd.DestroyDevice (3 ∷ []))).states
        ≡ Lifetimes device_and_buffer ∷ Lifetimes device_and_buffer ∷ [] }
{}

/// A call that passes ends what it destroys in each part, and below the last unique part it stands in the handles there.
pub fn a_call_that_passes()
    ensures states { (enter_parts 1 5 1 (Lifetimes device_and_buffer ∷ Unique (gives_buffer 7) ∷ []) (call_on cmd.DestroyBuffer (3 ∷ 4 ∷ []))).states
        ≡ Lifetimes (record device_and_buffer { living = instance ∷ physical_device ∷ device ∷ [] }) ∷ Unique (gives_buffer 7) ∷ [] }
    ensures bottom { (enter_parts 1 5 1 (Lifetimes device_and_buffer ∷ Unique (gives_buffer 7) ∷ []) (call_on cmd.DestroyBuffer (3 ∷ 4 ∷ []))).bottom.args
        ≡ (3 ∷ []) ∷ (7 ∷ []) ∷ [] }
    ensures results { (leave_parts 1 (Lifetimes device_and_buffer ∷ Unique (gives_buffer 7) ∷ [])
        (call_on cmd.CreateBuffer (3 ∷ []) ∷ call_on cmd.CreateBuffer (3 ∷ []) ∷ []) (9 ∷ [])).results ≡ 5 ∷ [] }
{}

/// The terminator tells each driver its own value, or that of the driver that has one, and asks each for one physical device.
pub fn what_the_terminator_tells()
    ensures own { (told_call (record { entries = (record { ty = ty.Instance; id = 1; values = record { driver = 0; value = 6 } ∷ record { driver = 1; value = 7 } ∷ [] }) ∷ []; kept = [] })
        (call_on cmd.EnumeratePhysicalDevices (1 ∷ [])) 1).args ≡ (7 ∷ []) ∷ [] }
    ensures asked { (told_call no_ids (record (call_on cmd.EnumeratePhysicalDevices (1 ∷ [])) { asked = 4 }) 1).asked ≡ 1 }
{}

/// A call goes to the driver behind its first argument, and on an instance to every driver.
pub fn the_drivers_of_a_call()
    ensures one { drivers_at 2 (record { object = physical_device; driver = 1 } ∷ []) (call_on cmd.CreateDevice (2 ∷ [])) ≡ 1 ∷ [] }
    ensures all { drivers_at 2 (record { object = physical_device; driver = 1 } ∷ []) (call_on cmd.EnumeratePhysicalDevices (1 ∷ [])) ≡ 0 ∷ 1 ∷ [] }
    ensures places { route_all [] cmd.EnumeratePhysicalDevices (0 ∷ 1 ∷ []) ty.PhysicalDevice 0 (2 ∷ 0 ∷ 4 ∷ [])
        ≡ record { object = physical_device; driver = 0 } ∷ record { object = record { ty = ty.PhysicalDevice; number = 4 }; driver = 2 } ∷ [] }
{}

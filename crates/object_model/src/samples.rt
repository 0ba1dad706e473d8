//! A small history by computation: who owns whom, what a call ends, and what is found at a call.
ghost use Rattle.std.specs.Prelude.{◌≡◌, [], ◌∷◌, None, true, false, map};
ghost use Rattle.command_tables.specs.declared.types.CommandId.TheVariants as cmd;
ghost use Rattle.command_tables.specs.declared.types.Effect.TheVariants as eff;
ghost use Rattle.command_tables.specs.declared.types.ObjectType.TheVariants as ty;
ghost use Rattle.command_tables.specs.declared.types.Rule.TheVariants as rule;
ghost use Rattle.object_model.specs.History.{Begins, Returns, alive, births, children, ends_by, owners_in};
ghost use Rattle.object_model.specs.Objects.{are_same, same};
ghost use Rattle.object_model.specs.Rules.{failure, failures, failures_in};
ghost use Rattle.object_model.specs.Samples.{all, answers, buffer, call, device, instance, physical_device, pool, sample, set};
ghost use Rattle.object_model.specs.Uses.{overlaps, use_of, uses, uses_in};
ghost use Rattle.object_model.specs.Values.{values_answered};
ghost use Rattle.object_model.specs.declared.Argument.TheVariants.{The, Unborn};

/// Objects of two types are two, whatever their numbers; and what isn't there is the same as nothing.
pub fn an_object_is_a_type_and_a_number()
    ensures itself { same buffer buffer ≡ true }
    ensures other_type { same buffer (record { ty = ty.Image; number = 4 }) ≡ false }
    ensures other_number { same buffer (record { ty = ty.Buffer; number = 5 }) ≡ false }
    ensures none { are_same None None ≡ false }
{}

/// A device is owned by the instance of its physical device, and what is made of a pool by the pool, the device and the instance.
pub fn owners_at_every_depth()
    ensures { map (owners_in (births sample)) all
        ≡ [] ∷ (instance ∷ []) ∷ (instance ∷ []) ∷ (device ∷ instance ∷ []) ∷ (device ∷ instance ∷ []) ∷ (pool ∷ device ∷ instance ∷ []) ∷ [] }
{}

/// The children of an instance are its devices, and not what these own, nor what was retrieved.
pub fn children_are_owned_directly()
    ensures instance { children sample instance ≡ device ∷ [] }
    ensures device { children sample device ≡ buffer ∷ pool ∷ [] }
{}

/// A destroyed instance takes all with it that it owns at any depth, and nothing if the call is skipped.
pub fn an_end_reaches_every_depth()
    ensures ended { map (alive (Begins (call 7 1 cmd.DestroyInstance (instance ∷ [])) false ∷ sample)) all
        ≡ false ∷ false ∷ false ∷ false ∷ false ∷ false ∷ [] }
    ensures skipped { map (alive (Begins (call 7 1 cmd.DestroyInstance (instance ∷ [])) true ∷ sample)) all
        ≡ true ∷ true ∷ true ∷ true ∷ true ∷ true ∷ [] }
{}

/// A call that names what was retrieved ends nothing.
pub fn a_retrieved_object_ends_with_its_owner_alone()
    ensures named { ends_by (births sample) ((The physical_device ∷ []) ∷ []) (eff.Destroy 0) physical_device ≡ false }
    ensures owned { ends_by (births sample) ((The instance ∷ []) ∷ []) (eff.Destroy 0) physical_device ≡ true }
{}

/// A reset ends the sets of its pool, and not the pool.
pub fn a_reset_spares_its_pool()
    ensures { map (alive (Begins (call 7 1 cmd.ResetDescriptorPool (device ∷ pool ∷ [])) false ∷ sample)) (pool ∷ set ∷ [])
        ≡ true ∷ false ∷ [] }
{}

/// What is retrieved again after its end stays ended.
pub fn a_second_birth_revives_nothing()
    ensures { alive (Returns (call 8 1 cmd.EnumeratePhysicalDevices (instance ∷ [])) (physical_device ∷ [])
        ∷ Begins (call 7 1 cmd.DestroyInstance (instance ∷ [])) false ∷ sample) physical_device
        ≡ false }
{}

/// A reset writes its pool and the sets that live, and reads its device.
pub fn the_uses_of_a_reset()
    ensures { uses sample (call 7 1 cmd.ResetDescriptorPool (device ∷ pool ∷ []))
        ≡ use_of 0 0 false device ∷ use_of 1 0 true pool ∷ use_of 1 0 true set ∷ [] }
{}

/// An open call conflicts also where it is skipped, a call of the same thread does not, and the least number is named.
pub fn the_least_open_call_is_named()
    ensures skipped { overlaps (Begins (call 8 1 cmd.DestroyBuffer (device ∷ buffer ∷ [])) false
        ∷ Begins (call 7 2 cmd.DestroyBuffer (device ∷ buffer ∷ [])) true ∷ sample)
        (call 9 3 cmd.GetBufferMemoryRequirements (device ∷ buffer ∷ []))
        ≡ failure 1 0 rule.Overlap 7 ∷ [] }
    ensures own { overlaps (Begins (call 7 1 cmd.DestroyBuffer (device ∷ buffer ∷ [])) true ∷ sample)
        (call 8 1 cmd.DestroyBuffer (device ∷ buffer ∷ []))
        ≡ [] }
    ensures returned { overlaps (Returns (call 7 1 cmd.DestroyBuffer (device ∷ buffer ∷ [])) []
        ∷ Begins (call 7 1 cmd.DestroyBuffer (device ∷ buffer ∷ [])) true ∷ sample) (call 8 2 cmd.DestroyBuffer (device ∷ buffer ∷ []))
        ≡ [] }
{}

/// A buffer has no device in common with a first argument that stands for nothing.
pub fn a_first_argument_that_stands_for_nothing()
    ensures { failures_in (births sample) (alive sample) cmd.DestroyBuffer ((Unborn ∷ []) ∷ (The buffer ∷ []) ∷ [])
        ≡ failure 0 0 rule.Parameter 0 ∷ failure 1 0 rule.Parent 0 ∷ [] }
{}

/// An object that was never born fails as an argument, and is not used.
pub fn an_object_without_a_birth()
    ensures fails { failures [] (call 1 1 cmd.DestroyBuffer (device ∷ buffer ∷ []))
        ≡ failure 0 0 rule.Parameter 0 ∷ failure 1 0 rule.Parameter 0 ∷ [] }
    ensures unused { uses [] (call 1 1 cmd.DestroyBuffer (device ∷ buffer ∷ [])) ≡ [] }
    ensures used { uses_in (births sample) (λ o. false) cmd.DestroyBuffer ((The device ∷ []) ∷ (The buffer ∷ []) ∷ [])
        ≡ use_of 0 0 false device ∷ use_of 1 0 true buffer ∷ [] }
{}

/// A physical device has the one handle of its own driver, any other object the handle in its place of each driver that answered.
pub fn the_values_of_a_result()
    ensures physical_device { values_answered cmd.EnumeratePhysicalDevices answers 1
        ≡ record { driver = 1; value = 8 } ∷ [] }
    ensures other { values_answered cmd.CreateXcbSurfaceKHR answers 0
        ≡ record { driver = 0; value = 7 } ∷ record { driver = 1; value = 8 } ∷ [] }
{}

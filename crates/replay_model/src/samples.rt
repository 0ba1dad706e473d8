//! Births, ends, what the loader checks, and values by computation.
ghost use Rattle.std.specs.Prelude.{◌≡◌, [], ◌∷◌, true, false, None, Some, map};
ghost use Rattle.command_tables.specs.Calls.{ReplyContent};
ghost use Rattle.command_tables.specs.declared.types.CommandId.TheVariants as cmd;
ghost use Rattle.command_tables.specs.declared.types.ObjectType.TheVariants as ty;
ghost use Rattle.command_tables.specs.declared.types.Rule.TheVariants as rule;
ghost use Rattle.object_model.specs.History.{alive, births};
ghost use Rattle.object_model.specs.Rules.{failure};
ghost use Rattle.object_model.specs.Samples.{answers, buffer, call, device, sample};
ghost use Rattle.object_model.specs.declared.Argument.TheVariants.{The};
ghost use Rattle.replay_model.specs.Births.{made_by, own_object};
ghost use Rattle.replay_model.specs.Direct.{answers_to, own_replies, value_in};
ghost use Rattle.object_model.specs.Values.{value_for};
ghost use Rattle.replay_model.specs.Past.{Began, history};
ghost use Rattle.replay_model.specs.ChainPlaces.{loader_checked};
ghost use Rattle.replay_model.specs.Samples.{device_made, name, opened};
ghost use Rattle.trace_format.specs.Content.{BeginEvent};

/// A result is born where its owner lives at the return, and is lost where it doesn't.
pub fn a_lost_result_is_not_born()
    ensures born { map (λ b. b.object) (made_by 2 (births sample) (λ o. true) [] (opened cmd.CreateBuffer ((The device ∷ []) ∷ [])))
        ≡ own_object ty.Buffer name ∷ [] }
    ensures lost { made_by 2 (births sample) (λ o. false) [] (opened cmd.CreateBuffer ((The device ∷ []) ∷ [])) ≡ [] }
{}

/// A destroy ends what it names at its begin, unless a place stops it.
pub fn a_skipped_destroy_ends_nothing()
    ensures sent { (e : BeginEvent) → alive (history (Began e (opened cmd.DestroyDevice ((The device ∷ []) ∷ [])) [] ∷ device_made)) device ≡ false }
    ensures skipped { (e : BeginEvent) → alive (history (Began e (record (opened cmd.DestroyDevice ((The device ∷ []) ∷ [])) { stop = Some 0 }) [] ∷ device_made)) device ≡ true }
{}

/// The loader checks a call's first argument alone: it finds a device that doesn't live, and no buffer behind one that does.
pub fn the_loader_checks_the_first_argument_alone()
    ensures dead { (loader_checked [] (call 2 1 cmd.DestroyBuffer (device ∷ buffer ∷ []))).failures ≡ failure 0 0 rule.Parameter 0 ∷ [] }
    ensures living { (loader_checked device_made (call 2 1 cmd.DestroyBuffer (device ∷ buffer ∷ []))).failures ≡ [] }
{}

/// A driver is told its own value, or that of the driver that has one; of several calls the last counts.
pub fn the_value_that_is_told()
    ensures own { value_for 1 (record { driver = 0; value = 7 } ∷ record { driver = 1; value = 8 } ∷ []) ≡ 8 }
    ensures other { value_for 1 (record { driver = 0; value = 7 } ∷ []) ≡ 7 }
    ensures last { value_in (record { object = device; values = record { driver = 1; value = 5 } ∷ [] }
        ∷ record { object = device; values = record { driver = 0; value = 6 } ∷ [] } ∷ []) 1 (The device)
        ≡ 6 }
{}

/// Replies stand newest first, so that of a call to two drivers the second driver's comes first.
pub fn replies_in_the_order_of_drivers()
    ensures { answers_to (opened cmd.CreateXcbSurfaceKHR []) (own_replies (opened cmd.CreateXcbSurfaceKHR [])
        (record { code = None; handles = 8 ∷ [] } ∷ record { code = None; handles = 7 ∷ [] } ∷ record { code = None; handles = 9 ∷ [] } ∷ []))
        ≡ answers }
{}

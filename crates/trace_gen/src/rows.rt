// Small generated traces, by computation.
ghost use Rattle.std.specs.Prelude.{◌≡◌, ◌∷◌, [], codes};
ghost use Rattle.trace_gen.specs.Turns.{drawn, following};
ghost use Rattle.trace_gen.specs.Text.{generated};
ghost use Rattle.trace_gen.specs.Rows.{trace_of};

/// What the second and the third turn of the trace of 0 draw, and the traces of 0 with no turn and with three.
pub fn traces_of_zero()
    ensures second { drawn (following (following 0)) ≡ 218396424 }
    ensures third { drawn (following (following (following 0))) ≡ 1299921937 }
    ensures no_turn { generated 0 0 ≡ trace_of [] }
    ensures three_turns { generated 0 3 ≡ trace_of (
        codes "b 1 vkCreateBuffer %1.3 = %1.4 VK_SUCCESS" ∷ codes "b 1 vkCreateBuffer %1.3 = %1.5 VK_SUCCESS" ∷ codes "b 1 vkGetBufferMemoryRequirements %1.3 %1.4 void"
        ∷ codes "b 1 vkDestroyBuffer %1.3 %1.4 void" ∷ codes "b 1 vkDestroyBuffer %1.3 %1.5 void" ∷ []) }
{}

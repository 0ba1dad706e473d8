//! Where small traces stop.
ghost use Rattle.std.specs.Prelude.{◌≡◌, None, Some, [], ◌∷◌, ◌++◌, codes};
ghost use Rattle.trace_format.specs.declared.fault.TraceFault.TheVariants as fault;
ghost use Rattle.replay_model.specs.Stop.{Layers, at_fault, stop};
ghost use Rattle.replay_rows.specs.Setups.{bare, too_many_layers};
ghost use Rattle.replay_rows.specs.Traces.{headed, said, started_lines};

/// The first line behind the header is at fault.
pub fn a_second_line_at_fault()
    ensures thread { stop bare (headed (codes "b 01 vkCreateInstance = %1.1 VK_SUCCESS" ∷ [])) ≡ Some (at_fault 2 fault.Thread) }
    ensures two_spaces { stop bare (headed (codes "b 1  vkCreateInstance = %1.1 VK_SUCCESS" ∷ [])) ≡ Some (at_fault 2 fault.Command) }
    ensures leading_zero { stop bare (headed (codes "b 1 vkCreateInstance = %01.1 VK_SUCCESS" ∷ [])) ≡ Some (at_fault 2 fault.Results) }
    ensures not_the_next { stop bare (headed (codes "b 1 vkCreateInstance = %1.2 VK_SUCCESS" ∷ [])) ≡ Some (at_fault 2 fault.Sequence) }
    ensures no_open_call { stop bare (headed (codes "r 1" ∷ [])) ≡ Some (at_fault 2 fault.Idle) }
{}

/// A trace without a header stops at its first line.
pub fn an_empty_trace()
    ensures empty { stop bare [] ≡ Some (at_fault 1 fault.Header) }
    ensures other_header { stop bare (said (codes "vktrace 2" ∷ [])) ≡ Some (at_fault 1 fault.Header) }
{}

/// A trace that is cut in the middle of a line stops there, and one that is cut between a call's begin and its return stops behind
/// its last line.
pub fn traces_that_are_cut()
    ensures whole { stop bare (headed (started_lines ++ codes "r 1" ∷ [])) ≡ None }
    ensures in_a_line { stop bare (headed (started_lines ++ codes "r 1" ∷ []) ++ codes "b 1 vkDestroyDe") ≡ Some (at_fault 8 fault.Command) }
    ensures in_a_call { stop bare (headed started_lines) ≡ Some (at_fault 7 fault.OpenAtEnd) }
{}

/// A line's own fault comes before those of its place, and those of an earlier line before any of a later one.
pub fn the_first_fault_stops()
    ensures own_before_place { stop bare (headed (codes "b 1 vkCreateInstance = %1.1 VK_SUCCESS" ∷ codes "b 1 vkDestroyInstance %1.1 VK_SUCCESS" ∷ [])) ≡ Some (at_fault 3 fault.Code) }
    ensures place { stop bare (headed (codes "b 1 vkCreateInstance = %1.1 VK_SUCCESS" ∷ codes "b 1 vkDestroyInstance %1.1 void" ∷ codes "x" ∷ [])) ≡ Some (at_fault 3 fault.Busy) }
    ensures line_before_end { stop bare (headed (codes "b 1 vkCreateInstance = %1.1 VK_SUCCESS" ∷ [] ∷ [])) ≡ Some (at_fault 3 fault.Letter) }
{}

/// A vkCreateInstance stops a trace where its chain would have too many layers, also one that fails; what is wrong with its line
/// comes first, and no other command has a chain.
pub fn a_chain_of_too_many_layers()
    ensures layers { stop too_many_layers (headed (codes "b 1 vkCreateInstance = %1.1 VK_SUCCESS" ∷ [])) ≡ Some (record { line = 2; cause = Layers }) }
    ensures failed { stop too_many_layers (headed (codes "b 1 vkCreateInstance = %1.1 VK_ERROR_INCOMPATIBLE_DRIVER" ∷ [])) ≡ Some (record { line = 2; cause = Layers }) }
    ensures fault_first { stop too_many_layers (headed (codes "b 1 vkCreateInstance = %1.2 VK_SUCCESS" ∷ [])) ≡ Some (at_fault 2 fault.Sequence) }
    ensures other { stop too_many_layers (headed (codes "b 1 vkEnumeratePhysicalDevices %1.1 VK_SUCCESS" ∷ codes "r 1" ∷ [])) ≡ Some (at_fault 2 fault.Unknown) }
    ensures without { stop bare (headed (codes "b 1 vkCreateInstance = %1.1 VK_SUCCESS" ∷ codes "r 1" ∷ [])) ≡ None }
{}

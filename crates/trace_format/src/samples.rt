//! Lines that are spelled and lines that are refused, shown by computation.
ghost use Rattle.std.specs.Prelude.{◌≡◌, ◌++◌, ◌∷◌, [], Err, None, Some, codes};
ghost use Rattle.trace_format.specs.Accepting.{call_number, fault_after, fault_at_end, header_fault};
ghost use Rattle.trace_format.specs.Content.{Return};
ghost use Rattle.trace_format.specs.Grammar.{Spells};
ghost use Rattle.trace_format.specs.Reading.{read_line};
ghost use Rattle.trace_format.specs.Samples.{begins, buffers, device, devices, draw, instance, list, name, no_devices, one, queue, submit, waits, waits_line, with_device, with_fence, with_instance};

use crate::fault::TraceFault;
use command_tables::{Code, CommandId};

/// A line for each form of arguments, results, code and payload.
pub fn spelled_lines()
    ensures instance { Spells (codes "b 1 vkCreateInstance = %1.1 VK_SUCCESS : VK_LAYER_A,VK_LAYER_B") instance }
    ensures no_devices { Spells (codes "b 1 vkEnumeratePhysicalDevices %1.1 VK_INCOMPLETE") no_devices }
    ensures device { Spells (codes "b 1 vkCreateDevice %1.2 = %1.3 VK_ERROR_OUT_OF_POOL_MEMORY") device }
    ensures queue { Spells (codes "b 1 vkGetDeviceQueue %1.3 = %1.4 void : 0 0") queue }
    ensures buffers { Spells (codes "b 1024 vkAllocateCommandBuffers %1.3 %1.5 = %1024.1,%1024.4194304 VK_SUCCESS") buffers }
    ensures submit { Spells (codes "b 1 vkQueueSubmit %1.4 [] [%1.6,null,%2.7] [] null VK_SUCCESS : a : b") submit }
    ensures draw { Spells (codes "b 2 vkCmdDraw %1.9 void") draw }
    ensures returned { Spells (codes "r 17") (Return 17) }
{}

/// A list of 1,024 places is spelled, one of 1,025 is a fault.
pub fn longest_list()
    ensures longest { Spells (waits_line 1024) (waits 1024) }
    ensures too_long { read_line (waits_line 1025) ≡ Err TraceFault.Argument }
{}

/// Lines with one fault.
pub fn lines_with_one_fault()
    ensures not_ascii { read_line (codes "b 1 vkCreateInstance = %1.1 VK_SUCCESS : " ++ 9 ∷ []) ≡ Err TraceFault.NotAscii }
    ensures letter { read_line (codes "e 1 vkCreateInstance = %1.1 VK_SUCCESS") ≡ Err TraceFault.Letter }
    ensures empty { read_line [] ≡ Err TraceFault.Letter }
    ensures thread { read_line (codes "b 01 vkCreateInstance = %1.1 VK_SUCCESS") ≡ Err TraceFault.Thread }
    ensures thread_above { read_line (codes "r 1025") ≡ Err TraceFault.Thread }
    ensures goes_on { read_line (codes "r 1 ") ≡ Err TraceFault.Thread }
    ensures stops { read_line (codes "b 1") ≡ Err TraceFault.Thread }
    ensures command { read_line (codes "b 1 vkCreateInstanc = %1.1 VK_SUCCESS") ≡ Err TraceFault.Command }
    ensures two_spaces { read_line (codes "b 1  vkCreateInstance = %1.1 VK_SUCCESS") ≡ Err TraceFault.Command }
    ensures parameter { read_line (codes "b 1 vkDestroyDevice") ≡ Err TraceFault.Parameter }
    ensures wide { read_line (codes "b 1 vkDestroyDevice  %1.3 void") ≡ Err TraceFault.Parameter }
    ensures argument { read_line (codes "b 1 vkDestroyBuffer %1.3 [%1.4] void") ≡ Err TraceFault.Argument }
    ensures first_null { read_line (codes "b 1 vkDestroyDevice null void") ≡ Err TraceFault.Argument }
    ensures results { read_line (codes "b 1 vkCreateInstance = %01.1 VK_SUCCESS") ≡ Err TraceFault.Results }
    ensures no_results { read_line (codes "b 1 vkCreateInstance VK_SUCCESS") ≡ Err TraceFault.Results }
    ensures one_too_many { read_line (codes "b 1 vkCreateInstance = %1.1,%1.2 VK_SUCCESS") ≡ Err TraceFault.Results }
    ensures unasked { read_line (codes "b 1 vkDestroyDevice %1.3 = %1.4 void") ≡ Err TraceFault.Results }
    ensures code { read_line (codes "b 1 vkCreateInstance = %1.1 VK_SUCCES") ≡ Err TraceFault.Code }
    ensures void { read_line (codes "b 1 vkCreateInstance = %1.1 void") ≡ Err TraceFault.Code }
    ensures thread_of_name { read_line (codes "b 1 vkDestroyDevice %1025.1 void") ≡ Err TraceFault.Argument }
    ensures number_of_name { read_line (codes "b 1 vkDestroyDevice %1.4194305 void") ≡ Err TraceFault.Argument }
    ensures null_byte { read_line (codes "r 1" ++ 0 ∷ []) ≡ Err TraceFault.NotAscii }
    ensures carriage_return { read_line (codes "r 1" ++ 13 ∷ []) ≡ Err TraceFault.NotAscii }
    ensures no_payload { read_line (codes "b 1 vkCreateInstance = %1.1 VK_SUCCESS : ") ≡ Err TraceFault.Code }
{}

/// Lines with two faults, of which the one with the lower number counts.
pub fn lines_with_two_faults()
    ensures not_ascii { read_line (codes "x" ++ 127 ∷ []) ≡ Err TraceFault.NotAscii }
    ensures letter { read_line (codes "B 0 vkCreateInstance") ≡ Err TraceFault.Letter }
    ensures thread { read_line (codes "b 0 vkNothing") ≡ Err TraceFault.Thread }
    ensures command { read_line (codes "b 1 vkNothing %01.1") ≡ Err TraceFault.Command }
    ensures parameter { read_line (codes "b 1 vkDestroyBuffer %0.3") ≡ Err TraceFault.Parameter }
    ensures argument { read_line (codes "b 1 vkDestroyBuffer %1.3 %1.04 = %1.5 void") ≡ Err TraceFault.Argument }
    ensures results { read_line (codes "b 1 vkCreateInstance = %1.4194305 void") ≡ Err TraceFault.Results }
    ensures code { read_line (codes "b 1 vkCreateInstance = %1.1 void :") ≡ Err TraceFault.Code }
{}

/// Events with two faults, of which the one with the lower number counts.
pub fn events_with_two_faults()
    ensures busy_and_unknown { fault_after (devices ∷ with_instance) (begins 1 CommandId.DestroyDevice (one (Some (name 1 9)) ∷ []) [] None []) ≡ Some TraceFault.Busy }
    ensures idle_and_instance { fault_after (begins 2 CommandId.CreateInstance [] (name 2 1 ∷ []) (Some Code.ErrorUnknown) [] ∷ with_device) (Return 1) ≡ Some TraceFault.Idle }
    ensures unknown_and_type { fault_after with_device (begins 1 CommandId.DestroyBuffer (one (Some (name 1 1)) ∷ one (Some (name 2 1)) ∷ []) [] None []) ≡ Some TraceFault.Unknown }
    ensures type_and_sequence { fault_after with_device (begins 1 CommandId.CreateDevice (one (Some (name 1 1)) ∷ []) (name 1 4 ∷ []) (Some Code.Success) []) ≡ Some TraceFault.WrongType }
    ensures sequence_and_instance { fault_after with_device (begins 1 CommandId.CreateInstance [] (name 1 4 ∷ []) (Some Code.Success) []) ≡ Some TraceFault.Sequence }
{}

/// Events after others, with each fault that they can have, and the numbers of their calls.
pub fn events_after_events()
    ensures header { header_fault (codes "vktrace 1" ∷ []) ≡ None }
    ensures other_header { header_fault (codes "vktrace 2" ∷ []) ≡ Some TraceFault.Header }
    ensures no_header { header_fault [] ≡ Some TraceFault.Header }
    ensures first { fault_after [] instance ≡ None }
    ensures second { fault_after with_device device ≡ None }
    ensures other_thread { fault_after with_device (begins 2 CommandId.CreateDevice (one (Some (name 1 2)) ∷ []) (name 2 1 ∷ []) (Some Code.Success) []) ≡ None }
    ensures before_return { fault_after (devices ∷ with_instance) (begins 2 CommandId.GetPhysicalDeviceFeatures (one (Some (name 1 2)) ∷ []) [] None []) ≡ None }
    ensures busy { fault_after (devices ∷ with_instance) device ≡ Some TraceFault.Busy }
    ensures busy_and_breaks { fault_after (instance ∷ []) (begins 1 CommandId.CmdDraw (one (Some (name 1 9)) ∷ []) [] None []) ≡ Some TraceFault.Busy }
    ensures idle { fault_after [] (Return 1) ≡ Some TraceFault.Idle }
    ensures idle_again { fault_after with_instance (Return 1) ≡ Some TraceFault.Idle }
    ensures unknown { fault_after with_instance device ≡ Some TraceFault.Unknown }
    ensures wrong_type { fault_after with_device (begins 1 CommandId.CreateDevice (one (Some (name 1 1)) ∷ []) (name 1 3 ∷ []) (Some Code.Success) []) ≡ Some TraceFault.WrongType }
    ensures unknown_later { fault_after with_device (begins 1 CommandId.DestroyBuffer (one (Some (name 1 1)) ∷ one (Some (name 1 9)) ∷ []) [] None []) ≡ Some TraceFault.Unknown }
    ensures own_result { fault_after with_device (begins 1 CommandId.CreateDevice (one (Some (name 1 3)) ∷ []) (name 1 3 ∷ []) (Some Code.Success) []) ≡ Some TraceFault.Unknown }
    ensures own_result_later { fault_after (device ∷ with_device) (begins 2 CommandId.DestroyDevice (one (Some (name 1 3)) ∷ []) [] None []) ≡ None }
    ensures name_twice { fault_after with_fence (begins 2 CommandId.WaitForFences (one (Some (name 1 3)) ∷ list (Some (name 1 4) ∷ Some (name 1 4) ∷ []) ∷ []) [] (Some Code.Success) []) ≡ None }
    ensures sequence { fault_after with_device (begins 1 CommandId.CreateDevice (one (Some (name 1 2)) ∷ []) (name 1 4 ∷ []) (Some Code.Success) []) ≡ Some TraceFault.Sequence }
    ensures other_sequence { fault_after with_device (begins 2 CommandId.CreateDevice (one (Some (name 1 2)) ∷ []) (name 1 3 ∷ []) (Some Code.Success) []) ≡ Some TraceFault.Sequence }
    ensures second_instance { fault_after with_instance (begins 1 CommandId.CreateInstance [] (name 1 2 ∷ []) (Some Code.Success) []) ≡ Some TraceFault.Instance }
    ensures failed_instance { fault_after with_instance (begins 1 CommandId.CreateInstance [] (name 1 2 ∷ []) (Some Code.ErrorUnknown) []) ≡ None }
    ensures breaks_in { fault_after (instance ∷ []) (begins 2 CommandId.CreateInstance [] (name 2 1 ∷ []) (Some Code.ErrorUnknown) []) ≡ Some TraceFault.Instance }
    ensures breaks_in_by_return { fault_after (begins 2 CommandId.CreateInstance [] (name 2 1 ∷ []) (Some Code.ErrorUnknown) [] ∷ devices ∷ with_instance) (Return 1) ≡ Some TraceFault.Instance }
    ensures open_at_end { fault_at_end (devices ∷ with_instance) ≡ Some TraceFault.OpenAtEnd }
    ensures ended { fault_at_end with_device ≡ None }
    ensures begin_number { call_number with_instance devices ≡ 2 }
    ensures return_number { call_number (devices ∷ with_instance) (Return 1) ≡ 2 }
{}

//! What drivers are told, by what they answered. Drivers are numbered from 0; handles stand in the order of the driver calls.
ghost use Rattle.std.specs.Prelude.{◌≡◌, [], ◌∷◌, ◌++◌, Some, codes, length, map, reverse, slice_get};
ghost use Rattle.std.specs.Option.{option_map};
ghost use Rattle.command_tables.specs.declared.types.CommandId.TheVariants as cmd;
ghost use Rattle.replay_model.specs.Direct.{exchanges};
ghost use Rattle.replay_model.specs.Judged.{judged};
ghost use Rattle.replay_model.specs.Less.{less};
ghost use Rattle.replay_rows.specs.Setups.{bare, two_drivers, validation, validation_start};
ghost use Rattle.replay_rows.specs.Traces.{asked, buffer_destroyed, buffer_destroyed_twice, buffers_and_memory, calls, driver_and_args, driver_call, each, events, instance_and_device, replies, said, started, submits_by_two_names, told};

/// A device and then its instance are destroyed: the driver is told the handles that it answered.
pub fn the_calls_of_a_clean_run()
    ensures { map (λ c. c.args) (asked bare (started
        ++ calls (codes "b 1 vkDestroyDevice %1.3 void"
        ∷ codes "b 1 vkDestroyInstance %1.1 void"
        ∷ []))
        ((1 ∷ []) ∷ (2 ∷ []) ∷ (3 ∷ []) ∷ [] ∷ [] ∷ []))
        ≡ [] ∷ each (1 ∷ []) ∷ each (2 ∷ []) ∷ each (3 ∷ []) ∷ each (1 ∷ []) ∷ [] }
{}

/// A driver that answers 1 for every handle is told 1 for every handle, and nothing is reported.
pub fn one_value_for_all()
    ensures text { told validation buffers_and_memory
        ≡ said (validation_start
        ++ codes "ret 4 vkCreateBuffer VK_SUCCESS born=1"
        ∷ codes "ret 5 vkCreateBuffer VK_SUCCESS born=1"
        ∷ codes "ret 6 vkAllocateMemory VK_SUCCESS born=1"
        ∷ codes "ret 7 vkDestroyBuffer void"
        ∷ codes "ret 8 vkBindBufferMemory VK_SUCCESS"
        ∷ codes "end calls=8 skipped=0 reports=0"
        ∷ []) }
    ensures last_call { option_map (λ c. c.args) (slice_get (asked validation buffers_and_memory
        ((1 ∷ []) ∷ (1 ∷ []) ∷ (1 ∷ []) ∷ (1 ∷ []) ∷ (1 ∷ []) ∷ (1 ∷ []) ∷ [] ∷ [] ∷ [])) 7)
        ≡ Some (each (1 ∷ 1 ∷ 1 ∷ [])) }
{}

/// A buffer is destroyed twice: the second destroy is skipped and not sent, and the trace less its skipped calls ends before it.
pub fn a_skipped_call_is_not_sent()
    ensures calls { map (λ c. c.args) (asked validation buffer_destroyed_twice
        ((1 ∷ []) ∷ (2 ∷ []) ∷ (3 ∷ []) ∷ (4 ∷ []) ∷ [] ∷ []))
        ≡ [] ∷ each (1 ∷ []) ∷ each (2 ∷ []) ∷ each (3 ∷ []) ∷ each (3 ∷ 4 ∷ []) ∷ [] }
    ensures less { less (judged validation (reverse buffer_destroyed_twice)) ≡ reverse buffer_destroyed }
{}

/// A threads report skips nothing: the driver is told of both submits that overlap.
pub fn a_reported_overlap_is_sent()
    ensures { length (asked validation submits_by_two_names []) ≡ 7 }
{}

/// Two drivers: both are told of the instance and are asked for one physical device each, with their own values; an enumeration
/// that names one of two is incomplete. A log pairs each driver call with its reply.
pub fn two_drivers_of_one_instance()
    ensures text { told two_drivers instance_and_device
        ≡ said (codes "note NoVersion /etc/vulkan/icd.d/c.json"
        ∷ codes "chain 1 ok layers=0 parts=0 drivers=2"
        ∷ codes "driver 1 /etc/vulkan/icd.d/a.json libvulkan_a.so"
        ∷ codes "driver 2 /etc/vulkan/icd.d/b.json /etc/vulkan/icd.d/./libb.so"
        ∷ codes "ret 1 vkCreateInstance VK_SUCCESS born=1"
        ∷ codes "ret 2 vkEnumeratePhysicalDevices VK_INCOMPLETE born=1"
        ∷ codes "end calls=2 skipped=0 reports=0"
        ∷ []) }
    ensures calls { asked two_drivers instance_and_device ((7 ∷ []) ∷ (8 ∷ []) ∷ (1 ∷ []) ∷ (1 ∷ []) ∷ [])
        ≡ driver_call 0 cmd.CreateInstance [] 1 []
        ∷ driver_call 1 cmd.CreateInstance [] 1 []
        ∷ driver_call 0 cmd.EnumeratePhysicalDevices (each (7 ∷ [])) 1 []
        ∷ driver_call 1 cmd.EnumeratePhysicalDevices (each (8 ∷ [])) 1 []
        ∷ [] }
    ensures replies { map (λ x. x.1) (exchanges (judged two_drivers (reverse instance_and_device))
        (reverse (replies ((7 ∷ []) ∷ (8 ∷ []) ∷ (1 ∷ []) ∷ (2 ∷ []) ∷ []))))
        ≡ replies ((7 ∷ []) ∷ (8 ∷ []) ∷ (1 ∷ []) ∷ (2 ∷ []) ∷ []) }
    ensures told_with_replies { map (λ x. x.0.driver) (exchanges (judged two_drivers (reverse instance_and_device))
        (reverse (replies ((7 ∷ []) ∷ (8 ∷ []) ∷ (1 ∷ []) ∷ (2 ∷ []) ∷ []))))
        ≡ 0 ∷ 1 ∷ 0 ∷ 1 ∷ [] }
{}

/// The second physical device is the second driver's: its device and all that is made of that go to this driver with its values,
/// also a surface that both drivers answered. A driver that did not answer for a swapchain is told the value of the one that did.
pub fn each_device_goes_to_its_driver()
    ensures { map driver_and_args (asked two_drivers (calls (
        codes "b 1 vkCreateInstance = %1.1 VK_SUCCESS"
        ∷ codes "b 1 vkEnumeratePhysicalDevices %1.1 = %1.2,%1.3 VK_SUCCESS"
        ∷ codes "b 1 vkCreateDevice %1.3 = %1.4 VK_SUCCESS"
        ∷ codes "b 1 vkGetDeviceQueue %1.4 = %1.5 void : 0,0"
        ∷ codes "b 1 vkQueueWaitIdle %1.5 VK_SUCCESS"
        ∷ codes "b 1 vkCreateXcbSurfaceKHR %1.1 = %1.6 VK_SUCCESS"
        ∷ codes "b 1 vkCreateSwapchainKHR %1.4 %1.6 null = %1.7 VK_SUCCESS"
        ∷ codes "b 1 vkCreateDevice %1.2 = %1.8 VK_SUCCESS"
        ∷ codes "b 1 vkDestroySwapchainKHR %1.8 %1.7 void"
        ∷ []))
        ((10 ∷ []) ∷ (11 ∷ []) ∷ (20 ∷ []) ∷ (21 ∷ []) ∷ (31 ∷ []) ∷ (41 ∷ []) ∷ [] ∷ (50 ∷ []) ∷ (51 ∷ []) ∷ (61 ∷ [])
        ∷ (70 ∷ []) ∷ [] ∷ []))
        ≡ (0, [])
        ∷ (1, [])
        ∷ (0, each (10 ∷ []))
        ∷ (1, each (11 ∷ []))
        ∷ (1, each (21 ∷ []))
        ∷ (1, each (31 ∷ []))
        ∷ (1, each (41 ∷ []))
        ∷ (0, each (10 ∷ []))
        ∷ (1, each (11 ∷ []))
        ∷ (1, each (31 ∷ 51 ∷ 0 ∷ []))
        ∷ (0, each (20 ∷ []))
        ∷ (0, each (70 ∷ 61 ∷ []))
        ∷ [] }
{}

/// A queue is retrieved twice: the last answer is its value, by each of its names. The value of a destroyed buffer stays.
pub fn the_last_answer_is_the_value()
    ensures { map (λ c. c.args) (asked bare (started
        ++ calls (codes "b 1 vkGetDeviceQueue %1.3 = %1.4 void : 0,0"
        ∷ codes "b 1 vkGetDeviceQueue %1.3 = %1.5 void : 0,0"
        ∷ codes "b 1 vkQueueWaitIdle %1.4 VK_SUCCESS"
        ∷ codes "b 1 vkCreateBuffer %1.3 = %1.6 VK_SUCCESS"
        ∷ codes "b 1 vkDestroyBuffer %1.3 %1.6 void"
        ∷ codes "b 1 vkDestroyBuffer %1.3 %1.6 void"
        ∷ []))
        ((1 ∷ []) ∷ (2 ∷ []) ∷ (3 ∷ []) ∷ (5 ∷ []) ∷ (6 ∷ []) ∷ [] ∷ (7 ∷ []) ∷ [] ∷ [] ∷ []))
        ≡ [] ∷ each (1 ∷ []) ∷ each (2 ∷ []) ∷ each (3 ∷ []) ∷ each (3 ∷ []) ∷ each (6 ∷ []) ∷ each (3 ∷ [])
        ∷ each (3 ∷ 7 ∷ []) ∷ each (3 ∷ 7 ∷ []) ∷ [] }
{}

/// Null, alone and in a list, and a name whose call is still open are told as 0.
pub fn null_and_unborn_names_are_told_as_zero()
    ensures { map (λ c. c.args) (asked bare (started
        ++ calls (codes "b 1 vkCreateCommandPool %1.3 = %1.4 VK_SUCCESS"
        ∷ codes "b 1 vkAllocateCommandBuffers %1.3 %1.4 = %1.5 VK_SUCCESS"
        ∷ codes "b 1 vkFreeCommandBuffers %1.3 %1.4 [null,%1.5] void"
        ∷ [])
        ++ events (codes "b 1 vkCreateBuffer %1.3 = %1.6 VK_SUCCESS"
        ∷ codes "b 2 vkDestroyBuffer %1.3 %1.6 void"
        ∷ codes "r 2"
        ∷ codes "r 1"
        ∷ [])
        ++ calls (codes "b 1 vkDestroyBuffer %1.3 null void" ∷ []))
        ((1 ∷ []) ∷ (2 ∷ []) ∷ (3 ∷ []) ∷ (4 ∷ []) ∷ (5 ∷ []) ∷ [] ∷ (6 ∷ []) ∷ [] ∷ [] ∷ []))
        ≡ [] ∷ each (1 ∷ []) ∷ each (2 ∷ []) ∷ each (3 ∷ []) ∷ each (3 ∷ 4 ∷ []) ∷ ((3 ∷ []) ∷ (4 ∷ []) ∷ (0 ∷ 5 ∷ []) ∷ [])
        ∷ each (3 ∷ []) ∷ each (3 ∷ 0 ∷ []) ∷ each (3 ∷ 0 ∷ []) ∷ [] }
{}

/// A driver is told the code and the payload of the trace, and is asked for as many handles as the call has results.
pub fn payload_code_and_number_of_handles()
    ensures { slice_get (asked bare (started
        ++ calls (codes "b 1 vkCreateCommandPool %1.3 = %1.4 VK_SUCCESS"
        ∷ codes "b 1 vkAllocateCommandBuffers %1.3 %1.4 = %1.5,%1.6 VK_SUCCESS : level 0"
        ∷ []))
        ((1 ∷ []) ∷ (2 ∷ []) ∷ (3 ∷ []) ∷ (4 ∷ []) ∷ (5 ∷ 6 ∷ []) ∷ [])) 4
        ≡ Some (driver_call 0 cmd.AllocateCommandBuffers (each (3 ∷ 4 ∷ [])) 2 (codes "level 0")) }
{}

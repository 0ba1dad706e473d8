//! Small stream files: what they are read as, and where and why they are refused, shown by computation.
ghost use Rattle.std.specs.Prelude.{◌≡◌, ◌++◌, ◌∷◌, [], None, Ok, Some, codes};
ghost use Rattle.trace_format.specs.declared.fault.TraceFault.TheVariants as fault;
ghost use Rattle.trace_format.specs.Content.{Return};
ghost use Rattle.trace_format.specs.Samples.{name};
ghost use Rattle.stream_model.specs.declared.refusal.Refusal.TheVariants as refusal;
ghost use Rattle.stream_model.specs.FileLines.{EventLine};
ghost use Rattle.stream_model.specs.Order.{limit_refusal};
ghost use Rattle.stream_model.specs.Refusals.{file_lines};
ghost use Rattle.stream_model.specs.Samples.{at, beside_a_device, cuts, headed, in_stream, in_teardown, in_turns, makes, more_devices, only_streams, read, refusal_in, refused, returns, said, started, text_read, two_by_two, two_streams, waits};

/// A file without events, and files without a header.
pub fn the_shortest_files()
    ensures whole { text_read (read (codes "setup" ∷ codes "teardown" ∷ [])) ≡ Ok (record { setup = []; streams = []; teardown = [] }) }
    ensures without_a_last_feed { text_read (file_lines (codes "vkstreams 1\nsetup\nteardown")) ≡ Ok (record { setup = []; streams = []; teardown = [] }) }
    ensures empty { file_lines [] ≡ refused 1 refusal.Section }
    ensures an_empty_line { file_lines (said ([] ∷ [])) ≡ refused 1 refusal.Section }
    ensures a_trace { file_lines (said (codes "vktrace 1" ∷ codes "setup" ∷ codes "teardown" ∷ [])) ≡ refused 1 refusal.Section }
    ensures another_number { file_lines (said (codes "vkstreams 2" ∷ codes "setup" ∷ codes "teardown" ∷ [])) ≡ refused 1 refusal.Section }
    ensures a_space_behind { file_lines (said (codes "vkstreams 1 " ∷ codes "setup" ∷ codes "teardown" ∷ [])) ≡ refused 1 refusal.Section }
    ensures header_alone { file_lines (headed []) ≡ refused 2 refusal.Section }
{}

/// Two streams of one device; each event stands in its section.
pub fn a_file_of_two_streams()
    ensures { text_read (read two_streams) ≡ Ok (record {
      setup = codes "b 1 vkCreateInstance = %1.1 VK_SUCCESS" ∷ codes "r 1" ∷ codes "b 1 vkEnumeratePhysicalDevices %1.1 = %1.2 VK_SUCCESS" ∷ codes "r 1" ∷ codes "b 1 vkCreateDevice %1.2 = %1.3 VK_SUCCESS" ∷ codes "r 1" ∷ [];
      streams = record { thread = 1; lines = codes "b 1 vkCreateBuffer %1.3 = %1.4 VK_SUCCESS" ∷ codes "r 1" ∷ [] } ∷ record { thread = 2; lines = codes "b 2 vkCreateFence %1.3 = %2.1 VK_SUCCESS" ∷ codes "r 2" ∷ [] } ∷ [];
      teardown = codes "b 1 vkDestroyBuffer %1.3 %1.4 void" ∷ codes "r 1" ∷ codes "b 1 vkDestroyFence %1.3 %2.1 void" ∷ codes "r 1" ∷ [];
    }) }
{}

/// Behind teardown a file may end wherever no call is open, and before it nowhere.
pub fn a_file_that_is_cut_behind_each_line()
    ensures before_teardown { cuts two_streams (0 ∷ 1 ∷ 2 ∷ 3 ∷ 6 ∷ 7 ∷ 8 ∷ 9 ∷ 10 ∷ 11 ∷ 12 ∷ 13 ∷ []) ≡
        at 2 refusal.Section ∷ at 3 refusal.Section ∷ at 4 refusal.Section ∷ at 5 refusal.Section ∷ at 8 refusal.Section ∷ at 9 refusal.Section ∷ at 10 refusal.Section ∷ at 11 refusal.Section ∷ at 12 refusal.Section ∷ at 13 refusal.Section ∷ at 14 refusal.Section ∷ at 15 refusal.Section ∷ [] }
    ensures behind_teardown { cuts two_streams (14 ∷ 15 ∷ 16 ∷ 17 ∷ 18 ∷ []) ≡
        None ∷ at 17 (refusal.Fault fault.OpenAtEnd) ∷ None ∷ at 19 (refusal.Fault fault.OpenAtEnd) ∷ None ∷ [] }
{}

/// Lines that are no event and no heading.
pub fn lines_that_are_no_heading()
    ensures capital { read (codes "Setup" ∷ []) ≡ refused 2 refusal.Section }
    ensures empty { read ([] ∷ []) ≡ refused 2 refusal.Section }
    ensures a_space_behind { read (codes "setup " ∷ []) ≡ refused 2 refusal.Section }
    ensures a_carriage_return { read ((codes "setup" ++ 13 ∷ []) ∷ []) ≡ refused 2 refusal.Section }
    ensures no_thread { in_stream (codes "stream" ∷ []) ≡ refused 10 refusal.Section }
    ensures empty_thread { in_stream (codes "stream " ∷ []) ≡ refused 10 refusal.Section }
    ensures zero { in_stream (codes "stream 0" ∷ []) ≡ refused 10 refusal.Section }
    ensures leading_zero { in_stream (codes "stream 02" ∷ []) ≡ refused 10 refusal.Section }
    ensures above { in_stream (codes "stream 1025" ∷ []) ≡ refused 10 refusal.Section }
    ensures greatest { refusal_in (in_stream (codes "stream 1024" ∷ codes "teardown" ∷ [])) ≡ None }
    ensures goes_on { in_stream (codes "stream 2 3" ∷ []) ≡ refused 10 refusal.Section }
    ensures two_spaces { in_stream (codes "stream  2" ∷ []) ≡ refused 10 refusal.Section }
    ensures another_letter { in_stream (codes "e 1 vkDeviceWaitIdle %1.3 VK_SUCCESS" ∷ []) ≡ refused 10 refusal.Section }
    ensures a_letter_alone { in_stream (codes "b" ∷ []) ≡ refused 10 refusal.Section }
    ensures not_ascii { in_stream ((9 ∷ []) ∷ []) ≡ refused 10 refusal.Section }
{}

/// Headings out of their order, the 65th stream, and a thread's second one.
pub fn headings_out_of_order()
    ensures stream_first { read (codes "stream 1" ∷ []) ≡ refused 2 refusal.Section }
    ensures teardown_first { read (codes "teardown" ∷ []) ≡ refused 2 refusal.Section }
    ensures setup_twice { read (codes "setup" ∷ codes "setup" ∷ []) ≡ refused 3 refusal.Section }
    ensures setup_behind_a_stream { in_stream (codes "setup" ∷ []) ≡ refused 10 refusal.Section }
    ensures setup_behind_teardown { in_teardown (codes "setup" ∷ []) ≡ refused 10 refusal.Section }
    ensures stream_behind_teardown { in_teardown (codes "stream 1" ∷ []) ≡ refused 10 refusal.Section }
    ensures teardown_twice { in_teardown (codes "teardown" ∷ []) ≡ refused 10 refusal.Section }
    ensures a_thread_twice { in_stream (codes "stream 2" ∷ codes "stream 1" ∷ []) ≡ refused 11 refusal.Section }
    ensures many { refusal_in (read (only_streams 64)) ≡ None }
    ensures too_many { read (only_streams 65) ≡ refused 67 refusal.Section }
{}

/// Events before setup, and of another thread than their stream's. The fault of a line itself comes first, and one of its place later.
pub fn events_out_of_their_section()
    ensures begin_before_setup { read (codes "b 1 vkCreateInstance = %1.1 VK_SUCCESS" ∷ []) ≡ refused 2 refusal.Section }
    ensures return_before_setup { read (codes "r 1" ∷ []) ≡ refused 2 refusal.Section }
    ensures fault_before_setup { read (codes "r 01" ∷ []) ≡ refused 2 (refusal.Fault fault.Thread) }
    ensures command_before_setup { read (codes "b 1 vkNothing" ∷ []) ≡ refused 2 (refusal.Fault fault.Command) }
    ensures begin_of_another { in_stream (codes "b 2 vkDeviceWaitIdle %1.3 VK_SUCCESS" ∷ []) ≡ refused 10 refusal.Section }
    ensures return_of_another { in_stream (codes "r 2" ∷ []) ≡ refused 10 refusal.Section }
    ensures fault_of_another { in_stream (codes "b 2 vkDeviceWaitIdle %1.03 VK_SUCCESS" ∷ []) ≡ refused 10 (refusal.Fault fault.Argument) }
    ensures not_ascii { in_stream ((codes "b 2 vkDeviceWaitIdle %1.3 VK_SUCCESS : " ++ 9 ∷ []) ∷ []) ≡ refused 10 (refusal.Fault fault.NotAscii) }
    ensures unknown_of_another { in_stream (codes "b 2 vkDeviceWaitIdle %1.9 VK_SUCCESS" ∷ []) ≡ refused 10 refusal.Section }
    ensures any_thread_in_setup { refusal_in (read (codes "setup" ∷ codes "b 7 vkCreateInstance = %7.1 VK_SUCCESS" ∷ codes "r 7" ∷ codes "teardown" ∷ [])) ≡ None }
    ensures any_thread_in_teardown { refusal_in (in_teardown (codes "b 7 vkDeviceWaitIdle %1.3 VK_SUCCESS" ∷ codes "r 7" ∷ [])) ≡ None }
{}

/// A call that is open at the end of a section is a fault of the next heading, if that is in its order.
pub fn calls_that_are_open_at_a_heading()
    ensures at_a_stream { in_stream (codes "b 1 vkDeviceWaitIdle %1.3 VK_SUCCESS" ∷ codes "stream 2" ∷ []) ≡ refused 11 (refusal.Fault fault.OpenAtEnd) }
    ensures at_teardown { in_stream (codes "b 1 vkDeviceWaitIdle %1.3 VK_SUCCESS" ∷ codes "teardown" ∷ []) ≡ refused 11 (refusal.Fault fault.OpenAtEnd) }
    ensures of_setup { read (codes "setup" ∷ codes "b 1 vkCreateInstance = %1.1 VK_SUCCESS" ∷ codes "stream 2" ∷ []) ≡ refused 4 (refusal.Fault fault.OpenAtEnd) }
    ensures at_setup { in_stream (codes "b 1 vkDeviceWaitIdle %1.3 VK_SUCCESS" ∷ codes "setup" ∷ []) ≡ refused 11 refusal.Section }
    ensures at_its_own_again { in_stream (codes "b 1 vkDeviceWaitIdle %1.3 VK_SUCCESS" ∷ codes "stream 1" ∷ []) ≡ refused 11 refusal.Section }
    ensures at_no_heading { in_stream (codes "b 1 vkDeviceWaitIdle %1.3 VK_SUCCESS" ∷ codes "Teardown" ∷ []) ≡ refused 11 refusal.Section }
    ensures at_the_end { in_stream (codes "b 1 vkDeviceWaitIdle %1.3 VK_SUCCESS" ∷ []) ≡ refused 11 refusal.Section }
    ensures at_the_end_of_teardown { in_teardown (codes "b 1 vkDeviceWaitIdle %1.3 VK_SUCCESS" ∷ []) ≡ refused 11 (refusal.Fault fault.OpenAtEnd) }
{}

/// The sections one after the other are a trace.
pub fn faults_of_a_place()
    ensures busy { in_stream (codes "b 1 vkDeviceWaitIdle %1.3 VK_SUCCESS" ∷ codes "b 1 vkDeviceWaitIdle %1.3 VK_SUCCESS" ∷ []) ≡ refused 11 (refusal.Fault fault.Busy) }
    ensures idle { in_stream (codes "r 1" ∷ []) ≡ refused 10 (refusal.Fault fault.Idle) }
    ensures unknown { in_stream (codes "b 1 vkDeviceWaitIdle %1.9 VK_SUCCESS" ∷ []) ≡ refused 10 (refusal.Fault fault.Unknown) }
    ensures wrong_type { in_stream (codes "b 1 vkDeviceWaitIdle %1.2 VK_SUCCESS" ∷ []) ≡ refused 10 (refusal.Fault fault.WrongType) }
    ensures sequence { in_stream (codes "b 1 vkCreateBuffer %1.3 = %1.1 VK_SUCCESS" ∷ []) ≡ refused 10 (refusal.Fault fault.Sequence) }
    ensures instance { in_stream (codes "b 1 vkCreateInstance = %1.4 VK_SUCCESS" ∷ []) ≡ refused 10 (refusal.Fault fault.Instance) }
    ensures in_setup { read (codes "setup" ∷ codes "r 1" ∷ []) ≡ refused 3 (refusal.Fault fault.Idle) }
    ensures in_teardown { in_teardown (codes "b 1 vkDestroyBuffer %1.3 %1.4 void" ∷ []) ≡ refused 10 (refusal.Fault fault.Unknown) }
    ensures of_a_later_stream { in_stream (codes "b 1 vkDestroyFence %1.3 %2.1 void" ∷ codes "r 1" ∷ codes "stream 2" ∷ []) ≡ refused 10 (refusal.Fault fault.Unknown) }
    ensures across_two_threads { read (codes "setup" ∷ codes "b 1 vkCreateInstance = %1.1 VK_SUCCESS" ∷ codes "r 2" ∷ []) ≡ refused 4 (refusal.Fault fault.Idle) }
{}

/// Calls that are on no device.
pub fn calls_without_a_device()
    ensures instance { in_stream (codes "b 1 vkCreateInstance = %1.4 VK_ERROR_UNKNOWN" ∷ []) ≡ refused 10 refusal.NoDevice }
    ensures of_an_instance { in_stream (codes "b 1 vkDestroyInstance %1.1 void" ∷ []) ≡ refused 10 refusal.NoDevice }
    ensures of_a_physical_device { in_stream (codes "b 1 vkGetPhysicalDeviceProperties %1.2 void" ∷ []) ≡ refused 10 refusal.NoDevice }
    ensures device { in_stream (codes "b 1 vkCreateDevice %1.2 = %1.4 VK_SUCCESS" ∷ []) ≡ refused 10 refusal.NoDevice }
    ensures of_a_buffer_of_no_pool { in_stream (codes "b 1 vkAllocateCommandBuffers %1.3 null = %1.4 VK_SUCCESS" ∷ codes "r 1" ∷ codes "b 1 vkBeginCommandBuffer %1.4 VK_SUCCESS" ∷ []) ≡ refused 12 refusal.NoDevice }
    ensures before_another_stream { in_stream (codes "b 1 vkAllocateCommandBuffers %1.3 null = %1.4 VK_SUCCESS" ∷ codes "r 1" ∷ codes "stream 2" ∷ codes "b 2 vkBeginCommandBuffer %1.4 VK_SUCCESS" ∷ []) ≡ refused 13 refusal.NoDevice }
    ensures in_setup { refusal_in (in_teardown (codes "b 1 vkGetPhysicalDeviceProperties %1.2 void" ∷ codes "r 1" ∷ [])) ≡ None }
{}

/// Calls that no stream may make.
pub fn calls_that_are_kept_out()
    ensures destroys_device { in_stream (codes "b 1 vkDestroyDevice %1.3 void" ∷ []) ≡ refused 10 refusal.NotInStream }
    ensures swapchain { in_stream (codes "b 1 vkCreateSwapchainKHR %1.3 null null = %1.4 VK_SUCCESS" ∷ []) ≡ refused 10 refusal.NotInStream }
    ensures of_another_stream { in_stream (codes "b 1 vkCreateFence %1.3 = %1.4 VK_SUCCESS" ∷ codes "r 1" ∷ codes "stream 2" ∷ codes "b 2 vkGetFenceStatus %1.3 %1.4 VK_SUCCESS" ∷ []) ≡ refused 13 refusal.NotInStream }
    ensures in_a_list { in_stream (codes "b 1 vkCreateFence %1.3 = %1.4 VK_SUCCESS" ∷ codes "r 1" ∷ codes "stream 2" ∷ codes "b 2 vkResetFences %1.3 [null,%1.4] VK_SUCCESS" ∷ []) ≡ refused 13 refusal.NotInStream }
    ensures of_its_own { refusal_in (in_stream (codes "b 1 vkCreateFence %1.3 = %1.4 VK_SUCCESS" ∷ codes "r 1" ∷ codes "b 1 vkGetFenceStatus %1.3 %1.4 VK_SUCCESS" ∷ codes "r 1" ∷ codes "teardown" ∷ [])) ≡ None }
    ensures in_teardown { refusal_in (in_stream (codes "b 1 vkCreateFence %1.3 = %1.4 VK_SUCCESS" ∷ codes "r 1" ∷ codes "teardown" ∷ codes "b 2 vkGetFenceStatus %1.3 %1.4 VK_SUCCESS" ∷ codes "r 2" ∷ codes "b 2 vkDestroyDevice %1.3 void" ∷ codes "r 2" ∷ [])) ≡ None }
    ensures before_another_device { beside_a_device (codes "b 1 vkCreateFence %1.3 = %1.5 VK_SUCCESS" ∷ codes "r 1" ∷ codes "stream 2" ∷ codes "b 2 vkGetFenceStatus %1.4 %1.5 VK_SUCCESS" ∷ []) ≡ refused 15 refusal.NotInStream }
    ensures fault_first { in_stream (codes "b 1 vkDestroyDevice %1.9 void" ∷ []) ≡ refused 10 (refusal.Fault fault.Unknown) }
{}

/// Calls that take what is of another device, or of none.
pub fn calls_across_devices()
    ensures other { beside_a_device (codes "b 1 vkCreateFence %1.3 = %1.5 VK_SUCCESS" ∷ codes "r 1" ∷ codes "b 1 vkGetFenceStatus %1.4 %1.5 VK_SUCCESS" ∷ []) ≡ refused 14 refusal.CrossDevice }
    ensures in_a_list { beside_a_device (codes "b 1 vkCreateFence %1.3 = %1.5 VK_SUCCESS" ∷ codes "r 1" ∷ codes "b 1 vkResetFences %1.4 [null,%1.5] VK_SUCCESS" ∷ []) ≡ refused 14 refusal.CrossDevice }
    ensures of_none { in_stream (codes "b 1 vkAllocateCommandBuffers %1.3 null = %1.4 VK_SUCCESS" ∷ codes "r 1" ∷ codes "b 1 vkFreeCommandBuffers %1.3 null [%1.4] void" ∷ []) ≡ refused 12 refusal.CrossDevice }
    ensures of_a_queue { beside_a_device (codes "b 1 vkGetDeviceQueue %1.3 = %1.5 void : 0,0" ∷ codes "r 1" ∷ codes "b 1 vkCreateFence %1.4 = %1.6 VK_SUCCESS" ∷ codes "r 1" ∷ codes "b 1 vkQueueSubmit %1.5 [] [] [] %1.6 VK_SUCCESS" ∷ []) ≡ refused 16 refusal.CrossDevice }
    ensures null { refusal_in (beside_a_device (codes "b 1 vkGetDeviceQueue %1.3 = %1.5 void : 0,0" ∷ codes "r 1" ∷ codes "b 1 vkQueueSubmit %1.5 [] [] [] null VK_SUCCESS" ∷ codes "r 1" ∷ codes "b 1 vkDeviceWaitIdle %1.4 VK_SUCCESS" ∷ codes "r 1" ∷ codes "teardown" ∷ [])) ≡ None }
    ensures of_a_pool_at_any_depth { beside_a_device (codes "b 1 vkCreateCommandPool %1.4 = %1.5 VK_SUCCESS" ∷ codes "r 1" ∷ codes "b 1 vkAllocateCommandBuffers %1.4 %1.5 = %1.6 VK_SUCCESS" ∷ codes "r 1" ∷ codes "b 1 vkFreeCommandBuffers %1.3 null [%1.6] void" ∷ []) ≡ refused 16 refusal.CrossDevice }
    ensures that_failed { beside_a_device (codes "b 1 vkCreateFence %1.3 = %1.5 VK_ERROR_UNKNOWN" ∷ codes "r 1" ∷ codes "b 1 vkGetFenceStatus %1.4 %1.5 VK_SUCCESS" ∷ []) ≡ refused 14 refusal.CrossDevice }
{}

/// A stream may name 16 devices.
pub fn too_many_devices()
    ensures many { refusal_in (read (started ++ more_devices 4 16 ++ codes "stream 1" ∷ waits 3 16 ++ codes "teardown" ∷ [])) ≡ None }
    ensures too_many { read (started ++ more_devices 4 16 ++ codes "stream 1" ∷ waits 3 17 ++ codes "teardown" ∷ []) ≡ refused 74 refusal.Devices }
    ensures in_setup { refusal_in (read (started ++ more_devices 4 16 ++ waits 3 17 ++ codes "stream 1" ∷ waits 3 16 ++ codes "teardown" ∷ waits 3 17)) ≡ None }
{}

/// The most names and events of a file, counted over setup, streams and teardown. Names come before events.
pub fn too_many_names_and_events()
    ensures names { limit_refusal (EventLine (makes 262143) ∷ []) (makes 1) ≡ None }
    ensures one_name_too_many { limit_refusal (EventLine (makes 262143) ∷ []) (makes 2) ≡ Some refusal.Names }
    ensures events { limit_refusal (returns 262143) (Return 1) ≡ None }
    ensures one_event_too_many { limit_refusal (returns 262144) (Return 1) ≡ Some refusal.Events }
    ensures names_first { limit_refusal (EventLine (makes 262144) ∷ returns 262143) (makes 1) ≡ Some refusal.Names }
{}

/// What two threads do on one of two devices, in two orders of their turns: each thread's calls there keep their own order, and those on the
/// other device are left out. A turn of a thread that has nothing left gives nothing.
pub fn a_device_by_turns()
    ensures one_thread_first { in_turns (read two_by_two) (name 1 3) (1 ∷ 1 ∷ 1 ∷ 1 ∷ 2 ∷ 2 ∷ []) ≡
        codes "b 1 vkCreateFence %1.3 = %1.5 VK_SUCCESS" ∷ codes "r 1" ∷ codes "b 1 vkGetFenceStatus %1.3 %1.5 VK_SUCCESS" ∷ codes "r 1" ∷ codes "b 2 vkCreateBuffer %1.3 = %2.1 VK_SUCCESS" ∷ codes "r 2" ∷ [] }
    ensures in_between { in_turns (read two_by_two) (name 1 3) (1 ∷ 2 ∷ 1 ∷ 1 ∷ 2 ∷ 1 ∷ []) ≡
        codes "b 1 vkCreateFence %1.3 = %1.5 VK_SUCCESS" ∷ codes "b 2 vkCreateBuffer %1.3 = %2.1 VK_SUCCESS" ∷ codes "r 1" ∷ codes "b 1 vkGetFenceStatus %1.3 %1.5 VK_SUCCESS" ∷ codes "r 2" ∷ codes "r 1" ∷ [] }
    ensures other_device { in_turns (read two_by_two) (name 1 4) (2 ∷ 1 ∷ 2 ∷ 1 ∷ []) ≡
        codes "b 2 vkDeviceWaitIdle %1.4 VK_SUCCESS" ∷ codes "b 1 vkDeviceWaitIdle %1.4 VK_SUCCESS" ∷ codes "r 2" ∷ codes "r 1" ∷ [] }
    ensures no_event_left { in_turns (read two_by_two) (name 1 4) (3 ∷ 1 ∷ 1 ∷ 1 ∷ []) ≡ codes "b 1 vkDeviceWaitIdle %1.4 VK_SUCCESS" ∷ codes "r 1" ∷ [] }
    ensures no_device { in_turns (read two_by_two) (name 1 2) (1 ∷ 2 ∷ []) ≡ [] }
{}

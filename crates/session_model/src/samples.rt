//! Sessions over small traces, by computation.
ghost use Rattle.std.specs.Prelude.{◌≡◌, [], ◌∷◌, ◌++◌, codes, map, reverse};
ghost use Rattle.replay_model.specs.Judged.{judged};
ghost use Rattle.replay_model.specs.Text.{end_line, lines};
ghost use Rattle.session_model.specs.Running.{session_of};
ghost use Rattle.session_model.specs.Samples.{asked_handles, destroyed_before_its_device, destroyed_while_enumerated, device_of_the_second_driver, name_given, no_handle, one_handle, three_parts, pair_of_drivers};

/// An instance is destroyed by one thread while another enumerates its physical devices. The threads part reports it, the call goes on to the driver with
/// the driver's own handle, and the device that the enumeration gives is lost. The session's lines are these, and so is the text of the trace.
pub fn an_instance_is_destroyed_while_it_is_used()
    ensures session { (session_of three_parts (one_handle 7 ∷ one_handle 8 ∷ no_handle ∷ []) destroyed_while_enumerated).lines
        ≡ codes "chain 1 ok\n"
        ++ (codes "ret 1 vkCreateInstance VK_SUCCESS born=1\n"
        ++ (codes "report 3 1 VKR-vkDestroyInstance-instance-overlap %1.1 with=2\n"
        ++ codes "ret 2 vkEnumeratePhysicalDevices VK_SUCCESS born=0\n")) }
    ensures trace { (session_of three_parts (one_handle 7 ∷ one_handle 8 ∷ no_handle ∷ []) destroyed_while_enumerated).lines
        ≡ lines three_parts (judged three_parts (reverse destroyed_while_enumerated)) }
    ensures told { map asked_handles (session_of three_parts (one_handle 7 ∷ one_handle 8 ∷ no_handle ∷ []) destroyed_while_enumerated).told
        ≡ ((0 ∷ 1 ∷ []) ∷ []) ∷ ((0 ∷ 1 ∷ []) ∷ (7 ∷ []) ∷ []) ∷ ((0 ∷ 0 ∷ []) ∷ (7 ∷ []) ∷ []) ∷ [] }
    ensures named { map (λ n. n.name) (session_of three_parts (one_handle 7 ∷ one_handle 8 ∷ no_handle ∷ []) destroyed_while_enumerated).kept.names ≡ name_given 1 ∷ [] }
{}

/// A call that the lifetimes part skips ends nothing and isn't told to the driver. A device that is destroyed twice is reported by the loader alone.
pub fn an_instance_with_a_device_lives_on()
    ensures session { (session_of three_parts (one_handle 7 ∷ one_handle 8 ∷ one_handle 9 ∷ no_handle ∷ []) destroyed_before_its_device).lines
        ≡ codes "chain 1 ok\n"
        ++ (codes "ret 1 vkCreateInstance VK_SUCCESS born=1\n"
        ++ (codes "ret 2 vkEnumeratePhysicalDevices VK_SUCCESS born=1\n"
        ++ (codes "ret 3 vkCreateDevice VK_SUCCESS born=1\n"
        ++ (codes "report 4 2 VKR-vkDestroyInstance-instance-children %1.1 children=1\n"
        ++ (codes "ret 4 vkDestroyInstance void\n"
        ++ (codes "ret 5 vkDestroyDevice void\n"
        ++ (codes "report 6 0 VUID-vkDestroyDevice-device-parameter %1.3\n"
        ++ codes "ret 6 vkDestroyDevice void\n"))))))) }
    ensures told { map asked_handles (session_of three_parts (one_handle 7 ∷ one_handle 8 ∷ one_handle 9 ∷ no_handle ∷ []) destroyed_before_its_device).told
        ≡ ((0 ∷ 1 ∷ []) ∷ []) ∷ ((0 ∷ 1 ∷ []) ∷ (7 ∷ []) ∷ []) ∷ ((0 ∷ 1 ∷ []) ∷ (8 ∷ []) ∷ []) ∷ ((0 ∷ 0 ∷ []) ∷ (9 ∷ []) ∷ []) ∷ [] }
    ensures end { let k = (session_of three_parts (one_handle 7 ∷ one_handle 8 ∷ one_handle 9 ∷ no_handle ∷ []) destroyed_before_its_device).kept in
        end_line k.calls k.skipped k.reports ≡ codes "end calls=6 skipped=2 reports=2\n" }
{}

/// Each driver is told its own handles, and a call on the second physical device goes to the second driver alone.
pub fn a_device_is_made_on_the_second_driver()
    ensures session { (session_of pair_of_drivers (one_handle 7 ∷ one_handle 17 ∷ one_handle 8 ∷ one_handle 18 ∷ one_handle 19 ∷ []) device_of_the_second_driver).lines
        ≡ codes "chain 1 ok\n"
        ++ (codes "ret 1 vkCreateInstance VK_SUCCESS born=1\n"
        ++ (codes "ret 2 vkEnumeratePhysicalDevices VK_SUCCESS born=2\n"
        ++ codes "ret 3 vkCreateDevice VK_SUCCESS born=1\n")) }
    ensures told { map asked_handles (session_of pair_of_drivers (one_handle 7 ∷ one_handle 17 ∷ one_handle 8 ∷ one_handle 18 ∷ one_handle 19 ∷ []) device_of_the_second_driver).told
        ≡ ((0 ∷ 1 ∷ []) ∷ []) ∷ ((1 ∷ 1 ∷ []) ∷ []) ∷ ((0 ∷ 1 ∷ []) ∷ (7 ∷ []) ∷ []) ∷ ((1 ∷ 1 ∷ []) ∷ (17 ∷ []) ∷ []) ∷ ((1 ∷ 1 ∷ []) ∷ (18 ∷ []) ∷ []) ∷ [] }
{}

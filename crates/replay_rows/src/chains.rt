//! Chains and their places: refusals, parts above and below each other, the chain in force.
ghost use Rattle.std.specs.Prelude.{◌≡◌, [], ◌∷◌, ◌++◌, true, false, codes, reverse};
ghost use Rattle.replay_model.specs.Judged.{judged};
ghost use Rattle.replay_model.specs.ChainPlaces.{seen_past};
ghost use Rattle.replay_rows.specs.Traces.{buffer_destroyed_twice, calls, events, said, skips, started, told};
ghost use Rattle.replay_rows.specs.Setups.{device_start, layers_by_name, lifetimes_above_threads, lifetimes_twice, no_driver, unguarded, validation, validation_start};

/// No driver is left: the chain is refused, and the call that asked for it is skipped.
pub fn no_driver_is_left()
    ensures { told no_driver (calls (codes "b 1 vkCreateInstance = %1.1 VK_SUCCESS"
        ∷ []))
        ≡ said (codes "chain 1 no-driver"
        ∷ codes "ret 1 vkCreateInstance VK_ERROR_INCOMPATIBLE_DRIVER born=0"
        ∷ codes "end calls=1 skipped=1 reports=0"
        ∷ []) }
{}

/// A layer checks lifetimes with no unique part nearer the driver: its chain is refused.
pub fn a_checking_part_without_a_unique_part()
    ensures { told unguarded (calls (codes "b 1 vkCreateInstance = %1.1 VK_SUCCESS : VK_LAYER_own_life"
        ∷ []))
        ≡ said (codes "chain 1 unguarded VK_LAYER_own_life"
        ∷ codes "ret 1 vkCreateInstance VK_ERROR_INITIALIZATION_FAILED born=0"
        ∷ codes "end calls=1 skipped=1 reports=0"
        ∷ []) }
{}

/// The threads part sees a call before the lifetimes part skips it: its use counts until it returns.
pub fn a_threads_part_above_a_lifetimes_part()
    ensures { told validation (started
        ++ calls (codes "b 1 vkCreateBuffer %1.3 = %1.4 VK_SUCCESS"
        ∷ codes "b 1 vkDestroyBuffer %1.3 %1.4 void"
        ∷ [])
        ++ events (codes "b 1 vkDestroyBuffer %1.3 %1.4 void"
        ∷ codes "b 2 vkDestroyBuffer %1.3 %1.4 void"
        ∷ codes "r 1"
        ∷ codes "r 2"
        ∷ []))
        ≡ said (validation_start
        ++ codes "ret 4 vkCreateBuffer VK_SUCCESS born=1"
        ∷ codes "ret 5 vkDestroyBuffer void"
        ∷ codes "report 6 2 VUID-vkDestroyBuffer-buffer-parameter %1.4"
        ∷ codes "report 7 1 VKR-vkDestroyBuffer-buffer-overlap %1.4 with=6"
        ∷ codes "report 7 2 VUID-vkDestroyBuffer-buffer-parameter %1.4"
        ∷ codes "ret 6 vkDestroyBuffer void"
        ∷ codes "ret 7 vkDestroyBuffer void"
        ∷ codes "end calls=7 skipped=2 reports=3"
        ∷ []) }
{}

/// The threads part does not see a call that the lifetimes part above it skips.
pub fn a_threads_part_below_a_lifetimes_part()
    ensures { told lifetimes_above_threads (started
        ++ calls (codes "b 1 vkCreateBuffer %1.3 = %1.4 VK_SUCCESS"
        ∷ codes "b 1 vkDestroyBuffer %1.3 %1.4 void"
        ∷ [])
        ++ events (codes "b 1 vkDestroyBuffer %1.3 %1.4 void"
        ∷ codes "b 2 vkDestroyBuffer %1.3 %1.4 void"
        ∷ codes "r 1"
        ∷ codes "r 2"
        ∷ []))
        ≡ said (device_start
        ++ codes "ret 4 vkCreateBuffer VK_SUCCESS born=1"
        ∷ codes "ret 5 vkDestroyBuffer void"
        ∷ codes "report 6 1 VUID-vkDestroyBuffer-buffer-parameter %1.4"
        ∷ codes "report 7 1 VUID-vkDestroyBuffer-buffer-parameter %1.4"
        ∷ codes "ret 6 vkDestroyBuffer void"
        ∷ codes "ret 7 vkDestroyBuffer void"
        ∷ codes "end calls=7 skipped=2 reports=2"
        ∷ []) }
{}

/// Of two lifetimes parts the first reports, and the second does not see the call.
pub fn two_lifetimes_parts()
    ensures { told lifetimes_twice (started
        ++ calls (codes "b 1 vkCreateBuffer %1.3 = %1.4 VK_SUCCESS"
        ∷ codes "b 1 vkDestroyBuffer %1.3 %1.4 void"
        ∷ codes "b 1 vkDestroyBuffer %1.3 %1.4 void"
        ∷ []))
        ≡ said (device_start
        ++ codes "ret 4 vkCreateBuffer VK_SUCCESS born=1"
        ∷ codes "ret 5 vkDestroyBuffer void"
        ∷ codes "report 6 1 VUID-vkDestroyBuffer-buffer-parameter %1.4"
        ∷ codes "ret 6 vkDestroyBuffer void"
        ∷ codes "end calls=6 skipped=1 reports=1"
        ∷ []) }
{}

/// An instance fails at the driver, and a second one comes: each prints its chain, the first name is lost, and
/// the parts of the second are in force.
pub fn an_instance_that_fails_first()
    ensures { told validation (calls (codes "b 1 vkCreateInstance = %1.1 VK_ERROR_INITIALIZATION_FAILED"
        ∷ codes "b 1 vkEnumeratePhysicalDevices %1.1 = %1.2 VK_SUCCESS"
        ∷ codes "b 1 vkCreateInstance = %1.3 VK_SUCCESS"
        ∷ codes "b 1 vkCreateXcbSurfaceKHR %1.3 = %1.4 VK_SUCCESS"
        ∷ codes "b 1 vkDestroySurfaceKHR %1.3 %1.4 void"
        ∷ codes "b 1 vkDestroySurfaceKHR %1.3 %1.4 void"
        ∷ []))
        ≡ said (codes "chain 1 ok layers=1 parts=3 drivers=1"
        ∷ codes "layer 1 VK_LAYER_KHRONOS_validation /usr/share/vulkan/explicit_layer.d/v.json"
        ∷ codes "part 1 threads VK_LAYER_KHRONOS_validation"
        ∷ codes "part 2 lifetimes VK_LAYER_KHRONOS_validation"
        ∷ codes "part 3 unique VK_LAYER_KHRONOS_validation"
        ∷ codes "driver 1 /etc/vulkan/icd.d/a.json libvulkan_a.so"
        ∷ codes "ret 1 vkCreateInstance VK_ERROR_INITIALIZATION_FAILED born=0"
        ∷ codes "report 2 0 VUID-vkEnumeratePhysicalDevices-instance-parameter %1.1"
        ∷ codes "ret 2 vkEnumeratePhysicalDevices VK_ERROR_VALIDATION_FAILED_EXT born=0"
        ∷ codes "chain 3 ok layers=1 parts=3 drivers=1"
        ∷ codes "layer 1 VK_LAYER_KHRONOS_validation /usr/share/vulkan/explicit_layer.d/v.json"
        ∷ codes "part 1 threads VK_LAYER_KHRONOS_validation"
        ∷ codes "part 2 lifetimes VK_LAYER_KHRONOS_validation"
        ∷ codes "part 3 unique VK_LAYER_KHRONOS_validation"
        ∷ codes "driver 1 /etc/vulkan/icd.d/a.json libvulkan_a.so"
        ∷ codes "ret 3 vkCreateInstance VK_SUCCESS born=1"
        ∷ codes "ret 4 vkCreateXcbSurfaceKHR VK_SUCCESS born=1"
        ∷ codes "ret 5 vkDestroySurfaceKHR void"
        ∷ codes "report 6 2 VUID-vkDestroySurfaceKHR-surface-parameter %1.4"
        ∷ codes "ret 6 vkDestroySurfaceKHR void"
        ∷ codes "end calls=6 skipped=2 reports=2"
        ∷ []) }
{}

/// A buffer is destroyed twice: the second destroy comes to the threads part and to the lifetimes part, which skips it, and not to the
/// unique part below.
pub fn a_skipped_call_at_each_place()
    ensures above { skips (seen_past (judged validation (reverse buffer_destroyed_twice)) 1)
        ≡ false ∷ false ∷ false ∷ false ∷ false ∷ false ∷ [] }
    ensures at { skips (seen_past (judged validation (reverse buffer_destroyed_twice)) 2)
        ≡ true ∷ false ∷ false ∷ false ∷ false ∷ false ∷ [] }
    ensures below { skips (seen_past (judged validation (reverse buffer_destroyed_twice)) 3)
        ≡ false ∷ false ∷ false ∷ false ∷ false ∷ [] }
{}

/// A second instance fails, for which no layer was asked: the parts of the first stay in force.
pub fn an_instance_that_fails_later()
    ensures { told layers_by_name (calls (codes "b 1 vkCreateInstance = %1.1 VK_SUCCESS : VK_LAYER_KHRONOS_validation"
        ∷ codes "b 1 vkCreateInstance = %1.2 VK_ERROR_UNKNOWN"
        ∷ codes "b 1 vkCreateXcbSurfaceKHR %1.1 = %1.3 VK_SUCCESS"
        ∷ codes "b 1 vkDestroySurfaceKHR %1.1 %1.3 void"
        ∷ codes "b 1 vkDestroySurfaceKHR %1.1 %1.3 void"
        ∷ []))
        ≡ said (codes "ret 1 vkCreateInstance VK_SUCCESS born=1"
        ∷ codes "ret 2 vkCreateInstance VK_ERROR_UNKNOWN born=0"
        ∷ codes "ret 3 vkCreateXcbSurfaceKHR VK_SUCCESS born=1"
        ∷ codes "ret 4 vkDestroySurfaceKHR void"
        ∷ codes "report 5 2 VUID-vkDestroySurfaceKHR-surface-parameter %1.3"
        ∷ codes "ret 5 vkDestroySurfaceKHR void"
        ∷ codes "end calls=5 skipped=1 reports=1"
        ∷ []) }
{}

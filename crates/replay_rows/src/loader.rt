//! Some of the traces with no layers: the loader alone reports, and a call that a layer would have skipped is made. The chain's lines are left out.
ghost use Rattle.std.specs.Prelude.{◌≡◌, [], ◌∷◌, ◌++◌, codes, length};
ghost use Rattle.replay_model.specs.Less.{no_layers};
ghost use Rattle.replay_rows.specs.Setups.{device_start, validation};
ghost use Rattle.replay_rows.specs.Traces.{asked, buffer_destroyed_twice, buffer_of_another_device, destroyed_fence_submitted, device_before_its_image, dispatch, pool_destroyed_while_it_allocates, said, submits_by_two_names, told, two_buffers_recorded};

/// A buffer is destroyed twice: its device lives, so the driver is told of both.
pub fn a_second_destroy_is_made()
    ensures text { told (no_layers validation) buffer_destroyed_twice
        ≡ said (device_start
        ++ codes "ret 4 vkCreateBuffer VK_SUCCESS born=1"
        ∷ codes "ret 5 vkDestroyBuffer void"
        ∷ codes "ret 6 vkDestroyBuffer void"
        ∷ codes "end calls=6 skipped=0 reports=0"
        ∷ []) }
    ensures sent { length (asked (no_layers validation) buffer_destroyed_twice []) ≡ 6 }
{}

/// A device is destroyed while an image of it lives: both have ended, so the loader reports the device at each call that follows.
pub fn an_image_ends_with_its_device()
    ensures text { told (no_layers validation) device_before_its_image
        ≡ said (device_start
        ++ codes "ret 4 vkCreateImage VK_SUCCESS born=1"
        ∷ codes "ret 5 vkDestroyDevice void"
        ∷ codes "report 6 0 VUID-vkDestroyImage-device-parameter %1.3"
        ∷ codes "ret 6 vkDestroyImage void"
        ∷ codes "report 7 0 VUID-vkDestroyDevice-device-parameter %1.3"
        ∷ codes "ret 7 vkDestroyDevice void"
        ∷ codes "end calls=7 skipped=2 reports=2"
        ∷ []) }
    ensures sent { length (asked (no_layers validation) device_before_its_image []) ≡ 5 }
{}

/// Submits to one queue by its two names: nobody asks whether they overlap.
pub fn overlapping_submits_are_made()
    ensures { told (no_layers validation) submits_by_two_names
        ≡ said (device_start
        ++ codes "ret 4 vkGetDeviceQueue void born=1"
        ∷ codes "ret 5 vkGetDeviceQueue void born=1"
        ∷ codes "ret 6 vkQueueSubmit VK_SUCCESS"
        ∷ codes "ret 7 vkQueueSubmit VK_SUCCESS"
        ∷ codes "end calls=7 skipped=0 reports=0"
        ∷ []) }
{}

/// A destroyed fence stands behind a queue that lives: the submit answers what the trace says.
pub fn a_submit_with_a_destroyed_fence_is_made()
    ensures { told (no_layers validation) destroyed_fence_submitted
        ≡ said (device_start
        ++ codes "ret 4 vkGetDeviceQueue void born=1"
        ∷ codes "ret 5 vkCreateFence VK_SUCCESS born=1"
        ∷ codes "ret 6 vkDestroyFence void"
        ∷ codes "ret 7 vkQueueSubmit VK_SUCCESS"
        ∷ codes "ret 8 vkQueueSubmit VK_SUCCESS"
        ∷ codes "end calls=8 skipped=0 reports=0"
        ∷ []) }
{}

/// A command pool is destroyed while a command buffer of it is made: the buffer is lost, and the loader reports its use.
pub fn a_buffer_of_a_destroyed_pool_is_lost()
    ensures text { told (no_layers validation) pool_destroyed_while_it_allocates
        ≡ said (device_start
        ++ codes "ret 4 vkCreateCommandPool VK_SUCCESS born=1"
        ∷ codes "ret 6 vkDestroyCommandPool void"
        ∷ codes "ret 5 vkAllocateCommandBuffers VK_SUCCESS born=0"
        ∷ codes "report 7 0 VUID-vkBeginCommandBuffer-commandBuffer-parameter %1.5"
        ∷ codes "ret 7 vkBeginCommandBuffer VK_ERROR_VALIDATION_FAILED_EXT"
        ∷ codes "end calls=7 skipped=1 reports=1"
        ∷ []) }
    ensures sent { length (asked (no_layers validation) pool_destroyed_while_it_allocates []) ≡ 6 }
{}

/// Two command buffers of one pool are recorded at once: nobody asks whether their uses of the pool overlap.
pub fn overlapping_recordings_are_made()
    ensures { told (no_layers validation) two_buffers_recorded
        ≡ said (device_start
        ++ codes "ret 4 vkCreateCommandPool VK_SUCCESS born=1"
        ∷ codes "ret 5 vkAllocateCommandBuffers VK_SUCCESS born=2"
        ∷ codes "ret 6 vkBeginCommandBuffer VK_SUCCESS"
        ∷ codes "ret 7 vkBeginCommandBuffer VK_SUCCESS"
        ∷ codes "end calls=7 skipped=0 reports=0"
        ∷ []) }
{}

/// A command buffer is recorded, submitted and waited for, and all is destroyed in order: nothing is reported.
pub fn a_dispatch_without_layers()
    ensures { told (no_layers validation) dispatch
        ≡ said (device_start
        ++ codes "ret 4 vkGetDeviceQueue void born=1"
        ∷ codes "ret 5 vkCreateCommandPool VK_SUCCESS born=1"
        ∷ codes "ret 6 vkAllocateCommandBuffers VK_SUCCESS born=1"
        ∷ codes "ret 7 vkCreateFence VK_SUCCESS born=1"
        ∷ codes "ret 8 vkBeginCommandBuffer VK_SUCCESS"
        ∷ codes "ret 9 vkCmdDispatch void"
        ∷ codes "ret 10 vkEndCommandBuffer VK_SUCCESS"
        ∷ codes "ret 11 vkQueueSubmit VK_SUCCESS"
        ∷ codes "ret 12 vkWaitForFences VK_SUCCESS"
        ∷ codes "ret 13 vkDestroyFence void"
        ∷ codes "ret 14 vkDestroyCommandPool void"
        ∷ codes "ret 15 vkDestroyDevice void"
        ∷ codes "ret 16 vkDestroyInstance void"
        ∷ codes "end calls=16 skipped=0 reports=0"
        ∷ []) }
{}

/// A buffer is destroyed through another device than its own: that device lives, so the driver is told of it.
pub fn a_destroy_through_another_device_is_made()
    ensures text { told (no_layers validation) buffer_of_another_device
        ≡ said (device_start
        ++ codes "ret 4 vkCreateDevice VK_SUCCESS born=1"
        ∷ codes "ret 5 vkCreateBuffer VK_SUCCESS born=1"
        ∷ codes "ret 6 vkDestroyBuffer void"
        ∷ codes "end calls=6 skipped=0 reports=0"
        ∷ []) }
    ensures sent { length (asked (no_layers validation) buffer_of_another_device []) ≡ 6 }
{}

//! Uses that overlap, and uses that do not.
ghost use Rattle.std.specs.Prelude.{◌≡◌, [], ◌∷◌, ◌++◌, codes};
ghost use Rattle.replay_rows.specs.Traces.{calls, events, pool_destroyed_while_it_allocates, started, submits_by_two_names, told, two_buffers_recorded, said};
ghost use Rattle.replay_rows.specs.Setups.{device_start, threads_alone, validation, validation_start};

/// A queue was retrieved twice with one payload: submits by its two names overlap, and neither is skipped.
pub fn one_queue_by_two_names()
    ensures { told validation submits_by_two_names
        ≡ said (validation_start
        ++ codes "ret 4 vkGetDeviceQueue void born=1"
        ∷ codes "ret 5 vkGetDeviceQueue void born=1"
        ∷ codes "report 7 1 VKR-vkQueueSubmit-queue-overlap %1.5 with=6"
        ∷ codes "ret 6 vkQueueSubmit VK_SUCCESS"
        ∷ codes "ret 7 vkQueueSubmit VK_SUCCESS"
        ∷ codes "end calls=7 skipped=0 reports=1"
        ∷ []) }
{}

/// A command pool is destroyed by another thread while it allocates: the buffer is lost, and the loader reports
/// its use.
pub fn a_pool_destroyed_while_it_allocates()
    ensures { told validation pool_destroyed_while_it_allocates
        ≡ said (validation_start
        ++ codes "ret 4 vkCreateCommandPool VK_SUCCESS born=1"
        ∷ codes "report 6 1 VKR-vkDestroyCommandPool-commandPool-overlap %1.4 with=5"
        ∷ codes "ret 6 vkDestroyCommandPool void"
        ∷ codes "ret 5 vkAllocateCommandBuffers VK_SUCCESS born=0"
        ∷ codes "report 7 0 VUID-vkBeginCommandBuffer-commandBuffer-parameter %1.5"
        ∷ codes "ret 7 vkBeginCommandBuffer VK_ERROR_VALIDATION_FAILED_EXT"
        ∷ codes "end calls=7 skipped=1 reports=2"
        ∷ []) }
{}

/// Two command buffers of one pool are recorded at once: each use writes the pool.
pub fn two_buffers_of_one_pool()
    ensures { told validation two_buffers_recorded
        ≡ said (validation_start
        ++ codes "ret 4 vkCreateCommandPool VK_SUCCESS born=1"
        ∷ codes "ret 5 vkAllocateCommandBuffers VK_SUCCESS born=2"
        ∷ codes "report 7 1 VKR-vkBeginCommandBuffer-commandBuffer-overlap %1.6 with=6"
        ∷ codes "ret 6 vkBeginCommandBuffer VK_SUCCESS"
        ∷ codes "ret 7 vkBeginCommandBuffer VK_SUCCESS"
        ∷ codes "end calls=7 skipped=0 reports=1"
        ∷ []) }
{}

/// A reset of a descriptor pool writes its sets, one of which another thread updates.
pub fn the_sets_of_a_reset_pool()
    ensures { told validation (started
        ++ calls (codes "b 1 vkCreateDescriptorPool %1.3 = %1.4 VK_SUCCESS"
        ∷ codes "b 1 vkCreateDescriptorSetLayout %1.3 [] = %1.5 VK_SUCCESS"
        ∷ codes "b 1 vkAllocateDescriptorSets %1.3 %1.4 [%1.5] = %1.6 VK_SUCCESS"
        ∷ [])
        ++ events (codes "b 1 vkUpdateDescriptorSets %1.3 [%1.6] [] [] [] [] void"
        ∷ codes "b 2 vkResetDescriptorPool %1.3 %1.4 VK_SUCCESS"
        ∷ codes "r 1"
        ∷ codes "r 2"
        ∷ []))
        ≡ said (validation_start
        ++ codes "ret 4 vkCreateDescriptorPool VK_SUCCESS born=1"
        ∷ codes "ret 5 vkCreateDescriptorSetLayout VK_SUCCESS born=1"
        ∷ codes "ret 6 vkAllocateDescriptorSets VK_SUCCESS born=1"
        ∷ codes "report 8 1 VKR-vkResetDescriptorPool-descriptorPool-overlap %1.4 with=7"
        ∷ codes "ret 7 vkUpdateDescriptorSets void"
        ∷ codes "ret 8 vkResetDescriptorPool VK_SUCCESS"
        ∷ codes "end calls=8 skipped=0 reports=1"
        ∷ []) }
{}

/// A set is freed through another pool: the lifetimes part skips that call, so the set lives, but for the threads
/// part above it has ended, and the reset of its pool does not write it there.
pub fn a_free_that_a_place_below_skips()
    ensures { told validation (started
        ++ calls (codes "b 1 vkCreateDescriptorPool %1.3 = %1.4 VK_SUCCESS"
        ∷ codes "b 1 vkCreateDescriptorPool %1.3 = %1.5 VK_SUCCESS"
        ∷ codes "b 1 vkCreateDescriptorSetLayout %1.3 [] = %1.6 VK_SUCCESS"
        ∷ codes "b 1 vkAllocateDescriptorSets %1.3 %1.4 [%1.6] = %1.7 VK_SUCCESS"
        ∷ codes "b 1 vkFreeDescriptorSets %1.3 %1.5 [%1.7] VK_SUCCESS"
        ∷ [])
        ++ events (codes "b 1 vkUpdateDescriptorSets %1.3 [%1.7] [] [] [] [] void"
        ∷ codes "b 2 vkResetDescriptorPool %1.3 %1.4 VK_SUCCESS"
        ∷ codes "r 1"
        ∷ codes "r 2"
        ∷ []))
        ≡ said (validation_start
        ++ codes "ret 4 vkCreateDescriptorPool VK_SUCCESS born=1"
        ∷ codes "ret 5 vkCreateDescriptorPool VK_SUCCESS born=1"
        ∷ codes "ret 6 vkCreateDescriptorSetLayout VK_SUCCESS born=1"
        ∷ codes "ret 7 vkAllocateDescriptorSets VK_SUCCESS born=1"
        ∷ codes "report 8 2 VUID-vkFreeDescriptorSets-pDescriptorSets-parent %1.7 index=0"
        ∷ codes "ret 8 vkFreeDescriptorSets VK_ERROR_VALIDATION_FAILED_EXT"
        ∷ codes "ret 9 vkUpdateDescriptorSets void"
        ∷ codes "ret 10 vkResetDescriptorPool VK_SUCCESS"
        ∷ codes "end calls=10 skipped=1 reports=1"
        ∷ []) }
{}

/// A wait for an idle device writes its queues, to one of which another thread submits.
pub fn the_queues_of_an_idle_device()
    ensures { told validation (started
        ++ calls (codes "b 1 vkGetDeviceQueue %1.3 = %1.4 void : 0,0"
        ∷ [])
        ++ events (codes "b 1 vkQueueSubmit %1.4 [] [] [] null VK_SUCCESS"
        ∷ codes "b 2 vkDeviceWaitIdle %1.3 VK_SUCCESS"
        ∷ codes "r 1"
        ∷ codes "r 2"
        ∷ []))
        ≡ said (validation_start
        ++ codes "ret 4 vkGetDeviceQueue void born=1"
        ∷ codes "report 6 1 VKR-vkDeviceWaitIdle-device-overlap %1.3 with=5"
        ∷ codes "ret 5 vkQueueSubmit VK_SUCCESS"
        ∷ codes "ret 6 vkDeviceWaitIdle VK_SUCCESS"
        ∷ codes "end calls=6 skipped=0 reports=1"
        ∷ []) }
{}

/// Of three queues two have one payload: these are one object, and the third is another.
pub fn queues_by_their_payload()
    ensures { told validation (started
        ++ calls (codes "b 1 vkGetDeviceQueue %1.3 = %1.4 void : 0,0"
        ∷ codes "b 1 vkGetDeviceQueue %1.3 = %1.5 void : 1,0"
        ∷ codes "b 1 vkGetDeviceQueue %1.3 = %1.6 void : 0,0"
        ∷ [])
        ++ events (codes "b 1 vkQueueSubmit %1.4 [] [] [] null VK_SUCCESS"
        ∷ codes "b 2 vkQueueSubmit %1.5 [] [] [] null VK_SUCCESS"
        ∷ codes "b 3 vkQueueSubmit %1.6 [] [] [] null VK_SUCCESS"
        ∷ codes "r 1"
        ∷ codes "r 2"
        ∷ codes "r 3"
        ∷ []))
        ≡ said (validation_start
        ++ codes "ret 4 vkGetDeviceQueue void born=1"
        ∷ codes "ret 5 vkGetDeviceQueue void born=1"
        ∷ codes "ret 6 vkGetDeviceQueue void born=1"
        ∷ codes "report 9 1 VKR-vkQueueSubmit-queue-overlap %1.6 with=7"
        ∷ codes "ret 7 vkQueueSubmit VK_SUCCESS"
        ∷ codes "ret 8 vkQueueSubmit VK_SUCCESS"
        ∷ codes "ret 9 vkQueueSubmit VK_SUCCESS"
        ∷ codes "end calls=9 skipped=0 reports=1"
        ∷ []) }
{}

/// The images of a swapchain are known by their place, also when an incomplete answer gives the first again; that
/// all three calls read one memory is no conflict.
pub fn images_by_their_place()
    ensures { told threads_alone (started
        ++ calls (codes "b 1 vkCreateXcbSurfaceKHR %1.1 = %1.4 VK_SUCCESS"
        ∷ codes "b 1 vkCreateSwapchainKHR %1.3 %1.4 null = %1.5 VK_SUCCESS"
        ∷ codes "b 1 vkGetSwapchainImagesKHR %1.3 %1.5 = %1.6,%1.7 VK_SUCCESS"
        ∷ codes "b 1 vkGetSwapchainImagesKHR %1.3 %1.5 = %1.8 VK_INCOMPLETE"
        ∷ codes "b 1 vkAllocateMemory %1.3 = %1.9 VK_SUCCESS"
        ∷ [])
        ++ events (codes "b 1 vkBindImageMemory %1.3 %1.6 %1.9 VK_SUCCESS"
        ∷ codes "b 2 vkBindImageMemory %1.3 %1.7 %1.9 VK_SUCCESS"
        ∷ codes "b 3 vkBindImageMemory %1.3 %1.8 %1.9 VK_SUCCESS"
        ∷ codes "r 1"
        ∷ codes "r 2"
        ∷ codes "r 3"
        ∷ []))
        ≡ said (device_start
        ++ codes "ret 4 vkCreateXcbSurfaceKHR VK_SUCCESS born=1"
        ∷ codes "ret 5 vkCreateSwapchainKHR VK_SUCCESS born=1"
        ∷ codes "ret 6 vkGetSwapchainImagesKHR VK_SUCCESS born=2"
        ∷ codes "ret 7 vkGetSwapchainImagesKHR VK_INCOMPLETE born=1"
        ∷ codes "ret 8 vkAllocateMemory VK_SUCCESS born=1"
        ∷ codes "report 11 1 VKR-vkBindImageMemory-image-overlap %1.8 with=9"
        ∷ codes "ret 9 vkBindImageMemory VK_SUCCESS"
        ∷ codes "ret 10 vkBindImageMemory VK_SUCCESS"
        ∷ codes "ret 11 vkBindImageMemory VK_SUCCESS"
        ∷ codes "end calls=11 skipped=0 reports=1"
        ∷ []) }
{}

/// Two threads read a buffer that a third destroys: the conflict names the call that began first.
pub fn the_least_conflicting_call()
    ensures { told validation (started
        ++ calls (codes "b 1 vkCreateBuffer %1.3 = %1.4 VK_SUCCESS"
        ∷ [])
        ++ events (codes "b 3 vkGetBufferMemoryRequirements %1.3 %1.4 void"
        ∷ codes "b 1 vkGetBufferMemoryRequirements %1.3 %1.4 void"
        ∷ codes "b 2 vkDestroyBuffer %1.3 %1.4 void"
        ∷ codes "r 1"
        ∷ codes "r 2"
        ∷ codes "r 3"
        ∷ []))
        ≡ said (validation_start
        ++ codes "ret 4 vkCreateBuffer VK_SUCCESS born=1"
        ∷ codes "report 7 1 VKR-vkDestroyBuffer-buffer-overlap %1.4 with=5"
        ∷ codes "ret 6 vkGetBufferMemoryRequirements void"
        ∷ codes "ret 7 vkDestroyBuffer void"
        ∷ codes "ret 5 vkGetBufferMemoryRequirements void"
        ∷ codes "end calls=7 skipped=0 reports=1"
        ∷ []) }
{}

/// Two devices give a queue for one payload: these are two objects.
pub fn queues_of_two_devices()
    ensures { told validation (started
        ++ calls (codes "b 1 vkCreateDevice %1.2 = %1.4 VK_SUCCESS"
        ∷ codes "b 1 vkGetDeviceQueue %1.3 = %1.5 void : 0,0"
        ∷ codes "b 1 vkGetDeviceQueue %1.4 = %1.6 void : 0,0"
        ∷ [])
        ++ events (codes "b 1 vkQueueSubmit %1.5 [] [] [] null VK_SUCCESS"
        ∷ codes "b 2 vkQueueSubmit %1.6 [] [] [] null VK_SUCCESS"
        ∷ codes "r 1"
        ∷ codes "r 2"
        ∷ []))
        ≡ said (validation_start
        ++ codes "ret 4 vkCreateDevice VK_SUCCESS born=1"
        ∷ codes "ret 5 vkGetDeviceQueue void born=1"
        ∷ codes "ret 6 vkGetDeviceQueue void born=1"
        ∷ codes "ret 7 vkQueueSubmit VK_SUCCESS"
        ∷ codes "ret 8 vkQueueSubmit VK_SUCCESS"
        ∷ codes "end calls=8 skipped=0 reports=0"
        ∷ []) }
{}

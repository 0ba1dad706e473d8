//! Births, ends, owners and children: what is reported and answered.
ghost use Rattle.std.specs.Prelude.{◌≡◌, [], ◌∷◌, ◌++◌, codes};
ghost use Rattle.replay_rows.specs.Traces.{buffer_destroyed_twice, buffer_of_another_device, calls, destroyed_fence_submitted, device_before_its_image, dispatch, events, started, told, said};
ghost use Rattle.replay_rows.specs.Setups.{bare, bare_start, two_drivers, validation, validation_start};

/// A device and then its instance are destroyed: nothing is reported, and each call answers what the trace says.
pub fn a_clean_run()
    ensures { told bare (started
        ++ calls (codes "b 1 vkDestroyDevice %1.3 void"
        ∷ codes "b 1 vkDestroyInstance %1.1 void"
        ∷ []))
        ≡ said (bare_start
        ++ codes "ret 4 vkDestroyDevice void"
        ∷ codes "ret 5 vkDestroyInstance void"
        ∷ codes "end calls=5 skipped=0 reports=0"
        ∷ []) }
{}

/// A buffer is destroyed twice: the lifetimes part reports the second destroy and skips it.
pub fn a_buffer_destroyed_twice()
    ensures { told validation buffer_destroyed_twice
        ≡ said (validation_start
        ++ codes "ret 4 vkCreateBuffer VK_SUCCESS born=1"
        ∷ codes "ret 5 vkDestroyBuffer void"
        ∷ codes "report 6 2 VUID-vkDestroyBuffer-buffer-parameter %1.4"
        ∷ codes "ret 6 vkDestroyBuffer void"
        ∷ codes "end calls=6 skipped=1 reports=1"
        ∷ []) }
{}

/// A device is destroyed while an image of it lives, and again after the image.
pub fn a_device_with_a_living_image()
    ensures { told validation device_before_its_image
        ≡ said (validation_start
        ++ codes "ret 4 vkCreateImage VK_SUCCESS born=1"
        ∷ codes "report 5 2 VKR-vkDestroyDevice-device-children %1.3 children=1"
        ∷ codes "ret 5 vkDestroyDevice void"
        ∷ codes "ret 6 vkDestroyImage void"
        ∷ codes "ret 7 vkDestroyDevice void"
        ∷ codes "end calls=7 skipped=1 reports=1"
        ∷ []) }
{}

/// A destroyed fence stands where null is allowed: it is reported, and the call fails; null is not.
pub fn a_dead_fence_is_no_null()
    ensures { told validation destroyed_fence_submitted
        ≡ said (validation_start
        ++ codes "ret 4 vkGetDeviceQueue void born=1"
        ∷ codes "ret 5 vkCreateFence VK_SUCCESS born=1"
        ∷ codes "ret 6 vkDestroyFence void"
        ∷ codes "report 7 2 VUID-vkQueueSubmit-fence-parameter %1.5"
        ∷ codes "ret 7 vkQueueSubmit VK_ERROR_VALIDATION_FAILED_EXT"
        ∷ codes "ret 8 vkQueueSubmit VK_SUCCESS"
        ∷ codes "end calls=8 skipped=1 reports=1"
        ∷ []) }
{}

/// A command buffer is recorded, submitted and waited for, and all is destroyed in order: nothing is reported.
pub fn a_dispatch_from_start_to_end()
    ensures { told validation dispatch
        ≡ said (validation_start
        ++ codes "ret 4 vkGetDeviceQueue void born=1"
        ∷ codes "ret 5 vkCreateCommandPool VK_SUCCESS born=1"
        ∷ codes "ret 6 vkAllocateCommandBuffers VK_SUCCESS born=1"
        ∷ codes "ret 7 vkCreateFence VK_SUCCESS born=1"
        ∷ codes "ret 8 vkBeginCommandBuffer VK_SUCCESS"
        ∷ codes "ret 9 vkCmdDispatch void"
        ∷ codes "ret 10 vkEndCommandBuffer VK_SUCCESS"
        ∷ codes "ret 11 vkQueueSubmit VK_SUCCESS"
        ∷ codes "ret 12 vkWaitForFences VK_SUCCESS"
        ∷ codes "ret 13 vkDestroyFence void"
        ∷ codes "ret 14 vkDestroyCommandPool void"
        ∷ codes "ret 15 vkDestroyDevice void"
        ∷ codes "ret 16 vkDestroyInstance void"
        ∷ codes "end calls=16 skipped=0 reports=0"
        ∷ []) }
{}

/// A buffer is destroyed through another device than its own.
pub fn a_buffer_of_another_device()
    ensures { told validation buffer_of_another_device
        ≡ said (validation_start
        ++ codes "ret 4 vkCreateDevice VK_SUCCESS born=1"
        ∷ codes "ret 5 vkCreateBuffer VK_SUCCESS born=1"
        ∷ codes "report 6 2 VUID-vkDestroyBuffer-buffer-parent %1.5"
        ∷ codes "ret 6 vkDestroyBuffer void"
        ∷ codes "end calls=6 skipped=1 reports=1"
        ∷ []) }
{}

/// A free has null in its list: it ends the other places alone.
pub fn a_free_with_null_in_its_list()
    ensures { told validation (started
        ++ calls (codes "b 1 vkCreateCommandPool %1.3 = %1.4 VK_SUCCESS"
        ∷ codes "b 1 vkAllocateCommandBuffers %1.3 %1.4 = %1.5,%1.6 VK_SUCCESS"
        ∷ codes "b 1 vkFreeCommandBuffers %1.3 %1.4 [null,%1.5] void"
        ∷ codes "b 1 vkBeginCommandBuffer %1.5 VK_SUCCESS"
        ∷ codes "b 1 vkBeginCommandBuffer %1.6 VK_SUCCESS"
        ∷ []))
        ≡ said (validation_start
        ++ codes "ret 4 vkCreateCommandPool VK_SUCCESS born=1"
        ∷ codes "ret 5 vkAllocateCommandBuffers VK_SUCCESS born=2"
        ∷ codes "ret 6 vkFreeCommandBuffers void"
        ∷ codes "report 7 0 VUID-vkBeginCommandBuffer-commandBuffer-parameter %1.5"
        ∷ codes "ret 7 vkBeginCommandBuffer VK_ERROR_VALIDATION_FAILED_EXT"
        ∷ codes "ret 8 vkBeginCommandBuffer VK_SUCCESS"
        ∷ codes "end calls=8 skipped=1 reports=1"
        ∷ []) }
{}

/// A descriptor pool is reset, whatever that answers: its set has ended, and the pool gives new ones.
pub fn a_reset_pool_lives_on()
    ensures { told validation (started
        ++ calls (codes "b 1 vkCreateDescriptorPool %1.3 = %1.4 VK_SUCCESS"
        ∷ codes "b 1 vkCreateDescriptorSetLayout %1.3 [] = %1.5 VK_SUCCESS"
        ∷ codes "b 1 vkAllocateDescriptorSets %1.3 %1.4 [%1.5] = %1.6 VK_SUCCESS"
        ∷ codes "b 1 vkResetDescriptorPool %1.3 %1.4 VK_ERROR_UNKNOWN"
        ∷ codes "b 1 vkUpdateDescriptorSets %1.3 [%1.6] [] [] [] [] void"
        ∷ codes "b 1 vkAllocateDescriptorSets %1.3 %1.4 [%1.5] = %1.7 VK_SUCCESS"
        ∷ []))
        ≡ said (validation_start
        ++ codes "ret 4 vkCreateDescriptorPool VK_SUCCESS born=1"
        ∷ codes "ret 5 vkCreateDescriptorSetLayout VK_SUCCESS born=1"
        ∷ codes "ret 6 vkAllocateDescriptorSets VK_SUCCESS born=1"
        ∷ codes "ret 7 vkResetDescriptorPool VK_ERROR_UNKNOWN"
        ∷ codes "report 8 2 VUID-vkUpdateDescriptorSets-dstSet-parameter %1.6 index=0"
        ∷ codes "ret 8 vkUpdateDescriptorSets void"
        ∷ codes "ret 9 vkAllocateDescriptorSets VK_SUCCESS born=1"
        ∷ codes "end calls=9 skipped=1 reports=1"
        ∷ []) }
{}

/// An image of a swapchain is owned by the swapchain, so it is not the device that may destroy it; the swapchain
/// may be destroyed, and its image goes with it.
pub fn an_image_of_a_swapchain()
    ensures { told validation (started
        ++ calls (codes "b 1 vkCreateXcbSurfaceKHR %1.1 = %1.4 VK_SUCCESS"
        ∷ codes "b 1 vkCreateSwapchainKHR %1.3 %1.4 null = %1.5 VK_SUCCESS"
        ∷ codes "b 1 vkGetSwapchainImagesKHR %1.3 %1.5 = %1.6 VK_SUCCESS"
        ∷ codes "b 1 vkDestroyImage %1.3 %1.6 void"
        ∷ codes "b 1 vkDestroySwapchainKHR %1.3 %1.5 void"
        ∷ codes "b 1 vkCreateImageView %1.3 %1.6 = %1.7 VK_SUCCESS"
        ∷ []))
        ≡ said (validation_start
        ++ codes "ret 4 vkCreateXcbSurfaceKHR VK_SUCCESS born=1"
        ∷ codes "ret 5 vkCreateSwapchainKHR VK_SUCCESS born=1"
        ∷ codes "ret 6 vkGetSwapchainImagesKHR VK_SUCCESS born=1"
        ∷ codes "report 7 2 VUID-vkDestroyImage-image-parent %1.6"
        ∷ codes "ret 7 vkDestroyImage void"
        ∷ codes "ret 8 vkDestroySwapchainKHR void"
        ∷ codes "report 9 2 VUID-vkCreateImageView-image-parameter %1.6"
        ∷ codes "ret 9 vkCreateImageView VK_ERROR_VALIDATION_FAILED_EXT born=0"
        ∷ codes "end calls=9 skipped=2 reports=2"
        ∷ []) }
{}

/// The second command buffer of a list is of another pool: nothing of the list is freed.
pub fn a_command_buffer_of_another_pool()
    ensures { told validation (started
        ++ calls (codes "b 1 vkCreateCommandPool %1.3 = %1.4 VK_SUCCESS"
        ∷ codes "b 1 vkCreateCommandPool %1.3 = %1.5 VK_SUCCESS"
        ∷ codes "b 1 vkAllocateCommandBuffers %1.3 %1.4 = %1.6 VK_SUCCESS"
        ∷ codes "b 1 vkAllocateCommandBuffers %1.3 %1.5 = %1.7 VK_SUCCESS"
        ∷ codes "b 1 vkFreeCommandBuffers %1.3 %1.5 [%1.7,%1.6] void"
        ∷ codes "b 1 vkBeginCommandBuffer %1.7 VK_SUCCESS"
        ∷ []))
        ≡ said (validation_start
        ++ codes "ret 4 vkCreateCommandPool VK_SUCCESS born=1"
        ∷ codes "ret 5 vkCreateCommandPool VK_SUCCESS born=1"
        ∷ codes "ret 6 vkAllocateCommandBuffers VK_SUCCESS born=1"
        ∷ codes "ret 7 vkAllocateCommandBuffers VK_SUCCESS born=1"
        ∷ codes "report 8 2 VUID-vkFreeCommandBuffers-pCommandBuffers-parent %1.6 index=1"
        ∷ codes "ret 8 vkFreeCommandBuffers void"
        ∷ codes "ret 9 vkBeginCommandBuffer VK_SUCCESS"
        ∷ codes "end calls=9 skipped=1 reports=1"
        ∷ []) }
{}

/// Of two names for physical devices one is born, since there is one driver; the driver is told to answer
/// incomplete, which is a success, and the call answers success.
pub fn more_devices_than_drivers()
    ensures { told bare (calls (codes "b 1 vkCreateInstance = %1.1 VK_SUCCESS"
        ∷ codes "b 1 vkEnumeratePhysicalDevices %1.1 = %1.2,%1.3 VK_INCOMPLETE"
        ∷ codes "b 1 vkGetPhysicalDeviceProperties %1.2 void"
        ∷ codes "b 1 vkGetPhysicalDeviceProperties %1.3 void"
        ∷ []))
        ≡ said (codes "chain 1 ok layers=0 parts=0 drivers=1"
        ∷ codes "driver 1 /etc/vulkan/icd.d/a.json libvulkan_a.so"
        ∷ codes "ret 1 vkCreateInstance VK_SUCCESS born=1"
        ∷ codes "ret 2 vkEnumeratePhysicalDevices VK_SUCCESS born=1"
        ∷ codes "ret 3 vkGetPhysicalDeviceProperties void"
        ∷ codes "report 4 0 VUID-vkGetPhysicalDeviceProperties-physicalDevice-parameter %1.3"
        ∷ codes "ret 4 vkGetPhysicalDeviceProperties void"
        ∷ codes "end calls=4 skipped=1 reports=1"
        ∷ []) }
{}

/// A buffer whose creation fails is lost, and so is one whose creation answers incomplete, which is no success
/// there.
pub fn a_failing_code()
    ensures { told validation (started
        ++ calls (codes "b 1 vkCreateBuffer %1.3 = %1.4 VK_ERROR_OUT_OF_DEVICE_MEMORY"
        ∷ codes "b 1 vkCreateBuffer %1.3 = %1.5 VK_INCOMPLETE"
        ∷ codes "b 1 vkDestroyBuffer %1.3 %1.4 void"
        ∷ codes "b 1 vkDestroyBuffer %1.3 %1.5 void"
        ∷ []))
        ≡ said (validation_start
        ++ codes "ret 4 vkCreateBuffer VK_ERROR_OUT_OF_DEVICE_MEMORY born=0"
        ∷ codes "ret 5 vkCreateBuffer VK_INCOMPLETE born=0"
        ∷ codes "report 6 2 VUID-vkDestroyBuffer-buffer-parameter %1.4"
        ∷ codes "ret 6 vkDestroyBuffer void"
        ∷ codes "report 7 2 VUID-vkDestroyBuffer-buffer-parameter %1.5"
        ∷ codes "ret 7 vkDestroyBuffer void"
        ∷ codes "end calls=7 skipped=2 reports=2"
        ∷ []) }
{}

/// A buffer is destroyed while the call that creates it is open: its name stands for nothing yet, and the buffer
/// lives afterwards.
pub fn a_name_before_its_birth()
    ensures { told validation (started
        ++ events (codes "b 1 vkCreateBuffer %1.3 = %1.4 VK_SUCCESS"
        ∷ codes "b 2 vkDestroyBuffer %1.3 %1.4 void"
        ∷ codes "r 2"
        ∷ codes "r 1"
        ∷ [])
        ++ calls (codes "b 1 vkDestroyBuffer %1.3 %1.4 void"
        ∷ []))
        ≡ said (validation_start
        ++ codes "report 5 2 VUID-vkDestroyBuffer-buffer-parameter %1.4"
        ∷ codes "ret 5 vkDestroyBuffer void"
        ∷ codes "ret 4 vkCreateBuffer VK_SUCCESS born=1"
        ∷ codes "ret 6 vkDestroyBuffer void"
        ∷ codes "end calls=6 skipped=1 reports=1"
        ∷ []) }
{}

/// A command buffer is asked of a pool whose call is open: the owner is bound at the begin, where the pool is not
/// born, so the buffer is lost although the pool is born before it.
pub fn an_owner_that_is_unborn_at_the_begin()
    ensures { told bare (started
        ++ events (codes "b 1 vkCreateCommandPool %1.3 = %1.4 VK_SUCCESS"
        ∷ codes "b 2 vkAllocateCommandBuffers %1.3 %1.4 = %2.1 VK_SUCCESS"
        ∷ codes "r 1"
        ∷ codes "r 2"
        ∷ [])
        ++ calls (codes "b 1 vkBeginCommandBuffer %2.1 VK_SUCCESS"
        ∷ []))
        ≡ said (bare_start
        ++ codes "ret 4 vkCreateCommandPool VK_SUCCESS born=1"
        ∷ codes "ret 5 vkAllocateCommandBuffers VK_SUCCESS born=0"
        ∷ codes "report 6 0 VUID-vkBeginCommandBuffer-commandBuffer-parameter %2.1"
        ∷ codes "ret 6 vkBeginCommandBuffer VK_ERROR_VALIDATION_FAILED_EXT"
        ∷ codes "end calls=6 skipped=1 reports=1"
        ∷ []) }
{}

/// An instance is destroyed while a device and a surface of it live: two children, among which are neither the
/// physical device, which was retrieved, nor what the device owns.
pub fn an_instance_with_two_children()
    ensures { told validation (started
        ++ calls (codes "b 1 vkCreateXcbSurfaceKHR %1.1 = %1.4 VK_SUCCESS"
        ∷ codes "b 1 vkCreateBuffer %1.3 = %1.5 VK_SUCCESS"
        ∷ codes "b 1 vkDestroyInstance %1.1 void"
        ∷ []))
        ≡ said (validation_start
        ++ codes "ret 4 vkCreateXcbSurfaceKHR VK_SUCCESS born=1"
        ∷ codes "ret 5 vkCreateBuffer VK_SUCCESS born=1"
        ∷ codes "report 6 2 VKR-vkDestroyInstance-instance-children %1.1 children=2"
        ∷ codes "ret 6 vkDestroyInstance void"
        ∷ codes "end calls=6 skipped=1 reports=1"
        ∷ []) }
{}

/// Without layers an instance is destroyed with all that it owns at any depth: its physical device, its device,
/// and a command buffer of a pool of the device.
pub fn an_end_at_any_depth()
    ensures { told bare (started
        ++ calls (codes "b 1 vkCreateCommandPool %1.3 = %1.4 VK_SUCCESS"
        ∷ codes "b 1 vkAllocateCommandBuffers %1.3 %1.4 = %1.5 VK_SUCCESS"
        ∷ codes "b 1 vkDestroyInstance %1.1 void"
        ∷ codes "b 1 vkGetPhysicalDeviceProperties %1.2 void"
        ∷ codes "b 1 vkCreateBuffer %1.3 = %1.6 VK_SUCCESS"
        ∷ codes "b 1 vkBeginCommandBuffer %1.5 VK_SUCCESS"
        ∷ []))
        ≡ said (bare_start
        ++ codes "ret 4 vkCreateCommandPool VK_SUCCESS born=1"
        ∷ codes "ret 5 vkAllocateCommandBuffers VK_SUCCESS born=1"
        ∷ codes "ret 6 vkDestroyInstance void"
        ∷ codes "report 7 0 VUID-vkGetPhysicalDeviceProperties-physicalDevice-parameter %1.2"
        ∷ codes "ret 7 vkGetPhysicalDeviceProperties void"
        ∷ codes "report 8 0 VUID-vkCreateBuffer-device-parameter %1.3"
        ∷ codes "ret 8 vkCreateBuffer VK_ERROR_VALIDATION_FAILED_EXT born=0"
        ∷ codes "report 9 0 VUID-vkBeginCommandBuffer-commandBuffer-parameter %1.5"
        ∷ codes "ret 9 vkBeginCommandBuffer VK_ERROR_VALIDATION_FAILED_EXT"
        ∷ codes "end calls=9 skipped=3 reports=3"
        ∷ []) }
{}

/// Null is allowed at a destroy, and not at a bind, where it is reported as it is written.
pub fn null_where_it_is_not_allowed()
    ensures { told validation (started
        ++ calls (codes "b 1 vkAllocateMemory %1.3 = %1.4 VK_SUCCESS"
        ∷ codes "b 1 vkDestroyBuffer %1.3 null void"
        ∷ codes "b 1 vkBindBufferMemory %1.3 null %1.4 VK_SUCCESS"
        ∷ []))
        ≡ said (validation_start
        ++ codes "ret 4 vkAllocateMemory VK_SUCCESS born=1"
        ∷ codes "ret 5 vkDestroyBuffer void"
        ∷ codes "report 6 2 VUID-vkBindBufferMemory-buffer-parameter null"
        ∷ codes "ret 6 vkBindBufferMemory VK_ERROR_VALIDATION_FAILED_EXT"
        ∷ codes "end calls=6 skipped=1 reports=1"
        ∷ []) }
{}

/// An enumeration that names no device asks for their number: it answers success whatever the number is.
pub fn only_the_number_of_devices()
    ensures { told two_drivers (calls (codes "b 1 vkCreateInstance = %1.1 VK_SUCCESS"
        ∷ codes "b 1 vkEnumeratePhysicalDevices %1.1 VK_SUCCESS"
        ∷ []))
        ≡ said (codes "note NoVersion /etc/vulkan/icd.d/c.json"
        ∷ codes "chain 1 ok layers=0 parts=0 drivers=2"
        ∷ codes "driver 1 /etc/vulkan/icd.d/a.json libvulkan_a.so"
        ∷ codes "driver 2 /etc/vulkan/icd.d/b.json /etc/vulkan/icd.d/./libb.so"
        ∷ codes "ret 1 vkCreateInstance VK_SUCCESS born=1"
        ∷ codes "ret 2 vkEnumeratePhysicalDevices VK_SUCCESS born=0"
        ∷ codes "end calls=2 skipped=0 reports=0"
        ∷ []) }
{}

/// A buffer that is destroyed fails as an argument, and nobody asks whose it was.
pub fn a_dead_buffer_of_another_device()
    ensures { told validation (started
        ++ calls (codes "b 1 vkCreateDevice %1.2 = %1.4 VK_SUCCESS"
        ∷ codes "b 1 vkCreateBuffer %1.3 = %1.5 VK_SUCCESS"
        ∷ codes "b 1 vkDestroyBuffer %1.3 %1.5 void"
        ∷ codes "b 1 vkDestroyBuffer %1.4 %1.5 void"
        ∷ []))
        ≡ said (validation_start
        ++ codes "ret 4 vkCreateDevice VK_SUCCESS born=1"
        ∷ codes "ret 5 vkCreateBuffer VK_SUCCESS born=1"
        ∷ codes "ret 6 vkDestroyBuffer void"
        ∷ codes "report 7 2 VUID-vkDestroyBuffer-buffer-parameter %1.5"
        ∷ codes "ret 7 vkDestroyBuffer void"
        ∷ codes "end calls=7 skipped=1 reports=1"
        ∷ []) }
{}

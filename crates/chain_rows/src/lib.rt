//! Small traces run over the machine of a chain, by computation.
//! Promises what the machine reports, what it tells the drivers and what stands in its parts at the end, for chains of parts in several orders.
//! Leaves to others why this is so for every trace.
#![tactic(auto)]

ghost use Rattle.std.specs.Prelude.{◌≡◌, [], ◌∷◌, ◌++◌, codes, map};
ghost use Rattle.command_tables.specs.declared.types.ObjectType.TheVariants as ty;
ghost use Rattle.replay_rows.specs.Traces.{buffer_destroyed_twice, buffer_of_another_device, buffers_and_memory, destroyed_fence_submitted, device_before_its_image, dispatch, each, instance_and_device, pool_destroyed_while_it_allocates, submits_by_two_names, two_buffers_recorded};
ghost use Rattle.chain_rows.specs.Runs.{Gives, Lives, Uses};
ghost use Rattle.chain_rows.specs.Rows.{Ran, as_validation, came_to, destroyed_on_two_threads, driver_told, lifetimes_first, no_parts, over_two, ran, unique_twice};

/// A driver that answers 1 for every handle is told 1 for every handle, and nothing is reported: objects are told apart by their ids.
pub fn one_value_for_all()
    ensures validation { ran as_validation ((1 ∷ []) ∷ (1 ∷ []) ∷ (1 ∷ []) ∷ (1 ∷ []) ∷ (1 ∷ []) ∷ (1 ∷ []) ∷ [] ∷ [] ∷ []) buffers_and_memory
        ≡ came_to []
        ([] ∷ each (1 ∷ []) ∷ each (1 ∷ []) ∷ each (1 ∷ []) ∷ each (1 ∷ []) ∷ each (1 ∷ []) ∷ each (1 ∷ 1 ∷ []) ∷ each (1 ∷ 1 ∷ 1 ∷ []) ∷ [])
        (Uses ((ty.Instance, 1) ∷ (ty.PhysicalDevice, 2) ∷ (ty.Device, 3) ∷ (ty.Buffer, 2) ∷ (ty.DeviceMemory, 3) ∷ []) [] ∷ Lives ((ty.Instance, 1) ∷ (ty.PhysicalDevice, 2) ∷ (ty.Device, 3) ∷ (ty.Buffer, 2) ∷ (ty.DeviceMemory, 3) ∷ []) ∷ Gives ((ty.Buffer, 1, 1) ∷ (ty.Buffer, 2, 1) ∷ (ty.DeviceMemory, 3, 1) ∷ []) ∷ []) }
    ensures lifetimes_first { ran lifetimes_first ((1 ∷ []) ∷ (1 ∷ []) ∷ (1 ∷ []) ∷ (1 ∷ []) ∷ (1 ∷ []) ∷ (1 ∷ []) ∷ [] ∷ [] ∷ []) buffers_and_memory
        ≡ came_to []
        ([] ∷ each (1 ∷ []) ∷ each (1 ∷ []) ∷ each (1 ∷ []) ∷ each (1 ∷ []) ∷ each (1 ∷ []) ∷ each (1 ∷ 1 ∷ []) ∷ each (1 ∷ 1 ∷ 1 ∷ []) ∷ [])
        (Lives ((ty.Instance, 1) ∷ (ty.PhysicalDevice, 2) ∷ (ty.Device, 3) ∷ (ty.Buffer, 2) ∷ (ty.DeviceMemory, 3) ∷ []) ∷ Uses ((ty.Instance, 1) ∷ (ty.PhysicalDevice, 2) ∷ (ty.Device, 3) ∷ (ty.Buffer, 2) ∷ (ty.DeviceMemory, 3) ∷ []) [] ∷ Gives ((ty.Buffer, 1, 1) ∷ (ty.Buffer, 2, 1) ∷ (ty.DeviceMemory, 3, 1) ∷ []) ∷ []) }
    ensures unique_twice { ran unique_twice ((1 ∷ []) ∷ (1 ∷ []) ∷ (1 ∷ []) ∷ (1 ∷ []) ∷ (1 ∷ []) ∷ (1 ∷ []) ∷ [] ∷ [] ∷ []) buffers_and_memory
        ≡ came_to []
        ([] ∷ each (1 ∷ []) ∷ each (1 ∷ []) ∷ each (1 ∷ []) ∷ each (1 ∷ []) ∷ each (1 ∷ []) ∷ each (1 ∷ 1 ∷ []) ∷ each (1 ∷ 1 ∷ 1 ∷ []) ∷ [])
        (Lives ((ty.Instance, 1) ∷ (ty.PhysicalDevice, 2) ∷ (ty.Device, 3) ∷ (ty.Buffer, 2) ∷ (ty.DeviceMemory, 3) ∷ []) ∷ Gives ((ty.Buffer, 1, 1) ∷ (ty.Buffer, 2, 2) ∷ (ty.DeviceMemory, 3, 3) ∷ []) ∷ Gives ((ty.Buffer, 1, 1) ∷ (ty.Buffer, 2, 1) ∷ (ty.DeviceMemory, 3, 1) ∷ []) ∷ []) }
    ensures no_layers { ran no_parts ((1 ∷ []) ∷ (1 ∷ []) ∷ (1 ∷ []) ∷ (1 ∷ []) ∷ (1 ∷ []) ∷ (1 ∷ []) ∷ [] ∷ [] ∷ []) buffers_and_memory
        ≡ came_to []
        ([] ∷ each (1 ∷ []) ∷ each (1 ∷ []) ∷ each (1 ∷ []) ∷ each (1 ∷ []) ∷ each (1 ∷ []) ∷ each (1 ∷ 1 ∷ []) ∷ each (1 ∷ 1 ∷ 1 ∷ []) ∷ [])
        [] }
{}

/// A buffer is destroyed twice: a lifetimes part reports the second destroy, which is told to no driver. Without one it is told.
pub fn a_buffer_is_destroyed_twice()
    ensures validation { ran as_validation ((1 ∷ []) ∷ (2 ∷ []) ∷ (3 ∷ []) ∷ (4 ∷ []) ∷ [] ∷ [] ∷ []) buffer_destroyed_twice
        ≡ came_to (codes "report 6 2 VUID-vkDestroyBuffer-buffer-parameter %1.4" ∷ [])
        ([] ∷ each (1 ∷ []) ∷ each (2 ∷ []) ∷ each (3 ∷ []) ∷ each (3 ∷ 4 ∷ []) ∷ [])
        (Uses ((ty.Instance, 1) ∷ (ty.PhysicalDevice, 2) ∷ (ty.Device, 3) ∷ []) [] ∷ Lives ((ty.Instance, 1) ∷ (ty.PhysicalDevice, 2) ∷ (ty.Device, 3) ∷ []) ∷ Gives ((ty.Buffer, 1, 4) ∷ []) ∷ []) }
    ensures lifetimes_first { ran lifetimes_first ((1 ∷ []) ∷ (2 ∷ []) ∷ (3 ∷ []) ∷ (4 ∷ []) ∷ [] ∷ [] ∷ []) buffer_destroyed_twice
        ≡ came_to (codes "report 6 1 VUID-vkDestroyBuffer-buffer-parameter %1.4" ∷ [])
        ([] ∷ each (1 ∷ []) ∷ each (2 ∷ []) ∷ each (3 ∷ []) ∷ each (3 ∷ 4 ∷ []) ∷ [])
        (Lives ((ty.Instance, 1) ∷ (ty.PhysicalDevice, 2) ∷ (ty.Device, 3) ∷ []) ∷ Uses ((ty.Instance, 1) ∷ (ty.PhysicalDevice, 2) ∷ (ty.Device, 3) ∷ []) [] ∷ Gives ((ty.Buffer, 1, 4) ∷ []) ∷ []) }
    ensures unique_twice { ran unique_twice ((1 ∷ []) ∷ (2 ∷ []) ∷ (3 ∷ []) ∷ (4 ∷ []) ∷ [] ∷ [] ∷ []) buffer_destroyed_twice
        ≡ came_to (codes "report 6 1 VUID-vkDestroyBuffer-buffer-parameter %1.4" ∷ [])
        ([] ∷ each (1 ∷ []) ∷ each (2 ∷ []) ∷ each (3 ∷ []) ∷ each (3 ∷ 4 ∷ []) ∷ [])
        (Lives ((ty.Instance, 1) ∷ (ty.PhysicalDevice, 2) ∷ (ty.Device, 3) ∷ []) ∷ Gives ((ty.Buffer, 1, 1) ∷ []) ∷ Gives ((ty.Buffer, 1, 4) ∷ []) ∷ []) }
    ensures no_layers { ran no_parts ((1 ∷ []) ∷ (2 ∷ []) ∷ (3 ∷ []) ∷ (4 ∷ []) ∷ [] ∷ [] ∷ []) buffer_destroyed_twice
        ≡ came_to []
        ([] ∷ each (1 ∷ []) ∷ each (2 ∷ []) ∷ each (3 ∷ []) ∷ each (3 ∷ 4 ∷ []) ∷ each (3 ∷ 4 ∷ []) ∷ [])
        [] }
{}

/// A device is destroyed before its image: a lifetimes part reports its child and skips the call, a threads part above it has seen it end. Without layers the loader finds the device dead.
pub fn a_device_before_its_image()
    ensures validation { ran as_validation ((1 ∷ []) ∷ (2 ∷ []) ∷ (3 ∷ []) ∷ (4 ∷ []) ∷ [] ∷ [] ∷ [] ∷ []) device_before_its_image
        ≡ came_to (codes "report 5 2 VKR-vkDestroyDevice-device-children %1.3 children=1" ∷ [])
        ([] ∷ each (1 ∷ []) ∷ each (2 ∷ []) ∷ each (3 ∷ []) ∷ each (3 ∷ 4 ∷ []) ∷ each (3 ∷ []) ∷ [])
        (Uses ((ty.Instance, 1) ∷ (ty.PhysicalDevice, 2) ∷ []) [] ∷ Lives ((ty.Instance, 1) ∷ (ty.PhysicalDevice, 2) ∷ []) ∷ Gives ((ty.Image, 1, 4) ∷ []) ∷ []) }
    ensures lifetimes_first { ran lifetimes_first ((1 ∷ []) ∷ (2 ∷ []) ∷ (3 ∷ []) ∷ (4 ∷ []) ∷ [] ∷ [] ∷ [] ∷ []) device_before_its_image
        ≡ came_to (codes "report 5 1 VKR-vkDestroyDevice-device-children %1.3 children=1" ∷ [])
        ([] ∷ each (1 ∷ []) ∷ each (2 ∷ []) ∷ each (3 ∷ []) ∷ each (3 ∷ 4 ∷ []) ∷ each (3 ∷ []) ∷ [])
        (Lives ((ty.Instance, 1) ∷ (ty.PhysicalDevice, 2) ∷ []) ∷ Uses ((ty.Instance, 1) ∷ (ty.PhysicalDevice, 2) ∷ []) [] ∷ Gives ((ty.Image, 1, 4) ∷ []) ∷ []) }
    ensures unique_twice { ran unique_twice ((1 ∷ []) ∷ (2 ∷ []) ∷ (3 ∷ []) ∷ (4 ∷ []) ∷ [] ∷ [] ∷ [] ∷ []) device_before_its_image
        ≡ came_to (codes "report 5 1 VKR-vkDestroyDevice-device-children %1.3 children=1" ∷ [])
        ([] ∷ each (1 ∷ []) ∷ each (2 ∷ []) ∷ each (3 ∷ []) ∷ each (3 ∷ 4 ∷ []) ∷ each (3 ∷ []) ∷ [])
        (Lives ((ty.Instance, 1) ∷ (ty.PhysicalDevice, 2) ∷ []) ∷ Gives ((ty.Image, 1, 1) ∷ []) ∷ Gives ((ty.Image, 1, 4) ∷ []) ∷ []) }
    ensures no_layers { ran no_parts ((1 ∷ []) ∷ (2 ∷ []) ∷ (3 ∷ []) ∷ (4 ∷ []) ∷ [] ∷ [] ∷ [] ∷ []) device_before_its_image
        ≡ came_to (codes "report 6 0 VUID-vkDestroyImage-device-parameter %1.3" ∷ codes "report 7 0 VUID-vkDestroyDevice-device-parameter %1.3" ∷ [])
        ([] ∷ each (1 ∷ []) ∷ each (2 ∷ []) ∷ each (3 ∷ []) ∷ each (3 ∷ []) ∷ [])
        [] }
{}

/// Two threads submit to one queue by its two names: a threads part reports the second, which goes on. Of the two values that the driver gave the last counts.
pub fn one_queue_by_two_names()
    ensures validation { ran as_validation ((1 ∷ []) ∷ (2 ∷ []) ∷ (3 ∷ []) ∷ (4 ∷ []) ∷ (5 ∷ []) ∷ [] ∷ [] ∷ []) submits_by_two_names
        ≡ came_to (codes "report 7 1 VKR-vkQueueSubmit-queue-overlap %1.5 with=6" ∷ [])
        ([] ∷ each (1 ∷ []) ∷ each (2 ∷ []) ∷ each (3 ∷ []) ∷ each (3 ∷ []) ∷ ((5 ∷ []) ∷ [] ∷ [] ∷ [] ∷ (0 ∷ []) ∷ []) ∷ ((5 ∷ []) ∷ [] ∷ [] ∷ [] ∷ (0 ∷ []) ∷ []) ∷ [])
        (Uses ((ty.Instance, 1) ∷ (ty.PhysicalDevice, 2) ∷ (ty.Device, 3) ∷ (ty.Queue, 4) ∷ []) [] ∷ Lives ((ty.Instance, 1) ∷ (ty.PhysicalDevice, 2) ∷ (ty.Device, 3) ∷ (ty.Queue, 4) ∷ []) ∷ Gives [] ∷ []) }
    ensures lifetimes_first { ran lifetimes_first ((1 ∷ []) ∷ (2 ∷ []) ∷ (3 ∷ []) ∷ (4 ∷ []) ∷ (5 ∷ []) ∷ [] ∷ [] ∷ []) submits_by_two_names
        ≡ came_to (codes "report 7 2 VKR-vkQueueSubmit-queue-overlap %1.5 with=6" ∷ [])
        ([] ∷ each (1 ∷ []) ∷ each (2 ∷ []) ∷ each (3 ∷ []) ∷ each (3 ∷ []) ∷ ((5 ∷ []) ∷ [] ∷ [] ∷ [] ∷ (0 ∷ []) ∷ []) ∷ ((5 ∷ []) ∷ [] ∷ [] ∷ [] ∷ (0 ∷ []) ∷ []) ∷ [])
        (Lives ((ty.Instance, 1) ∷ (ty.PhysicalDevice, 2) ∷ (ty.Device, 3) ∷ (ty.Queue, 4) ∷ []) ∷ Uses ((ty.Instance, 1) ∷ (ty.PhysicalDevice, 2) ∷ (ty.Device, 3) ∷ (ty.Queue, 4) ∷ []) [] ∷ Gives [] ∷ []) }
    ensures unique_twice { ran unique_twice ((1 ∷ []) ∷ (2 ∷ []) ∷ (3 ∷ []) ∷ (4 ∷ []) ∷ (5 ∷ []) ∷ [] ∷ [] ∷ []) submits_by_two_names
        ≡ came_to []
        ([] ∷ each (1 ∷ []) ∷ each (2 ∷ []) ∷ each (3 ∷ []) ∷ each (3 ∷ []) ∷ ((5 ∷ []) ∷ [] ∷ [] ∷ [] ∷ (0 ∷ []) ∷ []) ∷ ((5 ∷ []) ∷ [] ∷ [] ∷ [] ∷ (0 ∷ []) ∷ []) ∷ [])
        (Lives ((ty.Instance, 1) ∷ (ty.PhysicalDevice, 2) ∷ (ty.Device, 3) ∷ (ty.Queue, 4) ∷ []) ∷ Gives [] ∷ Gives [] ∷ []) }
    ensures no_layers { ran no_parts ((1 ∷ []) ∷ (2 ∷ []) ∷ (3 ∷ []) ∷ (4 ∷ []) ∷ (5 ∷ []) ∷ [] ∷ [] ∷ []) submits_by_two_names
        ≡ came_to []
        ([] ∷ each (1 ∷ []) ∷ each (2 ∷ []) ∷ each (3 ∷ []) ∷ each (3 ∷ []) ∷ ((5 ∷ []) ∷ [] ∷ [] ∷ [] ∷ (0 ∷ []) ∷ []) ∷ ((5 ∷ []) ∷ [] ∷ [] ∷ [] ∷ (0 ∷ []) ∷ []) ∷ [])
        [] }
{}

/// A destroyed fence in a place that allows null fails; null does not.
pub fn a_destroyed_fence_is_submitted()
    ensures validation { ran as_validation ((1 ∷ []) ∷ (2 ∷ []) ∷ (3 ∷ []) ∷ (4 ∷ []) ∷ (5 ∷ []) ∷ [] ∷ [] ∷ [] ∷ []) destroyed_fence_submitted
        ≡ came_to (codes "report 7 2 VUID-vkQueueSubmit-fence-parameter %1.5" ∷ [])
        ([] ∷ each (1 ∷ []) ∷ each (2 ∷ []) ∷ each (3 ∷ []) ∷ each (3 ∷ []) ∷ each (3 ∷ 5 ∷ []) ∷ ((4 ∷ []) ∷ [] ∷ [] ∷ [] ∷ (0 ∷ []) ∷ []) ∷ [])
        (Uses ((ty.Instance, 1) ∷ (ty.PhysicalDevice, 2) ∷ (ty.Device, 3) ∷ (ty.Queue, 4) ∷ []) [] ∷ Lives ((ty.Instance, 1) ∷ (ty.PhysicalDevice, 2) ∷ (ty.Device, 3) ∷ (ty.Queue, 4) ∷ []) ∷ Gives ((ty.Fence, 1, 5) ∷ []) ∷ []) }
    ensures lifetimes_first { ran lifetimes_first ((1 ∷ []) ∷ (2 ∷ []) ∷ (3 ∷ []) ∷ (4 ∷ []) ∷ (5 ∷ []) ∷ [] ∷ [] ∷ [] ∷ []) destroyed_fence_submitted
        ≡ came_to (codes "report 7 1 VUID-vkQueueSubmit-fence-parameter %1.5" ∷ [])
        ([] ∷ each (1 ∷ []) ∷ each (2 ∷ []) ∷ each (3 ∷ []) ∷ each (3 ∷ []) ∷ each (3 ∷ 5 ∷ []) ∷ ((4 ∷ []) ∷ [] ∷ [] ∷ [] ∷ (0 ∷ []) ∷ []) ∷ [])
        (Lives ((ty.Instance, 1) ∷ (ty.PhysicalDevice, 2) ∷ (ty.Device, 3) ∷ (ty.Queue, 4) ∷ []) ∷ Uses ((ty.Instance, 1) ∷ (ty.PhysicalDevice, 2) ∷ (ty.Device, 3) ∷ (ty.Queue, 4) ∷ []) [] ∷ Gives ((ty.Fence, 1, 5) ∷ []) ∷ []) }
    ensures unique_twice { ran unique_twice ((1 ∷ []) ∷ (2 ∷ []) ∷ (3 ∷ []) ∷ (4 ∷ []) ∷ (5 ∷ []) ∷ [] ∷ [] ∷ [] ∷ []) destroyed_fence_submitted
        ≡ came_to (codes "report 7 1 VUID-vkQueueSubmit-fence-parameter %1.5" ∷ [])
        ([] ∷ each (1 ∷ []) ∷ each (2 ∷ []) ∷ each (3 ∷ []) ∷ each (3 ∷ []) ∷ each (3 ∷ 5 ∷ []) ∷ ((4 ∷ []) ∷ [] ∷ [] ∷ [] ∷ (0 ∷ []) ∷ []) ∷ [])
        (Lives ((ty.Instance, 1) ∷ (ty.PhysicalDevice, 2) ∷ (ty.Device, 3) ∷ (ty.Queue, 4) ∷ []) ∷ Gives ((ty.Fence, 1, 1) ∷ []) ∷ Gives ((ty.Fence, 1, 5) ∷ []) ∷ []) }
    ensures no_layers { ran no_parts ((1 ∷ []) ∷ (2 ∷ []) ∷ (3 ∷ []) ∷ (4 ∷ []) ∷ (5 ∷ []) ∷ [] ∷ [] ∷ [] ∷ []) destroyed_fence_submitted
        ≡ came_to []
        ([] ∷ each (1 ∷ []) ∷ each (2 ∷ []) ∷ each (3 ∷ []) ∷ each (3 ∷ []) ∷ each (3 ∷ 5 ∷ []) ∷ ((4 ∷ []) ∷ [] ∷ [] ∷ [] ∷ (5 ∷ []) ∷ []) ∷ ((4 ∷ []) ∷ [] ∷ [] ∷ [] ∷ (0 ∷ []) ∷ []) ∷ [])
        [] }
{}

/// A command pool is destroyed while a command buffer of it is made: a threads part reports it, and the command buffer is lost.
pub fn a_pool_is_destroyed_while_it_allocates()
    ensures validation { ran as_validation ((1 ∷ []) ∷ (2 ∷ []) ∷ (3 ∷ []) ∷ (4 ∷ []) ∷ (5 ∷ []) ∷ [] ∷ [] ∷ []) pool_destroyed_while_it_allocates
        ≡ came_to (codes "report 6 1 VKR-vkDestroyCommandPool-commandPool-overlap %1.4 with=5" ∷ codes "report 7 0 VUID-vkBeginCommandBuffer-commandBuffer-parameter %1.5" ∷ [])
        ([] ∷ each (1 ∷ []) ∷ each (2 ∷ []) ∷ each (3 ∷ []) ∷ each (3 ∷ 4 ∷ []) ∷ each (3 ∷ 4 ∷ []) ∷ [])
        (Uses ((ty.Instance, 1) ∷ (ty.PhysicalDevice, 2) ∷ (ty.Device, 3) ∷ []) [] ∷ Lives ((ty.Instance, 1) ∷ (ty.PhysicalDevice, 2) ∷ (ty.Device, 3) ∷ []) ∷ Gives ((ty.CommandPool, 1, 4) ∷ []) ∷ []) }
    ensures lifetimes_first { ran lifetimes_first ((1 ∷ []) ∷ (2 ∷ []) ∷ (3 ∷ []) ∷ (4 ∷ []) ∷ (5 ∷ []) ∷ [] ∷ [] ∷ []) pool_destroyed_while_it_allocates
        ≡ came_to (codes "report 6 2 VKR-vkDestroyCommandPool-commandPool-overlap %1.4 with=5" ∷ codes "report 7 0 VUID-vkBeginCommandBuffer-commandBuffer-parameter %1.5" ∷ [])
        ([] ∷ each (1 ∷ []) ∷ each (2 ∷ []) ∷ each (3 ∷ []) ∷ each (3 ∷ 4 ∷ []) ∷ each (3 ∷ 4 ∷ []) ∷ [])
        (Lives ((ty.Instance, 1) ∷ (ty.PhysicalDevice, 2) ∷ (ty.Device, 3) ∷ []) ∷ Uses ((ty.Instance, 1) ∷ (ty.PhysicalDevice, 2) ∷ (ty.Device, 3) ∷ []) [] ∷ Gives ((ty.CommandPool, 1, 4) ∷ []) ∷ []) }
    ensures unique_twice { ran unique_twice ((1 ∷ []) ∷ (2 ∷ []) ∷ (3 ∷ []) ∷ (4 ∷ []) ∷ (5 ∷ []) ∷ [] ∷ [] ∷ []) pool_destroyed_while_it_allocates
        ≡ came_to (codes "report 7 0 VUID-vkBeginCommandBuffer-commandBuffer-parameter %1.5" ∷ [])
        ([] ∷ each (1 ∷ []) ∷ each (2 ∷ []) ∷ each (3 ∷ []) ∷ each (3 ∷ 4 ∷ []) ∷ each (3 ∷ 4 ∷ []) ∷ [])
        (Lives ((ty.Instance, 1) ∷ (ty.PhysicalDevice, 2) ∷ (ty.Device, 3) ∷ []) ∷ Gives ((ty.CommandPool, 1, 1) ∷ []) ∷ Gives ((ty.CommandPool, 1, 4) ∷ []) ∷ []) }
    ensures no_layers { ran no_parts ((1 ∷ []) ∷ (2 ∷ []) ∷ (3 ∷ []) ∷ (4 ∷ []) ∷ (5 ∷ []) ∷ [] ∷ [] ∷ []) pool_destroyed_while_it_allocates
        ≡ came_to (codes "report 7 0 VUID-vkBeginCommandBuffer-commandBuffer-parameter %1.5" ∷ [])
        ([] ∷ each (1 ∷ []) ∷ each (2 ∷ []) ∷ each (3 ∷ []) ∷ each (3 ∷ 4 ∷ []) ∷ each (3 ∷ 4 ∷ []) ∷ [])
        [] }
{}

/// Two command buffers of one pool are recorded at once: each is a write of the pool.
pub fn two_buffers_of_one_pool()
    ensures validation { ran as_validation ((1 ∷ []) ∷ (2 ∷ []) ∷ (3 ∷ []) ∷ (4 ∷ []) ∷ (5 ∷ 6 ∷ []) ∷ [] ∷ [] ∷ []) two_buffers_recorded
        ≡ came_to (codes "report 7 1 VKR-vkBeginCommandBuffer-commandBuffer-overlap %1.6 with=6" ∷ [])
        ([] ∷ each (1 ∷ []) ∷ each (2 ∷ []) ∷ each (3 ∷ []) ∷ each (3 ∷ 4 ∷ []) ∷ each (5 ∷ []) ∷ each (6 ∷ []) ∷ [])
        (Uses ((ty.Instance, 1) ∷ (ty.PhysicalDevice, 2) ∷ (ty.Device, 3) ∷ (ty.CommandPool, 1) ∷ (ty.CommandBuffer, 4) ∷ (ty.CommandBuffer, 5) ∷ []) [] ∷ Lives ((ty.Instance, 1) ∷ (ty.PhysicalDevice, 2) ∷ (ty.Device, 3) ∷ (ty.CommandPool, 1) ∷ (ty.CommandBuffer, 4) ∷ (ty.CommandBuffer, 5) ∷ []) ∷ Gives ((ty.CommandPool, 1, 4) ∷ []) ∷ []) }
    ensures lifetimes_first { ran lifetimes_first ((1 ∷ []) ∷ (2 ∷ []) ∷ (3 ∷ []) ∷ (4 ∷ []) ∷ (5 ∷ 6 ∷ []) ∷ [] ∷ [] ∷ []) two_buffers_recorded
        ≡ came_to (codes "report 7 2 VKR-vkBeginCommandBuffer-commandBuffer-overlap %1.6 with=6" ∷ [])
        ([] ∷ each (1 ∷ []) ∷ each (2 ∷ []) ∷ each (3 ∷ []) ∷ each (3 ∷ 4 ∷ []) ∷ each (5 ∷ []) ∷ each (6 ∷ []) ∷ [])
        (Lives ((ty.Instance, 1) ∷ (ty.PhysicalDevice, 2) ∷ (ty.Device, 3) ∷ (ty.CommandPool, 1) ∷ (ty.CommandBuffer, 4) ∷ (ty.CommandBuffer, 5) ∷ []) ∷ Uses ((ty.Instance, 1) ∷ (ty.PhysicalDevice, 2) ∷ (ty.Device, 3) ∷ (ty.CommandPool, 1) ∷ (ty.CommandBuffer, 4) ∷ (ty.CommandBuffer, 5) ∷ []) [] ∷ Gives ((ty.CommandPool, 1, 4) ∷ []) ∷ []) }
    ensures unique_twice { ran unique_twice ((1 ∷ []) ∷ (2 ∷ []) ∷ (3 ∷ []) ∷ (4 ∷ []) ∷ (5 ∷ 6 ∷ []) ∷ [] ∷ [] ∷ []) two_buffers_recorded
        ≡ came_to []
        ([] ∷ each (1 ∷ []) ∷ each (2 ∷ []) ∷ each (3 ∷ []) ∷ each (3 ∷ 4 ∷ []) ∷ each (5 ∷ []) ∷ each (6 ∷ []) ∷ [])
        (Lives ((ty.Instance, 1) ∷ (ty.PhysicalDevice, 2) ∷ (ty.Device, 3) ∷ (ty.CommandPool, 1) ∷ (ty.CommandBuffer, 4) ∷ (ty.CommandBuffer, 5) ∷ []) ∷ Gives ((ty.CommandPool, 1, 1) ∷ []) ∷ Gives ((ty.CommandPool, 1, 4) ∷ []) ∷ []) }
    ensures no_layers { ran no_parts ((1 ∷ []) ∷ (2 ∷ []) ∷ (3 ∷ []) ∷ (4 ∷ []) ∷ (5 ∷ 6 ∷ []) ∷ [] ∷ [] ∷ []) two_buffers_recorded
        ≡ came_to []
        ([] ∷ each (1 ∷ []) ∷ each (2 ∷ []) ∷ each (3 ∷ []) ∷ each (3 ∷ 4 ∷ []) ∷ each (5 ∷ []) ∷ each (6 ∷ []) ∷ [])
        [] }
{}

/// A command buffer is recorded, submitted and waited for, and all is destroyed in order: nothing is reported and nothing lives.
pub fn a_dispatch_from_start_to_end()
    ensures validation { ran as_validation ((1 ∷ []) ∷ (2 ∷ []) ∷ (3 ∷ []) ∷ (4 ∷ []) ∷ (5 ∷ []) ∷ (6 ∷ []) ∷ (7 ∷ []) ∷ [] ∷ [] ∷ [] ∷ [] ∷ [] ∷ [] ∷ [] ∷ [] ∷ [] ∷ []) dispatch
        ≡ came_to []
        ([] ∷ each (1 ∷ []) ∷ each (2 ∷ []) ∷ each (3 ∷ []) ∷ each (3 ∷ []) ∷ each (3 ∷ 5 ∷ []) ∷ each (3 ∷ []) ∷ each (6 ∷ []) ∷ each (6 ∷ []) ∷ each (6 ∷ []) ∷ ((4 ∷ []) ∷ [] ∷ (6 ∷ []) ∷ [] ∷ (7 ∷ []) ∷ []) ∷ ((3 ∷ []) ∷ (7 ∷ []) ∷ []) ∷ each (3 ∷ 7 ∷ []) ∷ each (3 ∷ 5 ∷ []) ∷ each (3 ∷ []) ∷ each (1 ∷ []) ∷ [])
        (Uses [] [] ∷ Lives [] ∷ Gives ((ty.CommandPool, 1, 5) ∷ (ty.Fence, 2, 7) ∷ []) ∷ []) }
    ensures lifetimes_first { ran lifetimes_first ((1 ∷ []) ∷ (2 ∷ []) ∷ (3 ∷ []) ∷ (4 ∷ []) ∷ (5 ∷ []) ∷ (6 ∷ []) ∷ (7 ∷ []) ∷ [] ∷ [] ∷ [] ∷ [] ∷ [] ∷ [] ∷ [] ∷ [] ∷ [] ∷ []) dispatch
        ≡ came_to []
        ([] ∷ each (1 ∷ []) ∷ each (2 ∷ []) ∷ each (3 ∷ []) ∷ each (3 ∷ []) ∷ each (3 ∷ 5 ∷ []) ∷ each (3 ∷ []) ∷ each (6 ∷ []) ∷ each (6 ∷ []) ∷ each (6 ∷ []) ∷ ((4 ∷ []) ∷ [] ∷ (6 ∷ []) ∷ [] ∷ (7 ∷ []) ∷ []) ∷ ((3 ∷ []) ∷ (7 ∷ []) ∷ []) ∷ each (3 ∷ 7 ∷ []) ∷ each (3 ∷ 5 ∷ []) ∷ each (3 ∷ []) ∷ each (1 ∷ []) ∷ [])
        (Lives [] ∷ Uses [] [] ∷ Gives ((ty.CommandPool, 1, 5) ∷ (ty.Fence, 2, 7) ∷ []) ∷ []) }
    ensures unique_twice { ran unique_twice ((1 ∷ []) ∷ (2 ∷ []) ∷ (3 ∷ []) ∷ (4 ∷ []) ∷ (5 ∷ []) ∷ (6 ∷ []) ∷ (7 ∷ []) ∷ [] ∷ [] ∷ [] ∷ [] ∷ [] ∷ [] ∷ [] ∷ [] ∷ [] ∷ []) dispatch
        ≡ came_to []
        ([] ∷ each (1 ∷ []) ∷ each (2 ∷ []) ∷ each (3 ∷ []) ∷ each (3 ∷ []) ∷ each (3 ∷ 5 ∷ []) ∷ each (3 ∷ []) ∷ each (6 ∷ []) ∷ each (6 ∷ []) ∷ each (6 ∷ []) ∷ ((4 ∷ []) ∷ [] ∷ (6 ∷ []) ∷ [] ∷ (7 ∷ []) ∷ []) ∷ ((3 ∷ []) ∷ (7 ∷ []) ∷ []) ∷ each (3 ∷ 7 ∷ []) ∷ each (3 ∷ 5 ∷ []) ∷ each (3 ∷ []) ∷ each (1 ∷ []) ∷ [])
        (Lives [] ∷ Gives ((ty.CommandPool, 1, 1) ∷ (ty.Fence, 2, 2) ∷ []) ∷ Gives ((ty.CommandPool, 1, 5) ∷ (ty.Fence, 2, 7) ∷ []) ∷ []) }
    ensures no_layers { ran no_parts ((1 ∷ []) ∷ (2 ∷ []) ∷ (3 ∷ []) ∷ (4 ∷ []) ∷ (5 ∷ []) ∷ (6 ∷ []) ∷ (7 ∷ []) ∷ [] ∷ [] ∷ [] ∷ [] ∷ [] ∷ [] ∷ [] ∷ [] ∷ [] ∷ []) dispatch
        ≡ came_to []
        ([] ∷ each (1 ∷ []) ∷ each (2 ∷ []) ∷ each (3 ∷ []) ∷ each (3 ∷ []) ∷ each (3 ∷ 5 ∷ []) ∷ each (3 ∷ []) ∷ each (6 ∷ []) ∷ each (6 ∷ []) ∷ each (6 ∷ []) ∷ ((4 ∷ []) ∷ [] ∷ (6 ∷ []) ∷ [] ∷ (7 ∷ []) ∷ []) ∷ ((3 ∷ []) ∷ (7 ∷ []) ∷ []) ∷ each (3 ∷ 7 ∷ []) ∷ each (3 ∷ 5 ∷ []) ∷ each (3 ∷ []) ∷ each (1 ∷ []) ∷ [])
        [] }
{}

/// A buffer is destroyed through another device than its own: a lifetimes part reports it, a threads part above it has seen the buffer end.
pub fn a_buffer_of_another_device()
    ensures validation { ran as_validation ((1 ∷ []) ∷ (2 ∷ []) ∷ (3 ∷ []) ∷ (4 ∷ []) ∷ (5 ∷ []) ∷ [] ∷ []) buffer_of_another_device
        ≡ came_to (codes "report 6 2 VUID-vkDestroyBuffer-buffer-parent %1.5" ∷ [])
        ([] ∷ each (1 ∷ []) ∷ each (2 ∷ []) ∷ each (2 ∷ []) ∷ each (3 ∷ []) ∷ [])
        (Uses ((ty.Instance, 1) ∷ (ty.PhysicalDevice, 2) ∷ (ty.Device, 3) ∷ (ty.Device, 4) ∷ []) [] ∷ Lives ((ty.Instance, 1) ∷ (ty.PhysicalDevice, 2) ∷ (ty.Device, 3) ∷ (ty.Device, 4) ∷ (ty.Buffer, 1) ∷ []) ∷ Gives ((ty.Buffer, 1, 5) ∷ []) ∷ []) }
    ensures lifetimes_first { ran lifetimes_first ((1 ∷ []) ∷ (2 ∷ []) ∷ (3 ∷ []) ∷ (4 ∷ []) ∷ (5 ∷ []) ∷ [] ∷ []) buffer_of_another_device
        ≡ came_to (codes "report 6 1 VUID-vkDestroyBuffer-buffer-parent %1.5" ∷ [])
        ([] ∷ each (1 ∷ []) ∷ each (2 ∷ []) ∷ each (2 ∷ []) ∷ each (3 ∷ []) ∷ [])
        (Lives ((ty.Instance, 1) ∷ (ty.PhysicalDevice, 2) ∷ (ty.Device, 3) ∷ (ty.Device, 4) ∷ (ty.Buffer, 1) ∷ []) ∷ Uses ((ty.Instance, 1) ∷ (ty.PhysicalDevice, 2) ∷ (ty.Device, 3) ∷ (ty.Device, 4) ∷ (ty.Buffer, 1) ∷ []) [] ∷ Gives ((ty.Buffer, 1, 5) ∷ []) ∷ []) }
    ensures unique_twice { ran unique_twice ((1 ∷ []) ∷ (2 ∷ []) ∷ (3 ∷ []) ∷ (4 ∷ []) ∷ (5 ∷ []) ∷ [] ∷ []) buffer_of_another_device
        ≡ came_to (codes "report 6 1 VUID-vkDestroyBuffer-buffer-parent %1.5" ∷ [])
        ([] ∷ each (1 ∷ []) ∷ each (2 ∷ []) ∷ each (2 ∷ []) ∷ each (3 ∷ []) ∷ [])
        (Lives ((ty.Instance, 1) ∷ (ty.PhysicalDevice, 2) ∷ (ty.Device, 3) ∷ (ty.Device, 4) ∷ (ty.Buffer, 1) ∷ []) ∷ Gives ((ty.Buffer, 1, 1) ∷ []) ∷ Gives ((ty.Buffer, 1, 5) ∷ []) ∷ []) }
    ensures no_layers { ran no_parts ((1 ∷ []) ∷ (2 ∷ []) ∷ (3 ∷ []) ∷ (4 ∷ []) ∷ (5 ∷ []) ∷ [] ∷ []) buffer_of_another_device
        ≡ came_to []
        ([] ∷ each (1 ∷ []) ∷ each (2 ∷ []) ∷ each (2 ∷ []) ∷ each (3 ∷ []) ∷ each (4 ∷ 5 ∷ []) ∷ [])
        [] }
{}

/// Two threads destroy a destroyed buffer at once: a threads part above the lifetimes part reports the second too, one below it sees neither.
pub fn a_destroyed_buffer_on_two_threads()
    ensures validation { ran as_validation ((1 ∷ []) ∷ (2 ∷ []) ∷ (3 ∷ []) ∷ (4 ∷ []) ∷ [] ∷ [] ∷ [] ∷ []) destroyed_on_two_threads
        ≡ came_to (codes "report 6 2 VUID-vkDestroyBuffer-buffer-parameter %1.4" ∷ codes "report 7 1 VKR-vkDestroyBuffer-buffer-overlap %1.4 with=6" ∷ codes "report 7 2 VUID-vkDestroyBuffer-buffer-parameter %1.4" ∷ [])
        ([] ∷ each (1 ∷ []) ∷ each (2 ∷ []) ∷ each (3 ∷ []) ∷ each (3 ∷ 4 ∷ []) ∷ [])
        (Uses ((ty.Instance, 1) ∷ (ty.PhysicalDevice, 2) ∷ (ty.Device, 3) ∷ []) [] ∷ Lives ((ty.Instance, 1) ∷ (ty.PhysicalDevice, 2) ∷ (ty.Device, 3) ∷ []) ∷ Gives ((ty.Buffer, 1, 4) ∷ []) ∷ []) }
    ensures lifetimes_first { ran lifetimes_first ((1 ∷ []) ∷ (2 ∷ []) ∷ (3 ∷ []) ∷ (4 ∷ []) ∷ [] ∷ [] ∷ [] ∷ []) destroyed_on_two_threads
        ≡ came_to (codes "report 6 1 VUID-vkDestroyBuffer-buffer-parameter %1.4" ∷ codes "report 7 1 VUID-vkDestroyBuffer-buffer-parameter %1.4" ∷ [])
        ([] ∷ each (1 ∷ []) ∷ each (2 ∷ []) ∷ each (3 ∷ []) ∷ each (3 ∷ 4 ∷ []) ∷ [])
        (Lives ((ty.Instance, 1) ∷ (ty.PhysicalDevice, 2) ∷ (ty.Device, 3) ∷ []) ∷ Uses ((ty.Instance, 1) ∷ (ty.PhysicalDevice, 2) ∷ (ty.Device, 3) ∷ []) [] ∷ Gives ((ty.Buffer, 1, 4) ∷ []) ∷ []) }
    ensures unique_twice { ran unique_twice ((1 ∷ []) ∷ (2 ∷ []) ∷ (3 ∷ []) ∷ (4 ∷ []) ∷ [] ∷ [] ∷ [] ∷ []) destroyed_on_two_threads
        ≡ came_to (codes "report 6 1 VUID-vkDestroyBuffer-buffer-parameter %1.4" ∷ codes "report 7 1 VUID-vkDestroyBuffer-buffer-parameter %1.4" ∷ [])
        ([] ∷ each (1 ∷ []) ∷ each (2 ∷ []) ∷ each (3 ∷ []) ∷ each (3 ∷ 4 ∷ []) ∷ [])
        (Lives ((ty.Instance, 1) ∷ (ty.PhysicalDevice, 2) ∷ (ty.Device, 3) ∷ []) ∷ Gives ((ty.Buffer, 1, 1) ∷ []) ∷ Gives ((ty.Buffer, 1, 4) ∷ []) ∷ []) }
    ensures no_layers { ran no_parts ((1 ∷ []) ∷ (2 ∷ []) ∷ (3 ∷ []) ∷ (4 ∷ []) ∷ [] ∷ [] ∷ [] ∷ []) destroyed_on_two_threads
        ≡ came_to []
        ([] ∷ each (1 ∷ []) ∷ each (2 ∷ []) ∷ each (3 ∷ []) ∷ each (3 ∷ 4 ∷ []) ∷ each (3 ∷ 4 ∷ []) ∷ each (3 ∷ 4 ∷ []) ∷ [])
        [] }
{}

/// Two drivers: both are told of the instance, each is asked for one physical device, and the one name stands for the first driver's.
pub fn two_drivers_of_one_instance()
    ensures validation { map driver_told (over_two as_validation ((1 ∷ []) ∷ (1 ∷ []) ∷ (2 ∷ []) ∷ (2 ∷ []) ∷ []) instance_and_device)
        ≡ (0, []) ∷ (1, []) ∷ (0, each (1 ∷ [])) ∷ (1, each (1 ∷ [])) ∷ [] }
    ensures no_layers { map driver_told (over_two no_parts ((1 ∷ []) ∷ (1 ∷ []) ∷ (2 ∷ []) ∷ (2 ∷ []) ∷ []) instance_and_device)
        ≡ (0, []) ∷ (1, []) ∷ (0, each (1 ∷ [])) ∷ (1, each (1 ∷ [])) ∷ [] }
{}

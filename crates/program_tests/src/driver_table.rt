// Traces behind an instance, a physical device and a device, and what the drivers are told.
use crate::fixtures::{self, DRIVER, Machine, SECOND_DRIVER};

/// The machine; the trace, of which each begin returns at once unless the returns are written too; and the calls of the drivers, each
/// with the driver's number, the command, the handles of each argument, how many are asked for, the code, and the handles that are
/// answered.
#[derive(Clone, Copy)]
pub(crate) struct Row {
    pub machine: Machine,
    pub events: &'static [&'static str],
    pub with_returns: bool,
    pub told: &'static [&'static str],
}

const PLAIN: Row = Row {
    machine: fixtures::PLAIN,
    events: &[],
    with_returns: false,
    told: &[],
};

const CHECKED: Row = Row {
    machine: fixtures::CHECKED,
    ..PLAIN
};

/// A device that is made and destroyed, and its instance.
pub(crate) const FIRST: Row = Row {
    events: &[
        "b 1 vkCreateInstance = %1.1 VK_SUCCESS",
        "b 1 vkEnumeratePhysicalDevices %1.1 = %1.2 VK_SUCCESS",
        "b 1 vkCreateDevice %1.2 = %1.3 VK_SUCCESS",
        "b 1 vkDestroyDevice %1.3 void",
        "b 1 vkDestroyInstance %1.1 void",
    ],
    told: &[
        "1 vkCreateInstance asked=1 VK_SUCCESS -> [1]",
        "1 vkEnumeratePhysicalDevices [1] asked=1 VK_SUCCESS -> [2]",
        "1 vkCreateDevice [2] asked=1 VK_SUCCESS -> [3]",
        "1 vkDestroyDevice [3] asked=0 void -> []",
        "1 vkDestroyInstance [1] asked=0 void -> []",
    ],
    ..PLAIN
};

/// Handles that drivers answer. Each row begins with an instance; all but those of two drivers and of none go on with a physical device
/// and a device.
pub(crate) static ANSWERED: [Row; 5] = [
    FIRST,
    // Without a driver no instance is made, and no driver is told.
    Row {
        machine: Machine {
            files: &[],
            ..fixtures::PLAIN
        },
        events: &["b 1 vkCreateInstance = %1.1 VK_SUCCESS"],
        ..PLAIN
    },
    // Two drivers, each asked for its physical devices.
    Row {
        machine: Machine {
            files: &[DRIVER, SECOND_DRIVER],
            ..fixtures::PLAIN
        },
        events: &[
            "b 1 vkCreateInstance = %1.1 VK_SUCCESS",
            "b 1 vkEnumeratePhysicalDevices %1.1 = %1.2 VK_SUCCESS",
        ],
        told: &[
            "1 vkCreateInstance asked=1 VK_SUCCESS -> [1]",
            "2 vkCreateInstance asked=1 VK_SUCCESS -> [1]",
            "1 vkEnumeratePhysicalDevices [1] asked=1 VK_SUCCESS -> [2]",
            "2 vkEnumeratePhysicalDevices [1] asked=1 VK_SUCCESS -> [2]",
        ],
        ..PLAIN
    },
    // One handle for all objects.
    Row {
        machine: Machine {
            words: "run --driver share",
            ..fixtures::CHECKED
        },
        events: &[
            "b 1 vkCreateInstance = %1.1 VK_SUCCESS",
            "b 1 vkEnumeratePhysicalDevices %1.1 = %1.2 VK_SUCCESS",
            "b 1 vkCreateDevice %1.2 = %1.3 VK_SUCCESS",
            "b 1 vkCreateBuffer %1.3 = %1.4 VK_SUCCESS",
            "b 1 vkCreateBuffer %1.3 = %1.5 VK_SUCCESS",
            "b 1 vkAllocateMemory %1.3 = %1.6 VK_SUCCESS",
            "b 1 vkDestroyBuffer %1.3 %1.4 void",
            "b 1 vkBindBufferMemory %1.3 %1.5 %1.6 VK_SUCCESS",
        ],
        told: &[
            "1 vkCreateInstance asked=1 VK_SUCCESS -> [1]",
            "1 vkEnumeratePhysicalDevices [1] asked=1 VK_SUCCESS -> [1]",
            "1 vkCreateDevice [1] asked=1 VK_SUCCESS -> [1]",
            "1 vkCreateBuffer [1] asked=1 VK_SUCCESS -> [1]",
            "1 vkCreateBuffer [1] asked=1 VK_SUCCESS -> [1]",
            "1 vkAllocateMemory [1] asked=1 VK_SUCCESS -> [1]",
            "1 vkDestroyBuffer [1] [1] asked=0 void -> []",
            "1 vkBindBufferMemory [1] [1] [1] asked=0 VK_SUCCESS -> []",
        ],
        ..CHECKED
    },
    // A handle that was freed is answered again, the least first.
    Row {
        machine: Machine {
            words: "run --driver reuse",
            ..fixtures::CHECKED
        },
        events: &[
            "b 1 vkCreateInstance = %1.1 VK_SUCCESS",
            "b 1 vkEnumeratePhysicalDevices %1.1 = %1.2 VK_SUCCESS",
            "b 1 vkCreateDevice %1.2 = %1.3 VK_SUCCESS",
            "b 1 vkCreateBuffer %1.3 = %1.4 VK_SUCCESS",
            "b 1 vkCreateBuffer %1.3 = %1.5 VK_SUCCESS",
            "b 1 vkDestroyBuffer %1.3 %1.4 void",
            "b 1 vkCreateBuffer %1.3 = %1.6 VK_SUCCESS",
            "b 1 vkDestroyBuffer %1.3 %1.4 void",
            "b 1 vkGetBufferMemoryRequirements %1.3 %1.6 void",
        ],
        told: &[
            "1 vkCreateInstance asked=1 VK_SUCCESS -> [1]",
            "1 vkEnumeratePhysicalDevices [1] asked=1 VK_SUCCESS -> [2]",
            "1 vkCreateDevice [2] asked=1 VK_SUCCESS -> [3]",
            "1 vkCreateBuffer [3] asked=1 VK_SUCCESS -> [4]",
            "1 vkCreateBuffer [3] asked=1 VK_SUCCESS -> [5]",
            "1 vkDestroyBuffer [3] [4] asked=0 void -> []",
            "1 vkCreateBuffer [3] asked=1 VK_SUCCESS -> [4]",
            "1 vkGetBufferMemoryRequirements [3] [4] asked=0 void -> []",
        ],
        ..CHECKED
    },
];

/// Destructions that are skipped, answers that are lost, and nulls.
pub(crate) static SKIPPED_AND_LOST: [Row; 5] = [
    // The first destruction of the device is skipped, since its image lives.
    Row {
        events: &[
            "b 1 vkCreateInstance = %1.1 VK_SUCCESS",
            "b 1 vkEnumeratePhysicalDevices %1.1 = %1.2 VK_SUCCESS",
            "b 1 vkCreateDevice %1.2 = %1.3 VK_SUCCESS",
            "b 1 vkCreateImage %1.3 = %1.4 VK_SUCCESS",
            "b 1 vkDestroyDevice %1.3 void",
            "b 1 vkDestroyImage %1.3 %1.4 void",
            "b 1 vkDestroyDevice %1.3 void",
        ],
        told: &[
            "1 vkCreateInstance asked=1 VK_SUCCESS -> [1]",
            "1 vkEnumeratePhysicalDevices [1] asked=1 VK_SUCCESS -> [2]",
            "1 vkCreateDevice [2] asked=1 VK_SUCCESS -> [3]",
            "1 vkCreateImage [3] asked=1 VK_SUCCESS -> [4]",
            "1 vkDestroyImage [3] [4] asked=0 void -> []",
            "1 vkDestroyDevice [3] asked=0 void -> []",
        ],
        ..CHECKED
    },
    // Two names of one queue, used by two threads at once: the queue's last value is told.
    Row {
        events: &[
            "b 1 vkCreateInstance = %1.1 VK_SUCCESS",
            "r 1",
            "b 1 vkEnumeratePhysicalDevices %1.1 = %1.2 VK_SUCCESS",
            "r 1",
            "b 1 vkCreateDevice %1.2 = %1.3 VK_SUCCESS",
            "r 1",
            "b 1 vkGetDeviceQueue %1.3 = %1.4 void : 0,0",
            "r 1",
            "b 1 vkGetDeviceQueue %1.3 = %1.5 void : 0,0",
            "r 1",
            "b 1 vkQueueSubmit %1.4 [] [] [] null VK_SUCCESS",
            "b 2 vkQueueSubmit %1.5 [] [] [] null VK_SUCCESS",
            "r 1",
            "r 2",
        ],
        with_returns: true,
        told: &[
            "1 vkCreateInstance asked=1 VK_SUCCESS -> [1]",
            "1 vkEnumeratePhysicalDevices [1] asked=1 VK_SUCCESS -> [2]",
            "1 vkCreateDevice [2] asked=1 VK_SUCCESS -> [3]",
            "1 vkGetDeviceQueue [3] asked=1 void -> [4]",
            "1 vkGetDeviceQueue [3] asked=1 void -> [5]",
            "1 vkQueueSubmit [5] [] [] [] [0] asked=0 VK_SUCCESS -> []",
            "1 vkQueueSubmit [5] [] [] [] [0] asked=0 VK_SUCCESS -> []",
        ],
        ..CHECKED
    },
    // A pool is destroyed by another thread while it allocates: the driver's answer is lost, and its use is skipped.
    Row {
        events: &[
            "b 1 vkCreateInstance = %1.1 VK_SUCCESS",
            "r 1",
            "b 1 vkEnumeratePhysicalDevices %1.1 = %1.2 VK_SUCCESS",
            "r 1",
            "b 1 vkCreateDevice %1.2 = %1.3 VK_SUCCESS",
            "r 1",
            "b 1 vkCreateCommandPool %1.3 = %1.4 VK_SUCCESS",
            "r 1",
            "b 1 vkAllocateCommandBuffers %1.3 %1.4 = %1.5 VK_SUCCESS",
            "b 2 vkDestroyCommandPool %1.3 %1.4 void",
            "r 2",
            "r 1",
            "b 1 vkBeginCommandBuffer %1.5 VK_SUCCESS",
            "r 1",
        ],
        with_returns: true,
        told: &[
            "1 vkCreateInstance asked=1 VK_SUCCESS -> [1]",
            "1 vkEnumeratePhysicalDevices [1] asked=1 VK_SUCCESS -> [2]",
            "1 vkCreateDevice [2] asked=1 VK_SUCCESS -> [3]",
            "1 vkCreateCommandPool [3] asked=1 VK_SUCCESS -> [4]",
            "1 vkAllocateCommandBuffers [3] [4] asked=1 VK_SUCCESS -> [5]",
            "1 vkDestroyCommandPool [3] [4] asked=0 void -> []",
        ],
        ..CHECKED
    },
    // A buffer that wasn't made and memory that is null, which are told as 0.
    Row {
        events: &[
            "b 1 vkCreateInstance = %1.1 VK_SUCCESS",
            "b 1 vkEnumeratePhysicalDevices %1.1 = %1.2 VK_SUCCESS",
            "b 1 vkCreateDevice %1.2 = %1.3 VK_SUCCESS",
            "b 1 vkCreateBuffer %1.3 = %1.4 VK_ERROR_OUT_OF_HOST_MEMORY",
            "b 1 vkGetBufferMemoryRequirements %1.3 %1.4 void",
            "b 1 vkFreeMemory %1.3 null void",
        ],
        told: &[
            "1 vkCreateInstance asked=1 VK_SUCCESS -> [1]",
            "1 vkEnumeratePhysicalDevices [1] asked=1 VK_SUCCESS -> [2]",
            "1 vkCreateDevice [2] asked=1 VK_SUCCESS -> [3]",
            "1 vkCreateBuffer [3] asked=1 VK_ERROR_OUT_OF_HOST_MEMORY -> []",
            "1 vkGetBufferMemoryRequirements [3] [0] asked=0 void -> []",
            "1 vkFreeMemory [3] [0] asked=0 void -> []",
        ],
        ..PLAIN
    },
    // A pool that is reset lives, and its sets are freed with null among them.
    Row {
        events: &[
            "b 1 vkCreateInstance = %1.1 VK_SUCCESS",
            "b 1 vkEnumeratePhysicalDevices %1.1 = %1.2 VK_SUCCESS",
            "b 1 vkCreateDevice %1.2 = %1.3 VK_SUCCESS",
            "b 1 vkCreateDescriptorPool %1.3 = %1.4 VK_SUCCESS",
            "b 1 vkCreateDescriptorSetLayout %1.3 [] = %1.5 VK_SUCCESS",
            "b 1 vkAllocateDescriptorSets %1.3 %1.4 [%1.5] = %1.6 VK_SUCCESS",
            "b 1 vkResetDescriptorPool %1.3 %1.4 VK_SUCCESS",
            "b 1 vkAllocateDescriptorSets %1.3 %1.4 [%1.5] = %1.7 VK_SUCCESS",
            "b 1 vkFreeDescriptorSets %1.3 %1.4 [%1.7,null] VK_SUCCESS",
        ],
        told: &[
            "1 vkCreateInstance asked=1 VK_SUCCESS -> [1]",
            "1 vkEnumeratePhysicalDevices [1] asked=1 VK_SUCCESS -> [2]",
            "1 vkCreateDevice [2] asked=1 VK_SUCCESS -> [3]",
            "1 vkCreateDescriptorPool [3] asked=1 VK_SUCCESS -> [4]",
            "1 vkCreateDescriptorSetLayout [3] [] asked=1 VK_SUCCESS -> [5]",
            "1 vkAllocateDescriptorSets [3] [4] [5] asked=1 VK_SUCCESS -> [6]",
            "1 vkResetDescriptorPool [3] [4] asked=0 VK_SUCCESS -> []",
            "1 vkAllocateDescriptorSets [3] [4] [5] asked=1 VK_SUCCESS -> [7]",
            "1 vkFreeDescriptorSets [3] [4] [7, 0] asked=0 VK_SUCCESS -> []",
        ],
        ..CHECKED
    },
];

/// Two threads, two drivers, and what is given again.
pub(crate) static TWICE_AND_AGAIN: [Row; 4] = [
    // Two threads' calls are told as they begin, and a list has the handles in its order.
    Row {
        events: &[
            "b 1 vkCreateInstance = %1.1 VK_SUCCESS",
            "r 1",
            "b 1 vkEnumeratePhysicalDevices %1.1 = %1.2 VK_SUCCESS",
            "r 1",
            "b 1 vkCreateDevice %1.2 = %1.3 VK_SUCCESS",
            "r 1",
            "b 1 vkCreateFence %1.3 = %1.4 VK_SUCCESS",
            "b 2 vkCreateFence %1.3 = %2.1 VK_SUCCESS",
            "r 2",
            "r 1",
            "b 1 vkWaitForFences %1.3 [%2.1,%1.4] VK_TIMEOUT",
            "r 1",
        ],
        with_returns: true,
        told: &[
            "1 vkCreateInstance asked=1 VK_SUCCESS -> [1]",
            "1 vkEnumeratePhysicalDevices [1] asked=1 VK_SUCCESS -> [2]",
            "1 vkCreateDevice [2] asked=1 VK_SUCCESS -> [3]",
            "1 vkCreateFence [3] asked=1 VK_SUCCESS -> [4]",
            "1 vkCreateFence [3] asked=1 VK_SUCCESS -> [5]",
            "1 vkWaitForFences [3] [5, 4] asked=0 VK_TIMEOUT -> []",
        ],
        ..CHECKED
    },
    // Two drivers: each is told its own values, a queue and a physical device that are given again the last one.
    Row {
        machine: Machine {
            files: &[DRIVER, SECOND_DRIVER],
            ..fixtures::PLAIN
        },
        events: &[
            "b 1 vkCreateInstance = %1.1 VK_SUCCESS",
            "b 1 vkEnumeratePhysicalDevices %1.1 = %1.2,%1.3 VK_SUCCESS",
            "b 1 vkCreateDevice %1.3 = %1.4 VK_SUCCESS",
            "b 1 vkCreateDevice %1.2 = %1.5 VK_SUCCESS",
            "b 1 vkCreateXcbSurfaceKHR %1.1 = %1.6 VK_SUCCESS",
            "b 1 vkGetPhysicalDeviceSurfaceSupportKHR %1.3 %1.6 VK_SUCCESS",
            "b 1 vkGetDeviceQueue %1.4 = %1.7 void : 0,0",
            "b 1 vkGetDeviceQueue %1.4 = %1.8 void : 0,1",
            "b 1 vkGetDeviceQueue %1.5 = %1.9 void : 0,0",
            "b 1 vkGetDeviceQueue %1.4 = %1.10 void : 0,0",
            "b 1 vkQueueWaitIdle %1.7 VK_SUCCESS",
            "b 1 vkQueueWaitIdle %1.8 VK_SUCCESS",
            "b 1 vkQueueWaitIdle %1.9 VK_SUCCESS",
            "b 1 vkEnumeratePhysicalDevices %1.1 = %1.11,%1.12 VK_SUCCESS",
            "b 1 vkGetPhysicalDeviceFeatures %1.2 void",
            "b 1 vkGetPhysicalDeviceFeatures %1.12 void",
        ],
        told: &[
            "1 vkCreateInstance asked=1 VK_SUCCESS -> [1]",
            "2 vkCreateInstance asked=1 VK_SUCCESS -> [1]",
            "1 vkEnumeratePhysicalDevices [1] asked=1 VK_SUCCESS -> [2]",
            "2 vkEnumeratePhysicalDevices [1] asked=1 VK_SUCCESS -> [2]",
            "2 vkCreateDevice [2] asked=1 VK_SUCCESS -> [3]",
            "1 vkCreateDevice [2] asked=1 VK_SUCCESS -> [3]",
            "1 vkCreateXcbSurfaceKHR [1] asked=1 VK_SUCCESS -> [4]",
            "2 vkCreateXcbSurfaceKHR [1] asked=1 VK_SUCCESS -> [4]",
            "2 vkGetPhysicalDeviceSurfaceSupportKHR [2] [4] asked=0 VK_SUCCESS -> []",
            "2 vkGetDeviceQueue [3] asked=1 void -> [5]",
            "2 vkGetDeviceQueue [3] asked=1 void -> [6]",
            "1 vkGetDeviceQueue [3] asked=1 void -> [5]",
            "2 vkGetDeviceQueue [3] asked=1 void -> [7]",
            "2 vkQueueWaitIdle [7] asked=0 VK_SUCCESS -> []",
            "2 vkQueueWaitIdle [6] asked=0 VK_SUCCESS -> []",
            "1 vkQueueWaitIdle [5] asked=0 VK_SUCCESS -> []",
            "1 vkEnumeratePhysicalDevices [1] asked=1 VK_SUCCESS -> [6]",
            "2 vkEnumeratePhysicalDevices [1] asked=1 VK_SUCCESS -> [8]",
            "1 vkGetPhysicalDeviceFeatures [6] asked=0 void -> []",
            "2 vkGetPhysicalDeviceFeatures [8] asked=0 void -> []",
        ],
        ..PLAIN
    },
    // Freed values come back once, whatever null and repeats stand beside them.
    Row {
        machine: Machine {
            words: "run --driver=reuse",
            ..fixtures::PLAIN
        },
        events: &[
            "b 1 vkCreateInstance = %1.1 VK_SUCCESS",
            "b 1 vkEnumeratePhysicalDevices %1.1 = %1.2 VK_SUCCESS",
            "b 1 vkCreateDevice %1.2 = %1.3 VK_SUCCESS",
            "b 1 vkCreateCommandPool %1.3 = %1.4 VK_SUCCESS",
            "b 1 vkAllocateCommandBuffers %1.3 %1.4 = %1.5,%1.6,%1.7 VK_SUCCESS",
            "b 1 vkFreeCommandBuffers %1.3 %1.4 [%1.6,null,%1.5,%1.6,null] void",
            "b 1 vkAllocateCommandBuffers %1.3 %1.4 = %1.8,%1.9,%1.10 VK_SUCCESS",
            "b 1 vkCreateBuffer %1.3 = %1.11 VK_ERROR_OUT_OF_DEVICE_MEMORY",
            "b 1 vkDestroyBuffer %1.3 null void",
            "b 1 vkCreateBuffer %1.3 = %1.12 VK_SUCCESS",
        ],
        told: &[
            "1 vkCreateInstance asked=1 VK_SUCCESS -> [1]",
            "1 vkEnumeratePhysicalDevices [1] asked=1 VK_SUCCESS -> [2]",
            "1 vkCreateDevice [2] asked=1 VK_SUCCESS -> [3]",
            "1 vkCreateCommandPool [3] asked=1 VK_SUCCESS -> [4]",
            "1 vkAllocateCommandBuffers [3] [4] asked=3 VK_SUCCESS -> [5, 6, 7]",
            "1 vkFreeCommandBuffers [3] [4] [6, 0, 5, 6, 0] asked=0 void -> []",
            "1 vkAllocateCommandBuffers [3] [4] asked=3 VK_SUCCESS -> [5, 6, 8]",
            "1 vkCreateBuffer [3] asked=1 VK_ERROR_OUT_OF_DEVICE_MEMORY -> []",
            "1 vkDestroyBuffer [3] [0] asked=0 void -> []",
            "1 vkCreateBuffer [3] asked=1 VK_SUCCESS -> [9]",
        ],
        ..PLAIN
    },
    // Images that are given again keep their ids, and the last values are told.
    Row {
        events: &[
            "b 1 vkCreateInstance = %1.1 VK_SUCCESS",
            "b 1 vkEnumeratePhysicalDevices %1.1 = %1.2 VK_SUCCESS",
            "b 1 vkCreateDevice %1.2 = %1.3 VK_SUCCESS",
            "b 1 vkCreateXcbSurfaceKHR %1.1 = %1.4 VK_SUCCESS",
            "b 1 vkCreateSwapchainKHR %1.3 %1.4 null = %1.5 VK_SUCCESS",
            "b 1 vkGetSwapchainImagesKHR %1.3 %1.5 = %1.6,%1.7 VK_INCOMPLETE",
            "b 1 vkGetSwapchainImagesKHR %1.3 %1.5 = %1.8,%1.9,%1.10 VK_SUCCESS",
            "b 1 vkCreateImageView %1.3 %1.6 = %1.11 VK_SUCCESS",
            "b 1 vkCreateImageView %1.3 %1.9 = %1.12 VK_SUCCESS",
            "b 1 vkCreateImageView %1.3 %1.10 = %1.13 VK_SUCCESS",
            "b 1 vkDestroyImageView %1.3 %1.12 void",
        ],
        told: &[
            "1 vkCreateInstance asked=1 VK_SUCCESS -> [1]",
            "1 vkEnumeratePhysicalDevices [1] asked=1 VK_SUCCESS -> [2]",
            "1 vkCreateDevice [2] asked=1 VK_SUCCESS -> [3]",
            "1 vkCreateXcbSurfaceKHR [1] asked=1 VK_SUCCESS -> [4]",
            "1 vkCreateSwapchainKHR [3] [4] [0] asked=1 VK_SUCCESS -> [5]",
            "1 vkGetSwapchainImagesKHR [3] [5] asked=2 VK_INCOMPLETE -> [6, 7]",
            "1 vkGetSwapchainImagesKHR [3] [5] asked=3 VK_SUCCESS -> [8, 9, 10]",
            "1 vkCreateImageView [3] [8] asked=1 VK_SUCCESS -> [11]",
            "1 vkCreateImageView [3] [9] asked=1 VK_SUCCESS -> [12]",
            "1 vkCreateImageView [3] [10] asked=1 VK_SUCCESS -> [13]",
            "1 vkDestroyImageView [3] [12] asked=0 void -> []",
        ],
        ..CHECKED
    },
];

/// What the words name: a policy, also for a generated trace.
pub(crate) static BY_POLICY: [Row; 6] = [
    // The words name the policy.
    Row {
        machine: Machine {
            words: "run --driver fresh",
            ..fixtures::PLAIN
        },
        events: &[
            "b 1 vkCreateInstance = %1.1 VK_SUCCESS",
            "b 1 vkEnumeratePhysicalDevices %1.1 = %1.2 VK_SUCCESS",
            "b 1 vkCreateDevice %1.2 = %1.3 VK_SUCCESS",
            "b 1 vkCreateBuffer %1.3 = %1.4 VK_SUCCESS",
            "b 1 vkDestroyBuffer %1.3 %1.4 void",
            "b 1 vkCreateBuffer %1.3 = %1.5 VK_SUCCESS",
        ],
        told: &[
            "1 vkCreateInstance asked=1 VK_SUCCESS -> [1]",
            "1 vkEnumeratePhysicalDevices [1] asked=1 VK_SUCCESS -> [2]",
            "1 vkCreateDevice [2] asked=1 VK_SUCCESS -> [3]",
            "1 vkCreateBuffer [3] asked=1 VK_SUCCESS -> [4]",
            "1 vkDestroyBuffer [3] [4] asked=0 void -> []",
            "1 vkCreateBuffer [3] asked=1 VK_SUCCESS -> [5]",
        ],
        ..PLAIN
    },
    // The words name the policy.
    Row {
        machine: Machine {
            words: "run --driver=share",
            ..fixtures::PLAIN
        },
        events: &[
            "b 1 vkCreateInstance = %1.1 VK_SUCCESS",
            "b 1 vkEnumeratePhysicalDevices %1.1 = %1.2 VK_SUCCESS",
            "b 1 vkCreateDevice %1.2 = %1.3 VK_SUCCESS",
            "b 1 vkCreateBuffer %1.3 = %1.4 VK_SUCCESS",
            "b 1 vkDestroyBuffer %1.3 %1.4 void",
            "b 1 vkCreateBuffer %1.3 = %1.5 VK_SUCCESS",
        ],
        told: &[
            "1 vkCreateInstance asked=1 VK_SUCCESS -> [1]",
            "1 vkEnumeratePhysicalDevices [1] asked=1 VK_SUCCESS -> [1]",
            "1 vkCreateDevice [1] asked=1 VK_SUCCESS -> [1]",
            "1 vkCreateBuffer [1] asked=1 VK_SUCCESS -> [1]",
            "1 vkDestroyBuffer [1] [1] asked=0 void -> []",
            "1 vkCreateBuffer [1] asked=1 VK_SUCCESS -> [1]",
        ],
        ..PLAIN
    },
    // A generated trace makes two buffers, asks about the first and destroys both.
    Row {
        machine: Machine {
            words: "soak --number 0 --calls 3",
            ..fixtures::PLAIN
        },
        told: &[
            "1 vkCreateInstance asked=1 VK_SUCCESS -> [1]",
            "1 vkEnumeratePhysicalDevices [1] asked=1 VK_SUCCESS -> [2]",
            "1 vkCreateDevice [2] asked=1 VK_SUCCESS -> [3]",
            "1 vkCreateBuffer [3] asked=1 VK_SUCCESS -> [4]",
            "1 vkCreateBuffer [3] asked=1 VK_SUCCESS -> [5]",
            "1 vkGetBufferMemoryRequirements [3] [4] asked=0 void -> []",
            "1 vkDestroyBuffer [3] [4] asked=0 void -> []",
            "1 vkDestroyBuffer [3] [5] asked=0 void -> []",
            "1 vkDestroyDevice [3] asked=0 void -> []",
            "1 vkDestroyInstance [1] asked=0 void -> []",
        ],
        ..PLAIN
    },
    // A generated trace makes two buffers, asks about the first and destroys both.
    Row {
        machine: Machine {
            words: "soak --driver share --number 0 --calls 3",
            ..fixtures::PLAIN
        },
        told: &[
            "1 vkCreateInstance asked=1 VK_SUCCESS -> [1]",
            "1 vkEnumeratePhysicalDevices [1] asked=1 VK_SUCCESS -> [1]",
            "1 vkCreateDevice [1] asked=1 VK_SUCCESS -> [1]",
            "1 vkCreateBuffer [1] asked=1 VK_SUCCESS -> [1]",
            "1 vkCreateBuffer [1] asked=1 VK_SUCCESS -> [1]",
            "1 vkGetBufferMemoryRequirements [1] [1] asked=0 void -> []",
            "1 vkDestroyBuffer [1] [1] asked=0 void -> []",
            "1 vkDestroyBuffer [1] [1] asked=0 void -> []",
            "1 vkDestroyDevice [1] asked=0 void -> []",
            "1 vkDestroyInstance [1] asked=0 void -> []",
        ],
        ..PLAIN
    },
    // A generated trace makes two buffers, asks about the first and destroys both.
    Row {
        machine: Machine {
            words: "soak --number 0 --calls 3 --driver=share",
            ..fixtures::PLAIN
        },
        told: &[
            "1 vkCreateInstance asked=1 VK_SUCCESS -> [1]",
            "1 vkEnumeratePhysicalDevices [1] asked=1 VK_SUCCESS -> [1]",
            "1 vkCreateDevice [1] asked=1 VK_SUCCESS -> [1]",
            "1 vkCreateBuffer [1] asked=1 VK_SUCCESS -> [1]",
            "1 vkCreateBuffer [1] asked=1 VK_SUCCESS -> [1]",
            "1 vkGetBufferMemoryRequirements [1] [1] asked=0 void -> []",
            "1 vkDestroyBuffer [1] [1] asked=0 void -> []",
            "1 vkDestroyBuffer [1] [1] asked=0 void -> []",
            "1 vkDestroyDevice [1] asked=0 void -> []",
            "1 vkDestroyInstance [1] asked=0 void -> []",
        ],
        ..PLAIN
    },
    // A generated trace makes two buffers, asks about the first and destroys both.
    Row {
        machine: Machine {
            words: "soak --driver reuse --number 0 --calls 3",
            ..fixtures::PLAIN
        },
        told: &[
            "1 vkCreateInstance asked=1 VK_SUCCESS -> [1]",
            "1 vkEnumeratePhysicalDevices [1] asked=1 VK_SUCCESS -> [2]",
            "1 vkCreateDevice [2] asked=1 VK_SUCCESS -> [3]",
            "1 vkCreateBuffer [3] asked=1 VK_SUCCESS -> [4]",
            "1 vkCreateBuffer [3] asked=1 VK_SUCCESS -> [5]",
            "1 vkGetBufferMemoryRequirements [3] [4] asked=0 void -> []",
            "1 vkDestroyBuffer [3] [4] asked=0 void -> []",
            "1 vkDestroyBuffer [3] [5] asked=0 void -> []",
            "1 vkDestroyDevice [3] asked=0 void -> []",
            "1 vkDestroyInstance [1] asked=0 void -> []",
        ],
        ..PLAIN
    },
];

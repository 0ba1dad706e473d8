//! The rows of the command table.
ghost use Rattle.std.specs.Prelude.{◌≡◌};
ghost use Rattle.command_tables.specs.Table.{row_of, seen};

use crate::types::{CommandId, Effect, Implied, ObjectType, OwnerMark, OwnerOf, Param, Row};

// Whether the marks of a parameter say that it takes a list.
macro_rules! is_many {
    () => { false };
    (many $($rest:tt)*) => { true };
    ($mark:tt $($rest:tt)*) => { is_many!($($rest)*) };
}

// Whether they allow null.
macro_rules! is_optional {
    () => { false };
    (or_null $($rest:tt)*) => { true };
    ($mark:tt $($rest:tt)*) => { is_optional!($($rest)*) };
}

// Whether they say that the argument is externally synchronized.
macro_rules! is_written {
    () => { false };
    (written $($rest:tt)*) => { true };
    ($mark:tt $($rest:tt)*) => { is_written!($($rest)*) };
}

// The owner mark among them.
macro_rules! owner_mark {
    () => { OwnerMark::None };
    (same_device $($rest:tt)*) => { OwnerMark::Device };
    (owned_by($at:literal) $($rest:tt)*) => { OwnerMark::Param($at) };
    ($mark:tt $($rest:tt)*) => { owner_mark!($($rest)*) };
}

// The implied use among them.
macro_rules! implied_use {
    () => { Implied::None };
    (with_pool $($rest:tt)*) => { Implied::PoolOf };
    (with_sets $($rest:tt)*) => { Implied::SetsOf };
    (with_queues $($rest:tt)*) => { Implied::QueuesOf };
    ($mark:tt $($rest:tt)*) => { implied_use!($($rest)*) };
}

// Who owns what a command makes.
macro_rules! owner {
    (nobody) => { OwnerOf::Nobody };
    (owner_of $at:literal) => { OwnerOf::OwnerOfParam($at) };
    ($at:literal) => { OwnerOf::Param($at) };
}

// What a command does to objects.
macro_rules! effect {
    (none) => { Effect::None };
    (new $ty:ident of $($owner:tt)*) => { Effect::Create { ty: ObjectType::$ty, owner: owner!($($owner)*), many: false } };
    (new_many $ty:ident of $($owner:tt)*) => { Effect::Create { ty: ObjectType::$ty, owner: owner!($($owner)*), many: true } };
    (get $ty:ident of $($owner:tt)*) => { Effect::Retrieve { ty: ObjectType::$ty, owner: owner!($($owner)*), many: false } };
    (get_many $ty:ident of $($owner:tt)*) => { Effect::Retrieve { ty: ObjectType::$ty, owner: owner!($($owner)*), many: true } };
    (destroy $at:literal) => { Effect::Destroy($at) };
    (free $at:literal) => { Effect::Free($at) };
    (reset $at:literal) => { Effect::Reset($at) };
}

// Whether a command answers a code.
macro_rules! answers {
    (code) => { true };
    (void) => { false };
}

// The rows: name, parameters with their types and marks, effect, and what is answered.
macro_rules! rows {
    ($id:expr; $($cmd:ident $name:literal ($($param:ident: $ty:ident [$($marks:tt)*]),*) ($($effect:tt)*) $answer:ident;)*) => {
        match $id {
            $(CommandId::$cmd => &Row {
                id: CommandId::$cmd,
                name: $name,
                params: &[$(Param {
                    name: stringify!($param),
                    ty: ObjectType::$ty,
                    many: is_many!($($marks)*),
                    optional: is_optional!($($marks)*),
                    owner: owner_mark!($($marks)*),
                    sync: is_written!($($marks)*),
                    implied: implied_use!($($marks)*),
                }),*],
                effect: effect!($($effect)*),
                returns: answers!($answer),
            },)*
        }
    };
}

/// The row of a command. Marks stand behind a parameter's type: `many` takes a list, `or_null` allows null,
/// `written` is externally synchronized, `same_device` and `owned_by(x)` say whose it must be, and `with_pool`,
/// `with_sets` and `with_queues` are implied uses.
#[tactic(auto, unfolding(crate::specs::Table::row_of))]
pub fn row(id: CommandId) -> &'static Row
    ensures { seen result.now ≡ row_of id }
{
    rows! {
        id;
        AcquireNextImageKHR "vkAcquireNextImageKHR" (device: Device [], swapchain: Swapchain [written same_device], semaphore: Semaphore [or_null written same_device], fence: Fence [or_null written same_device]) (none) code;
        AllocateCommandBuffers "vkAllocateCommandBuffers" (device: Device [], commandPool: CommandPool [written same_device]) (new_many CommandBuffer of 1) code;
        AllocateDescriptorSets "vkAllocateDescriptorSets" (device: Device [], descriptorPool: DescriptorPool [written same_device], pSetLayouts: DescriptorSetLayout [many same_device]) (new_many DescriptorSet of 1) code;
        AllocateMemory "vkAllocateMemory" (device: Device []) (new DeviceMemory of 0) code;
        BeginCommandBuffer "vkBeginCommandBuffer" (commandBuffer: CommandBuffer [written with_pool]) (none) code;
        BindBufferMemory "vkBindBufferMemory" (device: Device [], buffer: Buffer [written same_device], memory: DeviceMemory [same_device]) (none) code;
        BindImageMemory "vkBindImageMemory" (device: Device [], image: Image [written owned_by(0)], memory: DeviceMemory [same_device]) (none) code;
        CmdBeginRenderPass "vkCmdBeginRenderPass" (commandBuffer: CommandBuffer [written with_pool], renderPass: RenderPass [same_device], framebuffer: Framebuffer [same_device]) (none) void;
        CmdBindDescriptorSets "vkCmdBindDescriptorSets" (commandBuffer: CommandBuffer [written with_pool], layout: PipelineLayout [same_device], pDescriptorSets: DescriptorSet [many or_null same_device]) (none) void;
        CmdBindIndexBuffer "vkCmdBindIndexBuffer" (commandBuffer: CommandBuffer [written with_pool], buffer: Buffer [same_device]) (none) void;
        CmdBindPipeline "vkCmdBindPipeline" (commandBuffer: CommandBuffer [written with_pool], pipeline: Pipeline [same_device]) (none) void;
        CmdBindVertexBuffers "vkCmdBindVertexBuffers" (commandBuffer: CommandBuffer [written with_pool], pBuffers: Buffer [many or_null same_device]) (none) void;
        CmdDispatch "vkCmdDispatch" (commandBuffer: CommandBuffer [written with_pool]) (none) void;
        CmdDraw "vkCmdDraw" (commandBuffer: CommandBuffer [written with_pool]) (none) void;
        CmdDrawIndexed "vkCmdDrawIndexed" (commandBuffer: CommandBuffer [written with_pool]) (none) void;
        CmdEndRenderPass "vkCmdEndRenderPass" (commandBuffer: CommandBuffer [written with_pool]) (none) void;
        CreateBuffer "vkCreateBuffer" (device: Device []) (new Buffer of 0) code;
        CreateBufferView "vkCreateBufferView" (device: Device [], buffer: Buffer [same_device]) (new BufferView of 0) code;
        CreateCommandPool "vkCreateCommandPool" (device: Device []) (new CommandPool of 0) code;
        CreateComputePipelines "vkCreateComputePipelines" (device: Device [], pipelineCache: PipelineCache [or_null same_device], module: ShaderModule [many same_device], layout: PipelineLayout [many same_device]) (new_many Pipeline of 0) code;
        CreateDescriptorPool "vkCreateDescriptorPool" (device: Device []) (new DescriptorPool of 0) code;
        CreateDescriptorSetLayout "vkCreateDescriptorSetLayout" (device: Device [], pImmutableSamplers: Sampler [many same_device]) (new DescriptorSetLayout of 0) code;
        CreateDevice "vkCreateDevice" (physicalDevice: PhysicalDevice []) (new Device of owner_of 0) code;
        CreateEvent "vkCreateEvent" (device: Device []) (new Event of 0) code;
        CreateFence "vkCreateFence" (device: Device []) (new Fence of 0) code;
        CreateFramebuffer "vkCreateFramebuffer" (device: Device [], renderPass: RenderPass [same_device], pAttachments: ImageView [many same_device]) (new Framebuffer of 0) code;
        CreateGraphicsPipelines "vkCreateGraphicsPipelines" (device: Device [], pipelineCache: PipelineCache [or_null same_device], module: ShaderModule [many same_device], layout: PipelineLayout [many or_null same_device], renderPass: RenderPass [many or_null same_device]) (new_many Pipeline of 0) code;
        CreateImage "vkCreateImage" (device: Device []) (new Image of 0) code;
        CreateImageView "vkCreateImageView" (device: Device [], image: Image [same_device]) (new ImageView of 0) code;
        CreateInstance "vkCreateInstance" () (new Instance of nobody) code;
        CreatePipelineCache "vkCreatePipelineCache" (device: Device []) (new PipelineCache of 0) code;
        CreatePipelineLayout "vkCreatePipelineLayout" (device: Device [], pSetLayouts: DescriptorSetLayout [many or_null same_device]) (new PipelineLayout of 0) code;
        CreateRenderPass "vkCreateRenderPass" (device: Device []) (new RenderPass of 0) code;
        CreateSampler "vkCreateSampler" (device: Device []) (new Sampler of 0) code;
        CreateSemaphore "vkCreateSemaphore" (device: Device []) (new Semaphore of 0) code;
        CreateShaderModule "vkCreateShaderModule" (device: Device []) (new ShaderModule of 0) code;
        CreateSwapchainKHR "vkCreateSwapchainKHR" (device: Device [], surface: Surface [written], oldSwapchain: Swapchain [or_null written]) (new Swapchain of 0) code;
        CreateXcbSurfaceKHR "vkCreateXcbSurfaceKHR" (instance: Instance []) (new Surface of 0) code;
        DestroyBuffer "vkDestroyBuffer" (device: Device [], buffer: Buffer [or_null written same_device]) (destroy 1) void;
        DestroyBufferView "vkDestroyBufferView" (device: Device [], bufferView: BufferView [or_null written same_device]) (destroy 1) void;
        DestroyCommandPool "vkDestroyCommandPool" (device: Device [], commandPool: CommandPool [or_null written same_device]) (destroy 1) void;
        DestroyDescriptorPool "vkDestroyDescriptorPool" (device: Device [], descriptorPool: DescriptorPool [or_null written same_device]) (destroy 1) void;
        DestroyDescriptorSetLayout "vkDestroyDescriptorSetLayout" (device: Device [], descriptorSetLayout: DescriptorSetLayout [or_null written same_device]) (destroy 1) void;
        DestroyDevice "vkDestroyDevice" (device: Device [written]) (destroy 0) void;
        DestroyEvent "vkDestroyEvent" (device: Device [], event: Event [or_null written same_device]) (destroy 1) void;
        DestroyFence "vkDestroyFence" (device: Device [], fence: Fence [or_null written same_device]) (destroy 1) void;
        DestroyFramebuffer "vkDestroyFramebuffer" (device: Device [], framebuffer: Framebuffer [or_null written same_device]) (destroy 1) void;
        DestroyImage "vkDestroyImage" (device: Device [], image: Image [or_null written owned_by(0)]) (destroy 1) void;
        DestroyImageView "vkDestroyImageView" (device: Device [], imageView: ImageView [or_null written same_device]) (destroy 1) void;
        DestroyInstance "vkDestroyInstance" (instance: Instance [written]) (destroy 0) void;
        DestroyPipeline "vkDestroyPipeline" (device: Device [], pipeline: Pipeline [or_null written same_device]) (destroy 1) void;
        DestroyPipelineCache "vkDestroyPipelineCache" (device: Device [], pipelineCache: PipelineCache [or_null written same_device]) (destroy 1) void;
        DestroyPipelineLayout "vkDestroyPipelineLayout" (device: Device [], pipelineLayout: PipelineLayout [or_null written same_device]) (destroy 1) void;
        DestroyRenderPass "vkDestroyRenderPass" (device: Device [], renderPass: RenderPass [or_null written same_device]) (destroy 1) void;
        DestroySampler "vkDestroySampler" (device: Device [], sampler: Sampler [or_null written same_device]) (destroy 1) void;
        DestroySemaphore "vkDestroySemaphore" (device: Device [], semaphore: Semaphore [or_null written same_device]) (destroy 1) void;
        DestroyShaderModule "vkDestroyShaderModule" (device: Device [], shaderModule: ShaderModule [or_null written same_device]) (destroy 1) void;
        DestroySurfaceKHR "vkDestroySurfaceKHR" (instance: Instance [], surface: Surface [or_null written]) (destroy 1) void;
        DestroySwapchainKHR "vkDestroySwapchainKHR" (device: Device [], swapchain: Swapchain [or_null written same_device]) (destroy 1) void;
        DeviceWaitIdle "vkDeviceWaitIdle" (device: Device [with_queues]) (none) code;
        EndCommandBuffer "vkEndCommandBuffer" (commandBuffer: CommandBuffer [written with_pool]) (none) code;
        EnumeratePhysicalDevices "vkEnumeratePhysicalDevices" (instance: Instance []) (get_many PhysicalDevice of 0) code;
        FlushMappedMemoryRanges "vkFlushMappedMemoryRanges" (device: Device [], memory: DeviceMemory [many same_device]) (none) code;
        FreeCommandBuffers "vkFreeCommandBuffers" (device: Device [], commandPool: CommandPool [written same_device], pCommandBuffers: CommandBuffer [many or_null written owned_by(1)]) (free 2) void;
        FreeDescriptorSets "vkFreeDescriptorSets" (device: Device [], descriptorPool: DescriptorPool [written same_device], pDescriptorSets: DescriptorSet [many or_null written owned_by(1)]) (free 2) code;
        FreeMemory "vkFreeMemory" (device: Device [], memory: DeviceMemory [or_null written same_device]) (free 1) void;
        GetBufferMemoryRequirements "vkGetBufferMemoryRequirements" (device: Device [], buffer: Buffer [same_device]) (none) void;
        GetDeviceQueue "vkGetDeviceQueue" (device: Device []) (get Queue of 0) void;
        GetEventStatus "vkGetEventStatus" (device: Device [], event: Event [same_device]) (none) code;
        GetFenceStatus "vkGetFenceStatus" (device: Device [], fence: Fence [same_device]) (none) code;
        GetImageMemoryRequirements "vkGetImageMemoryRequirements" (device: Device [], image: Image [same_device]) (none) void;
        GetPhysicalDeviceFeatures "vkGetPhysicalDeviceFeatures" (physicalDevice: PhysicalDevice []) (none) void;
        GetPhysicalDeviceMemoryProperties "vkGetPhysicalDeviceMemoryProperties" (physicalDevice: PhysicalDevice []) (none) void;
        GetPhysicalDeviceProperties "vkGetPhysicalDeviceProperties" (physicalDevice: PhysicalDevice []) (none) void;
        GetPhysicalDeviceQueueFamilyProperties "vkGetPhysicalDeviceQueueFamilyProperties" (physicalDevice: PhysicalDevice []) (none) void;
        GetPhysicalDeviceSurfaceCapabilitiesKHR "vkGetPhysicalDeviceSurfaceCapabilitiesKHR" (physicalDevice: PhysicalDevice [], surface: Surface []) (none) code;
        GetPhysicalDeviceSurfaceFormatsKHR "vkGetPhysicalDeviceSurfaceFormatsKHR" (physicalDevice: PhysicalDevice [], surface: Surface [or_null]) (none) code;
        GetPhysicalDeviceSurfaceSupportKHR "vkGetPhysicalDeviceSurfaceSupportKHR" (physicalDevice: PhysicalDevice [], surface: Surface []) (none) code;
        GetSwapchainImagesKHR "vkGetSwapchainImagesKHR" (device: Device [], swapchain: Swapchain [same_device]) (get_many Image of 1) code;
        MapMemory "vkMapMemory" (device: Device [], memory: DeviceMemory [written same_device]) (none) code;
        QueuePresentKHR "vkQueuePresentKHR" (queue: Queue [written], pWaitSemaphores: Semaphore [many written same_device], pSwapchains: Swapchain [many written same_device]) (none) code;
        QueueSubmit "vkQueueSubmit" (queue: Queue [written], pWaitSemaphores: Semaphore [many same_device], pCommandBuffers: CommandBuffer [many same_device], pSignalSemaphores: Semaphore [many same_device], fence: Fence [or_null written same_device]) (none) code;
        QueueWaitIdle "vkQueueWaitIdle" (queue: Queue [written]) (none) code;
        ResetCommandBuffer "vkResetCommandBuffer" (commandBuffer: CommandBuffer [written with_pool]) (none) code;
        ResetCommandPool "vkResetCommandPool" (device: Device [], commandPool: CommandPool [written same_device]) (none) code;
        ResetDescriptorPool "vkResetDescriptorPool" (device: Device [], descriptorPool: DescriptorPool [written same_device with_sets]) (reset 1) code;
        ResetEvent "vkResetEvent" (device: Device [], event: Event [written same_device]) (none) code;
        ResetFences "vkResetFences" (device: Device [], pFences: Fence [many written same_device]) (none) code;
        SetEvent "vkSetEvent" (device: Device [], event: Event [written same_device]) (none) code;
        UnmapMemory "vkUnmapMemory" (device: Device [], memory: DeviceMemory [written same_device]) (none) void;
        UpdateDescriptorSets "vkUpdateDescriptorSets" (device: Device [], dstSet: DescriptorSet [many written same_device], sampler: Sampler [many or_null same_device], imageView: ImageView [many or_null same_device], buffer: Buffer [many or_null same_device], pTexelBufferView: BufferView [many or_null same_device]) (none) void;
        WaitForFences "vkWaitForFences" (device: Device [], pFences: Fence [many same_device]) (none) code;
    }
}

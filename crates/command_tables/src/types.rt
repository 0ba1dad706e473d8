//! The enums and rows of the command table.

/// The types of Vulkan objects, each `Vk` and the name; `Surface` and `Swapchain` are `VkSurfaceKHR` and `VkSwapchainKHR`.
/// The first five are dispatchable.
#[derive(Clone, Copy, Debug, PartialEq, Eq, Hash)]
pub enum ObjectType {
    Instance,
    PhysicalDevice,
    Device,
    Queue,
    CommandBuffer,
    Semaphore,
    Fence,
    DeviceMemory,
    Buffer,
    Image,
    Event,
    BufferView,
    ImageView,
    ShaderModule,
    PipelineCache,
    PipelineLayout,
    RenderPass,
    Pipeline,
    DescriptorSetLayout,
    Sampler,
    DescriptorPool,
    DescriptorSet,
    Framebuffer,
    CommandPool,
    Surface,
    Swapchain,
}

/// The codes that a command answers (Vulkan 1.3, "Return Codes").
#[derive(Clone, Copy, Debug, PartialEq, Eq)]
pub enum Code {
    Success,
    NotReady,
    Timeout,
    EventSet,
    EventReset,
    Incomplete,
    SuboptimalKhr,
    ErrorOutOfHostMemory,
    ErrorOutOfDeviceMemory,
    ErrorInitializationFailed,
    ErrorDeviceLost,
    ErrorMemoryMapFailed,
    ErrorLayerNotPresent,
    ErrorExtensionNotPresent,
    ErrorFeatureNotPresent,
    ErrorIncompatibleDriver,
    ErrorTooManyObjects,
    ErrorFormatNotSupported,
    ErrorFragmentedPool,
    ErrorOutOfPoolMemory,
    ErrorSurfaceLostKhr,
    ErrorOutOfDateKhr,
    ErrorNativeWindowInUseKhr,
    ErrorUnknown,
    ErrorValidationFailedExt,
}

/// The commands, each `vk` and the name, with the numbers 1 to 92 in byte order of the names.
#[derive(Clone, Copy, Debug, PartialEq, Eq)]
pub enum CommandId {
    AcquireNextImageKHR = 1,
    AllocateCommandBuffers,
    AllocateDescriptorSets,
    AllocateMemory,
    BeginCommandBuffer,
    BindBufferMemory,
    BindImageMemory,
    CmdBeginRenderPass,
    CmdBindDescriptorSets,
    CmdBindIndexBuffer,
    CmdBindPipeline,
    CmdBindVertexBuffers,
    CmdDispatch,
    CmdDraw,
    CmdDrawIndexed,
    CmdEndRenderPass,
    CreateBuffer,
    CreateBufferView,
    CreateCommandPool,
    CreateComputePipelines,
    CreateDescriptorPool,
    CreateDescriptorSetLayout,
    CreateDevice,
    CreateEvent,
    CreateFence,
    CreateFramebuffer,
    CreateGraphicsPipelines,
    CreateImage,
    CreateImageView,
    CreateInstance,
    CreatePipelineCache,
    CreatePipelineLayout,
    CreateRenderPass,
    CreateSampler,
    CreateSemaphore,
    CreateShaderModule,
    CreateSwapchainKHR,
    CreateXcbSurfaceKHR,
    DestroyBuffer,
    DestroyBufferView,
    DestroyCommandPool,
    DestroyDescriptorPool,
    DestroyDescriptorSetLayout,
    DestroyDevice,
    DestroyEvent,
    DestroyFence,
    DestroyFramebuffer,
    DestroyImage,
    DestroyImageView,
    DestroyInstance,
    DestroyPipeline,
    DestroyPipelineCache,
    DestroyPipelineLayout,
    DestroyRenderPass,
    DestroySampler,
    DestroySemaphore,
    DestroyShaderModule,
    DestroySurfaceKHR,
    DestroySwapchainKHR,
    DeviceWaitIdle,
    EndCommandBuffer,
    EnumeratePhysicalDevices,
    FlushMappedMemoryRanges,
    FreeCommandBuffers,
    FreeDescriptorSets,
    FreeMemory,
    GetBufferMemoryRequirements,
    GetDeviceQueue,
    GetEventStatus,
    GetFenceStatus,
    GetImageMemoryRequirements,
    GetPhysicalDeviceFeatures,
    GetPhysicalDeviceMemoryProperties,
    GetPhysicalDeviceProperties,
    GetPhysicalDeviceQueueFamilyProperties,
    GetPhysicalDeviceSurfaceCapabilitiesKHR,
    GetPhysicalDeviceSurfaceFormatsKHR,
    GetPhysicalDeviceSurfaceSupportKHR,
    GetSwapchainImagesKHR,
    MapMemory,
    QueuePresentKHR,
    QueueSubmit,
    QueueWaitIdle,
    ResetCommandBuffer,
    ResetCommandPool,
    ResetDescriptorPool,
    ResetEvent,
    ResetFences,
    SetEvent,
    UnmapMemory,
    UpdateDescriptorSets,
    WaitForFences,
}

/// The rules on an argument that a call can break.
#[derive(Clone, Copy, Debug, PartialEq, Eq)]
pub enum Rule {
    /// It stands for a living object, or is a null that the command allows.
    Parameter,
    /// It has the owner that the command's row asks for.
    Parent,
    /// A destroyed device or instance owns no living created objects.
    Children,
    /// No open call of another thread uses its object in a way that conflicts.
    Overlap,
}

/// Which owner an argument must have.
#[derive(Clone, Copy, Debug, PartialEq, Eq)]
pub enum OwnerMark {
    None,
    /// Its device is the first argument's device.
    Device,
    /// Its owner is the object of the parameter with this number, from 0.
    Param(u8),
}

/// The objects that a use of an argument writes besides.
#[derive(Clone, Copy, Debug, PartialEq, Eq)]
pub enum Implied {
    None,
    /// The pool of the command buffer.
    PoolOf,
    /// The descriptor sets of the pool.
    SetsOf,
    /// The queues of the device.
    QueuesOf,
}

/// Who owns what a command makes.
#[derive(Clone, Copy, Debug, PartialEq, Eq)]
pub enum OwnerOf {
    /// Nobody: it is an instance.
    Nobody,
    /// The object of the parameter with this number, from 0.
    Param(u8),
    /// The owner of that object.
    OwnerOfParam(u8),
}

/// What a command does to objects.
#[derive(Clone, Copy, Debug, PartialEq, Eq)]
pub enum Effect {
    None,
    /// It makes one object of a type, or any number.
    Create {
        ty: ObjectType,
        owner: OwnerOf,
        many: bool,
    },
    /// It gives one object of a type that its owner has, or any number.
    Retrieve {
        ty: ObjectType,
        owner: OwnerOf,
        many: bool,
    },
    /// It ends the object of the parameter with this number, from 0.
    Destroy(u8),
    /// It ends each object of that parameter's list.
    Free(u8),
    /// It ends the descriptor sets of that parameter's pool.
    Reset(u8),
}

/// A handle parameter of a command.
#[derive(Clone, Copy, Debug)]
pub struct Param {
    pub name: &'static str,
    pub ty: ObjectType,
    /// Whether it takes a list of handles.
    pub many: bool,
    /// Whether null is allowed, in each place of a list too.
    pub optional: bool,
    pub owner: OwnerMark,
    /// Whether the argument is externally synchronized, so that its use is a write.
    pub sync: bool,
    pub implied: Implied,
}

/// The row of a command.
#[derive(Clone, Copy, Debug)]
pub struct Row {
    pub id: CommandId,
    pub name: &'static str,
    pub params: &'static [Param],
    pub effect: Effect,
    /// Whether the command answers a code; else it answers nothing.
    pub returns: bool,
}

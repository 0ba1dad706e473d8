// The calls of a generated trace.

/// A call of a generated trace. Buffers are told by the numbers of their names.
#[derive(Clone, Copy)]
pub enum Call {
    CreateInstance,
    EnumeratePhysicalDevices,
    CreateDevice,
    CreateBuffer { buffer: u32 },
    GetBufferMemoryRequirements { buffer: u32 },
    DestroyBuffer { buffer: u32 },
    DestroyDevice,
    DestroyInstance,
}

//! The type of an object, or none.
ghost use Rattle.std.specs.Prelude.{◌≡◌};
ghost use Rattle.session_tables.specs.TypeSlots.{slot_for_type};

use command_tables::ObjectType;
use std::marker::Model;

// `Option<ObjectType>` takes two bytes, since its enum gives no value that stands for none.
#[derive(Clone, Copy, Drop)]
enum TypeSlot {
    Nothing,
    Instance,
    PhysicalDevice,
    Device,
    Queue,
    CommandBuffer,
    Semaphore,
    Fence,
    DeviceMemory,
    Buffer,
    Image,
    Event,
    BufferView,
    ImageView,
    ShaderModule,
    PipelineCache,
    PipelineLayout,
    RenderPass,
    Pipeline,
    DescriptorSetLayout,
    Sampler,
    DescriptorPool,
    DescriptorSet,
    Framebuffer,
    CommandPool,
    Surface,
    Swapchain,
}

/// The type of an object, or none, in one byte.
#[derive(Clone, Copy, Drop)]
pub struct FiledType {
    slot: TypeSlot,
}

impl Model for FiledType {
    ghost use Rattle.std.specs.Prelude.{Option};
    ghost use Rattle.command_tables.specs.declared.types.ObjectType.{ObjectType};

    ghost Value = { Option ObjectType };

    ghost use Rattle.session_tables.specs.TypeSlots.{slot_for, type_in_slot};

    ghost view = { λ t. type_in_slot t.slot };

    ghost inverse = { λ ty. record { slot = slot_for ty } };

    ghost use Rattle.session_tables.specs.SlotsBack.{slot_back};

    ghost inverse_ok = { λ t _. slot_back t };
}

const _: () = prove!(size_of::<FiledType>() == 1);

fn slot_for_type(ty: ObjectType) -> TypeSlot
    ensures { result ≡ slot_for_type ty }
{
    match ty {
        ObjectType::Instance => TypeSlot::Instance,
        ObjectType::PhysicalDevice => TypeSlot::PhysicalDevice,
        ObjectType::Device => TypeSlot::Device,
        ObjectType::Queue => TypeSlot::Queue,
        ObjectType::CommandBuffer => TypeSlot::CommandBuffer,
        ObjectType::Semaphore => TypeSlot::Semaphore,
        ObjectType::Fence => TypeSlot::Fence,
        ObjectType::DeviceMemory => TypeSlot::DeviceMemory,
        ObjectType::Buffer => TypeSlot::Buffer,
        ObjectType::Image => TypeSlot::Image,
        ObjectType::Event => TypeSlot::Event,
        ObjectType::BufferView => TypeSlot::BufferView,
        ObjectType::ImageView => TypeSlot::ImageView,
        ObjectType::ShaderModule => TypeSlot::ShaderModule,
        ObjectType::PipelineCache => TypeSlot::PipelineCache,
        ObjectType::PipelineLayout => TypeSlot::PipelineLayout,
        ObjectType::RenderPass => TypeSlot::RenderPass,
        ObjectType::Pipeline => TypeSlot::Pipeline,
        ObjectType::DescriptorSetLayout => TypeSlot::DescriptorSetLayout,
        ObjectType::Sampler => TypeSlot::Sampler,
        ObjectType::DescriptorPool => TypeSlot::DescriptorPool,
        ObjectType::DescriptorSet => TypeSlot::DescriptorSet,
        ObjectType::Framebuffer => TypeSlot::Framebuffer,
        ObjectType::CommandPool => TypeSlot::CommandPool,
        ObjectType::Surface => TypeSlot::Surface,
        ObjectType::Swapchain => TypeSlot::Swapchain,
    }
}

impl FiledType {
    pub fn new(ty: Option<ObjectType>) -> FiledType
        ensures { result ≡ ty }
    {
        let slot = match ty {
            None => TypeSlot::Nothing,
            Some(ty) => slot_for_type(ty),
        };
        FiledType { slot }
    }

    pub fn get(self) -> Option<ObjectType>
        ensures { result ≡ self }
    {
        let ty = match self.slot {
            TypeSlot::Nothing => return None,
            TypeSlot::Instance => ObjectType::Instance,
            TypeSlot::PhysicalDevice => ObjectType::PhysicalDevice,
            TypeSlot::Device => ObjectType::Device,
            TypeSlot::Queue => ObjectType::Queue,
            TypeSlot::CommandBuffer => ObjectType::CommandBuffer,
            TypeSlot::Semaphore => ObjectType::Semaphore,
            TypeSlot::Fence => ObjectType::Fence,
            TypeSlot::DeviceMemory => ObjectType::DeviceMemory,
            TypeSlot::Buffer => ObjectType::Buffer,
            TypeSlot::Image => ObjectType::Image,
            TypeSlot::Event => ObjectType::Event,
            TypeSlot::BufferView => ObjectType::BufferView,
            TypeSlot::ImageView => ObjectType::ImageView,
            TypeSlot::ShaderModule => ObjectType::ShaderModule,
            TypeSlot::PipelineCache => ObjectType::PipelineCache,
            TypeSlot::PipelineLayout => ObjectType::PipelineLayout,
            TypeSlot::RenderPass => ObjectType::RenderPass,
            TypeSlot::Pipeline => ObjectType::Pipeline,
            TypeSlot::DescriptorSetLayout => ObjectType::DescriptorSetLayout,
            TypeSlot::Sampler => ObjectType::Sampler,
            TypeSlot::DescriptorPool => ObjectType::DescriptorPool,
            TypeSlot::DescriptorSet => ObjectType::DescriptorSet,
            TypeSlot::Framebuffer => ObjectType::Framebuffer,
            TypeSlot::CommandPool => ObjectType::CommandPool,
            TypeSlot::Surface => ObjectType::Surface,
            TypeSlot::Swapchain => ObjectType::Swapchain,
        };
        Some(ty)
    }
}

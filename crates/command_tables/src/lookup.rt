//! Commands by name and by number.
ghost use Rattle.std.specs.Prelude.{◌≡◌, ◌≢◌, ◌≤◌, ◌-◌, IfSome, IfNone, IsTrue, length, map, slice_get};
ghost use Rattle.std.specs.Cmp.Lexicographic.{slice_cmp};
ghost use Rattle.std.specs.List.{list_all};
ghost use Rattle.std.specs.List.Sorted.{IsBinarySearchResult, IsSearchInRange};
ghost use Rattle.std.specs.Ordering.{nat_cmp};
ghost use Rattle.command_tables.specs.Table.{row_of};
ghost use Rattle.command_tables.specs.Facts.{effect_fits, first_fits, implied_fits, marks_fit, rise};
ghost use Rattle.command_tables.specs.Numbers.{number_of};

use crate::table::row;
use crate::types::CommandId;
use std::cmp::Ordering;

/// The commands in the order of their numbers, which is the byte order of their names.
pub static COMMANDS: [CommandId; 92] = [
    CommandId::AcquireNextImageKHR,
    CommandId::AllocateCommandBuffers,
    CommandId::AllocateDescriptorSets,
    CommandId::AllocateMemory,
    CommandId::BeginCommandBuffer,
    CommandId::BindBufferMemory,
    CommandId::BindImageMemory,
    CommandId::CmdBeginRenderPass,
    CommandId::CmdBindDescriptorSets,
    CommandId::CmdBindIndexBuffer,
    CommandId::CmdBindPipeline,
    CommandId::CmdBindVertexBuffers,
    CommandId::CmdDispatch,
    CommandId::CmdDraw,
    CommandId::CmdDrawIndexed,
    CommandId::CmdEndRenderPass,
    CommandId::CreateBuffer,
    CommandId::CreateBufferView,
    CommandId::CreateCommandPool,
    CommandId::CreateComputePipelines,
    CommandId::CreateDescriptorPool,
    CommandId::CreateDescriptorSetLayout,
    CommandId::CreateDevice,
    CommandId::CreateEvent,
    CommandId::CreateFence,
    CommandId::CreateFramebuffer,
    CommandId::CreateGraphicsPipelines,
    CommandId::CreateImage,
    CommandId::CreateImageView,
    CommandId::CreateInstance,
    CommandId::CreatePipelineCache,
    CommandId::CreatePipelineLayout,
    CommandId::CreateRenderPass,
    CommandId::CreateSampler,
    CommandId::CreateSemaphore,
    CommandId::CreateShaderModule,
    CommandId::CreateSwapchainKHR,
    CommandId::CreateXcbSurfaceKHR,
    CommandId::DestroyBuffer,
    CommandId::DestroyBufferView,
    CommandId::DestroyCommandPool,
    CommandId::DestroyDescriptorPool,
    CommandId::DestroyDescriptorSetLayout,
    CommandId::DestroyDevice,
    CommandId::DestroyEvent,
    CommandId::DestroyFence,
    CommandId::DestroyFramebuffer,
    CommandId::DestroyImage,
    CommandId::DestroyImageView,
    CommandId::DestroyInstance,
    CommandId::DestroyPipeline,
    CommandId::DestroyPipelineCache,
    CommandId::DestroyPipelineLayout,
    CommandId::DestroyRenderPass,
    CommandId::DestroySampler,
    CommandId::DestroySemaphore,
    CommandId::DestroyShaderModule,
    CommandId::DestroySurfaceKHR,
    CommandId::DestroySwapchainKHR,
    CommandId::DeviceWaitIdle,
    CommandId::EndCommandBuffer,
    CommandId::EnumeratePhysicalDevices,
    CommandId::FlushMappedMemoryRanges,
    CommandId::FreeCommandBuffers,
    CommandId::FreeDescriptorSets,
    CommandId::FreeMemory,
    CommandId::GetBufferMemoryRequirements,
    CommandId::GetDeviceQueue,
    CommandId::GetEventStatus,
    CommandId::GetFenceStatus,
    CommandId::GetImageMemoryRequirements,
    CommandId::GetPhysicalDeviceFeatures,
    CommandId::GetPhysicalDeviceMemoryProperties,
    CommandId::GetPhysicalDeviceProperties,
    CommandId::GetPhysicalDeviceQueueFamilyProperties,
    CommandId::GetPhysicalDeviceSurfaceCapabilitiesKHR,
    CommandId::GetPhysicalDeviceSurfaceFormatsKHR,
    CommandId::GetPhysicalDeviceSurfaceSupportKHR,
    CommandId::GetSwapchainImagesKHR,
    CommandId::MapMemory,
    CommandId::QueuePresentKHR,
    CommandId::QueueSubmit,
    CommandId::QueueWaitIdle,
    CommandId::ResetCommandBuffer,
    CommandId::ResetCommandPool,
    CommandId::ResetDescriptorPool,
    CommandId::ResetEvent,
    CommandId::ResetFences,
    CommandId::SetEvent,
    CommandId::UnmapMemory,
    CommandId::UpdateDescriptorSets,
    CommandId::WaitForFences,
];

// How the name of a command compares with a name.
fn compare(id: CommandId, name: &[u8]) -> Ordering
    ensures { result ≡ slice_cmp nat_cmp (row_of id).name name.now }
{
    row(id).name.as_bytes().cmp(name)
}

// Where a name stands among these commands, whose names rise.
fn search_by_name(commands: &[CommandId], name: &[u8]) -> Result<usize, usize>
    ensures bound { IsSearchInRange result (length commands.now) }
    ensures place { IsBinarySearchResult (λ c. slice_cmp nat_cmp (row_of c).name name.now) commands.now result }
{
    commands.binary_search_by(|id| compare(*id, name))
}

/// The command with a name.
pub fn find(name: &[u8]) -> Option<CommandId>
    ensures found { IfSome result (λ c. (row_of c).name ≡ name.now) }
    ensures none { IfNone result ((c : CommandId) → (row_of c).name ≢ name.now) }
{
    match search_by_name(&COMMANDS, name) {
        Ok(place) => command_at(&COMMANDS, place),
        Err(_) => None,
    }
}

// The command at a place.
fn command_at(commands: &[CommandId], place: usize) -> Option<CommandId>
    ensures { result ≡ slice_get commands.now place }
{
    commands.get(place).copied()
}

impl CommandId {
    /// The command's number, 1 to 92.
    pub fn number(self) -> u8
        ensures { result ≡ number_of self }
    {
        self as u8
    }

    /// The command with a number.
    pub fn from_number(n: u8) -> Option<CommandId>
        ensures found { IfSome result (λ c. number_of c ≡ n) }
        ensures none { IfNone result ((c : CommandId) → number_of c ≢ n) }
    {
        if n == 0 {
            return None;
        }
        command_at(&COMMANDS, n as usize - 1)
    }
}

/// What holds of the table: there are at most six parameters; every command but `vkCreateInstance` has a first one, which is
/// dispatchable, single and not null; an effect and the owner of what it makes name parameters of the row, and a mark of an
/// owner an earlier or equal one; implied uses stand at a command buffer, a descriptor pool or a device; and the names of the
/// commands, in the order of their numbers, rise strictly in byte order.
#[tactic(auto, unfolding(crate::specs::Table::row_of))]
pub fn facts_of_the_table()
    ensures few { (c : CommandId) → length (row_of c).params ≤ 6 }
    ensures first { (c : CommandId) → IsTrue (first_fits c (row_of c).params) }
    ensures effects { (c : CommandId) → IsTrue (effect_fits (length (row_of c).params) (row_of c).effect) }
    ensures owners { (c : CommandId) → IsTrue (marks_fit 0 (row_of c).params) }
    ensures implied { (c : CommandId) → IsTrue (list_all (λ p. implied_fits p.implied p.ty) (row_of c).params) }
    ensures numbered { (c : CommandId) → slice_get COMMANDS (number_of c - 1) ≡ Some c }
    ensures rising { IsTrue (rise (map (λ c. (row_of c).name) COMMANDS)) }
{}

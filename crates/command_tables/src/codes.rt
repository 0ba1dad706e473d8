//! The codes by name.
ghost use Rattle.std.specs.Prelude.{◌≡◌, ◌≢◌, IfNone, IfSome, Some, slice_get};
ghost use Rattle.std.specs.List.{find as spec_find};
ghost use Rattle.std.specs.Str.{bytes_eq};
ghost use Rattle.command_tables.specs.CodeNames.{code_name, code_place};

use crate::types::Code;

/// The codes, successes before errors.
pub static CODES: [Code; 25] = [
    Code::Success,
    Code::NotReady,
    Code::Timeout,
    Code::EventSet,
    Code::EventReset,
    Code::Incomplete,
    Code::SuboptimalKhr,
    Code::ErrorOutOfHostMemory,
    Code::ErrorOutOfDeviceMemory,
    Code::ErrorInitializationFailed,
    Code::ErrorDeviceLost,
    Code::ErrorMemoryMapFailed,
    Code::ErrorLayerNotPresent,
    Code::ErrorExtensionNotPresent,
    Code::ErrorFeatureNotPresent,
    Code::ErrorIncompatibleDriver,
    Code::ErrorTooManyObjects,
    Code::ErrorFormatNotSupported,
    Code::ErrorFragmentedPool,
    Code::ErrorOutOfPoolMemory,
    Code::ErrorSurfaceLostKhr,
    Code::ErrorOutOfDateKhr,
    Code::ErrorNativeWindowInUseKhr,
    Code::ErrorUnknown,
    Code::ErrorValidationFailedExt,
];

// The first of these codes with a name.
fn find_code(codes: &[Code], name: &[u8]) -> Option<Code>
    ensures { result ≡ spec_find (λ c. bytes_eq (code_name c) name.now) codes.now }
{
    codes
        .iter()
        .copied()
        .find(|code| code.name().as_bytes() == name)
}

impl Code {
    /// The code as the Vulkan specification spells it.
    pub fn name(self) -> &'static str
        ensures { result.now ≡ code_name self }
    {
        match self {
            Code::Success => "VK_SUCCESS",
            Code::NotReady => "VK_NOT_READY",
            Code::Timeout => "VK_TIMEOUT",
            Code::EventSet => "VK_EVENT_SET",
            Code::EventReset => "VK_EVENT_RESET",
            Code::Incomplete => "VK_INCOMPLETE",
            Code::SuboptimalKhr => "VK_SUBOPTIMAL_KHR",
            Code::ErrorOutOfHostMemory => "VK_ERROR_OUT_OF_HOST_MEMORY",
            Code::ErrorOutOfDeviceMemory => "VK_ERROR_OUT_OF_DEVICE_MEMORY",
            Code::ErrorInitializationFailed => "VK_ERROR_INITIALIZATION_FAILED",
            Code::ErrorDeviceLost => "VK_ERROR_DEVICE_LOST",
            Code::ErrorMemoryMapFailed => "VK_ERROR_MEMORY_MAP_FAILED",
            Code::ErrorLayerNotPresent => "VK_ERROR_LAYER_NOT_PRESENT",
            Code::ErrorExtensionNotPresent => "VK_ERROR_EXTENSION_NOT_PRESENT",
            Code::ErrorFeatureNotPresent => "VK_ERROR_FEATURE_NOT_PRESENT",
            Code::ErrorIncompatibleDriver => "VK_ERROR_INCOMPATIBLE_DRIVER",
            Code::ErrorTooManyObjects => "VK_ERROR_TOO_MANY_OBJECTS",
            Code::ErrorFormatNotSupported => "VK_ERROR_FORMAT_NOT_SUPPORTED",
            Code::ErrorFragmentedPool => "VK_ERROR_FRAGMENTED_POOL",
            Code::ErrorOutOfPoolMemory => "VK_ERROR_OUT_OF_POOL_MEMORY",
            Code::ErrorSurfaceLostKhr => "VK_ERROR_SURFACE_LOST_KHR",
            Code::ErrorOutOfDateKhr => "VK_ERROR_OUT_OF_DATE_KHR",
            Code::ErrorNativeWindowInUseKhr => "VK_ERROR_NATIVE_WINDOW_IN_USE_KHR",
            Code::ErrorUnknown => "VK_ERROR_UNKNOWN",
            Code::ErrorValidationFailedExt => "VK_ERROR_VALIDATION_FAILED_EXT",
        }
    }

    /// The code with a name.
    pub fn find(name: &[u8]) -> Option<Code>
        ensures found { IfSome result (λ c. code_name c ≡ name.now) }
        ensures none { IfNone result ((c : Code) → code_name c ≢ name.now) }
    {
        find_code(&CODES, name)
    }
}

/// What holds of the list of codes: each stands at its place.
pub fn codes_in_order()
    ensures { (c : Code) → slice_get CODES (code_place c) ≡ Some c }
{}

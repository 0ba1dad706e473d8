// The lines of calls.
ghost use Rattle.std.specs.Prelude.{◌≡◌, ◌≤◌, ◌+◌, ◌++◌, length, decimal, vec_capacity};
ghost use Rattle.trace_gen.specs.Text.{begin_of, event_line};
ghost use Rattle.trace_gen.specs.declared.text.TheConstants.{LINE_ROOM as ROOM};

use crate::call::Call;
use itoa::Buffer;

/// Room for the line of any begin.
pub(crate) const LINE_ROOM: usize = 128;

/// The first line of a trace.
pub(crate) const HEADER_LINE: [u8; 10] = *b"vktrace 1\n";

/// The line of a return.
pub(crate) const RETURN_LINE: [u8; 4] = *b"r 1\n";

/// Puts bytes where there is room.
pub(crate) fn put(bytes: &[u8], out: &mut Vec<u8>)
    requires { length out.old.items + length bytes.now ≤ vec_capacity out.old }
    ensures text { out.new.items ≡ out.old.items ++ bytes.now }
    ensures length { length out.new.items ≡ length out.old.items + length bytes.now }
    ensures room { vec_capacity out.old ≤ vec_capacity out.new }
{
    out.extend_from_slice(bytes).unwrap();
}

// Puts a number between what stands before and behind it.
#[tactic(auto, using(std::proofs::lemmas::List::append_assoc))]
fn put_numbered(front: &[u8], number: u32, back: &[u8], out: &mut Vec<u8>)
    requires { length out.old.items + length front.now + length back.now + 40 ≤ vec_capacity out.old }
    ensures text { out.new.items ≡ out.old.items ++ (front.now ++ (decimal number ++ back.now)) }
    ensures short { length out.new.items ≤ length out.old.items + length front.now + length back.now + 40 }
    ensures room { vec_capacity out.old ≤ vec_capacity out.new }
{
    put(front, out);
    put(Buffer::new().format(number).as_bytes(), out);
    put(back, out);
}

/// Puts the line of a call's begin.
pub(crate) fn put_begin(call: Call, out: &mut Vec<u8>)
    requires { length out.old.items + ROOM ≤ vec_capacity out.old }
    ensures text { out.new.items ≡ out.old.items ++ event_line (begin_of call) }
    ensures short { length out.new.items ≤ length out.old.items + ROOM }
    ensures room { vec_capacity out.old ≤ vec_capacity out.new }
{
    match call {
        Call::CreateInstance => put(b"b 1 vkCreateInstance = %1.1 VK_SUCCESS\n", out),
        Call::EnumeratePhysicalDevices => put(
            b"b 1 vkEnumeratePhysicalDevices %1.1 = %1.2 VK_SUCCESS\n",
            out,
        ),
        Call::CreateDevice => put(b"b 1 vkCreateDevice %1.2 = %1.3 VK_SUCCESS\n", out),
        Call::CreateBuffer { buffer } => put_numbered(
            b"b 1 vkCreateBuffer %1.3 = %1.",
            buffer,
            b" VK_SUCCESS\n",
            out,
        ),
        Call::GetBufferMemoryRequirements { buffer } => put_numbered(
            b"b 1 vkGetBufferMemoryRequirements %1.3 %1.",
            buffer,
            b" void\n",
            out,
        ),
        Call::DestroyBuffer { buffer } => {
            put_numbered(b"b 1 vkDestroyBuffer %1.3 %1.", buffer, b" void\n", out)
        }
        Call::DestroyDevice => put(b"b 1 vkDestroyDevice %1.3 void\n", out),
        Call::DestroyInstance => put(b"b 1 vkDestroyInstance %1.1 void\n", out),
    }
}

//! What the drivers of a stream file are told through each seat, and what they answer there.
use crate::ends::source_of;
use crate::fixtures::{DRIVER, HOME, Machine, SECOND_DRIVER, VALIDATION, lines_of, sink_of};
use crate::threads::{CHECKED, TWO_STREAMS, behind_device, recording, run_on};
use std::process::Abort;
use std::test::Fail;
use stream_workers::NoGate;

// The machine, what stands behind the device, and the calls through each seat: the first one's are those of setup and teardown.
type Row = (Machine, &'static str, &'static [&'static str]);

static ROWS: [Row; 5] = [
    (
        CHECKED,
        TWO_STREAMS,
        &[
            "1 vkCreateInstance asked=1 VK_SUCCESS -> [1]",
            "1 vkEnumeratePhysicalDevices [1] asked=1 VK_SUCCESS -> [2]",
            "1 vkCreateDevice [2] asked=1 VK_SUCCESS -> [3]",
            "1 vkDestroyBuffer [3] [1] asked=0 void -> []",
            "1 vkDestroyFence [3] [1] asked=0 void -> []",
            "seat",
            "1 vkCreateBuffer [3] asked=1 VK_SUCCESS -> [1]",
            "seat",
            "1 vkCreateFence [3] asked=1 VK_SUCCESS -> [1]",
            "seat",
        ],
    ),
    (
        Machine {
            words: "--driver share",
            ..CHECKED
        },
        TWO_STREAMS,
        &[
            "1 vkCreateInstance asked=1 VK_SUCCESS -> [1]",
            "1 vkEnumeratePhysicalDevices [1] asked=1 VK_SUCCESS -> [1]",
            "1 vkCreateDevice [1] asked=1 VK_SUCCESS -> [1]",
            "1 vkDestroyBuffer [1] [1] asked=0 void -> []",
            "1 vkDestroyFence [1] [1] asked=0 void -> []",
            "seat",
            "1 vkCreateBuffer [1] asked=1 VK_SUCCESS -> [1]",
            "seat",
            "1 vkCreateFence [1] asked=1 VK_SUCCESS -> [1]",
            "seat",
        ],
    ),
    // A value that came back is given again, and a second destruction is skipped.
    (
        Machine {
            words: "--driver=reuse",
            ..CHECKED
        },
        "stream 7\nb 7 vkCreateBuffer %1.3 = %7.1 VK_SUCCESS\nr 7\nb 7 vkCreateFence %1.3 = %7.2 VK_SUCCESS\nr 7\nb 7 vkDestroyBuffer %1.3 %7.1 void\nr 7\nb 7 vkDestroyBuffer %1.3 %7.1 void\nr 7\nb 7 vkCreateImage %1.3 = %7.3 VK_SUCCESS\nr 7\nb 7 vkCreateEvent %1.3 = %7.4 VK_SUCCESS\nr 7\nteardown\n",
        &[
            "1 vkCreateInstance asked=1 VK_SUCCESS -> [1]",
            "1 vkEnumeratePhysicalDevices [1] asked=1 VK_SUCCESS -> [2]",
            "1 vkCreateDevice [2] asked=1 VK_SUCCESS -> [3]",
            "seat",
            "1 vkCreateBuffer [3] asked=1 VK_SUCCESS -> [1]",
            "1 vkCreateFence [3] asked=1 VK_SUCCESS -> [2]",
            "1 vkDestroyBuffer [3] [1] asked=0 void -> []",
            "1 vkCreateImage [3] asked=1 VK_SUCCESS -> [1]",
            "1 vkCreateEvent [3] asked=1 VK_SUCCESS -> [3]",
            "seat",
        ],
    ),
    // A seat counts over all drivers, and the device of a stream may be the second one's.
    (
        Machine {
            files: &[DRIVER, SECOND_DRIVER, VALIDATION],
            ..CHECKED
        },
        "b 1 vkEnumeratePhysicalDevices %1.1 = %1.4,%1.5 VK_SUCCESS\nr 1\nb 1 vkCreateDevice %1.5 = %1.6 VK_SUCCESS\nr 1\nstream 2\nb 2 vkCreateBuffer %1.6 = %2.1 VK_SUCCESS\nr 2\nteardown\n",
        &[
            "1 vkCreateInstance asked=1 VK_SUCCESS -> [1]",
            "2 vkCreateInstance asked=1 VK_SUCCESS -> [2]",
            "1 vkEnumeratePhysicalDevices [1] asked=1 VK_SUCCESS -> [3]",
            "2 vkEnumeratePhysicalDevices [2] asked=1 VK_SUCCESS -> [4]",
            "1 vkCreateDevice [3] asked=1 VK_SUCCESS -> [5]",
            "1 vkEnumeratePhysicalDevices [1] asked=1 VK_SUCCESS -> [6]",
            "2 vkEnumeratePhysicalDevices [2] asked=1 VK_SUCCESS -> [7]",
            "2 vkCreateDevice [7] asked=1 VK_SUCCESS -> [8]",
            "seat",
            "2 vkCreateBuffer [8] asked=1 VK_SUCCESS -> [1]",
            "seat",
        ],
    ),
    // Without a driver nothing is told.
    (
        Machine {
            files: &[],
            env: &[HOME],
            ..CHECKED
        },
        "stream 2\nb 2 vkCreateBuffer %1.3 = %2.1 VK_SUCCESS\nr 2\nteardown\n",
        &["seat", "seat"],
    ),
];

#[test]
fn each_seat_is_told_its_streams_calls(rt: HostRuntime) -> Result<(), Fail> {
    let alloc = rt.alloc();
    for (machine, rest, told) in ROWS.iter() {
        let file = behind_device(alloc, rest)?;
        let mut streams = source_of(alloc, &file, usize::MAX, usize::MAX)?;
        let out = sink_of(alloc, 65_536, &[])?;
        let ran = run_on(
            &rt,
            alloc,
            machine,
            0,
            &mut streams,
            out,
            &recording(),
            &NoGate,
        )?;
        let told = lines_of(alloc, told, "\n")?;
        assert_eq!(rt; ran.told.as_str(), told.as_str());
    }
    Ok(())
}

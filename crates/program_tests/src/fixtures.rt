//! Machines, and what drivers were told, as lines.
use command_tables::row;
use dispatch_chain::Kit;
use env_filters::EnvList;
use lifetime_layer::LifeState;
use model_driver::{DriverCall, DriverReply};
use replay_base::{MemSink, MemTree};
use std::alloc::{AllocError, Global};
use std::test::Fail;
use thread_layer::UseState;
use unique_layer::UniqueState;

/// Files by their paths, or variables by their names.
pub(crate) type Pairs = &'static [(&'static str, &'static str)];

pub(crate) const DRIVER: (&str, &str) = (
    "/etc/vulkan/icd.d/a.json",
    r#"{"file_format_version":"1.0.1","ICD":{"library_path":"libvulkan_a.so","api_version":"1.3.275"}}"#,
);

pub(crate) const SECOND_DRIVER: (&str, &str) = (
    "/etc/vulkan/icd.d/b.json",
    r#"{"file_format_version":"1.0.1","ICD":{"library_path":"./libb.so","api_version":"1.3.275"}}"#,
);

/// The validation layer.
pub(crate) const VALIDATION: (&str, &str) = (
    "/usr/share/vulkan/explicit_layer.d/v.json",
    r#"{"file_format_version":"1.2.0","layer":{"name":"VK_LAYER_KHRONOS_validation","type":"GLOBAL","library_path":"libVkLayer_khronos_validation.so","api_version":"1.3.275","implementation_version":"1","description":"Khronos Validation Layer","platforms":["LINUX"],"features":{"presets":[]}}}"#,
);

/// An override, which searches a folder of its own.
pub(crate) const OVERRIDE: (&str, &str) = (
    "/etc/vulkan/implicit_layer.d/o.json",
    r#"{"file_format_version":"1.2.0","layer":{"name":"VK_LAYER_LUNARG_override","type":"GLOBAL","component_layers":[],"api_version":"1.3.275","implementation_version":"1","description":"","override_paths":["/o"],"disable_environment":{"OVER":"1"}}}"#,
);

/// An explicit layer in that folder.
pub(crate) const OVERRIDING: (&str, &str) = (
    "/o/l.json",
    r#"{"file_format_version":"1.2.0","layer":{"name":"VK_LAYER_other","type":"GLOBAL","library_path":"libl.so","api_version":"1.3.275","implementation_version":"1","description":""}}"#,
);

pub(crate) const HOME: (&str, &str) = ("HOME", "/home/u");

/// What a run is over: the words, the files, so many layers besides, and the variables.
#[derive(Clone, Copy)]
pub(crate) struct Machine {
    pub words: &'static str,
    pub files: Pairs,
    pub layers: u32,
    pub env: Pairs,
}

/// One driver.
pub(crate) const PLAIN: Machine = Machine {
    words: "run",
    files: &[DRIVER],
    layers: 0,
    env: &[HOME],
};

/// The same with the validation layer turned on.
pub(crate) const CHECKED: Machine = Machine {
    files: &[DRIVER, VALIDATION],
    env: &[HOME, ("VK_INSTANCE_LAYERS", "VK_LAYER_KHRONOS_validation")],
    ..PLAIN
};

/// The layers' own calls.
pub(crate) fn kit() -> Kit {
    Kit::new(
        UniqueState::enter,
        UniqueState::leave,
        LifeState::enter,
        LifeState::leave,
        UseState::enter,
        UseState::leave,
    )
}

/// The words of a command line that spaces part.
pub(crate) fn words_of(alloc: Global, text: &str) -> Result<Vec<String>, Fail> {
    let mut words = Vec::new(alloc);
    for word in text.split_whitespace() {
        words.push(String::from_str(alloc, word)?)?;
    }
    Ok(words)
}

/// The variables of these pairs.
pub(crate) fn variables(alloc: Global, pairs: Pairs) -> Result<EnvList, Fail> {
    let mut env = EnvList::new(alloc);
    for (name, value) in pairs {
        env.put(name, value).ok().ok_or("no memory")?;
    }
    Ok(env)
}

// A manifest of so many layers.
fn manifest_of(alloc: Global, layers: u32) -> Result<String, AllocError> {
    let mut text = String::from_str(alloc, r#"{"file_format_version":"1.2.0","layers":["#)?;
    for number in 1..=layers {
        let comma = if number == 1 { "" } else { "," };
        write!(
            text,
            "{comma}{{\"name\":\"p{number}\",\"type\":\"GLOBAL\",\"library_path\":\"libp.so\",\"api_version\":\"1.3.275\",\"implementation_version\":\"1\",\"description\":\"\"}}"
        )?;
    }
    text.push_str("]}")?;
    Ok(text)
}

/// The tree of a machine, which fails at the call with this number, if there is one.
pub(crate) fn tree_of(alloc: Global, machine: &Machine, fails_at: u64) -> Result<MemTree, Fail> {
    let layers = manifest_of(alloc, machine.layers)?;
    let mut tree = MemTree::new(alloc);
    for (path, text) in machine.files {
        tree.put(path, text.as_bytes()).ok().ok_or("no memory")?;
    }
    if machine.layers > 0 {
        tree.put("/etc/vulkan/explicit_layer.d/p.json", layers.as_bytes())
            .ok()
            .ok_or("no memory")?;
    }
    tree.fail_at(fails_at).ok().ok_or("no memory")?;
    Ok(tree)
}

/// A sink with room for so many bytes, of which the calls with these numbers fail.
pub(crate) fn sink_of(alloc: Global, room: usize, fails: &[u64]) -> Result<MemSink, Fail> {
    let fails = Vec::from_slice(alloc, fails)?;
    Ok(MemSink::new(alloc, room, fails).ok().ok_or("no memory")?)
}

/// How many lines end in a text.
pub(crate) fn lines_in(text: &[u8]) -> usize {
    text.iter().filter(|byte| **byte == b'\n').count()
}

/// Lines, with a text behind each.
pub(crate) fn lines_of(alloc: Global, lines: &[&str], behind: &str) -> Result<String, AllocError> {
    let mut text = String::new(alloc);
    for line in lines {
        text.push_str(line)?;
        text.push_str(behind)?;
    }
    Ok(text)
}

fn put_arguments(text: &mut String, call: &DriverCall) -> Result<(), AllocError> {
    for p in 0..call.body.args.len() {
        write!(text, " {:?}", call.body.args.param(p))?;
    }
    Ok(())
}

fn put_call(text: &mut String, call: &DriverCall, reply: &DriverReply) -> Result<(), AllocError> {
    let number = u64::from(call.driver).saturating_add(1);
    write!(text, "{number} {}", row(call.body.cmd).name)?;
    put_arguments(text, call)?;
    let code = match call.body.code {
        None => "void",
        Some(code) => code.name(),
    };
    write!(
        text,
        " asked={} {code} -> {:?}\n",
        call.body.asked, reply.handles
    )
}

/// A line for each call that a driver was told, with its answer.
pub(crate) fn put_told(
    text: &mut String,
    log: &[(DriverCall, DriverReply)],
) -> Result<(), AllocError> {
    for (call, reply) in log {
        put_call(text, call, reply)?;
    }
    Ok(())
}

//! Room that a long line leaves, and room that is refused.
use command_tables::ObjectType;
use object_model::Object;
use replay_model::Named;
use session_tables::NamedTable;
use std::alloc::{AllocError, Global};
use std::process::Abort;
use std::test::Fail;
use stream_log::DeviceLog;
use trace_format::{Event, EventRoom, Name};

// A line with a payload of 60,000 bytes and more.
fn long_line(alloc: Global) -> Result<Vec<u8>, AllocError> {
    let mut line = Vec::from_slice(alloc, b"b 1 vkResetFences %1.3 [%1.7] VK_SUCCESS : ")?;
    line.resize(65_536, b'a')?;
    Ok(line)
}

// For how many bytes of payload an event has room.
fn payload_room(event: &Event) -> usize {
    match event {
        Event::Return { .. } => 0,
        Event::Begin { payload, .. } => payload.capacity(),
    }
}

// Twice a short line is read in the room of a long one.
#[test]
fn the_longest_line_leaves_its_room(rt: HostRuntime) -> Result<(), Fail> {
    let line = long_line(rt.alloc())?;
    let mut room = EventRoom::new(rt.alloc());
    for _ in 0..2 {
        let long = room.parse(&line)?;
        room.give_back(long);
        let short = room.parse(b"b 1 vkResetFences %1.3 [%1.8] VK_SUCCESS")?;
        assert!(rt; payload_room(&short) >= 60_000);
        room.give_back(short);
    }
    Ok(())
}

const NAMED: Named = Named {
    name: Name {
        thread: 1,
        number: 1,
    },
    object: Object {
        ty: ObjectType::Device,
        number: 2049,
    },
};

// There are 4,294,967,295 names at most: behind one there is no room for as many.
fn room_is_refused(rt: &impl Abort, table: &mut NamedTable) -> Result<(), Fail> {
    table.push(NAMED)?;
    assert!(rt; table.reserve(4_294_967_295).is_err());
    let found = (table.len(), table.object_named(NAMED.name));
    assert_eq!(rt; found, (1, Some(NAMED.object)));
    Ok(())
}

#[test]
fn no_room_for_too_many_names(rt: HostRuntime) -> Result<(), Fail> {
    let mut table = NamedTable::new(rt.alloc());
    room_is_refused(&rt, &mut table)
}

#[test]
fn no_log_of_too_many_results(rt: HostRuntime) {
    assert!(rt; DeviceLog::new(rt.alloc(), 0, 0x8000_0000, &[]).is_err());
}

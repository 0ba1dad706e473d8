//! Adapters that tell what std's readers and writers tell.
use replay_base::{ReadSource, Source, WriteSink, put_all};
use std::process::Abort;
use std::test::Fail;

#[test]
fn adapters_tell_what_std_tells(rt: HostRuntime) -> Result<(), Fail> {
    let mut buf = [0u8; 4];
    let mut source = ReadSource::telling(b"abcdef".as_slice());
    assert_eq!(rt; source.read(&mut buf), Ok(4));
    assert_eq!(rt; buf, *b"abcd");
    let mut sink = WriteSink::telling(Vec::<u8>::new(rt.alloc()));
    assert_eq!(rt; put_all(&mut sink, b"abc"), Ok(()));
    Ok(())
}

//! The devices that never fail.

use super::{is_answer, read_some};
use std::test::Fail;
use tm_base::{CalmSink, CalmSource, Sink, write_all};

#[test]
fn a_calm_source_gives_what_there_is_room_for(rt: HostRuntime) -> Result<(), Fail> {
    let alloc = rt.alloc();
    let mut source = CalmSource::new("hello".as_bytes().to_vec(alloc)?);
    for want in ["hell", "o", "", ""] {
        let got = read_some(alloc, &mut source, 4)?;
        assert!(rt; is_answer(&got, &Ok(want)), "{got:?} in place of {want}");
    }
    assert!(rt; source.left().is_empty());
    Ok(())
}

#[test]
fn a_calm_sink_counts_the_bytes(rt: HostRuntime) {
    let mut sink = CalmSink::new();
    assert_eq!(rt; sink.count(), 0);
    assert_eq!(rt; sink.write(b"hello"), Ok(5));
    assert_eq!(rt; sink.write(b""), Ok(0));
    assert!(rt; write_all(&mut sink, b", you").is_ok());
    assert_eq!(rt; sink.count(), 10);
}

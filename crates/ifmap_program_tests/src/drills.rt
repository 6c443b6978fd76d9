//! A drill whose summary is not written.
use ifmap_drill::{NoProgress, drill};
use ifmap_io::MemorySink;
use std::test::Fail;

#[test]
fn a_failed_write_ends_a_drill(rt: HostRuntime) -> Result<(), Fail> {
    let alloc = rt.alloc();
    let mut sink = MemorySink::new(Vec::new(alloc), [0].to_vec(alloc)?);
    let status = drill(alloc, 7, 100, &mut sink, &mut NoProgress);
    assert_eq!(rt; status, 5);
    assert!(rt; sink.held().is_empty());
    Ok(())
}

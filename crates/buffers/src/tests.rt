use crate::Buffer;
use std::test::Fail;

#[test]
fn memory_for_all(rt: HostRuntime) -> Result<(), Fail> {
    let buffer: Buffer<u32, 4_096> = Buffer::new(rt.alloc())?;
    assert!(rt; buffer.held.is_empty());
    assert!(rt; buffer.held.capacity() >= 4_096);
    Ok(())
}

use flat_image::*;
use sector_extent::{CallList, Memory};
use std::alloc::AllocError;
use std::test::Fail;

#[test]
fn a_plain_port_reads_what_was_written(rt: HostRuntime) -> Result<(), Fail> {
    let failing = CallList::from_vec(Vec::new(rt.alloc()));
    let mut port = PlainPort::new(rt.alloc(), 4, failing)?;
    let mut out = [0xFFu8; 512];
    let written = [0x61u8; 1024];
    assert_eq!(rt; port.sectors(), 4);
    assert_eq!(rt; port.write(1, &written), Ok(()));
    assert_eq!(rt; port.read(2, &mut out), Ok(()));
    assert_eq!(rt; out, [0x61; 512]);
    Ok(())
}

#[test]
fn a_plain_port_fails_where_it_was_named_to(rt: HostRuntime) -> Result<(), Fail> {
    let failing = CallList::from_vec([1].to_vec(rt.alloc())?);
    let mut port = PlainPort::new(rt.alloc(), 4, failing)?;
    assert_eq!(rt; port.zero(3, 1), Ok(()));
    assert_eq!(rt; port.flush(), Err(PortFault::Failed));
    assert_eq!(rt; port.flush(), Ok(()));
    Ok(())
}

#[test]
fn want_of_memory_is_its_own_fault(rt: HostRuntime) {
    assert_eq!(rt; PortFault::from(AllocError), PortFault::Memory);
    assert_eq!(rt; PortFault::from(Memory), PortFault::Memory);
}

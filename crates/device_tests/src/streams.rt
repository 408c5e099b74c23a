//! Tests of the input and the output in memory.
use disk_mem::MemDisk;
use outside::{MemOutside, Outside, SayFault, TakeFault, say_all};
use std::alloc::{AllocError, Global};
use std::test::Fail;

fn outside_over(
    alloc: Global,
    input: &[u8],
    takes: &[u64],
    says: &[u64],
) -> Result<MemOutside, AllocError> {
    let disk = MemDisk::new(alloc, &[])?;
    let input = Vec::from_slice(alloc, input)?;
    Ok(MemOutside::new(
        disk,
        input,
        Vec::from_slice(alloc, takes)?,
        Vec::from_slice(alloc, says)?,
    ))
}

// Says two texts, of which the second may fail.
fn say_both(out: &mut MemOutside) -> Result<(), SayFault> {
    say_all(out, b"ok\n")?;
    say_all(out, b"bye\n")
}

#[test]
fn the_input_comes_in_pieces_and_ends(rt: HostRuntime) -> Result<(), Fail> {
    let mut out = outside_over(rt.alloc(), b"abcde", &[1], &[])?.with_pace(4);
    let mut into = [0; 8];
    assert!(rt; out.take(&mut into) == Ok(4));
    assert_eq!(rt; &into[..4], b"abcd".as_slice());
    assert!(rt; out.take(&mut into) == Err(TakeFault));
    assert!(rt; out.take(&mut into) == Ok(1));
    assert!(rt; out.take(&mut into) == Ok(0));
    Ok(())
}

#[test]
fn a_prefix_is_said_where_a_later_say_fails(rt: HostRuntime) -> Result<(), Fail> {
    let alloc = rt.alloc();
    let mut out = outside_over(alloc, b"", &[], &[3])?.with_pace(2);
    assert!(rt; say_both(&mut out) == Err(SayFault));
    assert_eq!(rt; out.said(), b"ok\nby".as_slice());
    Ok(())
}

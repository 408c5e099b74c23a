//! What a builder takes and what it refuses.

use super::building::number_key;
use fst_map::{AddError, FstBuilder};
use std::test::Fail;

#[test]
fn the_first_fault_of_a_pair_is_said(rt: HostRuntime) -> Result<(), Fail> {
    let long = [7; 1_025];
    let longest = [7; 1_024];
    let value = vec![in rt.alloc(); 0; 65_537]?;
    let largest = vec![in rt.alloc(); 0; 65_536]?;
    let mut builder = FstBuilder::new(rt.alloc());
    assert!(rt; builder.add(b"b", &[1]) == Ok(()));
    assert!(rt; builder.add(b"", &[1]) == Err(AddError::Key(0)));
    assert!(rt; builder.add(&long, &[1]) == Err(AddError::Key(1_025)));
    assert!(rt; builder.add(b"c", value.as_slice()) == Err(AddError::Value(65_537)));
    assert!(rt; builder.add(b"b", &[1]) == Err(AddError::Order));
    assert!(rt; builder.add(b"a", &[1]) == Err(AddError::Order));
    assert!(rt; builder.add(b"", value.as_slice()) == Err(AddError::Key(0)));
    assert!(rt; builder.add(b"a", value.as_slice()) == Err(AddError::Value(65_537)));
    assert!(rt; builder.len() == 1);
    assert!(rt; builder.add(&longest, largest.as_slice()) == Err(AddError::Order));
    assert!(rt; builder.add(b"b\x00", largest.as_slice()) == Ok(()));
    assert!(rt; builder.len() == 2);
    Ok(())
}

#[test]
fn a_million_pairs_are_taken_and_no_more(rt: HostRuntime) -> Result<(), Fail> {
    let mut builder = FstBuilder::new(rt.alloc());
    for number in 0..1_000_000 {
        assert!(rt; builder.add(&number_key(number), b"") == Ok(()));
    }
    assert!(rt; builder.add(&number_key(1_000_000), b"") == Err(AddError::Many));
    assert!(rt; builder.add(&number_key(7), b"") == Err(AddError::Order));
    assert!(rt; builder.len() == 1_000_000);
    Ok(())
}

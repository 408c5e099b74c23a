//! Bytes that are no body: the first rule that they break, and where.

use super::bodies::{A_AND_AB, THREE_OF_TWO, changed, read};
use fst_map::FstError;
use map_parts::MapFault;
use std::alloc::Global;
use std::process::Abort;
use std::test::Fail;

// Bytes that are changed, and the fault then: its place and its rule.
type Row = (&'static [(usize, u8)], u64, u8);

// Of the body of a and ab.
const ROWS: [Row; 14] = [
    (&[(0, 0)], 0, 2),
    (&[(4, 2)], 4, 2),
    (&[(5, 1)], 5, 3),
    (&[(12, 1)], 12, 3),
    (&[(8, 0)], 8, 4),
    (&[(8, 3)], 103, 1),
    (&[(8, 0x41), (9, 0x42), (10, 0x0F)], 103, 1),
    (&[(23, 0xFF)], 103, 1),
    (&[(67, 9)], 67, 5),
    (&[(24, 0)], 24, 5),
    (&[(69, 1)], 69, 7),
    (&[(77, 3)], 85, 7),
    (&[(93, 7)], 95, 9),
    (&[(102, 8)], 95, 9),
];

fn check_fault(rt: &impl Abort, alloc: Global, bytes: &[u8], place: u64, rule: u8) {
    match read(alloc, bytes) {
        Err(FstError::Fault(fault)) => assert!(rt; fault == MapFault { place, rule }),
        _ => assert!(rt; false),
    }
}

#[test]
fn bytes_changed_break_a_rule(rt: HostRuntime) -> Result<(), Fail> {
    for (changes, place, rule) in &ROWS {
        let bytes = changed(rt.alloc(), &A_AND_AB, *changes)?;
        check_fault(&rt, rt.alloc(), bytes.as_slice(), *place, *rule);
    }
    Ok(())
}

#[test]
fn a_body_cut_short_breaks_rule_1(rt: HostRuntime) -> Result<(), Fail> {
    for length in 0..A_AND_AB.len() {
        check_fault(&rt, rt.alloc(), &A_AND_AB[..length], length as u64, 1);
    }
    Ok(())
}

#[test]
fn other_bytes_break_a_rule(rt: HostRuntime) -> Result<(), Fail> {
    check_fault(&rt, rt.alloc(), &[0xFF; 50], 50, 1);
    check_fault(&rt, rt.alloc(), &[0; 50], 0, 2);
    check_fault(&rt, rt.alloc(), &THREE_OF_TWO, 8, 6);
    let mut longer = Vec::from_slice(rt.alloc(), &A_AND_AB)?;
    longer.push(0)?;
    check_fault(&rt, rt.alloc(), longer.as_slice(), 103, 8);
    Ok(())
}

//! Tests of the rules of a record, and of where records end.
use byte_fields::PartFault;
use entry_list::ChangeKind;
use gate_log::changes_in;
use std::alloc::Global;
use std::test::Fail;

fn fault_of(alloc: Global, bytes: &[u8]) -> PartFault {
    if bytes.is_empty() {
        return PartFault::Memory;
    }
    match changes_in(alloc, bytes) {
        Ok(_) => PartFault::Memory,
        Err(fault) => fault,
    }
}

#[test]
fn each_rule_of_a_record_at_its_place(rt: HostRuntime) {
    let examples: [(&[u8], usize, u8); 15] = [
        (&[1, 1, 1, 0, 0, 0, 0], 0, 1),
        (&[1, 4, 0, 0, 0, 0, 0, 0], 0, 2),
        (&[1, 1, 0, 0, 0, 0, 0, 0], 0, 3),
        (&[1, 1, 1, 4, 0, 0, 0, 0], 0, 3),
        (&[1, 1, 1, 0, 1, 0, 1, 0], 0, 3),
        (&[1, 2, 1, 0, 1, 0, 0, 0, 107, 120, 0], 0, 3),
        (&[1, 1, 1, 0, 1, 0, 0, 0, 107, 120], 0, 1),
        (&[1, 3, 0, 0, 1, 0, 0, 0, 99, 0], 0, 3),
        (&[1, 3, 1, 0, 0, 0, 0, 0, 97, 0], 0, 3),
        (&[1, 3, 1, 4, 1, 0, 0, 0], 0, 3),
        (&[1, 3, 1, 0, 1, 4, 0, 0], 0, 3),
        (&[1, 3, 1, 0, 1, 0, 0, 0, 99, 99, 0], 0, 3),
        (&[1, 3, 1, 0, 1, 0, 0, 0, 100, 99, 0], 0, 3),
        (&[1, 3, 1, 0, 1, 0, 0, 0, 100, 99], 0, 1),
        (&[1, 2, 1, 0, 0, 0, 0, 0, 107, 1, 9, 1, 0, 0, 0, 0, 0], 9, 2),
    ];
    for (bytes, place, rule) in examples {
        assert_eq!(rt;
            fault_of(rt.alloc(), bytes),
            PartFault::Shape { place, rule }
        );
    }
}

#[test]
fn records_end_at_a_gate_that_is_not_open(rt: HostRuntime) -> Result<(), Fail> {
    let bytes = [
        1, 1, 1, 0, 1, 0, 0, 0, 107, 120, 1, 3, 1, 0, 1, 0, 0, 0, 97, 99, 1, 2, 1, 0, 0, 0, 0, 0,
        107, 7, 1,
    ];
    let Ok((changes, end)) = changes_in(rt.alloc(), &bytes) else {
        return Err(Fail::from("no changes"));
    };
    assert_eq!(rt; end, 29);
    let [first, second, third] = changes.as_slice() else {
        return Err(Fail::from("other changes"));
    };
    let (ChangeKind::Sets(put), ChangeKind::Clears(range), ChangeKind::Sets(tombstone)) = (
        first.kind(),
        second.kind(),
        third.kind(),
    ) else {
        return Err(Fail::from("other kinds"));
    };
    assert_eq!(rt; put.key(), b"k".as_slice());
    assert!(rt; matches!(put.value(), Some(b"x")));
    assert_eq!(rt; range.lo(), b"a".as_slice());
    assert_eq!(rt; range.hi(), b"c".as_slice());
    assert!(rt; tombstone.value().is_none());
    Ok(())
}

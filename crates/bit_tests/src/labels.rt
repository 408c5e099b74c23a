//! Labels that are looked for, by loops over them.
use crate::patterns::next_number;
use lane_scan::{find_label, find_label_between, first_at_least, first_at_least_between};
use std::alloc::Global;
use std::test::Fail;

// As many labels from 0 to `last`, behind a number.
fn random_labels(alloc: Global, seed: u64, len: usize, last: u8) -> Result<Vec<u8>, Fail> {
    let mut number = seed;
    let mut labels = Vec::new(alloc);
    for _ in 0..len {
        number = next_number(number);
        labels.push((number >> 56) as u8 & last)?;
    }
    Ok(labels)
}

// Whether both searches answer as the loop over these labels.
fn is_found(labels: &[u8], label: u8) -> bool {
    find_label(labels, label) == labels.iter().position(|byte| *byte == label)
        && first_at_least(labels, label) == labels.iter().position(|byte| *byte >= label)
}

#[test]
fn labels_agree_with_the_plain_loops(rt: HostRuntime) -> Result<(), Fail> {
    let mut number = 7;
    for len in 0..300 {
        let labels = random_labels(rt.alloc(), number, len, 63)?;
        number = next_number(number);
        assert!(rt; is_found(&labels, (number >> 58) as u8), "{len} labels");
    }
    Ok(())
}

// Whether both searches of the labels from `start` on and before `end` answer as those of that slice alone.
fn is_found_between(labels: &[u8], start: usize, end: usize, label: u8) -> bool {
    if start > end || end > labels.len() {
        return false;
    }
    let node = &labels[start..end];
    let found = find_label_between(labels, start, end, label);
    let least = first_at_least_between(labels, start, end, label);
    found.map(|place| place.wrapping_sub(start)) == node.iter().position(|byte| *byte == label)
        && least.map(|place| place.wrapping_sub(start))
            == node.iter().position(|byte| *byte >= label)
}

#[test]
fn labels_in_a_section_agree_with_the_plain_loops(rt: HostRuntime) -> Result<(), Fail> {
    let mut number = 7;
    for len in [0, 9, 15, 16, 17, 40] {
        let labels = random_labels(rt.alloc(), number, len, 15)?;
        for end in 0..labels.len() {
            for start in 0..end {
                number = next_number(number);
                let label = (number >> 60) as u8;
                assert!(rt;
                    is_found_between(&labels, start, end, label),
                    "{start} to {end}"
                );
            }
        }
    }
    Ok(())
}

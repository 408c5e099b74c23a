//! Cutoffs of levels whose counts are told.
use std::test::Fail;
use trie_levels::{Levels, cutoff};

#[test]
fn cutoffs_of_levels(rt: HostRuntime) -> Result<(), Fail> {
    let examples: [(&[(u64, u64)], u16, u16); 8] = [
        (&[(1, 3), (2, 2), (2, 4)], 64, 0),
        (&[(1, 3), (2, 2), (2, 4)], 0, 3),
        (&[(1, 1), (1, 2)], 64, 0),
        (&[(1, 1), (1, 2)], 0, 2),
        (&[(1, 256), (256, 65_536)], 64, 1),
        (&[(1, 256)], 64, 0),
        (&[(1, 256)], 0, 1),
        (&[], 64, 0),
    ];
    for (counts, ratio, answer) in examples {
        let mut levels = Levels::new(rt.alloc());
        for (nodes, labels) in counts {
            assert!(rt; levels.height() < 65_535);
            levels.push(*nodes, *labels)?;
        }
        assert_eq!(rt; cutoff(&levels, ratio), answer);
    }
    Ok(())
}

//! Steps of loads and lines of their summaries whose answers are known.
use load_gen::{LINE_BYTES, LoadGen, LoadStep, Summary, spell_summary};
use std::test::Fail;

fn put(key: [u8; 3], value: [u8; 8]) -> LoadStep {
    LoadStep {
        key,
        value: Some(value),
    }
}

#[test]
fn first_steps_of_seeds(rt: HostRuntime) -> Result<(), Fail> {
    let mut zero = LoadGen::new(0);
    assert_eq!(rt;
        zero.next(),
        put(*b"\x14\x05\x7b", *b"\x4f\x81\x67\xf7\x7e\x7b\x05\x14")
    );
    assert_eq!(rt;
        zero.next(),
        put(*b"\x1a\x08\xee", *b"\x32\x6d\xba\x84\x11\xee\x08\x1a")
    );
    assert_eq!(rt;
        zero.next(),
        put(*b"\x9a\xf6\x78", *b"\x19\x81\x72\x2e\x22\x78\xf6\x9a")
    );
    let mut one = LoadGen::new(1);
    assert_eq!(rt;
        one.next(),
        put(*b"\x6c\x57\x6f", *b"\x7c\x00\xfd\x43\xac\x6f\x57\x6c")
    );
    assert_eq!(rt;
        one.next(),
        put(*b"\x82\x68\x86", *b"\x1b\x1b\x4a\x86\xb3\x86\x68\x82")
    );
    let mut last = LoadGen::new(u64::MAX);
    assert_eq!(rt;
        last.next(),
        put(*b"\xbb\xb3\x87", *b"\x22\x02\xd2\xaa\x51\x87\xb3\xbb")
    );
    Ok(())
}

#[test]
fn the_seventh_step_of_seed_7_deletes(rt: HostRuntime) -> Result<(), Fail> {
    let mut steps = LoadGen::new(7);
    for _ in 0..6 {
        assert!(rt; steps.next().value.is_some());
    }
    assert_eq!(rt;
        steps.next(),
        LoadStep {
            key: *b"\x67\x23\x7f",
            value: None
        }
    );
    Ok(())
}

#[test]
fn lines_of_summaries(rt: HostRuntime) -> Result<(), Fail> {
    let mut line = [0; LINE_BYTES];
    let mut summary = Summary::new();
    let n = spell_summary(0, 0, &summary, &mut line);
    assert_eq!(rt;
        &line[..n],
        b"load steps 0 refused 0 live 0 sum 0000000000000000\n".as_slice()
    );
    summary.add(b"\x7c\x00\xfd\x43\xac\x6f\x57\x6c");
    let n = spell_summary(1, 0, &summary, &mut line);
    assert_eq!(rt;
        &line[..n],
        b"load steps 1 refused 0 live 1 sum 6c576fac43fd007c\n".as_slice()
    );
    summary.add(b"\x01");
    summary.add(b"");
    let n = spell_summary(20, 3, &summary, &mut line);
    assert_eq!(rt;
        &line[..n],
        b"load steps 20 refused 3 live 3 sum 6c576fac43fd007d\n".as_slice()
    );
    summary.add(b"\xff\xff\xff\xff\xff\xff\xff\xff\xff");
    let n = spell_summary(u64::MAX, u64::MAX, &summary, &mut line);
    assert_eq!(rt;
        &line[..n],
        b"load steps 18446744073709551615 refused 18446744073709551615 live 4 sum 6c576fac43fd007c\n".as_slice()
    );
    Ok(())
}

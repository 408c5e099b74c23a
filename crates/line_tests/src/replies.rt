//! Replies in pieces.
use byte_fields::{Damage, Part};
use store_commands::{Reply, piece};

#[test]
fn replies_in_buffers_of_every_size(rt: HostRuntime) {
    let rows = [
        (Reply::Done, "ok\n"),
        (Reply::Value(b"b"), "val 62\n"),
        (Reply::Value(b""), "val -\n"),
        (Reply::Value(b"\xff\x0a"), "val ff0a\n"),
        (Reply::Missing, "none\n"),
        (
            Reply::At {
                key: b"a",
                value: b"",
            },
            "at 61 -\n",
        ),
        (Reply::End(2), "end 2\n"),
        (Reply::Counted(0), "count 0\n"),
        (Reply::About(12), "about 12\n"),
        (
            Reply::Explained {
                tables: 3,
                admitted: 2,
                blocks: 1,
            },
            "tables 3 admitted 2 blocks 1\n",
        ),
        (Reply::Bye, "bye\n"),
        (Reply::BadLine(4), "bad 4\n"),
        (Reply::LongKey(1_025), "limit key 1025\n"),
        (Reply::LongValue(65_537), "limit value 65537\n"),
        (Reply::ManyTables, "limit tables\n"),
        (Reply::LastEpoch, "limit epoch\n"),
        (Reply::Full { need: 53, gap: 2 }, "full need 53 gap 2\n"),
        (Reply::Memory, "memory\n"),
        (Reply::Device, "device\n"),
    ];
    for (reply, text) in rows {
        for size in [1, 7, 64] {
            assert!(rt; is_said_alike(&reply, text.as_bytes(), size), "{text}");
        }
    }
}

#[test]
fn damage_in_buffers_of_every_size(rt: HostRuntime) {
    let rule = Damage::Shape {
        part: Part::Log,
        at: 262_145,
        rule: 1,
    };
    let sum = Damage::Sum {
        part: Part::Filter,
        at: 0,
        kept: 255,
        seen: 1 << 60,
    };
    let rows = [
        (rule, "damaged log 262145 rule 1\n"),
        (
            sum,
            "damaged filter 0 sum 00000000000000ff 1000000000000000\n",
        ),
    ];
    for (damage, text) in rows {
        for size in [1, 7, 64] {
            assert!(rt;
                is_said_alike(&Reply::Damaged(damage), text.as_bytes(), size),
                "{text}"
            );
        }
    }
}

// Whether a buffer of this size, up to 64 bytes, gets its part of a text from each place on.
fn is_said_alike(reply: &Reply<'_>, text: &[u8], size: usize) -> bool {
    let mut buffer = [0; 64];
    let size = size.min(64);
    for from in 0..=text.len() {
        let n = piece(reply, from, &mut buffer[..size]);
        let rest = &text[from..];
        if &buffer[..n] != &rest[..rest.len().min(size)] {
            return false;
        }
    }
    true
}

#[test]
fn the_longest_value(rt: HostRuntime) {
    let reply = Reply::Value(&[b'z'; 65_536]);
    let mut text = [0; 131_100];
    assert_eq!(rt; piece(&reply, 0, &mut text), 131_077);
    assert!(rt; &text[..8] == b"val 7a7a".as_slice());
    assert!(rt; &text[131_072..131_077] == b"7a7a\n".as_slice());
    assert_eq!(rt; piece(&reply, 131_076, &mut text), 1);
    assert_eq!(rt; piece(&reply, 131_077, &mut text), 0);
}

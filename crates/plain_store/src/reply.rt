//! What a store answers.
use plain_map::PlainMap;

/// What a request is answered.
#[derive(Drop)]
pub enum Reply {
    Done,
    Value(Vec<u8>),
    Missing,
    /// The pair of a seek.
    At {
        key: Vec<u8>,
        value: Vec<u8>,
    },
    /// The pairs of a range, with their number after them.
    Pairs(PlainMap),
    Counted(u64),
    About(u64),
    Explained {
        tables: u64,
        admitted: u64,
        blocks: u64,
    },
    Bye,
    LongKey(u64),
    LongValue(u64),
    ManyTables,
    LastEpoch,
    Full {
        need: u64,
        gap: u64,
    },
}

//! Keys that are drawn, and others that are not among them.
use crate::texts::{HALVINGS, Texts};
use anyhow::Result;
use bench_kit::{Numbers, boxed};
use key_base::{KeyList, compare};
use std::alloc::{AllocError, Global};
use std::cmp::Ordering;

// The most letters that a word takes from another, and the fewest of its own.
const MOST_TAKEN: u64 = 16;

const FEWEST_OWN: usize = 2;

// The letters of the shortest word, and how many more the longest has.
const SHORTEST: usize = 10;

const MORE: u64 = 10;

/// How keys are made.
#[derive(Clone, Copy)]
pub enum Kind {
    Random,
    Words,
}

impl Kind {
    /// The kind of this name.
    pub fn named(word: &str) -> Option<Kind> {
        match word {
            "random" => Some(Kind::Random),
            "words" => Some(Kind::Words),
            _ => None,
        }
    }
}

// Makes `key` one of a kind.
fn draw_key(
    kind: Kind,
    drawn: &Texts,
    numbers: &mut Numbers,
    key: &mut Vec<u8>,
) -> Result<(), AllocError> {
    match kind {
        Kind::Random => {
            key.clear();
            key.extend_from_slice(&numbers.draw().to_be_bytes())
        }
        Kind::Words => draw_word(drawn, numbers, key),
    }
}

// Makes `word` the first letters of one that was drawn, with others behind them: 10 to 20 in all.
fn draw_word(drawn: &Texts, numbers: &mut Numbers, word: &mut Vec<u8>) -> Result<(), AllocError> {
    let last = drawn.len().saturating_sub(1) as u64;
    let other = drawn.get(numbers.draw_to(last) as usize);
    let taken = numbers.draw_to(MOST_TAKEN) as usize;
    word.clear();
    word.extend_from_slice(other.get(..taken).unwrap_or(other))?;
    let len = SHORTEST.saturating_add(numbers.draw_to(MORE) as usize);
    for _ in 0..len.saturating_sub(word.len()).max(FEWEST_OWN) {
        word.push(b'a'.wrapping_add(numbers.draw_to(25) as u8))?;
    }
    Ok(())
}

/// As many keys of a kind, in the order in which they were drawn. A word may be drawn twice.
pub fn draw_keys(
    alloc: Global,
    kind: Kind,
    count: u32,
    numbers: &mut Numbers,
) -> Result<Box<Texts>> {
    let mut drawn = Texts::in_box(alloc)?;
    let mut key = Vec::new(alloc);
    push_drawn(kind, count, numbers, &mut key, &mut drawn)?;
    Ok(drawn)
}

// Draws so many keys, each in `key`.
fn push_drawn(
    kind: Kind,
    count: u32,
    numbers: &mut Numbers,
    key: &mut Vec<u8>,
    drawn: &mut Texts,
) -> Result<()> {
    for _ in 0..count {
        draw_key(kind, drawn, numbers, key)?;
        drawn.push(key.as_slice())?;
    }
    Ok(())
}

/// Keys drawn as those of `keys` were, as many or a few less, that are not among them.
pub fn draw_absent(
    alloc: Global,
    kind: Kind,
    present: &Texts,
    keys: &KeyList,
    numbers: &mut Numbers,
) -> Result<Box<Texts>> {
    let mut absent = Texts::in_box(alloc)?;
    let mut key = Vec::new(alloc);
    push_absent(kind, present, keys, numbers, &mut key, &mut absent)?;
    Ok(absent)
}

// Draws as many keys as were drawn, each in `key`, and takes those that are not among `keys`.
fn push_absent(
    kind: Kind,
    present: &Texts,
    keys: &KeyList,
    numbers: &mut Numbers,
    key: &mut Vec<u8>,
    absent: &mut Texts,
) -> Result<()> {
    for _ in 0..present.len() {
        draw_key(kind, present, numbers, key)?;
        if !is_among(keys, key.as_slice()) {
            absent.push(key.as_slice())?;
        }
    }
    Ok(())
}

// Whether a key is one of `keys`, which rise.
fn is_among(keys: &KeyList, key: &[u8]) -> bool {
    let mut low = 0;
    let mut high = keys.len();
    for _ in 0..HALVINGS {
        if low >= high || high > keys.len() {
            return false;
        }
        let middle = low + (high - low) / 2;
        match compare(keys.get(middle), key) {
            Ordering::Less => low = middle + 1,
            Ordering::Equal => return true,
            Ordering::Greater => high = middle,
        }
    }
    false
}

/// The same keys in rising order, each once.
pub fn sorted(alloc: Global, drawn: &Texts) -> Result<Box<KeyList>, AllocError> {
    let order = order_of(alloc, drawn)?;
    let mut keys = boxed(alloc, KeyList::new(alloc))?;
    push_once(drawn, &order, &mut keys)?;
    Ok(keys)
}

// The places of keys, by the keys.
fn order_of(alloc: Global, drawn: &Texts) -> Result<Vec<usize>, AllocError> {
    let mut order = Vec::with_capacity(alloc, drawn.len())?;
    for i in 0..drawn.len() {
        order.push(i)?;
    }
    order.sort_by(|one, other| compare(drawn.get(*one), drawn.get(*other)))?;
    Ok(order)
}

// Adds the keys in an order, each once.
fn push_once(drawn: &Texts, order: &[usize], keys: &mut KeyList) -> Result<(), AllocError> {
    for i in order {
        let key = drawn.get(*i);
        if !is_last(keys, key) {
            keys.push(key)?;
        }
    }
    Ok(())
}

/// The keys of a list in one array.
pub fn texts_of(alloc: Global, keys: &KeyList) -> Result<Box<Texts>> {
    let mut texts = Texts::in_box(alloc)?;
    push_keys(keys, &mut texts)?;
    Ok(texts)
}

fn push_keys(keys: &KeyList, texts: &mut Texts) -> Result<()> {
    for i in 0..keys.len() {
        texts.push(keys.get(i))?;
    }
    Ok(())
}

// Whether a key is the last of a list.
fn is_last(keys: &KeyList, key: &[u8]) -> bool {
    let count = keys.len();
    count > 0 && keys.get(count - 1) == key
}

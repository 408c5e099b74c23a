//! Images of one filter, with each cutoff.
ghost use Rattle.std.specs.Prelude.{◌≤◌};
ghost use Rattle.filter_model.specs.Keys.{IsKeyList};
ghost use Rattle.key_base.specs.Limits.{max_hash_bits, max_real_bits};

use crate::asserts::{check_same, check_same_at, check_that};
use crate::both::{Succinct, checked};
use crate::changes::{mend, put_bytes};
use crate::scripts::VARIANTS;
use filter_api::Settings;
use filter_codec::encode;
use filter_model::are_keys;
use filter_trie::{Trie, build};
use key_base::{KeyList, MAX_HASH_BITS, MAX_REAL_BITS};
use key_truncate::truncate;
use plain_check::{Checked, KeptSum, Sizes, plain_check, sums_of};
use std::alloc::{AllocError, Global};
use std::process::Abort;
use std::test::Fail;
use store_core::Store;
use test_kit::{boxed, new_disk};
use trie_levels::{plan_spans, spans_of};

// Keys of some lengths that share what they begin with.
const WORDS: [&[u8]; 7] = [
    b"a", b"abandon", b"abbey", b"able", b"bee", b"beetle", b"zebra",
];

fn words(alloc: Global) -> Result<KeyList, Fail> {
    let mut keys = KeyList::new(alloc);
    for word in WORDS {
        keys.push(word)?;
    }
    Ok(keys)
}

// The trie of keys with its first `cutoff` levels dense, `None` where it has not so many.
fn planned(
    alloc: Global,
    keys: &KeyList,
    hash_bits: u8,
    real_bits: u8,
    cutoff: u16,
) -> Result<Option<Box<Trie<Global>>>, AllocError>
    requires keys { IsKeyList keys.now }
    requires hash_width { hash_bits ≤ max_hash_bits }
    requires real_width { real_bits ≤ max_real_bits }
{
    let stubs = truncate(alloc, keys)?;
    let spans = spans_of(alloc, keys, stubs.as_slice())?;
    let levels = plan_spans(alloc, spans.as_slice())?;
    if cutoff > levels.height() {
        return Ok(None);
    }
    let trie = build(alloc, keys, spans, &levels, hash_bits, real_bits, cutoff)?;
    Ok(Some(boxed(alloc, trie)?))
}

// The image of the filter of the words with this cutoff, none where the trie has not so many levels.
fn image(alloc: Global, settings: Settings, cutoff: u16) -> Result<Option<Vec<u8>>, Fail> {
    let keys = words(alloc)?;
    if !are_keys(&keys) {
        return Err(Fail::from("no key list"));
    }
    let hash_bits = settings.hash_bits.min(MAX_HASH_BITS);
    let real_bits = settings.real_bits.min(MAX_REAL_BITS);
    let Some(trie) = planned(alloc, &keys, hash_bits, real_bits, cutoff)? else {
        return Ok(None);
    };
    let mut bytes = Vec::new(alloc);
    encode(&*trie, &mut bytes)?;
    Ok(Some(bytes))
}

// The bytes of a store with one table of the words.
fn store_bytes(alloc: Global, settings: Settings) -> Result<Vec<u8>, Fail> {
    let mut disk = new_disk(alloc)?;
    Store::<Succinct>::format(alloc, &mut *disk, settings, 512)?;
    let mut store = Box::new(alloc, Store::<Succinct>::open_store(alloc, &mut *disk)?)?;
    for word in WORDS {
        store.put(&mut *disk, word, b"v")?;
    }
    store.flush(&mut *disk)?;
    Ok(Vec::from_slice(alloc, disk.bytes())?)
}

// The sums of such bytes, and the one of the filter, which is in a page: it comes third, after those of the block and the index.
fn filter_sum(sums: &[KeptSum]) -> Result<KeptSum, Fail> {
    match sums.get(2) {
        Some(sum) if sum.length <= 4_096 => Ok(*sum),
        _ => Err(Fail::from("no filter in one page")),
    }
}

// The store with this image in the place of its filter, and all sums made right.
fn grafted(alloc: Global, bytes: &[u8], image: &[u8]) -> Result<Vec<u8>, Fail> {
    let mut sums = sums_of(alloc, bytes)?;
    let filter = filter_sum(sums.as_slice())?;
    let mut bytes = Vec::from_slice(alloc, bytes)?;
    let length = image.len() as u64;
    put_bytes(bytes.as_mut_slice(), filter.from, image);
    put_bytes(
        bytes.as_mut_slice(),
        filter.at.saturating_sub(16),
        &length.to_le_bytes(),
    );
    if let Some(sum) = sums.get_mut(2) {
        sum.length = length;
    }
    mend(bytes.as_mut_slice(), sums.as_slice());
    Ok(bytes)
}

const ONE_TABLE: Sizes = Sizes {
    tables: 1,
    entries: 7,
    live: 7,
    log: 0,
};

// Checks the store of the words with each image of their filter. How many there are.
fn check_images(rt: &impl Abort, alloc: Global, settings: Settings) -> Result<u16, Fail> {
    let bytes = store_bytes(alloc, settings)?;
    for cutoff in 0..20 {
        let Some(image) = image(alloc, settings, cutoff)? else {
            return Ok(cutoff);
        };
        let grafted = grafted(alloc, bytes.as_slice(), image.as_slice())?;
        let found = checked(alloc, grafted.as_slice())?;
        check_same_at(rt, &cutoff, &found, &Checked::Sound(ONE_TABLE));
        check_same_at(
            rt,
            &cutoff,
            &found,
            &plain_check(alloc, grafted.as_slice())?,
        );
    }
    Err(Fail::from("too many levels"))
}

#[test]
fn a_filter_with_each_cutoff_is_clean(rt: HostRuntime) -> Result<(), Fail> {
    let alloc = rt.alloc();
    for settings in VARIANTS {
        check_same(&rt, &check_images(&rt, alloc, settings)?, &5);
    }
    check_that(&rt, true);
    Ok(())
}

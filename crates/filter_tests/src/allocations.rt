//! A filter whose allocations are refused from outside, one in turn: what wanted memory says so, and succeeds when it is made
//! again. The gate refuses none; `tools/refuse-allocations` refuses each. Where it is the test's own, the test ends with an error
//! and no failed assertion.

use super::filters::spelled;
use super::keys::list_of_words;
use super::tries::boxed;
use filter_api::{DecodeError, RangeFilter, Settings};
use filter_model::are_keys;
use key_base::KeyList;
use std::alloc::{AllocError, Global};
use std::test::Fail;
use surf_filter::SurfFilter;
use test_kit::is_not_the_last;

// Hash bits, real bits, and levels of both kinds.
const SETTINGS: Settings = Settings {
    hash_bits: 4,
    real_bits: 3,
    ratio: 16,
};

const WORDS: [&[u8]; 5] = [b"far", b"fast", b"s", b"top", b"toy"];

type Filter = SurfFilter<Global>;

// The filter of the keys, once more where memory was wanted.
fn built(alloc: Global, keys: &KeyList) -> Result<Box<Filter>, Fail> {
    if !are_keys(keys) || SETTINGS.check().is_err() {
        return Err(Fail::from("no key list"));
    }
    match <Filter as RangeFilter>::build(alloc, keys, SETTINGS) {
        Ok(filter) => Ok(boxed(alloc, filter)?),
        Err(_) => {
            let filter = <Filter as RangeFilter>::build(alloc, keys, SETTINGS)?;
            Ok(boxed(alloc, filter)?)
        }
    }
}

// Its image, once more where memory was wanted.
fn image_of(alloc: Global, filter: &Filter) -> Result<Vec<u8>, AllocError> {
    match spelled(alloc, filter) {
        Ok(image) => Ok(image),
        Err(_) => spelled(alloc, filter),
    }
}

// The filter that an image spells, once more where memory was wanted, or `None` where it is said to spell none.
fn read(alloc: Global, image: &[u8]) -> Result<Option<Box<Filter>>, Fail> {
    match SurfFilter::decode_in(alloc, image) {
        Ok(filter) => return Ok(Some(boxed(alloc, filter)?)),
        Err(DecodeError::Memory) => {}
        Err(DecodeError::Fault(_)) => return Ok(None),
    }
    match SurfFilter::decode_in(alloc, image) {
        Ok(filter) => Ok(Some(boxed(alloc, filter)?)),
        Err(_) => Ok(None),
    }
}

// Whether it holds its keys, and denies one below them and one above.
fn is_asked(filter: &Filter) -> bool {
    WORDS.iter().all(|word| filter.may_hold(word))
        && !filter.may_hold(b"a")
        && !filter.may_hold(b"zoo")
}

#[test]
fn each_allocation_of_a_filter_may_be_refused(rt: HostRuntime) -> Result<(), Fail> {
    let alloc = rt.alloc();
    let keys = list_of_words(alloc, &WORDS)?;
    let filter = built(alloc, &keys)?;
    let image = image_of(alloc, &filter)?;
    let again = read(alloc, &image)?;
    assert!(rt; is_asked(&filter));
    match again {
        Some(again) => {
            assert!(rt; is_asked(&again) && image_of(alloc, &again)? == image);
        }
        None => assert!(rt; false, "no image"),
    }
    assert!(rt; is_not_the_last(alloc), "the last allocation");
    Ok(())
}

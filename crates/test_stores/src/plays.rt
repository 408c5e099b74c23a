//! Scripts that are played.
//!
//! A state comes in a box, and so does what is played: a function that holds one is then proved soon.
use crate::stores::BASE;
use plain_filter::PlainFilter;
use plain_store::{Played, Request, State, play};
use std::alloc::{AllocError, Global};

/// The state of a new store of so many pages.
pub fn new_state(alloc: Global, pages: u64) -> Result<Box<State>, AllocError> {
    Ok(Box::new(alloc, State::new(alloc, BASE, pages))?)
}

/// The replies to some requests and the state behind them, with whole merges.
pub fn played(
    alloc: Global,
    state: &State,
    requests: &[Request<'_>],
) -> Result<Box<Played>, AllocError> {
    Ok(Box::new(alloc, play::<PlainFilter>(alloc, state, requests)?)?)
}

//! Scans over words and bytes, several at a time.
//!
//! Counts the set bits of words, finds the word that holds the nth of them, the first set bit at or behind a place and
//! the last one before it, and finds the first byte that equals a label or is not below it, in a slice or from place to
//! place in a longer section. Each answer is the plain one, at every length; bits are looked for in
//! fewer than 2^58 words. No call takes memory or fails.
//!
//! A search from place to place looks at 16 bytes at once, also where fewer are asked for and the section goes on: what
//! it reads behind the end it never answers.
//!
//! Do not use the label searches where the same bytes are asked often and are sorted: a binary search reads fewer of
//! them once there are some hundreds.
//!
//! ```text
//! ones(&[0xFF, 0x8000000000000001])            // 10
//! find_label(b"fstaorspy", b's')               // Some(1)
//! find_label_between(b"fstaorspy", 5, 7, b's') // Some(6)
//! find_label_between(b"fstaorspy", 0, 3, b'a') // None
//! word_with_nth_one(&[1, 0, 6], 2)             // Some((2, 1))
//! first_one_from(&[0xB9], 1)                   // Some(3)
//! last_one_before(&[0xB9], 3)                  // Some(0)
//! ```
#![tactic(auto)]

mod labels;
mod nth_one;
mod places;
mod words;

pub use labels::{find_label, find_label_between, first_at_least, first_at_least_between};
pub use nth_one::word_with_nth_one;
pub use places::{first_one_from, highest_one, last_one_before, lowest_one};
pub use words::{ones, ones_below};

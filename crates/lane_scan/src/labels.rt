//! Places of bytes.
ghost use Rattle.std.specs.Prelude.{◌≡◌, ℕ, ◌≤◌, ◌<◌, ◌+◌, ◌==◌, nat_le, length, position, MatchOption};
ghost use Rattle.std.specs.Slice.Scan.{HoldsNowhere};
ghost use Rattle.lane_scan.specs.Places.{is_label_at, is_least_at, IsFirstBetween, AreMarks};

use super::places::lowest_one;
use std::simd::u8x16;

// How many bytes are looked at in one step.
const GROUP: usize = 16;

/// The first place in `bytes` that holds `label`, or `None` where none does.
///
/// Looks at 16 bytes at a time, and byte by byte where there are fewer. Takes no memory.
pub fn find_label(bytes: &[u8], label: u8) -> Option<usize>
    ensures { result ≡ position (λ byte. byte == label) bytes.now }
{
    if bytes.len() < GROUP {
        label_by_bytes(bytes, 0, bytes.len(), label)
    } else {
        find_label_between(bytes, 0, bytes.len(), label)
    }
}

/// The first place in `bytes` that holds `label` or more, or `None` where none does.
///
/// Looks at 16 bytes at a time, and byte by byte where there are fewer. Takes no memory.
pub fn first_at_least(bytes: &[u8], label: u8) -> Option<usize>
    ensures { result ≡ position (λ byte. nat_le label byte) bytes.now }
{
    if bytes.len() < GROUP {
        least_by_bytes(bytes, 0, bytes.len(), label)
    } else {
        first_at_least_between(bytes, 0, bytes.len(), label)
    }
}

/// The first place of `section` from `start` on and before `end` that holds `label`, or `None` where none does.
///
/// Looks at 16 bytes at a time, at those behind `end` too where the section goes on, and byte by byte in a section of
/// fewer. Takes no memory.
pub fn find_label_between(section: &[u8], start: usize, end: usize, label: u8) -> Option<usize>
    requires order { start ≤ end }
    requires there { end ≤ length section.now }
    ensures { MatchOption result (HoldsNowhere (is_label_at section.now label) start end) (IsFirstBetween (is_label_at section.now label) start end) }
{
    for i in 0..(end - start).div_ceil(GROUP) {
        let at = start + GROUP * i;
        if section.len() - at < GROUP {
            return label_in_rest(section, at, end, label);
        }
        let marks = labels_at(section, at, label);
        if marks != 0 {
            return before_end(at + lowest_one(marks), end);
        }
    }
    None
}

/// The first place of `section` from `start` on and before `end` that holds `label` or more, or `None` where none does.
///
/// Looks at 16 bytes at a time, at those behind `end` too where the section goes on, and byte by byte in a section of
/// fewer. Takes no memory.
pub fn first_at_least_between(section: &[u8], start: usize, end: usize, label: u8) -> Option<usize>
    requires order { start ≤ end }
    requires there { end ≤ length section.now }
    ensures { MatchOption result (HoldsNowhere (is_least_at section.now label) start end) (IsFirstBetween (is_least_at section.now label) start end) }
{
    for i in 0..(end - start).div_ceil(GROUP) {
        let at = start + GROUP * i;
        if section.len() - at < GROUP {
            return least_in_rest(section, at, end, label);
        }
        let marks = least_at(section, at, label);
        if marks != 0 {
            return before_end(at + lowest_one(marks), end);
        }
    }
    None
}

// The place, if it stands before `end`.
fn before_end(place: usize, end: usize) -> Option<usize>
    ensures { MatchOption result (end ≤ place) (λ found. (found ≡ place) × (found < end)) }
{
    if place < end { Some(place) } else { None }
}

// Which of the 16 bytes from `at` on are `label`: a bit for each, the first the lowest.
fn labels_at(section: &[u8], at: usize, label: u8) -> u64
    requires { at + 16 ≤ length section.now }
    ensures { AreMarks (is_label_at section.now label) at 16 result }
{
    let lanes = u8x16::from_slice(&section[at..]);
    lanes.simd_eq(u8x16::splat(label)).to_bitmask()
}

// Which of the 16 bytes from `at` on are `label` or more: a bit for each, the first the lowest.
fn least_at(section: &[u8], at: usize, label: u8) -> u64
    requires { at + 16 ≤ length section.now }
    ensures { AreMarks (is_least_at section.now label) at 16 result }
{
    let lanes = u8x16::from_slice(&section[at..]);
    lanes.simd_ge(u8x16::splat(label)).to_bitmask()
}

// The first `label` from `at` on, behind which the section ends within 16 bytes: by its last 16 bytes.
fn label_in_rest(section: &[u8], at: usize, end: usize, label: u8) -> Option<usize>
    requires near { length section.now < at + 16 }
    requires order { at ≤ end }
    requires there { end ≤ length section.now }
    ensures { MatchOption result (HoldsNowhere (is_label_at section.now label) at end) (IsFirstBetween (is_label_at section.now label) at end) }
{
    if section.len() < GROUP {
        return label_by_bytes(section, at, end, label);
    }
    let last = section.len() - GROUP;
    let marks = labels_at(section, last, label) >> (at - last);
    if marks == 0 {
        return None;
    }
    before_end(at + lowest_one(marks), end)
}

// The first byte from `at` on that is `label` or more, where the section ends within 16 bytes: by its last 16 bytes.
fn least_in_rest(section: &[u8], at: usize, end: usize, label: u8) -> Option<usize>
    requires near { length section.now < at + 16 }
    requires order { at ≤ end }
    requires there { end ≤ length section.now }
    ensures { MatchOption result (HoldsNowhere (is_least_at section.now label) at end) (IsFirstBetween (is_least_at section.now label) at end) }
{
    if section.len() < GROUP {
        return least_by_bytes(section, at, end, label);
    }
    let last = section.len() - GROUP;
    let marks = least_at(section, last, label) >> (at - last);
    if marks == 0 {
        return None;
    }
    before_end(at + lowest_one(marks), end)
}

// The first `label`, byte by byte.
fn label_by_bytes(section: &[u8], start: usize, end: usize, label: u8) -> Option<usize>
    requires { end ≤ length section.now }
    ensures { MatchOption result (HoldsNowhere (is_label_at section.now label) start end) (IsFirstBetween (is_label_at section.now label) start end) }
{
    for i in start..end {
        if section[i] == label {
            return Some(i);
        }
    }
    None
}

// The first byte that is `label` or more, byte by byte.
fn least_by_bytes(section: &[u8], start: usize, end: usize, label: u8) -> Option<usize>
    requires { end ≤ length section.now }
    ensures { MatchOption result (HoldsNowhere (is_least_at section.now label) start end) (IsFirstBetween (is_least_at section.now label) start end) }
{
    for i in start..end {
        if section[i] >= label {
            return Some(i);
        }
    }
    None
}

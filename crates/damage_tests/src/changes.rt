//! Bytes that are changed, and sums that are made right.
use byte_fields::fnv1a;
use plain_check::KeptSum;
use test_kit::Numbers;

// Where the log areas and the gates of the slots are.
const PLACES: [u64; 4] = [262_144, 524_288, 0, 131_072];

// A place in a part that has a sum, often among its first bytes; or in a log area, or a gate.
fn draw_place(sums: &[KeptSum], numbers: &mut Numbers) -> u64 {
    let number = numbers.draw_below(sums.len().saturating_add(2) as u64);
    let short = numbers.draw_below(2) == 0;
    match sums.get(number) {
        Some(sum) => {
            let length = if short {
                sum.length.min(64)
            } else {
                sum.length
            };
            sum.from.saturating_add(numbers.draw_below(length) as u64)
        }
        None => {
            let which = numbers.draw_below(4);
            let place = PLACES.get(which).copied().unwrap_or(0);
            let most = if which < 2 { 200 } else { 1 };
            place.saturating_add(numbers.draw_below(most) as u64)
        }
    }
}

// Another byte: one beside it, one with another bit, or any.
fn draw_byte(old: u8, numbers: &mut Numbers) -> u8 {
    let drawn = numbers.draw_to(255) as u8;
    match numbers.draw_below(4) {
        0 => old.wrapping_add(1),
        1 => old.wrapping_sub(1),
        2 => old ^ (1 << (drawn % 8)),
        _ => drawn,
    }
}

fn change_one(bytes: &mut [u8], sums: &[KeptSum], numbers: &mut Numbers) {
    let place = draw_place(sums, numbers);
    if let Some(byte) = bytes.get_mut(place as usize) {
        *byte = draw_byte(*byte, numbers);
    }
}

/// Changes one byte to three.
pub fn change(bytes: &mut [u8], sums: &[KeptSum], numbers: &mut Numbers) {
    for _ in 0..=numbers.draw_below(3) {
        change_one(bytes, sums, numbers);
    }
}

/// Puts some bytes at a place, as far as there are bytes.
pub fn put_bytes(bytes: &mut [u8], at: u64, with: &[u8]) {
    for (i, new) in with.iter().enumerate() {
        if let Some(byte) = bytes.get_mut((at as usize).saturating_add(i)) {
            *byte = *new;
        }
    }
}

// The sum of some bytes, none where there are not so many.
fn seen(bytes: &[u8], sum: KeptSum) -> Option<u64> {
    let end = sum.from.saturating_add(sum.length);
    match bytes.get(sum.from as usize..end as usize) {
        Some(part) => Some(fnv1a(part)),
        None => None,
    }
}

// Makes one sum right.
fn mend_one(bytes: &mut [u8], sum: KeptSum) {
    if let Some(seen) = seen(bytes, sum) {
        put_bytes(bytes, sum.at, &seen.to_le_bytes());
    }
}

/// Makes all these sums right, in their order.
pub fn mend(bytes: &mut [u8], sums: &[KeptSum]) {
    for sum in sums {
        mend_one(bytes, *sum);
    }
}

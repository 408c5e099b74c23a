//! The plain scalar loops that the kernels are measured against.

/// The set bits at places below `i`, word by word from the first on.
#[inline(never)]
pub fn rank(words: &[u64], i: usize) -> u64 {
    let mut total = 0u64;
    for (k, word) in words.iter().enumerate() {
        if k == i / 64 {
            let part = *word & ((1 << (i % 64)) - 1);
            return total.wrapping_add(u64::from(part.count_ones()));
        }
        total = total.wrapping_add(u64::from(word.count_ones()));
    }
    total
}

/// The place of the nth set bit, word by word from the first on, and bit by bit in its word.
#[inline(never)]
pub fn select(words: &[u64], n: u64) -> Option<u64> {
    let mut left = n;
    let mut place = 0u64;
    for word in words {
        let count = u64::from(word.count_ones());
        if left < count {
            return Some(place.wrapping_add(nth_bit(*word, left)));
        }
        left -= count;
        place = place.wrapping_add(64);
    }
    None
}

// The place of the nth set bit of a word, bit by bit.
fn nth_bit(word: u64, n: u64) -> u64 {
    let mut left = n;
    for place in 0..64 {
        if word >> place & 1 == 1 {
            if left == 0 {
                return place;
            }
            left -= 1;
        }
    }
    64
}

/// The set bits of the words, word by word.
#[inline(never)]
pub fn ones(words: &[u64]) -> u64 {
    let mut total = 0u64;
    for word in words {
        total = total.wrapping_add(u64::from(word.count_ones()));
    }
    total
}

/// The first place of a label, byte by byte.
#[inline(never)]
pub fn find_label(bytes: &[u8], label: u8) -> Option<usize> {
    for (i, byte) in bytes.iter().enumerate() {
        if *byte == label {
            return Some(i);
        }
    }
    None
}

/// The first set bit at a place or behind it, bit by bit.
#[inline(never)]
pub fn first_one_from(words: &[u64], start: usize) -> Option<usize> {
    for i in start..usize::MAX {
        if words.get(i / 64)? >> (i % 64) & 1 == 1 {
            return Some(i);
        }
    }
    None
}

/// The last set bit before a place, bit by bit.
#[inline(never)]
pub fn last_one_before(words: &[u64], end: usize) -> Option<usize> {
    for i in (0..end).rev() {
        let word = words.get(i / 64).copied().unwrap_or(0);
        if word >> (i % 64) & 1 == 1 {
            return Some(i);
        }
    }
    None
}

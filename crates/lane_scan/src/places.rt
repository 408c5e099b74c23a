//! Places of set bits.
ghost use Rattle.std.specs.Prelude.{◌≡◌, ℕ, ◌≤◌, ◌<◌, ◌+◌, ◌*◌, ◌^◌, length, MatchOption};
ghost use Rattle.std.specs.Int.{bit_at};
ghost use Rattle.std.specs.Slice.Scan.{HoldsNowhere};
ghost use Rattle.lane_scan.specs.Places.{is_one_at, IsFirstBetween, IsLastBetween};

/// The first set bit of `words` at place `start` or behind it, or `None` where none is set there. Bit `i` is bit
/// `i mod 64` of word `i / 64`.
///
/// Looks at one word after the other, of which there are fewer than 2^58. Takes no memory.
pub fn first_one_from(words: &[u64], start: usize) -> Option<usize>
    requires { length words.now < 2 ^ 58 }
    ensures { MatchOption result (HoldsNowhere (is_one_at words.now) start (64 * length words.now)) (IsFirstBetween (is_one_at words.now) start (64 * length words.now)) }
{
    let first = start / 64;
    if first >= words.len() {
        return None;
    }
    let part = words[first] >> (start % 64);
    if part != 0 {
        return Some(start + lowest_one(part));
    }
    first_one_behind(words, first + 1)
}

// The first set bit behind the first `count` words.
fn first_one_behind(words: &[u64], count: usize) -> Option<usize>
    requires { length words.now < 2 ^ 58 }
    ensures { MatchOption result (HoldsNowhere (is_one_at words.now) (64 * count) (64 * length words.now)) (IsFirstBetween (is_one_at words.now) (64 * count) (64 * length words.now)) }
{
    for i in count..words.len() {
        if words[i] != 0 {
            return Some(64 * i + lowest_one(words[i]));
        }
    }
    None
}

/// The last set bit of `words` before place `end`, or `None` where none is set there. Bit `i` is bit `i mod 64` of word
/// `i / 64`.
///
/// Looks at one word after the other, of which there are fewer than 2^58. Takes no memory.
pub fn last_one_before(words: &[u64], end: usize) -> Option<usize>
    requires { length words.now < 2 ^ 58 }
    ensures { MatchOption result (HoldsNowhere (is_one_at words.now) 0 end) (IsLastBetween (is_one_at words.now) 0 end) }
{
    let last = end / 64;
    if last < words.len() {
        let part = words[last] & ((1 << (end % 64)) - 1);
        if part != 0 {
            return Some(64 * last + highest_one(part));
        }
    }
    last_one_of(words, last.min(words.len()))
}

// The last set bit of the first `count` words.
fn last_one_of(words: &[u64], count: usize) -> Option<usize>
    requires few { length words.now < 2 ^ 58 }
    requires there { count ≤ length words.now }
    ensures { MatchOption result (HoldsNowhere (is_one_at words.now) 0 (64 * count)) (IsLastBetween (is_one_at words.now) 0 (64 * count)) }
{
    for i in (0..count).rev() {
        if words[i] != 0 {
            return Some(64 * i + highest_one(words[i]));
        }
    }
    None
}

/// The place of the lowest set bit of a word that has one.
pub fn lowest_one(word: u64) -> usize
    requires { 0 < word }
    ensures place { result < 64 }
    ensures is_set { bit_at word result ≡ 1 }
    ensures before { (j : ℕ) → j < result → bit_at word j ≡ 0 }
{
    word.trailing_zeros() as usize
}

/// The place of the highest set bit of a word that has one.
pub fn highest_one(word: u64) -> usize
    requires { 0 < word }
    ensures place { result < 64 }
    ensures is_set { bit_at word result ≡ 1 }
    ensures behind { (j : ℕ) → result < j → bit_at word j ≡ 0 }
{
    63 - word.leading_zeros() as usize
}

//! The word with the nth set bit, where it may be far off.
ghost use Rattle.std.specs.Prelude.{◌≡◌, ◌≤◌, ◌+◌, length, count_ones, MatchOption};
ghost use Rattle.std.specs.List.{sum_by};
ghost use Rattle.lane_scan.specs.Ones.{IsWordOfOne, ones_before};

// How many words are looked at one by one: mostly the bit is in one of them.
const NEAR: usize = 4;

// How many words are passed by at once behind these.
const EIGHT: usize = 8;

/// The word that holds the nth set bit, from 0, and `n` less the set bits of the words before it; `None` where at most
/// `n` bits are set.
///
/// Counts the first four words one by one, and those behind them eight at a time, up to the one with the bit. Takes no
/// memory.
pub fn word_with_nth_one(words: &[u64], n: u64) -> Option<(usize, u64)>
    ensures { MatchOption result (sum_by count_ones words.now ≤ n) (λ found. IsWordOfOne words.now n found.0 found.1) }
{
    let near = words.len().min(NEAR);
    let mut left = n;
    for i in 0..near {
        let count = u64::from(words[i].count_ones());
        if left < count {
            return Some((i, left));
        }
        left -= count;
    }
    word_with_nth_one_from(words, near, left)
}

// The same from word `start` on, whose first set bit has the number 0.
fn word_with_nth_one_from(words: &[u64], start: usize, n: u64) -> Option<(usize, u64)>
    requires { start ≤ length words.now }
    ensures { MatchOption result (sum_by count_ones words.now ≤ ones_before words.now start + n) (λ found. IsWordOfOne words.now (ones_before words.now start + n) found.0 found.1) }
{
    let (first, behind) = eights_passed(words, start, n);
    let mut rest = behind;
    for k in first..words.len() {
        let count = u64::from(words[k].count_ones());
        if rest < count {
            return Some((k, rest));
        }
        rest -= count;
    }
    None
}

// Passes by eight words at a time from `start` on, as long as they have at most as many set bits as are left of `n`: the
// word behind them, and what is left.
fn eights_passed(words: &[u64], start: usize, n: u64) -> (usize, u64)
    requires { start ≤ length words.now }
    ensures there { result.0 ≤ length words.now }
    ensures left { ones_before words.now result.0 + result.1 ≡ ones_before words.now start + n }
{
    let eights = (words.len() - start) / EIGHT;
    let mut left = n;
    for i in 0..eights {
        let count = ones_in_eight(words, start + EIGHT * i);
        if left < count {
            return (start + EIGHT * i, left);
        }
        left -= count;
    }
    (start + EIGHT * eights, left)
}

// How many bits are set in the eight words from `at` on.
fn ones_in_eight(words: &[u64], at: usize) -> u64
    requires { at + EIGHT ≤ length words.now }
    ensures { ones_before words.now at + result ≡ ones_before words.now (at + EIGHT) }
{
    let mut total = 0;
    for i in at..at + EIGHT {
        total += u64::from(words[i].count_ones());
    }
    total
}

//! The word of a set bit that is near, found without a test of each word.
ghost use Rattle.std.specs.Prelude.{◌≡◌, ◌≤◌, cond, count_ones, nat_le, length, IfSome};
ghost use Rattle.lane_scan.specs.Ones.{IsWordOfOne, ones_before};

// How many words are counted at once.
const NEAR: usize = 4;

/// A word with a wanted bit: how many of its set bits stand before that one, and how many are set in the words beside those
/// before it.
#[derive(Clone, Copy)]
pub(crate) struct NearWord {
    pub(crate) word: usize,
    pub(crate) left: u64,
    pub(crate) beside: u64,
}

// The count, if the first `bound` set bits are passed on the way to the nth.
fn if_passed(n: u64, bound: u64, count: u64) -> u64
    ensures { result ≡ cond (nat_le bound n) count 0 }
{
    if n >= bound { count } else { 0 }
}

// How many bits of a word are set.
fn ones_of(word: u64) -> u64
    ensures count { result ≡ count_ones word }
    ensures few { result ≤ 64 }
{
    u64::from(word.count_ones())
}

/// The word that holds the nth set bit, from 0, where it is one of the first four, and what is set in those of `beside`
/// before it. `None` where it is none of them, or the words are fewer than four.
pub(crate) fn word_near(words: &[u64], beside: &[u64], n: u64) -> Option<NearWord>
    requires { length beside.now ≡ length words.now }
    ensures word { IfSome result (λ near. IsWordOfOne words.now n near.word near.left) }
    ensures beside { IfSome result (λ near. near.beside ≡ ones_before beside.now near.word) }
    ensures few { IfSome result (λ near. near.beside ≤ 192) }
{
    if words.len() < NEAR {
        return None;
    }
    let first = ones_of(words[0]);
    let second = first + ones_of(words[1]);
    let third = second + ones_of(words[2]);
    if n >= third + ones_of(words[3]) {
        return None;
    }
    let passed = if_passed(n, first, first)
        + if_passed(n, second, second - first)
        + if_passed(n, third, third - second);
    Some(NearWord {
        word: (if_passed(n, first, 1) + if_passed(n, second, 1) + if_passed(n, third, 1)) as usize,
        left: n - passed,
        beside: if_passed(n, first, ones_of(beside[0]))
            + if_passed(n, second, ones_of(beside[1]))
            + if_passed(n, third, ones_of(beside[2])),
    })
}

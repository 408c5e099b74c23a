//! The nth set bit of a word.
ghost use Rattle.std.specs.Prelude.{◌≡◌, ◌≤◌, ◌<◌, ◌+◌, ◌*◌, ◌%◌, ◌/◌, ◌^◌, count_ones};
ghost use Rattle.std.specs.Int.{bit_at};

use super::byte::nth_one_in_byte;
use lane_scan::ones_below;

// A part of a word that begins at `place`, and how many of its set bits stand before the wanted one.
#[derive(Clone, Copy)]
struct Window {
    place: usize,
    left: u64,
}

// The half of the window of `2 * width` bits that holds the wanted bit.
fn halved(word: u64, window: Window, width: usize) -> Window
    requires room { window.place + 2 * width ≤ 64 }
    requires width { (0 < width) × (width < 64) }
    requires holds { window.left < count_ones (word / 2 ^ window.place % 2 ^ (2 * width)) }
    ensures place { result.place ≤ window.place + width }
    ensures before { count_ones (word % 2 ^ result.place) + result.left ≡ count_ones (word % 2 ^ window.place) + window.left }
    ensures holds { result.left < count_ones (word / 2 ^ result.place % 2 ^ width) }
{
    let count = ones_below(word >> window.place, width);
    if window.left < count {
        window
    } else {
        Window {
            place: window.place + width,
            left: window.left - count,
        }
    }
}

/// The place of the nth set bit of `word`, from 0.
pub(crate) fn nth_one_in(word: u64, n: u64) -> usize
    requires { n < count_ones word }
    ensures place { result < 64 }
    ensures is_set { bit_at word result ≡ 1 }
    ensures before { count_ones (word % 2 ^ result) ≡ n }
{
    let whole = Window { place: 0, left: n };
    let half = halved(word, whole, 32);
    let quarter = halved(word, half, 16);
    let byte = halved(word, quarter, 8);
    byte.place + nth_one_in_byte((word >> byte.place & 0xFF) as u8, byte.left)
}

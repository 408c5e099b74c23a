//! One range more.
ghost use Rattle.std.specs.Prelude.{◌≡◌, ◌≤◌, ◌<◌, ◌+◌, not, ◌&&◌, fold, vec_len, vec_capacity};
ghost use Rattle.key_base.specs.ByteOrder.{is_before};
ghost use Rattle.range_model.specs.Ranges.{with_range};

use crate::range::DeletedRange;

// Adds a range to ranges with a spare place: it is joined with those that it meets or touches.
pub(crate) fn add_to(ranges: &mut Vec<DeletedRange>, range: DeletedRange)
    requires room { vec_len ranges.old < vec_capacity ranges.old }
    ensures added { ranges.new.items ≡ with_range ranges.old.items range }
    ensures one_more { vec_len ranges.new ≤ vec_len ranges.old + 1 }
    ensures within { vec_len ranges.new ≤ vec_capacity ranges.new }
    ensures capacity { vec_capacity ranges.old ≤ vec_capacity ranges.new }
{
    let mut range = range;
    let mut at = 0;
    while at < ranges.len() && !goes_between(&ranges[at], &range) {
        if ranges[at].ends_below(&range) {
            at += 1;
        } else {
            let met = ranges.remove(at);
            range = met.joined(range);
        }
    }
    match ranges.insert(at, range) {
        Ok(()) => {}
        Err(_) => unreachable!(),
    }
}

// Whether a range has its place right before the one at hand, which it does not meet.
fn goes_between(here: &DeletedRange, range: &DeletedRange) -> bool
    ensures { result ≡ (not (is_before here.now.hi range.now.lo) && is_before range.now.hi here.now.lo) }
{
    !here.ends_below(range) && range.ends_below(here)
}

// Adds ranges, one after the other, to others with as many spare places.
pub(crate) fn add_all(ranges: &mut Vec<DeletedRange>, more: Vec<DeletedRange>)
    requires room { vec_len ranges.old + vec_len more ≤ vec_capacity ranges.old }
    ensures added { ranges.new.items ≡ fold with_range ranges.old.items more.items }
    ensures within { vec_len ranges.new ≤ vec_capacity ranges.new }
    ensures capacity { vec_capacity ranges.old ≤ vec_capacity ranges.new }
{
    for range in more {
        add_to(ranges, range);
    }
}

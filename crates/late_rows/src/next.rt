//! Which sleeper wakes next.
ghost use Rattle.std.specs.Prelude.{◌<◌, ◌+◌, length, map, IfSome};
ghost use Rattle.std.specs.Option.{option_map};
ghost use Rattle.late_rows.specs.Late.{IsNext, IsNextOf};

use key_base::compare;

/// The place of a sleeper of which no other one has a lesser waking key; `None` where all are awake.
pub(crate) fn next_of(asleep: &[Option<Vec<u8>>]) -> Option<usize>
    ensures next { IsNext (map (λ o. option_map (λ v. v.items) o) asleep.now) result }
    ensures there { IfSome result (λ at. at < length asleep.now) }
{
    let mut next = None;
    for at in 0..asleep.len() {
        next = sooner(asleep, next, at);
    }
    next
}

// The one of two places whose walk wakes first.
fn sooner(asleep: &[Option<Vec<u8>>], next: Option<usize>, at: usize) -> Option<usize>
    requires here { at < length asleep.now }
    requires there { IfSome next (λ other. other < length asleep.now) }
    requires next { IsNextOf at (map (λ o. option_map (λ v. v.items) o) asleep.now) next }
    ensures there { IfSome result (λ other. other < length asleep.now) }
    ensures next { IsNextOf (at + 1) (map (λ o. option_map (λ v. v.items) o) asleep.now) result }
{
    let Some(key) = &asleep[at] else {
        return next;
    };
    let Some(other) = next else {
        return Some(at);
    };
    let Some(least) = &asleep[other] else {
        return Some(at);
    };
    if compare(key, least).is_lt() {
        return Some(at);
    }
    Some(other)
}

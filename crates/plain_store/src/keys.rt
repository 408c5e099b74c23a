//! Keys and their order.
ghost use Rattle.std.specs.Prelude.{◌≡◌, Some};
ghost use Rattle.map_model.specs.Slices.{is_before, is_between};
ghost use Rattle.state_model.specs.Merges.{greater_key, lesser_key};

/// Whether `x` comes before `y`: byte by byte, a proper prefix first.
pub(crate) fn is_before(x: &[u8], y: &[u8]) -> bool
    ensures { result ≡ is_before x.now y.now }
{
    x.cmp(y).is_lt()
}

/// Whether the key lies between the two, both included.
pub(crate) fn is_between(lo: &[u8], hi: &[u8], key: &[u8]) -> bool
    ensures { result ≡ is_between lo.now (Some hi.now) key.now }
{
    !is_before(key, lo) && !is_before(hi, key)
}

/// The lesser of two keys.
pub(crate) fn lesser<'a>(x: &'a [u8], y: &'a [u8]) -> &'a [u8]
    ensures { result.now ≡ lesser_key x.now y.now }
{
    if is_before(y, x) { y } else { x }
}

/// The greater of two keys.
pub(crate) fn greater<'a>(x: &'a [u8], y: &'a [u8]) -> &'a [u8]
    ensures { result.now ≡ greater_key x.now y.now }
{
    if is_before(x, y) { y } else { x }
}

//! The keys of an index rise.
ghost use Rattle.std.specs.Prelude.{◌≡◌};

use key_base::compare;

/// What comes before a last key in an index: the table's least key, or the last key of the block before.
#[derive(Clone, Copy)]
pub(crate) enum BeforeLast<'a> {
    Least(&'a [u8]),
    Last(&'a [u8]),
}

impl<'a> BeforeLast<'a> {
    ghost use Rattle.table_file.specs.BeforeLast.{passes};

    /// Whether this key may follow: not below the least key, above another last one.
    pub(crate) fn allows(self, key: &[u8]) -> bool
        ensures { result ≡ passes self.entry key.now }
    {
        match self {
            BeforeLast::Least(least) => compare(key, least).is_ge(),
            BeforeLast::Last(last) => compare(last, key).is_lt(),
        }
    }
}

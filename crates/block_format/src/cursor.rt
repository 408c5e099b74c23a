//! The entries of a block of either format, one after the other, while each key is built in a buffer of the cursor's own.
ghost use Rattle.std.specs.Prelude.{◌≡◌, ◌∷◌, [], Some, None, MatchOption, is_some};
ghost use Rattle.std.specs.Option.{option_map};
ghost use Rattle.entry_model.specs.Entries.{entry_of};
ghost use Rattle.block_format.specs.Walking.{StandsAfter, walked};

use crate::walk::{EntryWalk, ValuePlace, value_of};
use key_base::MAX_KEY_BYTES;
use std::marker::Model;

/// A walk over the entries of a block of either format, seen as the entry at hand and those that are still to come.
#[derive(Drop)]
pub struct BlockCursor<'a> {
    bytes: &'a [u8],
    walk: EntryWalk,
    // the key at hand is at its front
    buffer: [u8; MAX_KEY_BYTES],
    place: Option<Option<ValuePlace>>,
}

impl<'a> Model for BlockCursor<'a> {
    ghost use Rattle.std.specs.Prelude.{IfSome};
    ghost use Rattle.block_format.specs.Walking.{EntriesLeft, LiesIn, StandsAfter, at_hand, key_held, walked};

    ghost Value = { EntriesLeft };

    ghost view = { λ c. record { now = at_hand c.place (key_held c.walk c.buffer) c.bytes.now; later = walked c.walk c.buffer c.bytes.now } };

    ghost invariant = { λ c. StandsAfter c.walk c.buffer c.bytes.now × IfSome c.place (λ v. LiesIn v c.bytes.now) };
}

impl<'a> BlockCursor<'a> {
    /// None at hand, and those to come that a walk comes by after the key in a buffer.
    pub(crate) fn new(
        bytes: &'a [u8],
        walk: EntryWalk,
        buffer: [u8; MAX_KEY_BYTES],
    ) -> BlockCursor<'a>
        requires { StandsAfter walk buffer bytes.now }
        ensures { result ≡ record { now = None; later = walked walk buffer bytes.now } }
    {
        BlockCursor {
            bytes,
            walk,
            buffer,
            place: None,
        }
    }

    /// Takes the first entry that is still to come at hand, and answers whether there was one. Its key is built in the cursor.
    pub fn advance(&mut self) -> bool
        ensures said { result ≡ is_some self.new.now }
        ensures goes_on { MatchOption self.new.now ((self.old.later ≡ []) × (self.new.later ≡ [])) (λ e. self.old.later ≡ e ∷ self.new.later) }
    {
        let place = self.walk.advance(self.bytes, &mut self.buffer);
        self.place = place;
        place.is_some()
    }

    /// The entry at hand: its key lies in the cursor, its value in the block.
    pub fn entry(&self) -> Option<(&[u8], Option<&'a [u8]>)>
        ensures { option_map (λ found. entry_of found.0.now (option_map (λ v. v.now) found.1)) result ≡ self.now.now }
    {
        match self.place {
            Some(place) => Some((self.walk.key(&self.buffer), value_of(place, self.bytes))),
            None => None,
        }
    }
}

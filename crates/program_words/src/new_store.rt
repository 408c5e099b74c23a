//! What a new store is asked to be, and the first of its numbers that is out of range.
ghost use Rattle.std.specs.Prelude.{◌≡◌, None, Some, IfOk, MatchResult};
ghost use Rattle.program_words.specs.NewStores.{IsStoreOf, first_bad_word};

use crate::wanted_settings::WantedSettings;
use filter_api::{Field, Settings};
use key_base::{MAX_DEVICE_PAGES, MIN_DEVICE_PAGES};

/// What the words of a `format` name, in range or not.
#[derive(Clone, Copy, Debug, PartialEq, Eq)]
pub struct Wanted {
    pub pages: u64,
    pub settings: WantedSettings,
}

/// A store that is to be made: its pages of 4,096 bytes and the settings of its filters, all in range.
#[derive(Clone, Copy, Debug, PartialEq, Eq)]
pub struct NewStore {
    pub pages: u64,
    pub settings: Settings,
}

impl Wanted {
    /// The store that is wanted, or the first field that is out of range: pages, then the settings.
    pub fn checked(&self) -> Result<NewStore, Field>
        ensures range { MatchResult result (λ _. first_bad_word self.now ≡ None) (λ field. first_bad_word self.now ≡ Some field) }
        ensures store { IfOk result (IsStoreOf self.now) }
    {
        if self.pages < u64::from(MIN_DEVICE_PAGES) || self.pages > u64::from(MAX_DEVICE_PAGES) {
            return Err(Field::Pages);
        }
        let settings = self.settings.checked()?;
        Ok(NewStore {
            pages: self.pages,
            settings,
        })
    }
}

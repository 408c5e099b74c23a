//! What words name of filters, and the first of their numbers that is out of range.
ghost use Rattle.std.specs.Prelude.{◌≡◌, None, Some, IfOk, MatchResult};
ghost use Rattle.program_words.specs.WantedSettings.{AreSettingsOf, first_bad_setting, named_hash_bits, named_real_bits, variant_named};

use filter_api::{Field, Settings};
use key_base::{MAX_HASH_BITS, MAX_RATIO, MAX_REAL_BITS};

/// Which suffix bits the leaves of a filter have.
#[derive(Clone, Copy, Debug, PartialEq, Eq)]
pub enum Variant {
    /// None.
    Base,
    /// Bits of the key's hash.
    Hash,
    /// Bits of the key behind its stub.
    Real,
    /// Both.
    Mixed,
}

/// What the words of a `format` and of a `settings` name of the filters, in range or not.
#[derive(Clone, Copy, Debug, PartialEq, Eq)]
pub struct WantedSettings {
    /// None where the word is none of the four.
    pub variant: Option<Variant>,
    pub hash_bits: u64,
    pub real_bits: u64,
    pub ratio: u64,
}

impl Variant {
    /// The variant of this name.
    pub fn named(name: &str) -> Option<Variant>
        ensures { result ≡ variant_named name.now }
    {
        match name {
            "base" => Some(Variant::Base),
            "hash" => Some(Variant::Hash),
            "real" => Some(Variant::Real),
            "mixed" => Some(Variant::Mixed),
            _ => None,
        }
    }

    // The hash bits that it has of so many, and the real bits. What a variant does not have is not looked at.
    fn hash_bits(self, named: u64) -> u64
        ensures { result ≡ named_hash_bits self named }
    {
        match self {
            Variant::Base | Variant::Real => 0,
            Variant::Hash | Variant::Mixed => named,
        }
    }

    fn real_bits(self, named: u64) -> u64
        ensures { result ≡ named_real_bits self named }
    {
        match self {
            Variant::Base | Variant::Hash => 0,
            Variant::Real | Variant::Mixed => named,
        }
    }
}

impl WantedSettings {
    /// The settings that are named, or the first field that is out of range: variant, hash bits, real bits, ratio.
    pub fn checked(&self) -> Result<Settings, Field>
        ensures range { MatchResult result (λ _. first_bad_setting self.now ≡ None) (λ field. first_bad_setting self.now ≡ Some field) }
        ensures settings { IfOk result (AreSettingsOf self.now) }
    {
        let Some(variant) = self.variant else {
            return Err(Field::Variant);
        };
        let hash_bits = variant.hash_bits(self.hash_bits);
        if hash_bits > u64::from(MAX_HASH_BITS) {
            return Err(Field::HashBits);
        }
        let real_bits = variant.real_bits(self.real_bits);
        if real_bits > u64::from(MAX_REAL_BITS) {
            return Err(Field::RealBits);
        }
        if self.ratio > u64::from(MAX_RATIO) {
            return Err(Field::Ratio);
        }
        Ok(Settings {
            hash_bits: hash_bits as u8,
            real_bits: real_bits as u8,
            ratio: self.ratio as u16,
        })
    }
}

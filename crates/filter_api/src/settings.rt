//! The settings of a filter.
ghost use Rattle.std.specs.Prelude.{◌≡◌, ◌<◌, ◌≤◌, ◌↔◌, IsOk};

use byte_fields::Row;
use key_base::{MAX_HASH_BITS, MAX_REAL_BITS};

/// How many suffix bits each leaf has, and how many sparse bits a dense bit may cost.
#[derive(Clone, Copy, Debug, PartialEq, Eq)]
pub struct Settings {
    /// Bits of the key's hash, 0 to 32.
    pub hash_bits: u8,
    /// Bits of the key after its stub, 0 to 32.
    pub real_bits: u8,
    /// The ratio by which the cutoff is chosen; each number is in range.
    pub ratio: u16,
}

/// A number that a command sets.
#[derive(Clone, Copy, Debug, PartialEq, Eq)]
pub enum Field {
    Pages,
    Variant,
    HashBits,
    RealBits,
    Ratio,
    Count,
}

/// Settings of which this field is out of range.
#[derive(Clone, Copy, Debug, PartialEq, Eq)]
pub struct BadSettings(pub Field);

impl Settings {
    ghost use Rattle.filter_api.specs.Ranges.{InRange, row_settings};
    ghost use Rattle.key_base.specs.Limits.{max_hash_bits, max_real_bits};

    /// Whether the settings are in range; else the first field that is not, in the order of the fields.
    pub fn check(&self) -> Result<(), BadSettings>
        ensures in_range { IsOk result ↔ InRange self.now }
        ensures hash_bits { (result ≡ Err (record { 0 = Field.HashBits })) ↔ (max_hash_bits < self.now.hash_bits) }
        ensures real_bits { (result ≡ Err (record { 0 = Field.RealBits })) ↔ ((self.now.hash_bits ≤ max_hash_bits) × (max_real_bits < self.now.real_bits)) }
    {
        if self.hash_bits > MAX_HASH_BITS {
            return Err(BadSettings(Field::HashBits));
        }
        if self.real_bits > MAX_REAL_BITS {
            return Err(BadSettings(Field::RealBits));
        }
        Ok(())
    }

    /// The settings with which the filter of a table was built.
    pub fn of_row(row: &Row) -> Settings
        ensures { result ≡ row_settings row.now }
    {
        Settings {
            hash_bits: row.hash_bits,
            real_bits: row.real_bits,
            ratio: row.ratio,
        }
    }
}

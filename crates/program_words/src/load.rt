//! A load that is asked for, and whether it has too many steps.
ghost use Rattle.std.specs.Prelude.{◌≡◌, IfOk, IfErr, MatchResult, true, false};
ghost use Rattle.filter_api.specs.declared.settings.Field.TheVariants.{Count};
ghost use Rattle.program_words.specs.Loads.{is_load_count};

use filter_api::Field;

/// The most steps of a load.
pub const MAX_LOAD_STEPS: u64 = 1_000_000;

/// Steps that are to be made of a store: so many, of the seed that they follow from.
#[derive(Clone, Copy, Debug, PartialEq, Eq)]
pub struct Load {
    pub seed: u64,
    pub count: u64,
}

impl Load {
    /// The load itself, where it has one step or more and not too many; else the field that is out of range.
    pub fn checked(self) -> Result<Load, Field>
        ensures range { MatchResult result (λ _. is_load_count self.count ≡ true) (λ _. is_load_count self.count ≡ false) }
        ensures load { IfOk result (λ load. load ≡ self) }
        ensures field { IfErr result (λ field. field ≡ Count) }
    {
        if self.count == 0 || self.count > MAX_LOAD_STEPS {
            return Err(Field::Count);
        }
        Ok(self)
    }
}

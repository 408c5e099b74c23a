//! Laws of the fields, for numbers of any width. They are proved and never called.
ghost use Rattle.byte_fields.specs.Spelling.{NumberIsReadAgain, NumberIsSpelledAgain, NumberFits};
ghost use Rattle.byte_fields.specs.Fields.{FieldsAreReadAgain, FieldsAreSpelledAgain, FieldsReadFit};

/// A number has one spelling in a given number of bytes: what was written is read, and what was read is written so.
pub fn numbers_have_one_spelling()
    ensures again { NumberIsReadAgain }
    ensures back { NumberIsSpelledAgain }
    ensures below { NumberFits }
{}

/// Fields one after the other have one spelling too.
pub fn fields_have_one_spelling()
    ensures again { FieldsAreReadAgain }
    ensures back { FieldsAreSpelledAgain }
    ensures below { FieldsReadFit }
{}

//! Laws of the spelling. They are proved and never called.
ghost use Rattle.filter_api.specs.Spellings.{IsDecided, SpellsOne};
ghost use Rattle.plain_filter_model.specs.Spelling.{plain_spelling};

/// Bytes spell one list at most, and of any bytes it can be told whether they spell one.
pub fn one_list_is_spelled()
    ensures one { SpellsOne plain_spelling }
    ensures decided { IsDecided plain_spelling }
{}

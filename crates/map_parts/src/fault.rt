//! What is wrong with a body.
ghost use Rattle.std.specs.Prelude.{◌≡◌, Some};
ghost use Rattle.std.specs.Option.{option_map};
ghost use Rattle.byte_fields.specs.Faults.{fault as fault_at};
ghost use Rattle.map_parts.specs.Parts.{seen};

/// The first rule of the format that a body breaks, and the place of the byte that breaks it; the number of the bytes where
/// there are too few.
#[derive(Clone, Copy, Debug, PartialEq, Eq)]
pub struct MapFault {
    pub place: u64,
    pub rule: u8,
}

// A fault at a place of the bytes.
pub(crate) fn fault(place: usize, rule: u8) -> Option<MapFault>
    ensures { option_map seen result ≡ Some (fault_at place rule) }
{
    Some(MapFault {
        place: place as u64,
        rule,
    })
}

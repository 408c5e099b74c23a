//! A line that asks a map.
ghost use Rattle.std.specs.Prelude.{◌≡◌, ◌==◌, ◌∷◌, List};
ghost use Rattle.std.specs.List.{slice_split};
ghost use Rattle.map_model.specs.SortedMap.{Bytes};
ghost use Rattle.map_run_model.specs.MapLines.{is_map_verb, map_request_of};
ghost use Rattle.store_commands.specs.Asks.{Asks};

use key_base::MAX_LINE_BYTES;
use memchr::memchr;
use store_commands::{BadLine, Request, Scratch, parse_line};

// Whether a map answers lines of this verb.
fn is_map_verb(verb: &[u8]) -> bool
    ensures { result ≡ is_map_verb verb.now }
{
    verb == b"get".as_slice()
        || verb == b"seek".as_slice()
        || verb == b"range".as_slice()
        || verb == b"count".as_slice()
        || verb == b"quit".as_slice()
}

// The first word of a line.
fn first_word(line: &[u8]) -> &[u8]
    ensures { (rest : List Bytes) × (slice_split (λ b. b == 32) line.now ≡ result.now ∷ rest) }
{
    match memchr(b' ', line) {
        Some(at) => &line[..at],
        None => line,
    }
}

/// What a line asks of a map, or the code of the first rule that it breaks. A verb that is none of a map's is refused before its
/// words are counted.
pub(crate) fn parse_map_line<'a>(
    line: &[u8],
    scratch: &'a mut Scratch,
) -> Result<Request<'a>, BadLine>
    ensures { Asks result (map_request_of line.now) }
{
    if line.len() <= MAX_LINE_BYTES && !is_map_verb(first_word(line)) {
        return Err(BadLine(2));
    }
    parse_line(line, scratch)
}

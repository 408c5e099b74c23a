//! The line of a table, said in parts.
ghost use Rattle.std.specs.Prelude.{◌≡◌, ◌≤◌, ◌++◌, length, IsTrue, OnErr, OnOk};
ghost use Rattle.disk_trait.specs.World.{Rose};
ghost use Rattle.hex.specs.Hex.{encode_lower};
ghost use Rattle.line_model.specs.Replies.{word_of};
ghost use Rattle.outside.specs.Streams.{SayMoves, SaysPrefix};
ghost use Rattle.store_report.specs.Texts.{keys_text, row_text};

use crate::layout::head_of;
use byte_fields::Row;
use outside::{Outside, SayFault, say_all};

// How many bytes of a key are said at a time.
const PART_BYTES: usize = 32;

// Says a part of a key in hex.
fn say_part<W: Outside>(out: &mut W, bytes: &[u8]) -> Result<(), SayFault>
    requires { length bytes.now ≤ 32 }
    ensures said { IsTrue W.tells_output → OnOk result ((W.world out.new).beside.said ≡ (W.world out.old).beside.said ++ encode_lower bytes.now) }
    ensures prefix { IsTrue W.tells_output → SaysPrefix (encode_lower bytes.now) (W.world out.old).beside.said (W.world out.new).beside.said }
    ensures moves { SayMoves (W.world out.old) (W.world out.new) }
    ensures cause { OnErr result (Rose (W.world out.old).beside.say_faults (W.world out.new).beside.say_faults) }
{
    let mut digits = [0; 2 * PART_BYTES];
    let word = &mut digits[..2 * bytes.len()];
    match hex::encode_to_slice(bytes, word) {
        Ok(()) => say_all(out, word),
        Err(_) => unreachable!(),
    }
}

// Says bytes in hex, part by part.
fn say_hex<W: Outside>(out: &mut W, bytes: &[u8]) -> Result<(), SayFault>
    ensures said { IsTrue W.tells_output → OnOk result ((W.world out.new).beside.said ≡ (W.world out.old).beside.said ++ encode_lower bytes.now) }
    ensures prefix { IsTrue W.tells_output → SaysPrefix (encode_lower bytes.now) (W.world out.old).beside.said (W.world out.new).beside.said }
    ensures moves { SayMoves (W.world out.old) (W.world out.new) }
    ensures cause { OnErr result (Rose (W.world out.old).beside.say_faults (W.world out.new).beside.say_faults) }
{
    let mut rest = bytes;
    while !rest.is_empty() {
        let (part, later) = rest.split_at(rest.len().min(PART_BYTES));
        say_part(out, part)?;
        rest = later;
    }
    Ok(())
}

// Says bytes in hex, or a dash where there are none.
fn say_word<W: Outside>(out: &mut W, bytes: &[u8]) -> Result<(), SayFault>
    ensures said { IsTrue W.tells_output → OnOk result ((W.world out.new).beside.said ≡ (W.world out.old).beside.said ++ word_of bytes.now) }
    ensures prefix { IsTrue W.tells_output → SaysPrefix (word_of bytes.now) (W.world out.old).beside.said (W.world out.new).beside.said }
    ensures moves { SayMoves (W.world out.old) (W.world out.new) }
    ensures cause { OnErr result (Rose (W.world out.old).beside.say_faults (W.world out.new).beside.say_faults) }
{
    if bytes.is_empty() {
        return say_all(out, b"-");
    }
    say_hex(out, bytes)
}

// Says the least and the greatest key, and the newline behind them.
fn say_keys<W: Outside>(out: &mut W, least: &[u8], greatest: &[u8]) -> Result<(), SayFault>
    ensures said { IsTrue W.tells_output → OnOk result ((W.world out.new).beside.said ≡ (W.world out.old).beside.said ++ keys_text least.now greatest.now) }
    ensures prefix { IsTrue W.tells_output → SaysPrefix (keys_text least.now greatest.now) (W.world out.old).beside.said (W.world out.new).beside.said }
    ensures moves { SayMoves (W.world out.old) (W.world out.new) }
    ensures cause { OnErr result (Rose (W.world out.old).beside.say_faults (W.world out.new).beside.say_faults) }
{
    say_word(out, least)?;
    say_all(out, b" ")?;
    say_word(out, greatest)?;
    say_all(out, b"\n")
}

/// Says the line of a table of this row with this least and this greatest key.
///
/// At `Err` a prefix of the line was said, maybe none of it. It takes no memory.
pub fn say_table<W: Outside>(
    out: &mut W,
    row: &Row,
    least: &[u8],
    greatest: &[u8],
) -> Result<(), SayFault>
    ensures said { IsTrue W.tells_output → OnOk result ((W.world out.new).beside.said ≡ (W.world out.old).beside.said ++ row_text row.now least.now greatest.now) }
    ensures prefix { IsTrue W.tells_output → SaysPrefix (row_text row.now least.now greatest.now) (W.world out.old).beside.said (W.world out.new).beside.said }
    ensures moves { SayMoves (W.world out.old) (W.world out.new) }
    ensures cause { OnErr result (Rose (W.world out.old).beside.say_faults (W.world out.new).beside.say_faults) }
{
    let head = head_of(row);
    say_all(out, head.as_slice())?;
    say_keys(out, least, greatest)
}

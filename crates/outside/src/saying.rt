//! Output, said whole.
ghost use Rattle.std.specs.Prelude.{◌≡◌, ◌++◌, IsTrue, OnOk, OnErr};
ghost use Rattle.disk_trait.specs.World.{World, Rose};
ghost use Rattle.outside.specs.Streams.{SayMoves, SaysPrefix};

use crate::stream::{Outside, SayFault};

/// Says the whole text, in as many pieces as the output takes it.
///
/// At `Err` a prefix of the text was said, maybe none of it. It takes no memory.
pub fn say_all<W: Outside>(out: &mut W, text: &[u8]) -> Result<(), SayFault>
    ensures said { IsTrue W.tells_output → OnOk result ((W.world out.new).beside.said ≡ (W.world out.old).beside.said ++ text.now) }
    ensures prefix { IsTrue W.tells_output → SaysPrefix text.now (W.world out.old).beside.said (W.world out.new).beside.said }
    ensures moves { SayMoves (W.world out.old) (W.world out.new) }
    ensures cause { OnErr result (Rose (W.world out.old).beside.say_faults (W.world out.new).beside.say_faults) }
{
    let mut rest = text;
    while !rest.is_empty() {
        let said = out.say(rest)?;
        rest = &rest[said..];
    }
    Ok(())
}

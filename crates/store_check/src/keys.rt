//! The keys of a table, where nothing is wrong with its blocks.
ghost use Rattle.std.specs.Prelude.{◌≡◌, ◌≤◌, length, true, false, IfOk, IfErr, IfSome, Some, None};
ghost use Rattle.filter_model.specs.Keys.{IsKeyList};
ghost use Rattle.store_check.specs.Keys.{AreKeys};

use crate::error::CheckError;
use key_base::KeyList;

/// The keys of a table, where they are right. More than a filter is built from are out of memory.
pub(crate) fn known(keys: KeyList, right: bool) -> Result<Option<KeyList>, CheckError>
    requires { right ≡ true → AreKeys keys }
    ensures known { right ≡ true → 1 ≤ length keys → IfOk result (λ known. known ≡ Some keys) }
    ensures unknown { right ≡ false → IfOk result (λ known. known ≡ None) }
    ensures list { IfOk result (λ known. IfSome known IsKeyList) }
    ensures memory { IfErr result (λ error. error ≡ CheckError.Memory) }
{
    if !right || keys.is_empty() {
        return Ok(None);
    }
    if keys.len() > u32::MAX as usize {
        return Err(CheckError::Memory);
    }
    Ok(Some(keys))
}

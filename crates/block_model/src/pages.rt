//! How many pages bytes take.
ghost use Rattle.std.specs.Prelude.{◌≡◌};
ghost use Rattle.block_model.specs.Pages.{pages_for};

use key_base::PAGE_BYTES;

/// So many bytes in whole pages, rounded up.
#[tactic(auto, unfolding(crate::specs::Pages::pages_for))]
pub fn pages_for(bytes: u64) -> u64
    ensures { result ≡ pages_for bytes }
{
    bytes.div_ceil(PAGE_BYTES as u64)
}

//! A new store on the device, and the last line that tells how its making ended.
ghost use Rattle.std.specs.Prelude.{◌≡◌, ◌≢◌, ◌⊎◌, ◌++◌, IsTrue};
ghost use Rattle.lines_in.specs.Causes.{NoFall, SayFailed, StatusCause};
ghost use Rattle.lines_in.specs.Statuses.{done_status, device_status, output_status, memory_status, store_status};
ghost use Rattle.outside.specs.Streams.{SayMoves, SaysPrefix};
ghost use Rattle.surf_run.specs.FormatRefusals.{IsOfFormat, refused_status, refused_text};
ghost use Rattle.surf_run.specs.Formats.{Formatted, WritesInFront, bad_settings_text, formatted_text};

use crate::format_lines::{ALREADY_A_STORE, bad_settings_line, formatted_line};
use filter_api::{Field, RangeFilter, Settings};
use lines_in::{Status, last_line, say_last};
use outside::Outside;
use std::alloc::Global;
use store_commands::Reply;
use store_core::{Store, StoreError};

/// Says that a number of a new store is out of range, and answers 8, or 6 where that cannot be said whole.
pub(crate) fn say_bad_settings<W: Outside>(out: &mut W, field: Field) -> u8
    ensures said { IsTrue W.tells_output → result ≡ store_status → (W.world out.new).beside.said ≡ (W.world out.old).beside.said ++ bad_settings_text field }
    ensures prefix { IsTrue W.tells_output → SaysPrefix (bad_settings_text field) (W.world out.old).beside.said (W.world out.new).beside.said }
    ensures ends { (result ≡ store_status) ⊎ ((result ≡ output_status) × SayFailed (W.world out.old) (W.world out.new)) }
    ensures moves { SayMoves (W.world out.old) (W.world out.new) }
{
    say_last(out, bad_settings_line(field), Status::Store as u8)
}

// Says that a store of a given number of pages was made.
fn say_formatted<W: Outside>(out: &mut W, pages: u64) -> u8
    ensures said { IsTrue W.tells_output → result ≡ done_status → (W.world out.new).beside.said ≡ (W.world out.old).beside.said ++ formatted_text pages }
    ensures prefix { IsTrue W.tells_output → SaysPrefix (formatted_text pages) (W.world out.old).beside.said (W.world out.new).beside.said }
    ensures ends { (result ≡ done_status) ⊎ ((result ≡ output_status) × SayFailed (W.world out.old) (W.world out.new)) }
    ensures moves { SayMoves (W.world out.old) (W.world out.new) }
{
    let line = formatted_line(pages);
    say_last(out, line.as_slice(), Status::Done as u8)
}

// Says why no store was made.
fn say_no_format<W: Outside>(out: &mut W, error: StoreError) -> u8
    requires { IsOfFormat error }
    ensures said { IsTrue W.tells_output → result ≢ output_status → (W.world out.new).beside.said ≡ (W.world out.old).beside.said ++ refused_text error }
    ensures prefix { IsTrue W.tells_output → SaysPrefix (refused_text error) (W.world out.old).beside.said (W.world out.new).beside.said }
    ensures ends { (result ≡ refused_status error) ⊎ ((result ≡ output_status) × SayFailed (W.world out.old) (W.world out.new)) }
    ensures moves { SayMoves (W.world out.old) (W.world out.new) }
{
    match error {
        StoreError::Memory => last_line(out, &Reply::Memory, Status::Memory as u8),
        StoreError::Device(_) => last_line(out, &Reply::Device, Status::Device as u8),
        StoreError::AlreadyAStore => say_last(out, ALREADY_A_STORE, Status::Store as u8),
        StoreError::BadSettings(field) => say_bad_settings(out, field),
        _ => unreachable!(),
    }
}

/// Makes the device an empty store of a given number of pages, with filters by these settings, says how that ended, and answers the exit
/// status.
///
/// | status | comes | said |
/// |---|---|---|
/// | 0 | the store is made, and synced | `formatted N` |
/// | 4 | the device failed | `device` |
/// | 6 | the output failed, whatever the device holds then | a prefix of the line |
/// | 7 | there was no memory | `memory` |
/// | 8 | a store is there, or a number is out of range | `already a store`, `bad settings FIELD` |
pub(crate) fn run_format<F: RangeFilter, W: Outside>(
    alloc: Global,
    settings: Settings,
    pages: u64,
    out: &mut W,
) -> u8
    ensures formatted { IsTrue W.tells → IsTrue W.tells_output → Formatted F.spelling settings pages result (W.world out.old) (W.world out.new) }
    ensures input { (W.world out.new).beside.to_take ≡ (W.world out.old).beside.to_take }
    ensures causes { StatusCause result (W.world out.old) (W.world out.new) }
    ensures counts { NoFall (W.world out.old) (W.world out.new) }
    ensures footprint { WritesInFront (W.world out.old) (W.world out.new) }
    ensures statuses { (result ≡ done_status) ⊎ (result ≡ device_status) ⊎ (result ≡ output_status) ⊎ (result ≡ memory_status) ⊎ (result ≡ store_status) }
{
    match Store::<F>::format(alloc, out, settings, pages) {
        Ok(()) => say_formatted(out, pages),
        Err(error) => say_no_format(out, error),
    }
}

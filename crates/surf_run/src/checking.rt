//! A check of the whole store, finding by finding.
ghost use Rattle.std.specs.Prelude.{◌≡◌, ◌⊎◌, ◌++◌, [], IsTrue};
ghost use Rattle.lines_in.specs.Causes.{SayFailed};
ghost use Rattle.lines_in.specs.Statuses.{findings_status, output_status};
ghost use Rattle.outside.specs.Streams.{SayMoves, SaysPrefix};
ghost use Rattle.surf_run.specs.Checks.{AreFound, ChangesNothing, CheckEnds, cut_off_status, cut_off_text, found_text};

use crate::check_lines::{clean_line, finding_line, found_line};
use crate::opening::NO_STORE;
use filter_api::RangeFilter;
use lines_in::{Status, last_line, say_last};
use outside::{Outside, say_all};
use std::alloc::Global;
use store_check::{Check, CheckError, Finding, SummaryError};
use store_commands::Reply;

// Says why a check is cut off, or that no store is there.
fn say_cut_off<W: Outside>(out: &mut W, why: CheckError) -> u8
    ensures said { IsTrue W.tells_output → result ≡ cut_off_status why → (W.world out.new).beside.said ≡ (W.world out.old).beside.said ++ cut_off_text why }
    ensures prefix { IsTrue W.tells_output → SaysPrefix (cut_off_text why) (W.world out.old).beside.said (W.world out.new).beside.said }
    ensures ends { (result ≡ cut_off_status why) ⊎ ((result ≡ output_status) × SayFailed (W.world out.old) (W.world out.new)) }
    ensures moves { SayMoves (W.world out.old) (W.world out.new) }
{
    match why {
        CheckError::Memory => last_line(out, &Reply::Memory, Status::Memory as u8),
        CheckError::Device(_) => last_line(out, &Reply::Device, Status::Device as u8),
        CheckError::NotAStore => say_last(out, NO_STORE, Status::Store as u8),
    }
}

// Says how many things are wrong.
fn say_found<W: Outside>(out: &mut W, found: u64) -> u8
    ensures said { IsTrue W.tells_output → result ≡ findings_status → (W.world out.new).beside.said ≡ (W.world out.old).beside.said ++ found_text found }
    ensures prefix { IsTrue W.tells_output → SaysPrefix (found_text found) (W.world out.old).beside.said (W.world out.new).beside.said }
    ensures ends { (result ≡ findings_status) ⊎ ((result ≡ output_status) × SayFailed (W.world out.old) (W.world out.new)) }
    ensures moves { SayMoves (W.world out.old) (W.world out.new) }
{
    let line = found_line(found);
    say_last(out, line.as_slice(), Status::Findings as u8)
}

// Says one thing that is wrong, and that there is no other.
fn say_one<W: Outside>(out: &mut W, finding: &Finding) -> u8
    ensures ends { (result ≡ findings_status) ⊎ ((result ≡ output_status) × SayFailed (W.world out.old) (W.world out.new)) }
    ensures moves { SayMoves (W.world out.old) (W.world out.new) }
{
    let line = finding_line(finding);
    match say_all(out, line.as_slice()) {
        Ok(()) => say_found(out, 1),
        Err(_) => Status::Output as u8,
    }
}

// Says what a store has of which nothing was found. Its device may have changed its mind since it was read.
fn say_clean<F: RangeFilter, W: Outside>(check: &Check, out: &mut W) -> u8
    ensures { (first : _) → ChangesNothing (W.world first) (W.world out.old) → (IsTrue W.tells_output → (W.world out.old).beside.said ≡ (W.world first).beside.said)
        → (IsTrue W.tells → AreFound F.spelling F.first_fault (W.world first).seen.held [])
        → CheckEnds F.spelling F.first_fault W.tells W.tells_output result (W.world first) (W.world out.new) }
{
    match check.summary::<F, W>(out) {
        Ok(has) => {
            let line = clean_line(has);
            say_last(out, line.as_slice(), Status::Done as u8)
        }
        Err(SummaryError::Memory) => say_cut_off(out, CheckError::Memory),
        Err(SummaryError::Device(cause)) => say_cut_off(out, CheckError::Device(cause)),
        Err(SummaryError::NotAStore) => say_cut_off(out, CheckError::NotAStore),
        Err(SummaryError::Damaged(finding)) => say_one(out, &finding),
    }
}

/// Reads the whole store, says each thing that is wrong with it and then how many they are, or what it has, and answers the exit
/// status. It writes and syncs nothing.
///
/// | status | comes | said |
/// |---|---|---|
/// | 0 | the device holds a store, and nothing is wrong with it | `clean tables T entries E live M log L` |
/// | 4 | the device failed | some findings, `device` |
/// | 6 | the output failed | a prefix of the lines |
/// | 7 | there was no memory | some findings, `memory` |
/// | 8 | no store is there | `not a store` |
/// | 12 | something is wrong | all findings, `findings N` |
pub(crate) fn run_check<F: RangeFilter, W: Outside>(alloc: Global, out: &mut W) -> u8
    ensures { CheckEnds F.spelling F.first_fault W.tells W.tells_output result (W.world out.old) (W.world out.new) }
{
    let mut check = match Check::start(alloc, out) {
        Ok(check) => check,
        Err(why) => return say_cut_off(out, why),
    };
    let mut found = 0u64;
    'findings: loop {
        let finding = match check.next::<F, W>(out) {
            Ok(Some(finding)) => finding,
            Ok(None) if found > 0 => return say_found(out, found),
            Ok(None) => return say_clean::<F, W>(&check, out),
            Err(why) => return say_cut_off(out, why),
        };
        match say_all(out, finding_line(&finding).as_slice()) {
            Ok(()) => found = found.saturating_add(1),
            Err(_) => return Status::Output as u8,
        }
    }
}

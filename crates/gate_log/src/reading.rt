//! A log area's bytes, record by record.
ghost use Rattle.std.specs.Prelude.{◌≡◌, ◌+◌, ◌<◌, List, length, Some, None, IfOk, IfErr, MatchResult};
ghost use Rattle.entry_model.specs.Reading.{width_in};
ghost use Rattle.log_model.specs.Changes.{change_in, filled_by};
ghost use Rattle.log_model.specs.Records.{Spells, broken_rule};
ghost use Rattle.range_model.specs.Sources as model;
ghost use Rattle.gate_log.specs.Faults.{IsFaultIn};
ghost use Rattle.gate_log.specs.Kinds.{change_by};

use crate::kind::Kind;
use crate::writing::OPEN;
use byte_fields::{PartFault, get_u16, get_u32};
use entry_list::{Change, DeletedRange, Entry};
use key_base::{ENTRY_HEAD_BYTES, MAX_KEY_BYTES, MAX_LOGGED_VALUE_BYTES};
use std::alloc::{AllocError, Global};
use std::cmp::Ordering;

// The body, or the gate behind it, runs past the area.
const PAST_THE_AREA: u8 = 1;

// The kind is none.
const NO_KIND: u8 = 2;

// A length is out of its limits, a delete has a value, or the bounds of a range do not rise.
const OUT_OF_LIMITS: u8 = 3;

// What a body says, as it stands in its area: of a range the upper bound is the value.
#[derive(Clone, Copy)]
struct Body<'a> {
    kind: Kind,
    key: &'a [u8],
    value: &'a [u8],
    length: usize,
}

// The body behind an open gate, or the first rule that it breaks.
#[tactic(auto, unfolding(entry_model::specs::Reading::width_in, entry_model::specs::Reading::key_in, entry_model::specs::Reading::entry_in, log_model::specs::Changes::range_in))]
fn body_in(bytes: &[u8]) -> Result<Body<'_>, u8>
    ensures broken { IfErr result (λ rule. broken_rule bytes.now ≡ Some rule) }
    ensures whole { IfOk result (λ _. broken_rule bytes.now ≡ None) }
    ensures change { IfOk result (λ b. change_by b.kind b.key.now b.value.now ≡ change_in bytes.now) }
    ensures size { IfOk result (λ b. b.length ≡ width_in bytes.now) }
    ensures within { IfOk result (λ b. b.length < length bytes.now) }
{
    if bytes.len() < ENTRY_HEAD_BYTES {
        return Err(PAST_THE_AREA);
    }
    let kind = if bytes[0] == Kind::Put as u8 {
        Kind::Put
    } else if bytes[0] == Kind::Delete as u8 {
        Kind::Delete
    } else if bytes[0] == Kind::Range as u8 {
        Kind::Range
    } else {
        return Err(NO_KIND);
    };
    let key_bytes = usize::from(get_u16(bytes, 1));
    let value_bytes = get_u32(bytes, 3) as usize;
    if key_bytes == 0 || key_bytes > MAX_KEY_BYTES || value_bytes > MAX_LOGGED_VALUE_BYTES {
        return Err(OUT_OF_LIMITS);
    }
    if kind == Kind::Delete && value_bytes > 0 {
        return Err(OUT_OF_LIMITS);
    }
    if kind == Kind::Range && (value_bytes == 0 || value_bytes > MAX_KEY_BYTES) {
        return Err(OUT_OF_LIMITS);
    }
    let value_at = ENTRY_HEAD_BYTES + key_bytes;
    let length = value_at + value_bytes;
    if bytes.len() <= length {
        return Err(PAST_THE_AREA);
    }
    let key = &bytes[ENTRY_HEAD_BYTES..value_at];
    let value = &bytes[value_at..length];
    if kind == Kind::Range && key.cmp(value) != Ordering::Less {
        return Err(OUT_OF_LIMITS);
    }
    Ok(Body {
        kind,
        key,
        value,
        length,
    })
}

// A copy of what a body says.
fn change_of(alloc: Global, body: Body<'_>) -> Result<Change, AllocError>
    ensures { IfOk result (λ change. change ≡ change_by body.entry.kind body.entry.key.now body.entry.value.now) }
{
    match body.kind {
        Kind::Put => {
            let entry = Entry::new(alloc, body.key, Some(body.value))?;
            Ok(Change::sets(entry))
        }
        Kind::Delete => {
            let tombstone = Entry::new(alloc, body.key, None)?;
            Ok(Change::sets(tombstone))
        }
        Kind::Range => {
            let range = DeletedRange::new(alloc, body.key, body.value)?;
            Ok(Change::clears(range))
        }
    }
}

/// The changes whose records stand at the start of a log area's bytes, up to the first gate that is not open, and the
/// place of that gate.
///
/// One pass, and memory for the changes alone. `Ok` exactly where the bytes keep the rules of the format, else the first
/// rule that is broken and the place of its record's gate.
pub fn changes_in(alloc: Global, bytes: &[u8]) -> Result<(Vec<Change>, usize), PartFault>
    requires { 0 < length bytes.now }
    ensures changes { IfOk result (λ found. Spells found.0.items bytes.now) }
    ensures end { IfOk result (λ found. found.1 ≡ filled_by found.0.items) }
    ensures fault { IfErr result (IsFaultIn bytes.now) }
    ensures exact { (changes : List model.Change) → Spells changes bytes.now → MatchResult result (λ found. found.0.items ≡ changes) (λ fault. fault ≡ PartFault.Memory) }
{
    let mut changes = Vec::new(alloc);
    let mut at = 0;
    while bytes[at] == OPEN {
        let body = match body_in(&bytes[at + 1..]) {
            Ok(body) => body,
            Err(rule) => return Err(PartFault::Shape { place: at, rule }),
        };
        let change = change_of(alloc, body)?;
        changes.push(change)?;
        at += 1 + body.length;
    }
    Ok((changes, at))
}

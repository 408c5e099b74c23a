//! What a check finds.
ghost use Rattle.std.specs.Prelude.{◌≡◌, ◌∷◌, ◌++◌, [], Some, OnOk, OnErr};
ghost use Rattle.image_model.specs.Findings.{BrokenRule, finding as said_finding, found_by as said_of};
ghost use Rattle.store_check.specs.Lists.{listed};

use byte_fields::{Damage, Part};
use std::alloc::AllocError;
use std::marker::Model;

/// What is wrong.
#[derive(Clone, Copy, Debug, PartialEq, Eq)]
pub enum What {
    /// A part has another sum than the one that is kept of it.
    OtherSum { kept: u64, seen: u64 },
    /// A part breaks the rule of its format with this number.
    BrokenRule { rule: u8 },
    /// A block has other keys than its index says, or they do not rise from the block before.
    WrongKeys,
    /// The blocks of a table have another number of entries than its row says.
    WrongCount,
    /// The leaf of a filter with this number, from 0, is not the one of the table's keys.
    WrongLeaf { number: u32 },
}

/// One thing that is wrong: in which part, and at which byte of the device.
#[derive(Debug, Drop)]
pub struct Finding {
    pub part: Part,
    pub at: u64,
    pub what: What,
}

impl Model for Finding {
    ghost use Rattle.image_model.specs.Findings as model;
    ghost use Rattle.store_check.specs.Said.{what_said};

    ghost Value = { model.Finding };

    ghost view = { λ f. record { part = f.part; at = f.at; what = what_said f.what } };
}

/// A damage as a finding.
pub(crate) fn found_by(damage: Damage) -> Finding
    ensures { said_of (Some damage) ≡ result ∷ [] }
{
    match damage {
        Damage::Sum {
            part,
            at,
            kept,
            seen,
        } => Finding {
            part,
            at,
            what: What::OtherSum { kept, seen },
        },
        Damage::Shape { part, at, rule } => Finding {
            part,
            at,
            what: What::BrokenRule { rule },
        },
    }
}

/// A record of the log that breaks a rule.
pub(crate) fn broken_log(at: u64, rule: u8) -> Finding
    ensures { result ≡ said_finding Part.Log at (BrokenRule rule) }
{
    Finding {
        part: Part::Log,
        at,
        what: What::BrokenRule { rule },
    }
}

/// Adds a finding, where there is one. Without memory the list stays as it was.
pub(crate) fn add(found: &mut Vec<Finding>, finding: Option<Finding>) -> Result<(), AllocError>
    ensures added { OnOk result (found.new.items ≡ found.old.items ++ listed finding) }
    ensures same { OnErr result (found.new.items ≡ found.old.items) }
{
    if let Some(finding) = finding {
        found.push(finding)?;
    }
    Ok(())
}

//! Tables that are to be merged.

use std::marker::Model;

/// Tables that are to be merged, by their numbers, the newest first, and the level of what they become.
///
/// Tables are numbered from the last of them, which has 0: one that is put before all others changes no number.
#[derive(Drop)]
pub struct Plan {
    pub inputs: Vec<u32>,
    pub output: u8,
}

impl Model for Plan {
    ghost use Rattle.level_merge.specs.Plans.{PlanByNumbers};

    ghost Value = { PlanByNumbers };

    ghost view = { λ p. record { inputs = p.inputs.items; output = p.output } };
}

//! The parts of a desk over a pass. Its ghost fields import all that this file names, so its methods
//! stand in `passes`.
ghost use Rattle.std.specs.Prelude.{◌≡◌, ◌-◌, ◌^◌, ◌<◌, ◌≤◌, length};
ghost use Rattle.ifmap_desks.specs.Recalls.{Recalls};
ghost use Rattle.ifmap_dialogue.specs.Desks.{greatest_weight};
ghost use Rattle.ifmap_hall.specs.Passes.{IsOf, view_of};

use crate::answers::AnswerCounts;
use crate::machine::CoreMachine;
use ifmap_hall::{Hall, Pass};
use std::alloc::Global;
use std::sync::Wait;

/// A desk that asks a hall by a pass of it.
#[derive(Drop)]
pub struct PassDesk<'a, R: Wait> {
    pub(crate) rt: &'a R,
    pub(crate) alloc: Global,
    pub(crate) hall: &'a Hall<CoreMachine>,
    pub(crate) pass: &'a mut Pass<CoreMachine>,
    pub(crate) counts: AnswerCounts,
    pub ghost of: { IsOf hall.now pass.now },
    pub ghost bears: { greatest_weight ≤ (view_of pass.now).terms.heaviest },
    pub ghost recalls: { ∥ Recalls (view_of pass.now) ∥₁ },
    pub ghost used_up: { 0 < counts.spent → length (view_of pass.now).history.log ≡ 2 ^ 64 - 1 },
}

// The passes of the callers.
ghost use Rattle.vx_turn.specs.Resting.{IsAtRest};

use crate::view::View;
use atomic_table::Badge;

/// The right to call in one caller's name. It has no bytes but its number, which no call changes.
#[derive(Drop)]
pub struct Pass {
    pub number: u64,
    pub badge: Badge<View>,
    ghost at_rest: { IsAtRest number badge.views },
}

/// The passes that are not given out yet.
#[derive(Drop)]
pub struct Passes {
    pub left: Vec<Pass>,
}

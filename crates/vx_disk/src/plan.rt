// Which calls on a shelf in memory are to fail.
ghost use Rattle.std.specs.Prelude.{◌≡◌, IfOk};
ghost use Rattle.vx_disk.specs.Plans.{CallCounted, is_due};

use std::alloc::Global;
use std::marker::Model;
use vx_model::OutOfMemory;

/// The calls on a shelf in memory, numbered from 1, and the numbers of those that are to fail. Contracts see how many were
/// made, and these numbers.
#[derive(Drop)]
pub struct FaultPlan {
    made: u64,
    fails: Vec<u64>,
}

impl Model for FaultPlan {
    ghost use Rattle.vx_disk.specs.Plans.{Plan};

    ghost Value = { Plan };

    ghost view = { λ p. record { made = p.made; fails = p.fails.items } };
}

impl FaultPlan {
    /// No call was made, and those of these numbers are to fail.
    pub(crate) fn new(alloc: Global, fails: &[u64]) -> Result<FaultPlan, OutOfMemory>
        ensures none_made { IfOk result (λ p. p.made ≡ 0) }
        ensures fails { IfOk result (λ p. p.fails ≡ fails.now) }
    {
        let fails = fails.to_vec(alloc)?;
        Ok(FaultPlan { made: 0, fails })
    }

    /// Counts a call, and says whether it is to fail.
    pub(crate) fn next(&mut self) -> bool
        ensures due { result ≡ is_due self.old }
        ensures counted { CallCounted self.old self.new }
    {
        self.made = self.made.saturating_add(1);
        self.fails.contains(&self.made)
    }
}

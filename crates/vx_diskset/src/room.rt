// The room that writes take in the log of a site.
ghost use Rattle.std.specs.Prelude.{◌≡◌, ◌≤◌, ◌<◌, ◌+◌, ◌-◌, None, Some, IfSome, IsSome, List, ℕ, drop, slice_get, true, false};
ghost use Rattle.vx_events.specs.GroupLines.{is_over_group};
ghost use Rattle.vx_model.specs.Sites.{is_origin};
ghost use Rattle.vx_model.specs.declared.state.KeptLink.{KeptLink};
ghost use Rattle.vx_diskset.specs.Holds.{KeptBeside};
ghost use Rattle.vx_model.specs.declared.site.SiteState.TheVariants.{Up as UpState};
ghost use Rattle.vx_history.specs.Events.{logged_blocks};
ghost use Rattle.vx_history.specs.World.{Node};
ghost use Rattle.vx_diskset.specs.Needs.{hold_of, is_needing};
ghost use Rattle.vx_diskset.specs.Stands.{IsToldAt, SiteStands};
ghost use Rattle.vx_rvg.specs.Views.{last_of};
ghost use Rattle.vx_srl.specs.Views.{blocks_above};

use crate::DiskSet;
use vx_disk::Rack;
use vx_rvg::RvgCore;

// The blocks that the numbers above one take in the log of a group, if it holds all of them.
pub(crate) fn used_in(core: &RvgCore, above: u64) -> Option<u64>
    ensures low { IfSome result (λ blocks. core.now.log.header.low ≤ above + 1) }
    ensures past { last_of core.now ≤ above → IfSome result (λ blocks. blocks ≡ 0) }
    ensures is { above < last_of core.now → IfSome result (λ blocks. blocks ≡ blocks_above core.now.log above) }
    ensures some { core.now.log.header.low ≤ above + 1 → IsSome result }
{
    // Numbers are above 0.
    let _ring = core.ring();
    if core.low() - 1 > above {
        return None;
    }
    if above >= core.head() {
        return Some(0);
    }
    Some(core.used(above))
}

impl<R: Rack> DiskSet<R> {
    /// The blocks of the log that the writes above a number take, at an origin that is up and runs. None for any other site, and where the log
    /// does not hold all of them any more; where contents are told it does from the hold of each link on that needs it.
    pub fn used(&self, above: u64) -> Option<u64>
        ensures is { (beside : KeptBeside) (n : Node) → SiteStands beside n self.now → n.state ≡ UpState → n.halted ≡ None → IfSome result (λ blocks. blocks ≡ logged_blocks (drop above n.log)) }
        ensures some { (beside : KeptBeside) (n : Node) (k : ℕ) (l : KeptLink) → SiteStands beside n self.now → is_origin n.role ≡ true → n.state ≡ UpState → is_over_group n ≡ false → n.halted ≡ None → IsToldAt self.now
            → slice_get beside.links k ≡ Some l → is_needing l ≡ true → hold_of l ≤ above → IsSome result }
    {
        match self {
            DiskSet::Up(rvg) => used_in(&rvg.core, above),
            DiskSet::Over(over) => over.used(above),
            _ => None,
        }
    }
}

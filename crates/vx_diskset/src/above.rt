// A replicated volume group over the volumes of a disk group, but for these.

use vx_rvg::RvgCore;
use vx_secondary::Waiting;

/// What stands over the volumes of a group.
#[derive(Drop)]
pub enum Above {
    /// Nothing, as the group is not up.
    Nothing,
    /// A replicated volume group.
    Origin(RvgCore),
    /// One that receives the writes of another, and the updates that wait behind it.
    Receiver { core: RvgCore, waiting: Waiting },
}

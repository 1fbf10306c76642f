// What a status shows of a disk group.
ghost use Rattle.std.specs.Prelude.{◌≡◌, [], IfOk, map, option_copied};
ghost use Rattle.vx_events.specs.GroupViews.{config_disks, volume_view, volumes_of};
ghost use Rattle.vx_above.specs.Views.{IsSmall};

use std::alloc::Global;
use vx_config::Config;
use vx_group_facts::{disks_shown, volumes_shown};
use vx_model::OutOfMemory;
use vx_report::{DiskViewRoom, DiskViews, VolumeViewRoom, VolumeViews};

/// What the status of a group needs of memory.
#[derive(Drop)]
pub struct ViewRoom {
    pub disks: DiskViewRoom,
    pub volumes: VolumeViewRoom,
}

impl ViewRoom {
    /// Room for as many disks and volumes as a group may have.
    pub fn new(alloc: Global) -> Result<ViewRoom, OutOfMemory>
        ensures { IfOk result (λ room. (room.disks ≡ []) × (room.volumes ≡ [])) }
    {
        Ok(ViewRoom {
            disks: DiskViewRoom::new(alloc)?,
            volumes: VolumeViewRoom::new(alloc)?,
        })
    }
}

/// The disks and volumes of a configuration; none where there is no configuration.
pub(crate) fn views_of(config: Option<&Config>, room: ViewRoom) -> (DiskViews, VolumeViews)
    requires disks { room.disks ≡ [] }
    requires volumes { room.volumes ≡ [] }
    requires few { IsSmall (option_copied config) }
    ensures disks { result.0 ≡ config_disks (option_copied config.entry) }
    ensures volumes { result.1 ≡ map volume_view (volumes_of (option_copied config.entry)) }
{
    match config {
        Some(config) => (
            disks_shown(room.disks, config.disks.as_slice()),
            volumes_shown(room.volumes, config.volumes.as_slice()),
        ),
        None => (room.disks.into_views(), room.volumes.into_views()),
    }
}

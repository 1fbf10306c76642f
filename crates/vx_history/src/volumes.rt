// The data volumes that a replicated volume group is made of.
ghost use Rattle.std.specs.Prelude.{◌≡◌, ◌≤◌, length};

use std::marker::Model;
use vx_model::Name;
use vx_model::limits::MOST_DATA_VOLUMES;

/// A volume of a group of disks, by its place in the group, with its name and its blocks.
#[derive(Clone, Copy)]
pub struct DataVolume {
    pub place: u32,
    pub name: Name,
    pub blocks: u64,
}

/// Up to 30 data volumes, in order, kept in the value itself. Contracts see their list.
#[derive(Clone, Copy)]
pub struct DataVolumes {
    volumes: [DataVolume; MOST_DATA_VOLUMES],
    count: usize,
}

impl Model for DataVolumes {
    ghost use Rattle.std.specs.Prelude.{List, length, take};
    ghost use Rattle.vx_history.specs.declared.volumes.DataVolume.{DataVolume};
    ghost use Rattle.vx_history.specs.DataLists.{IsDataList, filled_up, filled-front};

    ghost Value = { List DataVolume };

    ghost view = { λ v. take v.count v.volumes };

    ghost invariant = { λ v. IsDataList v.count v.volumes };

    ghost inverse = { λ d. record { volumes = filled_up d; count = length d } };

    ghost inverse_ok = { λ a h. filled-front a h };
}

impl DataVolumes {
    /// These volumes.
    pub fn new(volumes: &[DataVolume]) -> DataVolumes
        requires few { length volumes.now ≤ MOST_DATA_VOLUMES }
        ensures { result ≡ volumes.now }
    {
        let blank = DataVolume {
            place: 0,
            name: Name::new(b"-"),
            blocks: 0,
        };
        let mut held = [blank; MOST_DATA_VOLUMES];
        held[..volumes.len()].copy_from_slice(volumes);
        DataVolumes {
            volumes: held,
            count: volumes.len(),
        }
    }

    /// The volumes, in order.
    pub fn as_slice(&self) -> &[DataVolume]
        ensures volumes { result.now ≡ self.now }
        ensures few { length self.now ≤ MOST_DATA_VOLUMES }
    {
        &self.volumes[..self.count]
    }
}

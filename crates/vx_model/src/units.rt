// Which units of a shelf a replicated volume group uses.
ghost use Rattle.std.specs.Prelude.{◌≡◌, ◌<◌, ◌≤◌, [], ◌∷◌, ◌++◌, length};

use crate::limits::MOST_DATA_VOLUMES;
use arrayvec::ArrayVec;
use std::marker::Model;

/// Up to 30 data volumes, by their units. Contracts see their list.
#[derive(Drop)]
pub struct VolumeUnits {
    units: ArrayVec<u32, MOST_DATA_VOLUMES>,
}

impl Model for VolumeUnits {
    ghost use Rattle.std.specs.Prelude.{List, ℕ, ◌≤◌, length};
    ghost use Rattle.vx_model.specs.declared.limits.TheConstants.{MOST_DATA_VOLUMES};

    ghost Value = { List ℕ };

    ghost view = { λ v. v.units.items };

    ghost invariant = { λ v. length v.units.items ≤ MOST_DATA_VOLUMES };
}

impl VolumeUnits {
    /// No volumes.
    pub fn new() -> VolumeUnits
        ensures { result ≡ [] }
    {
        VolumeUnits {
            units: ArrayVec::new(),
        }
    }

    /// Adds a volume after the others.
    pub fn push(&mut self, unit: u32)
        requires room { length self.old < MOST_DATA_VOLUMES }
        ensures { self.new ≡ self.old ++ unit ∷ [] }
    {
        self.units.push(unit);
    }

    /// The units of the volumes, in order.
    pub fn as_slice(&self) -> &[u32]
        ensures units { result.now ≡ self.now }
        ensures few { length self.now ≤ MOST_DATA_VOLUMES }
    {
        &self.units
    }

    /// The same volumes once more.
    pub fn copy(&self) -> VolumeUnits
        ensures { result ≡ self.now }
    {
        let mut units = VolumeUnits::new();
        for unit in self.as_slice() {
            units.push(*unit);
        }
        units
    }
}

/// The units of a replicated volume group: its log, its maps, and its data volumes.
#[derive(Drop)]
pub struct Units {
    pub srl: u32,
    pub maps: u32,
    pub vols: VolumeUnits,
}

impl Units {
    /// The same units once more.
    pub fn copy(&self) -> Units
        ensures { result ≡ self.now }
    {
        Units {
            srl: self.srl,
            maps: self.maps,
            vols: self.vols.copy(),
        }
    }
}

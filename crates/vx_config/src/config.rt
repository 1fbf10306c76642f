// A configuration.
ghost use Rattle.std.specs.Prelude.{◌≡◌, true, slice_get};
ghost use Rattle.vx_config.specs.Changes.{has_live, lost as lost_is, stated as stated_is};
ghost use Rattle.vx_config.specs.Checks.{is_sound};
ghost use Rattle.vx_config.specs.Configs.{CanSpell, subdisk_count};

use crate::{Disks, VolumeLog, Volumes};
use vx_model::{PlexState, Units};

/// The configuration of a disk group.
#[derive(Drop)]
pub struct Config {
    /// One more at each commit; at most `MOST_NUMBER`.
    pub serial: u64,
    /// The number of the group's site.
    pub site: u32,
    pub disks: Disks,
    pub volumes: Volumes,
    /// The volumes of the replicated volume group, by their places.
    pub rvg: Option<Units>,
}

impl Config {
    /// Puts a plex of a volume into a state, and says whether the next attach has to copy all of its regions. Nothing changes where there
    /// is no such plex. A sound configuration stays so where the volume has a plex that is not stale. It takes no memory.
    pub fn set_state(&mut self, volume: usize, plex: usize, state: PlexState, whole: bool)
        ensures changed { self.new ≡ stated_is volume plex state whole self.old }
        ensures spelled { CanSpell self.old → CanSpell self.new }
        ensures count { subdisk_count self.new ≡ subdisk_count self.old }
        ensures sound { is_sound self.old ≡ true → has_live (slice_get self.new.volumes volume) ≡ true → is_sound self.new ≡ true }
    {
        self.volumes.set_state(volume, plex, state, whole);
    }

    /// Says of a log of a volume whether it is lost. Nothing changes where there is no such log. A sound configuration stays so. It takes
    /// no memory.
    pub fn set_lost(&mut self, volume: usize, log: VolumeLog, lost: bool)
        ensures changed { self.new ≡ lost_is volume log lost self.old }
        ensures spelled { CanSpell self.old → CanSpell self.new }
        ensures count { subdisk_count self.new ≡ subdisk_count self.old }
        ensures sound { is_sound self.new ≡ is_sound self.old }
    {
        self.volumes.set_lost(volume, log, lost);
    }
}

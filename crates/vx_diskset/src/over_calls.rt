// Calls on the replicated volume group of a site over a disk group.
ghost use Rattle.std.specs.Prelude.{◌<◌, ◌≤◌, ◌%◌, ◌≡◌, IfOk, IsFalse, length, true};
ghost use Rattle.vx_history.specs.World.{Node};
ghost use Rattle.vx_model.specs.Content.{blocks_in};
ghost use Rattle.vx_model.specs.Sites.{is_origin};
ghost use Rattle.vx_model.specs.declared.limits.TheConstants.{BLOCK, MOST_CALL_BYTES};
ghost use Rattle.vx_grouped.specs.GroupSites.{site_disks};
ghost use Rattle.vx_diskset.specs.Aboves.{site_in};
ghost use Rattle.vx_diskset.specs.Burning.{OffIf};
ghost use Rattle.vx_diskset.specs.DiskSets.{AppliedUp, CanApply, CanLog, CanRead, LoggedUp, ReadAt};
ghost use Rattle.vx_diskset.specs.Holds.{KeptBeside};
ghost use Rattle.vx_diskset.specs.Needs.{HasRoom};
ghost use Rattle.vx_diskset.specs.Noted.{OverCalled};
ghost use Rattle.vx_diskset.specs.Received.{ShowedAt};
ghost use Rattle.vx_diskset.specs.Stands.{InVolumes, SiteStands};
ghost use Rattle.vx_diskset.specs.declared.disk_set.DiskSet.TheVariants.{Over as OverSites};

use crate::{OverSet, OverSite};
use std::mem;
use vx_disk::Rack;
use vx_model::No;

impl<R: Rack> OverSet<R> {
    // Writes whole blocks to a data volume.
    fn written(
        self,
        volume: u32,
        start: u64,
        bytes: &[u8],
        hold: u64,
    ) -> (OverSet<R>, Result<u64, No>)
        requires some { 0 < length bytes.now }
        requires few { length bytes.now ≤ MOST_CALL_BYTES }
        requires whole { length bytes.now % BLOCK ≡ 0 }
        ensures wrote { (beside : KeptBeside) (n : Node) → SiteStands beside n (OverSites self) → is_origin n.role ≡ true → CanLog n volume start (blocks_in bytes.now) → HasRoom beside.links n hold (blocks_in bytes.now) → LoggedUp beside n (record { volume = volume; start = start; bytes = bytes.now }) (OverSites self) (OverSites result.0) result.1 }
        ensures called { OverCalled self result.0 }
        ensures off { IsFalse (site_disks (site_in self)).down → OffIf result.1 (site_disks (site_in result.0)).down }
    {
        let OverSet { site, cut } = self;
        match site {
            OverSite::Origin(founded) => {
                if volume < founded.core.volumes() {
                    let (founded, answer) = founded.write(volume, start, bytes, hold);
                    let site = OverSite::Origin(founded);
                    (OverSet { site, cut }, answer)
                } else {
                    let site = OverSite::Origin(founded);
                    (OverSet { site, cut }, Err(No::Role))
                }
            }
            site => (OverSet { site, cut }, Err(No::Role)),
        }
    }

    pub(crate) fn write(
        &mut self,
        volume: u32,
        start: u64,
        bytes: &[u8],
        hold: u64,
    ) -> Result<u64, No>
        requires some { 0 < length bytes.now }
        requires few { length bytes.now ≤ MOST_CALL_BYTES }
        requires whole { length bytes.now % BLOCK ≡ 0 }
        ensures wrote { (beside : KeptBeside) (n : Node) → SiteStands beside n (OverSites self.old) → is_origin n.role ≡ true → CanLog n volume start (blocks_in bytes.now) → HasRoom beside.links n hold (blocks_in bytes.now) → LoggedUp beside n (record { volume = volume; start = start; bytes = bytes.now }) (OverSites self.old) (OverSites self.new) result }
        ensures called { OverCalled self.old self.new }
        ensures off { IsFalse (site_disks (site_in self.old)).down → OffIf result (site_disks (site_in self.new)).down }
    {
        let (over, answer) = mem::replace(self, OverSet::gone()).written(
            volume, start, bytes, hold,
        );
        *self = over;
        answer
    }

    // Brings logged writes into their volumes.
    fn applied(self, to: u64) -> (OverSet<R>, Result<u64, No>)
        ensures applied { (beside : KeptBeside) (n : Node) → SiteStands beside n (OverSites self) → CanApply n → AppliedUp beside n to (OverSites self) (OverSites result.0) result.1 }
        ensures brought { IfOk result.1 (λ number. InVolumes number (OverSites result.0)) }
        ensures called { OverCalled self result.0 }
        ensures off { IsFalse (site_disks (site_in self)).down → OffIf result.1 (site_disks (site_in result.0)).down }
    {
        let OverSet { site, cut } = self;
        match site {
            OverSite::Origin(founded) => {
                let (founded, answer) = founded.apply(to);
                let site = OverSite::Origin(founded);
                (OverSet { site, cut }, answer)
            }
            site => (OverSet { site, cut }, Err(No::Role)),
        }
    }

    pub(crate) fn apply(&mut self, to: u64) -> Result<u64, No>
        ensures applied { (beside : KeptBeside) (n : Node) → SiteStands beside n (OverSites self.old) → CanApply n → AppliedUp beside n to (OverSites self.old) (OverSites self.new) result }
        ensures brought { IfOk result (λ number. InVolumes number (OverSites self.new)) }
        ensures called { OverCalled self.old self.new }
        ensures off { IsFalse (site_disks (site_in self.old)).down → OffIf result (site_disks (site_in self.new)).down }
    {
        let (over, answer) = mem::replace(self, OverSet::gone()).applied(to);
        *self = over;
        answer
    }

    // Reads blocks of a data volume: the content after the writes that are durable.
    fn was_read(self, volume: u32, start: u64, into: &mut [u8]) -> (OverSet<R>, Result<(), No>)
        requires some { 0 < length into.old }
        requires few { length into.old ≤ MOST_CALL_BYTES }
        requires whole { length into.old % BLOCK ≡ 0 }
        ensures read { (beside : KeptBeside) (n : Node) → SiteStands beside n (OverSites self) → CanRead n volume start (blocks_in into.old) → ReadAt beside n volume start (blocks_in into.old) into.new (OverSites self) (OverSites result.0) result.1 }
        ensures called { OverCalled self result.0 }
        ensures down { (site_disks (site_in result.0)).down ≡ (site_disks (site_in self)).down }
    {
        let OverSet { site, cut } = self;
        match site {
            OverSite::Origin(founded) => {
                if volume < founded.core.volumes() {
                    let (founded, answer) = founded.read(volume, start, into);
                    let site = OverSite::Origin(founded);
                    (OverSet { site, cut }, answer)
                } else {
                    let site = OverSite::Origin(founded);
                    (OverSet { site, cut }, Err(No::Role))
                }
            }
            OverSite::Receiver(founded) => {
                if volume < founded.core.volumes() {
                    let (founded, answer) = founded.read(volume, start, into);
                    let site = OverSite::Receiver(founded);
                    (OverSet { site, cut }, answer)
                } else {
                    let site = OverSite::Receiver(founded);
                    (OverSet { site, cut }, Err(No::Role))
                }
            }
            site => (OverSet { site, cut }, Err(No::Role)),
        }
    }

    pub(crate) fn read(&mut self, volume: u32, start: u64, into: &mut [u8]) -> Result<(), No>
        requires some { 0 < length into.old }
        requires few { length into.old ≤ MOST_CALL_BYTES }
        requires whole { length into.old % BLOCK ≡ 0 }
        ensures read { (beside : KeptBeside) (n : Node) → SiteStands beside n (OverSites self.old) → CanRead n volume start (blocks_in into.old) → ReadAt beside n volume start (blocks_in into.old) into.new (OverSites self.old) (OverSites self.new) result }
        ensures called { OverCalled self.old self.new }
        ensures down { (site_disks (site_in self.new)).down ≡ (site_disks (site_in self.old)).down }
    {
        let (over, answer) = mem::replace(self, OverSet::gone()).was_read(volume, start, into);
        *self = over;
        answer
    }

    // Reads blocks of a data volume: the content after all writes that were received.
    fn shown(self, volume: u32, start: u64, into: &mut [u8]) -> (OverSet<R>, Result<(), No>)
        requires some { 0 < length into.old }
        requires few { length into.old ≤ MOST_CALL_BYTES }
        requires whole { length into.old % BLOCK ≡ 0 }
        ensures shows { (beside : KeptBeside) (n : Node) → SiteStands beside n (OverSites self) → CanRead n volume start (blocks_in into.old) → ShowedAt beside n volume start (blocks_in into.old) into.new (OverSites self) (OverSites result.0) result.1 }
        ensures called { OverCalled self result.0 }
        ensures down { (site_disks (site_in result.0)).down ≡ (site_disks (site_in self)).down }
    {
        let OverSet { site, cut } = self;
        match site {
            OverSite::Origin(founded) => {
                if volume < founded.core.volumes() {
                    let (founded, answer) = founded.read(volume, start, into);
                    let site = OverSite::Origin(founded);
                    (OverSet { site, cut }, answer)
                } else {
                    let site = OverSite::Origin(founded);
                    (OverSet { site, cut }, Err(No::Role))
                }
            }
            OverSite::Receiver(founded) => {
                if volume < founded.core.volumes() {
                    let (founded, answer) = founded.show(volume, start, into);
                    let site = OverSite::Receiver(founded);
                    (OverSet { site, cut }, answer)
                } else {
                    let site = OverSite::Receiver(founded);
                    (OverSet { site, cut }, Err(No::Role))
                }
            }
            site => (OverSet { site, cut }, Err(No::Role)),
        }
    }

    pub(crate) fn show(&mut self, volume: u32, start: u64, into: &mut [u8]) -> Result<(), No>
        requires some { 0 < length into.old }
        requires few { length into.old ≤ MOST_CALL_BYTES }
        requires whole { length into.old % BLOCK ≡ 0 }
        ensures shows { (beside : KeptBeside) (n : Node) → SiteStands beside n (OverSites self.old) → CanRead n volume start (blocks_in into.old) → ShowedAt beside n volume start (blocks_in into.old) into.new (OverSites self.old) (OverSites self.new) result }
        ensures called { OverCalled self.old self.new }
        ensures down { (site_disks (site_in self.new)).down ≡ (site_disks (site_in self.old)).down }
    {
        let (over, answer) = mem::replace(self, OverSet::gone()).shown(volume, start, into);
        *self = over;
        answer
    }
}

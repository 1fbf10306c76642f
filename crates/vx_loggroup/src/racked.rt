// The own calls of a rack on the disks of a group with logs.
ghost use Rattle.std.specs.Prelude.{◌≡◌, ◌≢◌, ◌<◌, ℕ, IsTrue, Some, false, true};
ghost use Rattle.vx_disk.specs.Causes.{OnDisks, WithDisks};
ghost use Rattle.vx_disk.specs.Disks.{Crashed, SameBlocks, Untouched};
ghost use Rattle.vx_disk.specs.Racks.{Alike, Stopped};
ghost use Rattle.vx_disk.specs.Shelf.{Goes, Nothing};
ghost use Rattle.vx_group.specs.Holding.{wide};
ghost use Rattle.vx_group.specs.Resumes.{CanImport};
ghost use Rattle.vx_group.specs.Stands.{inner_meaning};
ghost use Rattle.vx_logimport.specs.Rests.{LogsTell, RestsNone};
ghost use Rattle.vx_logimport.specs.declared.rested.Rested.{Rested as RestedValue};

use crate::crashing::crash_whole;
use crate::group::LoggedGroup;
use crate::racking::{fail_whole, fuse_whole};
use vx_disk::Rack;

impl<R: Rack> LoggedGroup<R> {
    /// Crashes the disks, and hands them out, down. To the volumes this is a crash too. Where imports agree, and logs are not stopped, the disks
    /// may be imported again by their logs once they are revived.
    pub fn crash(self, pick: u64) -> R
        ensures stopped { Stopped (R.meaning self.shelf) (R.meaning result) }
        ensures disks { OnDisks (R.meaning self.shelf).disks (R.meaning result).disks (Crashed (R.meaning self.shelf).size pick) }
        ensures volumes { Stopped (inner_meaning (wide self.core) (R.meaning self.shelf)) (inner_meaning (wide self.core) (R.meaning result)) }
        ensures can { self.core.inner.agreed ≡ true → CanImport (R.meaning result) }
        ensures tells { self.stopped ≡ false → (r : RestedValue) → RestsNone r → LogsTell r (R.meaning result) }
    {
        let mut rack = self.shelf;
        let core = self.core;
        let logs = self.logs;
        let alike = self.alike;
        crash_whole(&mut rack, &core, &logs, &alike, self.stopped, pick);
        rack
    }

    /// Makes each later call on a disk fail, or ends that. The group stays as it is, and to its volumes nothing changes.
    pub fn fail(&mut self, disk: u32, on: bool)
        requires inside { disk < (R.meaning self.old.shelf).units }
        ensures core { self.new.core ≡ self.old.core }
        ensures goes { Goes Nothing (R.meaning self.old.shelf) (R.meaning self.new.shelf) }
        ensures alike { Alike (R.meaning self.old.shelf) (R.meaning self.new.shelf) }
        ensures down { (R.meaning self.new.shelf).down ≡ (R.meaning self.old.shelf).down }
        ensures armed { (R.meaning self.new.shelf).armed ≡ (R.meaning self.old.shelf).armed }
        ensures disks { WithDisks (R.meaning self.old.shelf).disks (R.meaning self.new.shelf).disks (λ o n. Untouched o n × (n.failing disk ≡ on) × ((u : ℕ) → u ≢ disk → n.failing u ≡ o.failing u)) }
        ensures volumes { Alike (inner_meaning (wide self.old.core) (R.meaning self.old.shelf)) (inner_meaning (wide self.new.core) (R.meaning self.new.shelf)) }
        ensures still { Goes Nothing (inner_meaning (wide self.old.core) (R.meaning self.old.shelf)) (inner_meaning (wide self.new.core) (R.meaning self.new.shelf)) }
    {
        fail_whole(
            &mut self.shelf,
            &self.core,
            &self.logs,
            &self.alike,
            &self.fresh,
            self.stopped,
            disk,
            on,
        );
    }

    /// Lets that many writes and flushes of the disks pass; reads do not count. The next changes nothing and is a crash. The group stays as it is,
    /// and to its volumes nothing changes.
    pub fn fuse(&mut self, calls: u64, pick: u64)
        ensures core { self.new.core ≡ self.old.core }
        ensures alike { Alike (R.meaning self.old.shelf) (R.meaning self.new.shelf) }
        ensures down { (R.meaning self.new.shelf).down ≡ (R.meaning self.old.shelf).down }
        ensures armed { IsTrue (R.meaning self.new.shelf).armed }
        ensures disks { OnDisks (R.meaning self.old.shelf).disks (R.meaning self.new.shelf).disks (λ o n. SameBlocks o n × (n.fuse ≡ Some (calls, pick))) }
        ensures volumes { Alike (inner_meaning (wide self.old.core) (R.meaning self.old.shelf)) (inner_meaning (wide self.new.core) (R.meaning self.new.shelf)) }
    {
        fuse_whole(
            &mut self.shelf,
            &self.core,
            &self.logs,
            &self.alike,
            &self.fresh,
            self.stopped,
            calls,
            pick,
        );
    }
}

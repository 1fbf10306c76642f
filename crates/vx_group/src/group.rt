// A group as a shelf.
ghost use Rattle.std.specs.Prelude.{◌≡◌, ◌≢◌, ◌⊎◌, ◌<◌, ◌≤◌, ◌-◌, ◌/◌, true, false, IfOk, IfSome, IsOk, IsTrue, Some, None, Ok, Err, OnOk, length, ℕ, IfErr};
ghost use Rattle.vx_disk.specs.Causes.{Calls, Cause, CountsOnly, Names, OnDisks, WithDisks, Works};
ghost use Rattle.vx_disk.specs.Disks.{Crashed, SameBlocks, Untouched};
ghost use Rattle.vx_disk.specs.Racks.{Alike, Stopped};
ghost use Rattle.vx_disk.specs.Shelf.{DisksFlushed, DisksWrote, Fits, Flushed, Goes, Nothing, Read, Written, Wrote};
ghost use Rattle.vx_config.specs.Table.{greatest};
ghost use Rattle.vx_copies.specs.Commits.{MoreFailed};
ghost use Rattle.vx_group.specs.Attaches.{GroupAttachEnds, att_refusal, region_count};
ghost use Rattle.vx_group.specs.Deports.{DeportStops, GroupCanImport};
ghost use Rattle.vx_group.specs.Dets.{DetStops, det_refusal, margin};
ghost use Rattle.vx_group.specs.Loses.{LosesPlexes, SameParts, TrustsStill};
ghost use Rattle.vx_group.specs.Makes.{MakeEnds, Unmoved, make_refusal};
ghost use Rattle.vx_model.specs.declared.no.No.{No as NoValue};
ghost use Rattle.vx_volume.specs.Plexes.{active};
ghost use Rattle.vx_copyio.specs.Labelling.{HasSmall};
ghost use Rattle.vx_model.specs.declared.errors.Stop.TheVariants.{No as Refused};
ghost use Rattle.vx_model.specs.declared.limits.TheConstants.{BLOCK, MOST_DISKS};
ghost use Rattle.vx_model.specs.declared.no.No.TheVariants.{Size};
ghost use Rattle.vx_group.specs.Blames.{MarksOn};
ghost use Rattle.vx_group.specs.GivesUp.{GivesUp, MissesNone};
ghost use Rattle.vx_group.specs.Calls.{BackAgrees, GivesBack, GroupAttaches, GroupCreated, GroupDeported, GroupImported, GroupNarrows, GroupStays, ImportsAgain, IsFull, KeepsUnits};
ghost use Rattle.vx_group.specs.Holding.{GroupStands, wide};
ghost use Rattle.vx_kept.specs.Commits.{IsCommitted};
ghost use Rattle.vx_kept.specs.Trusts.{HasFailed};
ghost use Rattle.vx_group.specs.Laws.{group_lawful};
ghost use Rattle.vx_group.specs.Creates.{SameUnits};
ghost use Rattle.vx_group.specs.Regains.{HoldsPlex, Regains};
ghost use Rattle.vx_group.specs.Resumes.{AtRest, CanImport};
ghost use Rattle.vx_group.specs.Rvgs.{RvgEnds, set_rvg_refusal};
ghost use Rattle.vx_group.specs.Stands.{inner_meaning};
ghost use Rattle.vx_group.specs.Turns.{ReadsInTurn};

use crate::att::att_in;
use crate::crashing::crash_in;
use crate::create::start;
use crate::deporting::deport_in;
use crate::det::det_in;
use crate::flushing::flush_group;
use crate::group_core::GroupCore;
use crate::grouping::set_rvg_in;
use crate::importing::import_in;
use crate::making::make_in;
use crate::racking::{fail_in, fuse_in};
use crate::reading::read_in;
use crate::writing::write_group;
use std::alloc::Global;
use vx_config::Config;
use vx_disk::{Rack, Shelf, ShelfError};
use vx_layout::Shape;
use vx_model::{Name, Stop, Units};

/// A group over a shelf. Its units are its volumes.
#[derive(Drop)]
pub struct Group<S: Shelf> {
    shelf: S,
    core: GroupCore,
    ghost stands: { GroupStands core (S.meaning shelf) },
}

impl<S: Shelf> Group<S> {
    /// Makes a group without volumes of the disks of a shelf.
    ///
    /// Answers 4 exactly where a disk has fewer than 1,024 blocks, and then nothing has changed; else 7 only where the count of the disk that it names
    /// rose, and 6 only where the shelf is then down. Where none is made the shelf is handed back. It takes memory.
    pub fn create(alloc: Global, shelf: S, site: u32) -> Result<Group<S>, (S, Stop)>
        requires some { 0 < (S.meaning shelf).units }
        requires few { (S.meaning shelf).units ≤ MOST_DISKS }
        ensures small { HasSmall (S.meaning shelf) → result ≡ Err (shelf, Refused Size) }
        ensures same { KeepsUnits (S.meaning shelf) (λ s. S.meaning s) (λ g. g.shelf) result }
        ensures created { GroupCreated site (S.meaning shelf) (λ s. S.meaning s) (λ g. g.core) (λ g. g.shelf) result }
    {
        let mut shelf = shelf;
        match start(alloc, &mut shelf, site) {
            Ok(inner) => {
                let core = GroupCore { inner, held: None };
                Ok(Group { shelf, core })
            }
            Err(stop) => Err((shelf, stop)),
        }
    }

    /// Imports a group: it takes up the newest configuration of the disks that can be read, with plexes that were CLEAN in the state ACTIVE and returned
    /// disks held as good, writes the headers of these disks back, copies each volume that stopped uncleanly whole from the plex that it is gone by to
    /// each that is ACTIVE, and ends with a commit.
    ///
    /// Answers what an import of the configuration answers (25, 9, 22, 8), 9 where a disk has fewer than 1,024 blocks, 19 where fewer than 65,536 serials
    /// are left, 7 only where the count of the disk that it names rose, and 6 only where the shelf is down. Where none is imported the shelf is handed
    /// back, and each block of a volume is as a crash might have left it: behind a crash it may be imported again. It takes memory.
    pub fn import(alloc: Global, shelf: S) -> Result<Group<S>, (S, Stop)>
        requires can { CanImport (S.meaning shelf) }
        ensures same { KeepsUnits (S.meaning shelf) (λ s. S.meaning s) (λ g. g.shelf) result }
        ensures imported { GroupImported (S.meaning shelf) (λ s. S.meaning s) (λ g. g.core) (λ g. g.shelf) result }
        ensures again { ImportsAgain (λ s. S.meaning s) result }
    {
        let mut shelf = shelf;
        match import_in(alloc, &mut shelf) {
            Ok(inner) => {
                let core = GroupCore { inner, held: None };
                Ok(Group { shelf, core })
            }
            Err(stop) => Err((shelf, stop)),
        }
    }

    /// The configuration.
    pub fn config(&self) -> &Config
        ensures { result.now ≡ self.now.core.inner.config }
    {
        &self.core.inner.config
    }

    /// How many disks it stands on.
    pub fn disks(&self) -> u32
        ensures { result ≡ (S.meaning self.now.shelf).units }
    {
        self.shelf.units()
    }

    /// Makes a volume of a shape, which begins as zeros, and answers its number. The volumes that stood are left as they were.
    ///
    /// Answers 2 exactly where a volume has its name, else 19 exactly where there are 32 volumes, more than 8 plexes are wanted, or fewer than 65,536 serials
    /// are left, else 4 exactly where it is no shape, else 11 where a plex, a column or a log finds no place, or 19 where there would be more than 1,024
    /// subdisks, or more than 255 of one plex, and so far nothing has changed; else 7 only where the count of the disk that it names rose, and 6 only where
    /// the shelf is then down. A crash behind a refusal may leave the volume. It writes zeros to its plexes and flushes them before the commit. It takes memory.
    pub fn make_volume(&mut self, alloc: Global, name: &Name, want: &Shape) -> Result<u32, Stop>
        requires prefer { IfSome want.now.prefer (λ p. p < want.now.mirrors) }
        ensures refused { (no : NoValue) → make_refusal self.old.core.inner.config name.now want.now ≡ Some no → (result ≡ Err (Refused no)) × (self.new.core ≡ self.old.core) × (self.new.shelf ≡ self.old.shelf) }
        ensures stays { GroupStays self.old.core self.new.core (S.meaning self.old.shelf) (S.meaning self.new.shelf) }
        ensures below { SameUnits (S.meaning self.old.shelf) (S.meaning self.new.shelf) }
        ensures parts { SameParts self.old.core.inner.config self.new.core.inner.config }
        ensures disks { MoreFailed (S.meaning self.old.shelf) (S.meaning self.new.shelf) self.old.core.inner.config.disks self.new.core.inner.config.disks }
        ensures held { OnOk result (self.new.core.held ≡ None) }
        ensures up { OnOk result (IsTrue (S.meaning self.new.shelf).down → ⊥) }
        ensures newest { OnOk result (IsCommitted self.new.core.inner.config (S.meaning self.new.shelf)) }
        ensures ends { make_refusal self.old.core.inner.config name.now want.now ≡ None → MakeEnds name.now want.now self.old.core.inner self.new.core.inner (S.meaning self.old.shelf) (S.meaning self.new.shelf) result }
        ensures trust { OnOk result (self.old.core.inner.committed ≡ true → self.new.core.inner.committed ≡ true) }
        ensures whole { OnOk result ((self.new.core.inner.committed ≡ true) ⊎ HasFailed self.new.core.inner.config.disks) }
        ensures agreed { IfErr result (λ e. self.old.core.inner.committed ≡ true → self.new.core.inner.agreed ≡ true) }
        ensures unmoved { Unmoved result ((self.new.core ≡ self.old.core) × (self.new.shelf ≡ self.old.shelf)) }
        ensures logs { TrustsStill self.old.core.inner.config self.new.core.inner.config }
    {
        make_in(alloc, &mut self.shelf, &mut self.core, name, want)
    }

    /// Names the volumes that are the replicated volume group, by a commit: the log, the maps, and the data volumes. Every volume is left as
    /// it was.
    ///
    /// Answers 19 exactly where fewer than 65,536 serials are left, else 4 exactly where these may not be such a group, and then nothing has
    /// changed; else 7 only where the count of the disk that it names rose, and 6 only where the shelf is then down. Then memory has the
    /// group of before, or none; an import behind a crash may find these. It makes no device call but those of a commit, behind a refused
    /// commit those that write headers back, and takes no memory.
    pub fn set_rvg(&mut self, units: &Units) -> Result<(), Stop>
        ensures refused { (no : NoValue) → set_rvg_refusal self.old.core.inner.config units.now ≡ Some no → (result ≡ Err (Refused no)) × (self.new.core ≡ self.old.core) × (self.new.shelf ≡ self.old.shelf) }
        ensures goes { Goes Nothing (inner_meaning (wide self.old.core) (S.meaning self.old.shelf)) (inner_meaning (wide self.new.core) (S.meaning self.new.shelf)) }
        ensures narrows { GroupNarrows self.old.core self.new.core (S.meaning self.old.shelf) (S.meaning self.new.shelf) }
        ensures volumes { self.new.core.inner.config.volumes ≡ self.old.core.inner.config.volumes }
        ensures site { self.new.core.inner.config.site ≡ self.old.core.inner.config.site }
        ensures disks { MoreFailed (S.meaning self.old.shelf) (S.meaning self.new.shelf) self.old.core.inner.config.disks self.new.core.inner.config.disks }
        ensures ends { RvgEnds units.now self.old.core.inner.config self.new.core.inner.config (S.meaning self.new.shelf) result }
        ensures trust { OnOk result (self.old.core.inner.committed ≡ true → self.new.core.inner.committed ≡ true) }
        ensures whole { OnOk result ((self.new.core.inner.committed ≡ true) ⊎ HasFailed self.new.core.inner.config.disks) }
        ensures agreed { IfErr result (λ e. self.old.core.inner.committed ≡ true → self.new.core.inner.agreed ≡ true) }
        ensures cause { set_rvg_refusal self.old.core.inner.config units.now ≡ None → DetStops (S.meaning self.old.shelf) (S.meaning self.new.shelf) result }
    {
        set_rvg_in(&mut self.shelf, &mut self.core, units)
    }

    /// Detaches a plex. Nothing changes where it is not ACTIVE.
    ///
    /// Answers 1 exactly where there is no such volume or plex, else 10 exactly where no other plex of the volume is ACTIVE, else 19 exactly where fewer than
    /// 65,536 serials are left, and then nothing has changed; else 7 only where the count of the disk that it names rose, and 6 only where the shelf is then
    /// down. It makes no device call but those of a commit, behind a refused commit those that write headers back, and takes no memory.
    pub fn det(&mut self, vol: u32, plex: u32) -> Result<(), Stop>
        ensures refused { (no : NoValue) → det_refusal self.old.core.inner.config vol plex ≡ Some no → (result ≡ Err (Refused no)) × (self.new.core ≡ self.old.core) × (self.new.shelf ≡ self.old.shelf) }
        ensures goes { Goes Nothing (inner_meaning (wide self.old.core) (S.meaning self.old.shelf)) (inner_meaning (wide self.new.core) (S.meaning self.new.shelf)) }
        ensures narrows { GroupNarrows self.old.core self.new.core (S.meaning self.old.shelf) (S.meaning self.new.shelf) }
        ensures parts { SameParts self.old.core.inner.config self.new.core.inner.config }
        ensures disks { MoreFailed (S.meaning self.old.shelf) (S.meaning self.new.shelf) self.old.core.inner.config.disks self.new.core.inner.config.disks }
        ensures already { det_refusal self.old.core.inner.config vol plex ≡ None → active self.old.core.inner.config vol plex ≡ false → IsOk result × (self.new.core ≡ self.old.core) × (self.new.shelf ≡ self.old.shelf) }
        ensures newest { IsTrue (active self.old.core.inner.config vol plex) → OnOk result (IsCommitted self.new.core.inner.config (S.meaning self.new.shelf)) }
        ensures off { OnOk result (active self.new.core.inner.config vol plex ≡ false) }
        ensures others { (w p : ℕ) → (w ≡ vol → p ≡ plex → ⊥) → active self.new.core.inner.config w p ≡ active self.old.core.inner.config w p }
        ensures trust { OnOk result (self.old.core.inner.committed ≡ true → self.new.core.inner.committed ≡ true) }
        ensures agreed { IfErr result (λ e. self.old.core.inner.committed ≡ true → self.new.core.inner.agreed ≡ true) }
        ensures logs { TrustsStill self.old.core.inner.config self.new.core.inner.config }
        ensures cause { det_refusal self.old.core.inner.config vol plex ≡ None → DetStops (S.meaning self.old.shelf) (S.meaning self.new.shelf) result }
    {
        det_in(&mut self.shelf, &mut self.core, vol, plex)
    }

    /// Attaches a plex, and answers how many regions were copied: all of the volume, and none where the plex is ACTIVE already; then nothing
    /// changes. Each volume reads as before, at every moment and in every image. Disks of the plex that are held as failed are held as good
    /// first, by a commit of their own; where one fails in that, it stays held as failed, and the answer is 7.
    ///
    /// Answers 1 exactly where there is no such volume or plex, else 19 exactly where fewer than 65,536 serials are left, and then nothing has changed; else 7
    /// only where the count of the disk that it names rose, and 6 only where the shelf is then down. Then the plex is not ACTIVE: where the commit that takes
    /// it back was refused too it is STALE in memory, an import behind a crash may find it ACTIVE with the content of the volume, and the next call but a
    /// read begins with a commit that detaches it. It writes blocks of this plex alone beside those of commits, makes them durable before its commit, and
    /// takes no memory.
    pub fn att(&mut self, vol: u32, plex: u32) -> Result<u64, Stop>
        ensures refused { (no : NoValue) → att_refusal self.old.core.inner.config vol plex ≡ Some no → (result ≡ Err (Refused no)) × (self.new.core ≡ self.old.core) × (self.new.shelf ≡ self.old.shelf) }
        ensures already { att_refusal self.old.core.inner.config vol plex ≡ None → IsTrue (active self.old.core.inner.config vol plex) → (result ≡ Ok 0) × (self.new.core ≡ self.old.core) × (self.new.shelf ≡ self.old.shelf) }
        ensures count { active self.old.core.inner.config vol plex ≡ false → IfOk result (λ n. n ≡ region_count self.old.core.inner.config vol) }
        ensures attaches { GroupAttaches vol plex None self.old.core self.new.core (S.meaning self.old.shelf) (S.meaning self.new.shelf) }
        ensures ends { active self.old.core.inner.config vol plex ≡ false → GroupAttachEnds vol plex self.new.core.inner.config (S.meaning self.new.shelf) result }
        ensures regains { Regains self.old.core.inner.config self.new.core.inner.config vol plex (S.meaning self.old.shelf) (S.meaning self.new.shelf) }
        ensures held { active self.old.core.inner.config vol plex ≡ false → OnOk result (HoldsPlex (λ s. S.meaning s) self.old.core.inner.config self.new.core.inner.config vol plex self.new.shelf) }
        ensures trust { OnOk result (self.old.core.inner.committed ≡ true → self.new.core.inner.committed ≡ true) }
        ensures logs { TrustsStill self.old.core.inner.config self.new.core.inner.config }
        ensures cause { att_refusal self.old.core.inner.config vol plex ≡ None → DetStops (S.meaning self.old.shelf) (S.meaning self.new.shelf) result }
    {
        att_in(&mut self.shelf, &mut self.core, vol, plex, None)
    }

    /// Deports the group: every volume is flushed, then a commit puts the plexes that are ACTIVE into the state CLEAN, but those of the
    /// volumes of which a write or a flush failed, and the shelf is handed out. A plex that fails in its flush is detached; where each
    /// plex of a volume fails, they stay ACTIVE.
    ///
    /// Answers 19 exactly where fewer than 65,536 serials are left, and then nothing has changed; else 7 only where the count of the disk
    /// that it names rose, and 6 only where the shelf is then down. A refusal gives the group back, without the plexes that were
    /// detached; to its volumes nothing was written. It makes no device call but flushes and those of commits, behind a refused commit
    /// those that write headers back, and takes no memory.
    pub fn deport(self) -> Result<S, (Group<S>, Stop)>
        ensures limit { greatest - margin < self.core.inner.config.serial → IsFull self.core self.shelf (λ g. g.core) (λ g. g.shelf) result }
        ensures ends { GroupDeported self.core (S.meaning self.shelf) (λ s. S.meaning s) (λ g. g.core) (λ g. g.shelf) result }
        ensures up { IfOk result (λ s. IsTrue (S.meaning s).down → ⊥) }
        ensures back { GivesBack self.core (S.meaning self.shelf) (λ s. S.meaning s) (λ g. g.core) (λ g. g.shelf) result }
        ensures can { GroupCanImport self.core.inner (λ s. S.meaning s) result }
        ensures agreed { BackAgrees self.core (λ g. g.core) result }
        ensures cause { self.core.inner.config.serial ≤ greatest - margin → DeportStops (S.meaning self.shelf) (λ s. S.meaning s) (λ g. g.shelf) result }
    {
        let mut shelf = self.shelf;
        let mut core = self.core;
        match deport_in(&mut shelf, &mut core) {
            Ok(()) => Ok(shelf),
            Err(stop) => Err((Group { shelf, core }, stop)),
        }
    }

    /// Whether all imports over what a crash may leave now agree, whichever disks they can read.
    ///
    /// They do while each commit is done, and behind the first one that is refused. Then they may not, until a commit is done by which each disk
    /// is good: a disk that failed in the refused one may keep a copy of it that no later commit reaches. It makes no device call.
    pub fn is_agreed(&self) -> bool
        ensures { result ≡ self.now.core.inner.agreed }
    {
        self.core.inner.agreed
    }

    /// Hands out the shelf below and the rest. Where the shelf fell, and imports agree, it may be imported again. It makes no device call and
    /// takes no memory.
    pub fn apart(self) -> (S, GroupCore)
        ensures shelf { result.0 ≡ self.shelf }
        ensures core { result.1 ≡ self.core }
        ensures stands { GroupStands result.1 (S.meaning result.0) }
        ensures can { AtRest (S.meaning result.0) → result.1.inner.agreed ≡ true → CanImport (S.meaning result.0) }
    {
        (self.shelf, self.core)
    }

    /// Joins them again, where what the core says stands on the shelf. It makes no device call and takes no memory.
    pub fn together(shelf: S, core: GroupCore) -> Group<S>
        requires stands { GroupStands core (S.meaning shelf) }
        ensures shelf { result.shelf ≡ shelf }
        ensures core { result.core ≡ core }
    {
        Group { shelf, core }
    }
}

impl<R: Rack> Group<R> {
    /// Crashes the disks, and hands them out, down. To the volumes this is a crash too: each image that it keeps is one that it might have
    /// left. Where imports agree, the disks may be imported again once they are revived.
    pub fn crash(self, pick: u64) -> R
        ensures stopped { Stopped (R.meaning self.shelf) (R.meaning result) }
        ensures disks { OnDisks (R.meaning self.shelf).disks (R.meaning result).disks (Crashed (R.meaning self.shelf).size pick) }
        ensures volumes { Stopped (inner_meaning (wide self.core) (R.meaning self.shelf)) (inner_meaning (wide self.core) (R.meaning result)) }
        ensures can { self.core.inner.agreed ≡ true → CanImport (R.meaning result) }
    {
        let mut rack = self.shelf;
        let core = self.core;
        crash_in(&mut rack, &core, pick);
        rack
    }

    /// Makes each later call on a disk fail, or ends that. The group stays as it is, and to its volumes nothing changes.
    pub fn fail(&mut self, disk: u32, on: bool)
        requires inside { disk < (R.meaning self.old.shelf).units }
        ensures core { self.new.core ≡ self.old.core }
        ensures goes { Goes Nothing (R.meaning self.old.shelf) (R.meaning self.new.shelf) }
        ensures alike { Alike (R.meaning self.old.shelf) (R.meaning self.new.shelf) }
        ensures down { (R.meaning self.new.shelf).down ≡ (R.meaning self.old.shelf).down }
        ensures armed { (R.meaning self.new.shelf).armed ≡ (R.meaning self.old.shelf).armed }
        ensures disks { WithDisks (R.meaning self.old.shelf).disks (R.meaning self.new.shelf).disks (λ o n. Untouched o n × (n.failing disk ≡ on) × ((u : ℕ) → u ≢ disk → n.failing u ≡ o.failing u)) }
        ensures volumes { Alike (inner_meaning (wide self.old.core) (R.meaning self.old.shelf)) (inner_meaning (wide self.new.core) (R.meaning self.new.shelf)) }
        ensures still { Goes Nothing (inner_meaning (wide self.old.core) (R.meaning self.old.shelf)) (inner_meaning (wide self.new.core) (R.meaning self.new.shelf)) }
    {
        fail_in(&mut self.shelf, &self.core, disk, on);
    }

    /// Lets that many writes and flushes of the disks pass; reads do not count. The next changes nothing and is a crash. The group stays
    /// as it is, and to its volumes nothing changes.
    pub fn fuse(&mut self, calls: u64, pick: u64)
        ensures core { self.new.core ≡ self.old.core }
        ensures alike { Alike (R.meaning self.old.shelf) (R.meaning self.new.shelf) }
        ensures down { (R.meaning self.new.shelf).down ≡ (R.meaning self.old.shelf).down }
        ensures armed { IsTrue (R.meaning self.new.shelf).armed }
        ensures disks { OnDisks (R.meaning self.old.shelf).disks (R.meaning self.new.shelf).disks (λ o n. SameBlocks o n × (n.fuse ≡ Some (calls, pick))) }
        ensures volumes { Alike (inner_meaning (wide self.old.core) (R.meaning self.old.shelf)) (inner_meaning (wide self.new.core) (R.meaning self.new.shelf)) }
    {
        fuse_in(&mut self.shelf, &self.core, calls, pick);
    }
}

impl<S: Shelf> Shelf for Group<S> {
    ghost meaning = { λ g. inner_meaning (wide g.core) (S.meaning g.shelf) };

    fn units(&self) -> u32 {
        self.core.inner.config.volumes.as_slice().len() as u32
    }

    fn size(&self, unit: u32) -> u64 {
        self.core.inner.config.volumes.as_slice()[unit as usize].blocks
    }

    /// Reads from one plex that is ACTIVE in the configuration.
    fn read(&mut self, unit: u32, block: u64, into: &mut [u8]) -> Result<(), ShelfError>
        requires { Fits (inner_meaning (wide self.old.core) (S.meaning self.old.shelf)) unit block (length into.old) }
        ensures goes { Goes Nothing (inner_meaning (wide self.old.core) (S.meaning self.old.shelf)) (inner_meaning (wide self.new.core) (S.meaning self.new.shelf)) }
        ensures ok { OnOk result (Read (inner_meaning (wide self.old.core) (S.meaning self.old.shelf)) unit block into.new) }
        ensures down { (inner_meaning (wide self.new.core) (S.meaning self.new.shelf)).down ≡ (inner_meaning (wide self.old.core) (S.meaning self.old.shelf)).down }
        ensures cause { Cause (inner_meaning (wide self.old.core) (S.meaning self.old.shelf)) (inner_meaning (wide self.new.core) (S.meaning self.new.shelf)) unit result }
        ensures counts { CountsOnly unit result (inner_meaning (wide self.old.core) (S.meaning self.old.shelf)).faults (inner_meaning (wide self.new.core) (S.meaning self.new.shelf)).faults }
        ensures names { Names (inner_meaning (wide self.old.core) (S.meaning self.old.shelf)).disks unit result }
        ensures works { OnOk result (Works (inner_meaning (wide self.old.core) (S.meaning self.old.shelf)).disks unit) }
        ensures disks { OnDisks (inner_meaning (wide self.old.core) (S.meaning self.old.shelf)).disks (inner_meaning (wide self.new.core) (S.meaning self.new.shelf)).disks Untouched }
        ensures shown { OnOk result (Read (inner_meaning self.old.core.inner (S.meaning self.old.shelf)) unit block into.new) }
        ensures same { self.new.core.inner.config ≡ self.old.core.inner.config }
        ensures held { self.new.core.held ≡ self.old.core.held }
        ensures trusted { (self.new.core.inner.committed ≡ self.old.core.inner.committed) × (self.new.core.inner.agreed ≡ self.old.core.inner.agreed) }
        ensures below { Goes Nothing (S.meaning self.old.shelf) (S.meaning self.new.shelf) }
        ensures turn { ReadsInTurn self.old.core.inner.config unit self.old.core.inner.next self.new.core.inner.next block (length into.old / BLOCK) into.new (S.meaning self.old.shelf) (S.meaning self.new.shelf) result }
    {
        read_in(&mut self.shelf, &mut self.core, unit, block, into)
    }

    /// Writes to each plex that is ACTIVE. One that is held back is detached first, while a serial is left. A fault comes only where each had a failed
    /// call on one of its disks in this call, or a commit was refused; then no plex changes its state.
    fn write(&mut self, unit: u32, block: u64, bytes: &[u8]) -> Result<(), ShelfError>
        requires { Fits (inner_meaning (wide self.old.core) (S.meaning self.old.shelf)) unit block (length bytes.now) }
        ensures goes { Goes (Written unit block bytes.now) (inner_meaning (wide self.old.core) (S.meaning self.old.shelf)) (inner_meaning (wide self.new.core) (S.meaning self.new.shelf)) }
        ensures ok { OnOk result (Wrote unit block bytes.now (inner_meaning (wide self.old.core) (S.meaning self.old.shelf)) (inner_meaning (wide self.new.core) (S.meaning self.new.shelf))) }
        ensures logs { TrustsStill self.old.core.inner.config self.new.core.inner.config }
        ensures cause { Cause (inner_meaning (wide self.old.core) (S.meaning self.old.shelf)) (inner_meaning (wide self.new.core) (S.meaning self.new.shelf)) unit result }
        ensures names { Names (inner_meaning (wide self.old.core) (S.meaning self.old.shelf)).disks unit result }
        ensures works { OnOk result (Works (inner_meaning (wide self.old.core) (S.meaning self.old.shelf)).disks unit) }
        ensures disks { OnDisks (inner_meaning (wide self.old.core) (S.meaning self.old.shelf)).disks (inner_meaning (wide self.new.core) (S.meaning self.new.shelf)).disks (λ o n. Calls (inner_meaning (wide self.old.core) (S.meaning self.old.shelf)) (DisksWrote unit block bytes.now) o n result) }
        ensures gave_up { GivesUp unit self.old.core.inner self.new.core.inner (S.meaning self.old.shelf) (S.meaning self.new.shelf) result }
        ensures marks { MarksOn unit self.old.core.inner.unsure self.new.core.inner.unsure result }
        ensures ready { OnOk result (MissesNone self.new.core.inner) }
        ensures loses { LosesPlexes self.old.core.inner.config self.new.core.inner.config (S.meaning self.old.shelf) (S.meaning self.new.shelf) }
        ensures clear { self.old.core.inner.config.serial < greatest → OnOk result (self.new.core.held ≡ None) }
        ensures trust { OnOk result (self.old.core.inner.committed ≡ true → self.new.core.inner.committed ≡ true) }
        ensures agreed { IfErr result (λ e. self.old.core.inner.committed ≡ true → self.new.core.inner.agreed ≡ true) }
    {
        write_group(&mut self.shelf, &mut self.core, unit, block, bytes)
    }

    /// Flushes each plex that is ACTIVE. A fault comes only as in a write.
    fn flush(&mut self, unit: u32) -> Result<(), ShelfError>
        requires { unit < (inner_meaning (wide self.old.core) (S.meaning self.old.shelf)).units }
        ensures goes { Goes Nothing (inner_meaning (wide self.old.core) (S.meaning self.old.shelf)) (inner_meaning (wide self.new.core) (S.meaning self.new.shelf)) }
        ensures ok { OnOk result (Flushed unit (inner_meaning (wide self.old.core) (S.meaning self.old.shelf)) (inner_meaning (wide self.new.core) (S.meaning self.new.shelf))) }
        ensures logs { TrustsStill self.old.core.inner.config self.new.core.inner.config }
        ensures cause { Cause (inner_meaning (wide self.old.core) (S.meaning self.old.shelf)) (inner_meaning (wide self.new.core) (S.meaning self.new.shelf)) unit result }
        ensures names { Names (inner_meaning (wide self.old.core) (S.meaning self.old.shelf)).disks unit result }
        ensures works { OnOk result (Works (inner_meaning (wide self.old.core) (S.meaning self.old.shelf)).disks unit) }
        ensures disks { OnDisks (inner_meaning (wide self.old.core) (S.meaning self.old.shelf)).disks (inner_meaning (wide self.new.core) (S.meaning self.new.shelf)).disks (λ o n. Calls (inner_meaning (wide self.old.core) (S.meaning self.old.shelf)) (DisksFlushed unit) o n result) }
        ensures gave_up { GivesUp unit self.old.core.inner self.new.core.inner (S.meaning self.old.shelf) (S.meaning self.new.shelf) result }
        ensures marks { MarksOn unit self.old.core.inner.unsure self.new.core.inner.unsure result }
        ensures ready { OnOk result (MissesNone self.new.core.inner) }
        ensures loses { LosesPlexes self.old.core.inner.config self.new.core.inner.config (S.meaning self.old.shelf) (S.meaning self.new.shelf) }
        ensures clear { self.old.core.inner.config.serial < greatest → OnOk result (self.new.core.held ≡ None) }
        ensures trust { OnOk result (self.old.core.inner.committed ≡ true → self.new.core.inner.committed ≡ true) }
        ensures agreed { IfErr result (λ e. self.old.core.inner.committed ≡ true → self.new.core.inner.agreed ≡ true) }
    {
        flush_group(&mut self.shelf, &mut self.core, unit)
    }

    fn faults(&self, unit: u32) -> u64 {
        self.core.inner.faults[unit as usize]
    }

    fn is_down(&self) -> bool {
        self.shelf.is_down()
    }

    ghost lawful = { λ g. group_lawful (wide g.core) (S.meaning g.shelf) (S.lawful g.shelf) g.stands.stands };
}

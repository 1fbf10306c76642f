// A shelf in memory.
ghost use Rattle.std.specs.Prelude.{◌≡◌, ◌≢◌, ◌≤◌, ◌<◌, ℕ, IsTrue, IsFalse, length, OnOk, IfOk, IfErr, Some, Err};
ghost use Rattle.vx_model.specs.declared.errors.Stop.TheVariants.{No as Refused};
ghost use Rattle.vx_model.specs.declared.no.Counted.TheVariants.{Disks, Blocks};
ghost use Rattle.vx_model.specs.declared.no.No.TheVariants.{Limit};
ghost use Rattle.vx_disk.specs.Causes.{Calls, Cause, CountsOnly, Names, OnDisks, WithDisks, Works};
ghost use Rattle.vx_disk.specs.Disks.{Burns, Crashed, SameBlocks, Untouched};
ghost use Rattle.vx_disk.specs.Meanings.{disks_in, meaning_in, shelf_meaning};
ghost use Rattle.vx_disk.specs.Memory.{failing_of, meaning-IsRack, meaning-Lawful};
ghost use Rattle.vx_disk.specs.Moments.{moments_of};
ghost use Rattle.vx_disk.specs.Plans.{Numbered, is_made_to_fail};
ghost use Rattle.vx_disk.specs.Racks.{Alike, Bare, Fitted, FitStops, Stopped, Telling, Unfitted, most_blocks};
ghost use Rattle.vx_disk.specs.Shelf.{DisksFlushed, DisksWrote, Fits, Flushed, Goes, Nothing, Read, Written, Wrote};

use crate::disks::MemDisks;
use crate::{FaultPlan, Rack, Shelf, ShelfError, too_many};
use std::alloc::Global;
use vx_model::limits::{LEAST_BLOCKS, MOST_DISKS, MOST_FILE_BLOCKS, MOST_MEMORY_BLOCKS};
use vx_model::{Counted, OutOfMemory, Stop};

/// A shelf in memory, which tells its contents.
///
/// Its reads, writes and flushes are numbered from 1. A call fails exactly where its number is listed or its disk is made to
/// fail. A call that is answered with `Down` has no number.
#[derive(Drop)]
pub struct MemShelf {
    disks: MemDisks,
    /// The number of calls made, and of those that are to fail.
    pub plan: FaultPlan,
}

impl MemShelf {
    /// One that is not fitted, whose calls of these numbers fail.
    pub fn new(alloc: Global, fails: &[u64]) -> Result<MemShelf, OutOfMemory>
        ensures bare { IfOk result (λ m. Bare (⟦<MemShelf as Shelf>⟧.meaning m)) }
        ensures none_made { IfOk result (λ m. m.plan.made ≡ 0) }
        ensures fails { IfOk result (λ m. m.plan.fails ≡ fails.now) }
    {
        let plan = FaultPlan::new(alloc, fails)?;
        Ok(MemShelf {
            disks: MemDisks::new(alloc),
            plan,
        })
    }

    // Counts a call on a unit, which fails if it is listed or the unit is made to fail.
    fn count(&mut self, unit: u32) -> Result<(), ShelfError>
        requires unit { unit < length self.old.disks.units.items }
        requires up { IsFalse self.old.disks.down }
        ensures goes { Goes Nothing (meaning_in self.old.disks) (meaning_in self.new.disks) }
        ensures cause { Cause (meaning_in self.old.disks) (meaning_in self.new.disks) unit result }
        ensures counts { CountsOnly unit result (meaning_in self.old.disks).faults (meaning_in self.new.disks).faults }
        ensures names { Names (Some (disks_in self.old.disks)) unit result }
        ensures blocks { SameBlocks (disks_in self.old.disks) (disks_in self.new.disks) }
        ensures failing { (u : ℕ) → failing_of self.new.disks.units.items u ≡ failing_of self.old.disks.units.items u }
        ensures fuse { self.new.disks.fuse ≡ self.old.disks.fuse }
        ensures down { self.new.disks.down ≡ self.old.disks.down }
        ensures numbered { Numbered self.old.plan self.new.plan (failing_of self.old.disks.units.items unit) result }
    {
        let listed = self.plan.next();
        if listed || self.disks.units[unit as usize].failing {
            self.disks.fault(unit);
            return Err(ShelfError::Fault { disk: unit });
        }
        Ok(())
    }

    // What comes before a write or a flush.
    fn begin(&mut self, unit: u32) -> Result<(), ShelfError>
        requires unit { unit < length self.old.disks.units.items }
        ensures goes { Goes Nothing (meaning_in self.old.disks) (meaning_in self.new.disks) }
        ensures cause { Cause (meaning_in self.old.disks) (meaning_in self.new.disks) unit result }
        ensures names { Names (Some (disks_in self.old.disks)) unit result }
        ensures calls { Calls (meaning_in self.old.disks) SameBlocks (disks_in self.old.disks) (disks_in self.new.disks) result }
        ensures failing { (u : ℕ) → failing_of self.new.disks.units.items u ≡ failing_of self.old.disks.units.items u }
        ensures numbered { Numbered self.old.plan self.new.plan (failing_of self.old.disks.units.items unit) result }
    {
        if !self.disks.pass() {
            return Err(ShelfError::Down);
        }
        self.count(unit)
    }
}

impl Shelf for MemShelf {
    ghost meaning = { shelf_meaning };

    ghost lawful = { λ m. meaning-Lawful m.disks.units.items (moments_of m.disks.past.value) m.disks.down m.disks.fuse m.disks.few };

    fn units(&self) -> u32 {
        self.disks.units.len() as u32
    }

    fn size(&self, unit: u32) -> u64 {
        self.disks.units[unit as usize].blocks()
    }

    fn read(&mut self, unit: u32, block: u64, into: &mut [u8]) -> Result<(), ShelfError>
        requires { Fits (⟦<MemShelf as Shelf>⟧.meaning self.old) unit block (length into.old) }
        ensures goes { Goes Nothing (⟦<MemShelf as Shelf>⟧.meaning self.old) (⟦<MemShelf as Shelf>⟧.meaning self.new) }
        ensures ok { OnOk result (Read (⟦<MemShelf as Shelf>⟧.meaning self.old) unit block into.new) }
        ensures down { (⟦<MemShelf as Shelf>⟧.meaning self.new).down ≡ (⟦<MemShelf as Shelf>⟧.meaning self.old).down }
        ensures cause { Cause (⟦<MemShelf as Shelf>⟧.meaning self.old) (⟦<MemShelf as Shelf>⟧.meaning self.new) unit result }
        ensures counts { CountsOnly unit result (⟦<MemShelf as Shelf>⟧.meaning self.old).faults (⟦<MemShelf as Shelf>⟧.meaning self.new).faults }
        ensures names { Names (⟦<MemShelf as Shelf>⟧.meaning self.old).disks unit result }
        ensures works { OnOk result (Works (⟦<MemShelf as Shelf>⟧.meaning self.old).disks unit) }
        ensures disks { OnDisks (⟦<MemShelf as Shelf>⟧.meaning self.old).disks (⟦<MemShelf as Shelf>⟧.meaning self.new).disks Untouched }
        ensures numbered { Numbered self.old.plan self.new.plan (is_made_to_fail (⟦<MemShelf as Shelf>⟧.meaning self.old).disks unit) result }
    {
        if self.disks.down {
            return Err(ShelfError::Down);
        }
        self.count(unit)?;
        self.disks.read(unit, block, into);
        Ok(())
    }

    fn write(&mut self, unit: u32, block: u64, bytes: &[u8]) -> Result<(), ShelfError>
        requires { Fits (⟦<MemShelf as Shelf>⟧.meaning self.old) unit block (length bytes.now) }
        ensures goes { Goes (Written unit block bytes.now) (⟦<MemShelf as Shelf>⟧.meaning self.old) (⟦<MemShelf as Shelf>⟧.meaning self.new) }
        ensures ok { OnOk result (Wrote unit block bytes.now (⟦<MemShelf as Shelf>⟧.meaning self.old) (⟦<MemShelf as Shelf>⟧.meaning self.new)) }
        ensures cause { Cause (⟦<MemShelf as Shelf>⟧.meaning self.old) (⟦<MemShelf as Shelf>⟧.meaning self.new) unit result }
        ensures names { Names (⟦<MemShelf as Shelf>⟧.meaning self.old).disks unit result }
        ensures works { OnOk result (Works (⟦<MemShelf as Shelf>⟧.meaning self.old).disks unit) }
        ensures disks { OnDisks (⟦<MemShelf as Shelf>⟧.meaning self.old).disks (⟦<MemShelf as Shelf>⟧.meaning self.new).disks (λ o n. Calls (⟦<MemShelf as Shelf>⟧.meaning self.old) (DisksWrote unit block bytes.now) o n result) }
        ensures numbered { Numbered self.old.plan self.new.plan (is_made_to_fail (⟦<MemShelf as Shelf>⟧.meaning self.old).disks unit) result }
    {
        self.begin(unit)?;
        self.disks.write(unit, block, bytes);
        Ok(())
    }

    fn flush(&mut self, unit: u32) -> Result<(), ShelfError>
        requires { unit < (⟦<MemShelf as Shelf>⟧.meaning self.old).units }
        ensures goes { Goes Nothing (⟦<MemShelf as Shelf>⟧.meaning self.old) (⟦<MemShelf as Shelf>⟧.meaning self.new) }
        ensures ok { OnOk result (Flushed unit (⟦<MemShelf as Shelf>⟧.meaning self.old) (⟦<MemShelf as Shelf>⟧.meaning self.new)) }
        ensures cause { Cause (⟦<MemShelf as Shelf>⟧.meaning self.old) (⟦<MemShelf as Shelf>⟧.meaning self.new) unit result }
        ensures names { Names (⟦<MemShelf as Shelf>⟧.meaning self.old).disks unit result }
        ensures works { OnOk result (Works (⟦<MemShelf as Shelf>⟧.meaning self.old).disks unit) }
        ensures disks { OnDisks (⟦<MemShelf as Shelf>⟧.meaning self.old).disks (⟦<MemShelf as Shelf>⟧.meaning self.new).disks (λ o n. Calls (⟦<MemShelf as Shelf>⟧.meaning self.old) (DisksFlushed unit) o n result) }
        ensures numbered { Numbered self.old.plan self.new.plan (is_made_to_fail (⟦<MemShelf as Shelf>⟧.meaning self.old).disks unit) result }
    {
        self.begin(unit)?;
        self.disks.flush(unit);
        Ok(())
    }

    fn faults(&self, unit: u32) -> u64 {
        self.disks.units[unit as usize].faults
    }

    fn is_down(&self) -> bool {
        self.disks.down
    }
}

impl Rack for MemShelf {
    ghost rack = { λ m. meaning-IsRack m.disks.units.items (moments_of m.disks.past.value) m.disks.down m.disks.fuse m.disks.at_rest };

    fn fit(
        &mut self,
        alloc: Global,
        dir: Option<&str>,
        _site: u32,
        disks: u32,
        blocks: u64,
    ) -> Result<(), Stop>
        requires unfitted { (⟦<MemShelf as Shelf>⟧.meaning self.old).units ≡ 0 }
        requires some_disks { 1 ≤ disks }
        requires some_blocks { LEAST_BLOCKS ≤ blocks }
        requires up { IsFalse (⟦<MemShelf as Shelf>⟧.meaning self.old).down }
        ensures fitted { OnOk result (Fitted disks blocks (⟦<MemShelf as Shelf>⟧.meaning self.old) (⟦<MemShelf as Shelf>⟧.meaning self.new)) }
        ensures tells { Telling dir.entry (⟦<MemShelf as Shelf>⟧.meaning self.old) (⟦<MemShelf as Shelf>⟧.meaning self.new) }
        ensures many_disks { MOST_DISKS < disks → result ≡ Err (Refused (Limit Disks MOST_DISKS)) }
        ensures many_blocks { disks ≤ MOST_DISKS → most_blocks dir.entry < blocks → result ≡ Err (Refused (Limit Blocks (most_blocks dir.entry))) }
        ensures stops { disks ≤ MOST_DISKS → blocks ≤ most_blocks dir.entry → IfErr result (FitStops disks (⟦<MemShelf as Shelf>⟧.meaning self.old) (⟦<MemShelf as Shelf>⟧.meaning self.new)) }
        ensures unchanged { IfErr result (Unfitted (⟦<MemShelf as Shelf>⟧.meaning self.old) (⟦<MemShelf as Shelf>⟧.meaning self.new)) }
        ensures still_tells { (⟦<MemShelf as Shelf>⟧.meaning self.new).tells ≡ (⟦<MemShelf as Shelf>⟧.meaning self.old).tells }
        ensures plan { self.new.plan ≡ self.old.plan }
    {
        if disks > MOST_DISKS {
            return Err(too_many(Counted::Disks, u64::from(MOST_DISKS)));
        }
        let most = limit(dir);
        if blocks > most {
            return Err(too_many(Counted::Blocks, most));
        }
        self.disks.fit(alloc, disks, blocks as usize)
    }

    fn crash(&mut self, pick: u64)
        ensures stopped { Stopped (⟦<MemShelf as Shelf>⟧.meaning self.old) (⟦<MemShelf as Shelf>⟧.meaning self.new) }
        ensures disks { OnDisks (⟦<MemShelf as Shelf>⟧.meaning self.old).disks (⟦<MemShelf as Shelf>⟧.meaning self.new).disks (Crashed (⟦<MemShelf as Shelf>⟧.meaning self.old).size pick) }
        ensures plan { self.new.plan ≡ self.old.plan }
    {
        self.disks.stop(pick);
    }

    fn fuse(&mut self, calls: u64, pick: u64)
        ensures alike { Alike (⟦<MemShelf as Shelf>⟧.meaning self.old) (⟦<MemShelf as Shelf>⟧.meaning self.new) }
        ensures down { (⟦<MemShelf as Shelf>⟧.meaning self.new).down ≡ (⟦<MemShelf as Shelf>⟧.meaning self.old).down }
        ensures armed { IsTrue (⟦<MemShelf as Shelf>⟧.meaning self.new).armed }
        ensures disks { OnDisks (⟦<MemShelf as Shelf>⟧.meaning self.old).disks (⟦<MemShelf as Shelf>⟧.meaning self.new).disks (λ o n. SameBlocks o n × (n.fuse ≡ Some (calls, pick))) }
        ensures plan { self.new.plan ≡ self.old.plan }
    {
        self.disks.set_fuse(calls, pick);
    }

    fn fail(&mut self, disk: u32, on: bool)
        requires { disk < (⟦<MemShelf as Shelf>⟧.meaning self.old).units }
        ensures goes { Goes Nothing (⟦<MemShelf as Shelf>⟧.meaning self.old) (⟦<MemShelf as Shelf>⟧.meaning self.new) }
        ensures alike { Alike (⟦<MemShelf as Shelf>⟧.meaning self.old) (⟦<MemShelf as Shelf>⟧.meaning self.new) }
        ensures down { (⟦<MemShelf as Shelf>⟧.meaning self.new).down ≡ (⟦<MemShelf as Shelf>⟧.meaning self.old).down }
        ensures armed { (⟦<MemShelf as Shelf>⟧.meaning self.new).armed ≡ (⟦<MemShelf as Shelf>⟧.meaning self.old).armed }
        ensures disks { WithDisks (⟦<MemShelf as Shelf>⟧.meaning self.old).disks (⟦<MemShelf as Shelf>⟧.meaning self.new).disks (λ o n. Untouched o n × (n.failing disk ≡ on) × ((u : ℕ) → u ≢ disk → n.failing u ≡ o.failing u)) }
        ensures plan { self.new.plan ≡ self.old.plan }
    {
        self.disks.make_fail(disk, on);
    }

    fn revive(&mut self)
        requires { IsTrue (⟦<MemShelf as Shelf>⟧.meaning self.old).down }
        ensures alike { Alike (⟦<MemShelf as Shelf>⟧.meaning self.old) (⟦<MemShelf as Shelf>⟧.meaning self.new) }
        ensures up { IsFalse (⟦<MemShelf as Shelf>⟧.meaning self.new).down }
        ensures armed { (⟦<MemShelf as Shelf>⟧.meaning self.new).armed ≡ (⟦<MemShelf as Shelf>⟧.meaning self.old).armed }
        ensures disks { OnDisks (⟦<MemShelf as Shelf>⟧.meaning self.old).disks (⟦<MemShelf as Shelf>⟧.meaning self.new).disks Untouched }
        ensures plan { self.new.plan ≡ self.old.plan }
    {
        self.disks.revive();
    }
}

// The greatest number of blocks of a disk: fewer in memory than in the files of a folder.
fn limit(dir: Option<&str>) -> u64
    ensures { result ≡ most_blocks dir.entry }
{
    match dir {
        None => MOST_MEMORY_BLOCKS,
        Some(_) => MOST_FILE_BLOCKS,
    }
}

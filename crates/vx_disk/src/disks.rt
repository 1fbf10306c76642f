// The disks of a shelf in memory.
ghost use Rattle.std.specs.Prelude.{◌≡◌, ◌≢◌, ◌≤◌, ◌<◌, ◌⊎◌, ℕ, IsTrue, IsFalse, true, false, length, OnOk, IfOk, IfErr, [], None, Some};
ghost use Rattle.vx_disk.specs.Counts.{Rose};
ghost use Rattle.vx_model.specs.declared.limits.TheConstants.{MOST_DISKS};
ghost use Rattle.vx_disk.specs.Disks.{Burns, Crashed, RanOut, SameBlocks, Untouched};
ghost use Rattle.vx_disk.specs.Memory.{AllZeroed, NoneLoose, Settled, faults_of, failing_of, size_of};
ghost use Rattle.vx_disk.specs.Moments.{moments_of};
ghost use Rattle.vx_disk.specs.Racks.{Alike, Fitted, Stopped, Unfitted};
ghost use Rattle.vx_model.specs.declared.errors.Stop.TheVariants.{OutOfMemory as MemoryStop};
ghost use Rattle.vx_disk.specs.Shelf.{DisksFlushed, DisksWrote, Fits, Flushed, Goes, Nothing, Read, Written, Wrote};

use crate::moment::{Moment, none, note};
use crate::unit::MemUnit;
use std::alloc::Global;
use std::snapshot::Snapshot;
use vx_model::Stop;
use vx_model::limits::{MOST_DISKS, MOST_FILE_BLOCKS};

/// Disks that stop and start together.
#[derive(Drop)]
pub struct MemDisks {
    pub units: Vec<MemUnit>,
    pub past: Snapshot<Option<Moment>>,
    pub down: bool,
    /// How many writes and flushes are left before a crash, and its pick.
    pub fuse: Option<(u64, u64)>,
    pub ghost few: { length units.items ≤ MOST_DISKS },
    // A crash leaves no block loose, and nothing is written while they are down.
    pub ghost at_rest: { down ≡ true → NoneLoose units.items },
}

impl MemDisks {
    ghost use Rattle.vx_disk.specs.Meanings.{disks_in, meaning_in};

    /// No disks yet.
    pub fn new(alloc: Global) -> MemDisks
        ensures units { result.units.items ≡ [] }
        ensures up { result.down ≡ false }
        ensures no_fuse { result.fuse ≡ None }
    {
        MemDisks {
            units: Vec::new(alloc),
            past: none(),
            down: false,
            fuse: None,
        }
    }

    /// Makes so many disks of so many zeroed blocks. Where memory runs out nothing changes.
    pub fn fit(&mut self, alloc: Global, disks: u32, blocks: usize) -> Result<(), Stop>
        requires unfitted { length self.old.units.items ≡ 0 }
        requires up { IsFalse self.old.down }
        requires disks { disks ≤ MOST_DISKS }
        requires blocks { blocks ≤ MOST_FILE_BLOCKS }
        ensures fitted { OnOk result (Fitted disks blocks (meaning_in self.old) (meaning_in self.new)) }
        ensures memory { IfErr result (λ stop. stop ≡ MemoryStop) }
        ensures unchanged { IfErr result (Unfitted (meaning_in self.old) (meaning_in self.new)) }
    {
        let units = zeroed(alloc, disks, blocks)?;
        note(&mut self.past, &self.units);
        self.units = units;
        Ok(())
    }

    /// Lets that many writes and flushes pass.
    pub fn set_fuse(&mut self, calls: u64, pick: u64)
        ensures alike { Alike (meaning_in self.old) (meaning_in self.new) }
        ensures down { self.new.down ≡ self.old.down }
        ensures disks { SameBlocks (disks_in self.old) (disks_in self.new) }
        ensures fuse { self.new.fuse ≡ Some (calls, pick) }
        ensures failing { (u : ℕ) → failing_of self.new.units.items u ≡ failing_of self.old.units.items u }
    {
        self.fuse = Some((calls, pick));
    }

    /// Starts the disks again.
    pub fn revive(&mut self)
        ensures alike { Alike (meaning_in self.old) (meaning_in self.new) }
        ensures up { IsFalse self.new.down }
        ensures disks { Untouched (disks_in self.old) (disks_in self.new) }
        ensures failing { (u : ℕ) → failing_of self.new.units.items u ≡ failing_of self.old.units.items u }
    {
        self.down = false;
    }

    /// Counts a fault of a disk.
    pub fn fault(&mut self, unit: u32)
        requires { unit < length self.old.units.items }
        ensures goes { Goes Nothing (meaning_in self.old) (meaning_in self.new) }
        ensures rose { Rose (faults_of self.old.units.items unit) (faults_of self.new.units.items unit) }
        ensures others { (u : ℕ) → u ≢ unit → faults_of self.new.units.items u ≡ faults_of self.old.units.items u }
        ensures blocks { SameBlocks (disks_in self.old) (disks_in self.new) }
        ensures failing { (u : ℕ) → failing_of self.new.units.items u ≡ failing_of self.old.units.items u }
        ensures fuse { self.new.fuse ≡ self.old.fuse }
        ensures down { self.new.down ≡ self.old.down }
    {
        note(&mut self.past, &self.units);
        self.units[unit as usize].fault();
    }

    /// Whether a write or flush may pass. It may not where the disks are down, nor where the fuse has no calls left: then
    /// they stop. One that passes burns a call.
    pub fn pass(&mut self) -> bool
        ensures goes { Goes Nothing (meaning_in self.old) (meaning_in self.new) }
        ensures passed { IsTrue result → IsFalse self.old.down × IsFalse self.new.down × SameBlocks (disks_in self.old) (disks_in self.new) × Burns self.old.fuse self.new.fuse }
        ensures stopped { IsFalse result → IsTrue self.new.down × ((IsTrue self.old.down × Untouched (disks_in self.old) (disks_in self.new)) ⊎ RanOut (size_of self.old.units.items) (disks_in self.old) (disks_in self.new)) }
        ensures failing { (u : ℕ) → failing_of self.new.units.items u ≡ failing_of self.old.units.items u }
    {
        if self.down {
            return false;
        }
        let Some((calls, pick)) = self.fuse else {
            return true;
        };
        if calls == 0 {
            self.stop(pick);
            return false;
        }
        self.fuse = Some((calls - 1, pick));
        true
    }

    /// All disks stop at one moment, and each loose block keeps one of its values.
    pub fn stop(&mut self, pick: u64)
        ensures stopped { Stopped (meaning_in self.old) (meaning_in self.new) }
        ensures crash { Crashed (size_of self.old.units.items) pick (disks_in self.old) (disks_in self.new) }
        ensures failing { (u : ℕ) → failing_of self.new.units.items u ≡ failing_of self.old.units.items u }
    {
        note(&mut self.past, &self.units);
        settle_all(&mut self.units, pick);
        self.down = true;
        self.fuse = None;
    }

    /// Reads whole blocks of a disk.
    pub fn read(&self, unit: u32, block: u64, into: &mut [u8])
        requires { Fits (meaning_in self.now) unit block (length into.old) }
        ensures { Read (meaning_in self.now) unit block into.new }
    {
        self.units[unit as usize].read(block as usize, into);
    }

    /// Writes whole blocks of a disk, which are loose from then on.
    pub fn write(&mut self, unit: u32, block: u64, bytes: &[u8])
        requires fits { Fits (meaning_in self.old) unit block (length bytes.now) }
        requires up { IsFalse self.old.down }
        ensures goes { Goes (Written unit block bytes.now) (meaning_in self.old) (meaning_in self.new) }
        ensures wrote { Wrote unit block bytes.now (meaning_in self.old) (meaning_in self.new) }
        ensures disks { DisksWrote unit block bytes.now (disks_in self.old) (disks_in self.new) }
        ensures failing { (u : ℕ) → failing_of self.new.units.items u ≡ failing_of self.old.units.items u }
        ensures fuse { self.new.fuse ≡ self.old.fuse }
        ensures down { self.new.down ≡ self.old.down }
    {
        note(&mut self.past, &self.units);
        self.units[unit as usize].write(block as usize, bytes);
    }

    /// Makes a disk's latest values its stable ones.
    pub fn flush(&mut self, unit: u32)
        requires unit { unit < length self.old.units.items }
        requires up { IsFalse self.old.down }
        ensures goes { Goes Nothing (meaning_in self.old) (meaning_in self.new) }
        ensures flushed { Flushed unit (meaning_in self.old) (meaning_in self.new) }
        ensures disks { DisksFlushed unit (disks_in self.old) (disks_in self.new) }
        ensures failing { (u : ℕ) → failing_of self.new.units.items u ≡ failing_of self.old.units.items u }
        ensures fuse { self.new.fuse ≡ self.old.fuse }
        ensures down { self.new.down ≡ self.old.down }
    {
        note(&mut self.past, &self.units);
        self.units[unit as usize].flush();
    }

    /// Makes each later call on a disk fail, or ends that.
    pub fn make_fail(&mut self, disk: u32, on: bool)
        requires { disk < length self.old.units.items }
        ensures alike { Alike (meaning_in self.old) (meaning_in self.new) }
        ensures disks { Untouched (disks_in self.old) (disks_in self.new) }
        ensures here { failing_of self.new.units.items disk ≡ on }
        ensures elsewhere { (u : ℕ) → u ≢ disk → failing_of self.new.units.items u ≡ failing_of self.old.units.items u }
        ensures down { self.new.down ≡ self.old.down }
    {
        self.units[disk as usize].make_fail(on);
    }
}

fn zeroed(alloc: Global, disks: u32, blocks: usize) -> Result<Vec<MemUnit>, Stop>
    requires disks { disks ≤ MOST_DISKS }
    requires blocks { blocks ≤ MOST_FILE_BLOCKS }
    ensures zeroed { IfOk result (λ units. AllZeroed disks blocks units.items) }
    ensures memory { IfErr result (λ e. e ≡ MemoryStop) }
{
    let mut units = Vec::new(alloc);
    for _unit in 0..disks {
        units.push(MemUnit::new(alloc, blocks)?)?;
    }
    Ok(units)
}

// Each unit's loose blocks keep one of their values, numbered over all units.
fn settle_all(units: &mut [MemUnit], pick: u64)
    ensures { Settled units.old pick units.new }
{
    let mut number = 0;
    for unit in units.iter_mut() {
        number = unit.settle(pick, number);
    }
}

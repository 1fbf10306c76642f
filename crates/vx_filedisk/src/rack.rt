// The calls of a shelf and of a rack on the disks of a site.
ghost use Rattle.std.specs.Prelude.{◌≡◌, ◌≤◌, ◌<◌, IsFalse, Err, OnOk, OnSome, IfErr, length};
ghost use Rattle.vx_model.specs.declared.errors.Stop.TheVariants.{No as Refused};
ghost use Rattle.vx_model.specs.declared.no.Counted.TheVariants.{Disks, Blocks};
ghost use Rattle.vx_model.specs.declared.no.No.TheVariants.{Limit};
ghost use Rattle.vx_disk.specs.Causes.{Calls, Cause, CountsOnly, Names, OnDisks, Works};
ghost use Rattle.vx_disk.specs.Disks.{Untouched};
ghost use Rattle.vx_disk.specs.Racks.{Fitted, FitStops, Telling, Unfitted, most_blocks};
ghost use Rattle.vx_disk.specs.Shelf.{DisksFlushed, DisksWrote, Fits, Flushed, Goes, Nothing, Read, Written, Wrote};
ghost use Rattle.vx_filedisk.specs.Counting.{CountsKept, CountsNoted};
ghost use Rattle.vx_filedisk.specs.Laws.{rack-IsRack, rack-Lawful};
ghost use Rattle.vx_filedisk.specs.Meanings.{rack_meaning};

use crate::HostRack;
use crate::files::DiskFiles;
use crate::fit::{OpenError, open_disks};
use std::alloc::Global;
use vx_disk::{Rack, Shelf, ShelfError, too_many};
use vx_model::limits::{BLOCK, LEAST_BLOCKS, MOST_DISKS, MOST_FILE_BLOCKS};
use vx_model::{Counted, No, Stop};

impl Shelf for HostRack {
    ghost meaning = { rack_meaning };

    ghost lawful = { rack-Lawful };

    fn units(&self) -> u32 {
        self.memory.units()
    }

    fn size(&self, unit: u32) -> u64 {
        match &self.files {
            None => self.memory.size(unit),
            Some(files) => files.blocks,
        }
    }

    fn read(&mut self, unit: u32, block: u64, into: &mut [u8]) -> Result<(), ShelfError>
        requires { Fits (⟦<HostRack as Shelf>⟧.meaning self.old) unit block (length into.old) }
        ensures goes { Goes Nothing (⟦<HostRack as Shelf>⟧.meaning self.old) (⟦<HostRack as Shelf>⟧.meaning self.new) }
        ensures ok { OnOk result (Read (⟦<HostRack as Shelf>⟧.meaning self.old) unit block into.new) }
        ensures down { (⟦<HostRack as Shelf>⟧.meaning self.new).down ≡ (⟦<HostRack as Shelf>⟧.meaning self.old).down }
        ensures cause { Cause (⟦<HostRack as Shelf>⟧.meaning self.old) (⟦<HostRack as Shelf>⟧.meaning self.new) unit result }
        ensures counts { CountsOnly unit result (⟦<HostRack as Shelf>⟧.meaning self.old).faults (⟦<HostRack as Shelf>⟧.meaning self.new).faults }
        ensures names { Names (⟦<HostRack as Shelf>⟧.meaning self.old).disks unit result }
        ensures works { OnOk result (Works (⟦<HostRack as Shelf>⟧.meaning self.old).disks unit) }
        ensures disks { OnDisks (⟦<HostRack as Shelf>⟧.meaning self.old).disks (⟦<HostRack as Shelf>⟧.meaning self.new).disks Untouched }
        ensures counted { CountsNoted unit result (⟦<HostRack as Shelf>⟧.meaning self.old).faults (⟦<HostRack as Shelf>⟧.meaning self.new).faults }
    {
        let Some(files) = &self.files else {
            let answer = self.memory.read(unit, block, into);
            self.counts.note(unit, &answer);
            return answer;
        };
        let passed = self.memory.read(unit, 0, &mut [0; BLOCK]);
        let answer = files.read(passed, unit, block, into);
        self.counts.note(unit, &answer);
        answer
    }

    fn write(&mut self, unit: u32, block: u64, bytes: &[u8]) -> Result<(), ShelfError>
        requires { Fits (⟦<HostRack as Shelf>⟧.meaning self.old) unit block (length bytes.now) }
        ensures goes { Goes (Written unit block bytes.now) (⟦<HostRack as Shelf>⟧.meaning self.old) (⟦<HostRack as Shelf>⟧.meaning self.new) }
        ensures ok { OnOk result (Wrote unit block bytes.now (⟦<HostRack as Shelf>⟧.meaning self.old) (⟦<HostRack as Shelf>⟧.meaning self.new)) }
        ensures cause { Cause (⟦<HostRack as Shelf>⟧.meaning self.old) (⟦<HostRack as Shelf>⟧.meaning self.new) unit result }
        ensures names { Names (⟦<HostRack as Shelf>⟧.meaning self.old).disks unit result }
        ensures works { OnOk result (Works (⟦<HostRack as Shelf>⟧.meaning self.old).disks unit) }
        ensures disks { OnDisks (⟦<HostRack as Shelf>⟧.meaning self.old).disks (⟦<HostRack as Shelf>⟧.meaning self.new).disks (λ o n. Calls (⟦<HostRack as Shelf>⟧.meaning self.old) (DisksWrote unit block bytes.now) o n result) }
        ensures counted { CountsNoted unit result (⟦<HostRack as Shelf>⟧.meaning self.old).faults (⟦<HostRack as Shelf>⟧.meaning self.new).faults }
    {
        let Some(files) = &self.files else {
            let answer = self.memory.write(unit, block, bytes);
            self.counts.note(unit, &answer);
            return answer;
        };
        let passed = self.memory.flush(unit);
        let answer = files.write(passed, unit, block, bytes);
        self.counts.note(unit, &answer);
        answer
    }

    fn flush(&mut self, unit: u32) -> Result<(), ShelfError>
        requires { unit < (⟦<HostRack as Shelf>⟧.meaning self.old).units }
        ensures goes { Goes Nothing (⟦<HostRack as Shelf>⟧.meaning self.old) (⟦<HostRack as Shelf>⟧.meaning self.new) }
        ensures ok { OnOk result (Flushed unit (⟦<HostRack as Shelf>⟧.meaning self.old) (⟦<HostRack as Shelf>⟧.meaning self.new)) }
        ensures cause { Cause (⟦<HostRack as Shelf>⟧.meaning self.old) (⟦<HostRack as Shelf>⟧.meaning self.new) unit result }
        ensures names { Names (⟦<HostRack as Shelf>⟧.meaning self.old).disks unit result }
        ensures works { OnOk result (Works (⟦<HostRack as Shelf>⟧.meaning self.old).disks unit) }
        ensures disks { OnDisks (⟦<HostRack as Shelf>⟧.meaning self.old).disks (⟦<HostRack as Shelf>⟧.meaning self.new).disks (λ o n. Calls (⟦<HostRack as Shelf>⟧.meaning self.old) (DisksFlushed unit) o n result) }
        ensures counted { CountsNoted unit result (⟦<HostRack as Shelf>⟧.meaning self.old).faults (⟦<HostRack as Shelf>⟧.meaning self.new).faults }
    {
        let Some(files) = &self.files else {
            let answer = self.memory.flush(unit);
            self.counts.note(unit, &answer);
            return answer;
        };
        let passed = self.memory.flush(unit);
        let answer = files.flush(passed, unit);
        self.counts.note(unit, &answer);
        answer
    }

    fn faults(&self, unit: u32) -> u64 {
        self.counts.of(unit)
    }

    fn is_down(&self) -> bool {
        self.memory.is_down()
    }
}

impl Rack for HostRack {
    ghost rack = { rack-IsRack };

    fn fit(
        &mut self,
        alloc: Global,
        dir: Option<&str>,
        site: u32,
        disks: u32,
        blocks: u64,
    ) -> Result<(), Stop>
        requires unfitted { (⟦<HostRack as Shelf>⟧.meaning self.old).units ≡ 0 }
        requires some_disks { 1 ≤ disks }
        requires some_blocks { LEAST_BLOCKS ≤ blocks }
        requires up { IsFalse (⟦<HostRack as Shelf>⟧.meaning self.old).down }
        ensures fitted { OnOk result (Fitted disks blocks (⟦<HostRack as Shelf>⟧.meaning self.old) (⟦<HostRack as Shelf>⟧.meaning self.new)) }
        ensures tells { Telling dir.entry (⟦<HostRack as Shelf>⟧.meaning self.old) (⟦<HostRack as Shelf>⟧.meaning self.new) }
        ensures many_disks { MOST_DISKS < disks → result ≡ Err (Refused (Limit Disks MOST_DISKS)) }
        ensures many_blocks { disks ≤ MOST_DISKS → most_blocks dir.entry < blocks → result ≡ Err (Refused (Limit Blocks (most_blocks dir.entry))) }
        ensures stops { disks ≤ MOST_DISKS → blocks ≤ most_blocks dir.entry → IfErr result (FitStops disks (⟦<HostRack as Shelf>⟧.meaning self.old) (⟦<HostRack as Shelf>⟧.meaning self.new)) }
        ensures unchanged { IfErr result (Unfitted (⟦<HostRack as Shelf>⟧.meaning self.old) (⟦<HostRack as Shelf>⟧.meaning self.new)) }
        ensures untold { OnOk result (OnSome dir.entry (IsFalse (⟦<HostRack as Shelf>⟧.meaning self.new).tells)) }
        ensures kept { OnOk result (CountsKept (⟦<HostRack as Shelf>⟧.meaning self.old).faults (⟦<HostRack as Shelf>⟧.meaning self.new).faults) }
    {
        match dir {
            None => self.memory.fit(alloc, None, site, disks, blocks),
            Some(dir) => self.fit_files(alloc, dir, site, disks, blocks),
        }
    }

    fn crash(&mut self, pick: u64) {
        self.memory.crash(pick);
    }

    fn fuse(&mut self, calls: u64, pick: u64) {
        self.memory.fuse(calls, pick);
    }

    fn fail(&mut self, disk: u32, on: bool) {
        self.memory.fail(disk, on);
    }

    fn revive(&mut self) {
        self.memory.revive();
    }
}

impl HostRack {
    // Fits the rack with files.
    fn fit_files(
        &mut self,
        alloc: Global,
        dir: &str,
        site: u32,
        disks: u32,
        blocks: u64,
    ) -> Result<(), Stop>
        requires unfitted { (rack_meaning self.old).units ≡ 0 }
        requires some_disks { 1 ≤ disks }
        requires up { IsFalse (rack_meaning self.old).down }
        ensures fitted { OnOk result (Fitted disks blocks (rack_meaning self.old) (rack_meaning self.new)) }
        ensures untold { OnOk result (IsFalse (rack_meaning self.new).tells) }
        ensures kept { OnOk result (CountsKept (rack_meaning self.old).faults (rack_meaning self.new).faults) }
        ensures many_disks { MOST_DISKS < disks → result ≡ Err (Refused (Limit Disks MOST_DISKS)) }
        ensures many_blocks { disks ≤ MOST_DISKS → MOST_FILE_BLOCKS < blocks → result ≡ Err (Refused (Limit Blocks MOST_FILE_BLOCKS)) }
        ensures stops { disks ≤ MOST_DISKS → blocks ≤ MOST_FILE_BLOCKS → IfErr result (FitStops disks (rack_meaning self.old) (rack_meaning self.new)) }
        ensures unchanged { IfErr result (Unfitted (rack_meaning self.old) (rack_meaning self.new)) }
    {
        if disks > MOST_DISKS {
            return Err(too_many(Counted::Disks, u64::from(MOST_DISKS)));
        }
        if blocks > MOST_FILE_BLOCKS {
            return Err(too_many(Counted::Blocks, MOST_FILE_BLOCKS));
        }
        match open_disks(&self.rt, alloc, dir, site, disks, blocks) {
            Ok(files) => {
                self.memory.fit(alloc, None, site, disks, LEAST_BLOCKS)?;
                self.files = Some(DiskFiles { files, blocks });
                Ok(())
            }
            Err(OpenError::OutOfMemory) => Err(Stop::OutOfMemory),
            Err(OpenError::Disk { disk }) => {
                self.counts.raise(disk);
                Err(Stop::No(No::Device { disk }))
            }
        }
    }
}

// Where the logs of a new volume find space.
ghost use Rattle.std.specs.Prelude.{◌≡◌, ◌<◌, ◌≤◌, length};
ghost use Rattle.vx_layout.specs.Space.{AreLogs, IsShape, NoLog};
ghost use Rattle.vx_layout.specs.Runs.{RunOn};
ghost use Rattle.vx_layout.specs.Steps.{AddsDrl, AddsFmr, AddsLog, DrlShort, StepEnds, FmrShort, FoundRun, LogShort};

use crate::gap::next_gap;
use crate::rooms::{DISKS, end_of};
use crate::shape::Shape;
use crate::short::Short;
use std::alloc::Global;
use vx_config::{DiskEntry, Subdisk};
use vx_model::limits::{DISK_PLACES, PUBLIC_START};
use vx_model::map_blocks;

// The lowest run of so many free blocks on a disk with so many blocks; where there is none, the longest run.
fn run_on(used: &[Subdisk], disk: u8, end: u64, wanted: u64) -> Result<u64, u64>
    requires { 0 < wanted }
    ensures { RunOn used.now disk end wanted result }
{
    let mut block = PUBLIC_START;
    let mut longest: u64 = 0;
    while block < end {
        let gap = next_gap(used, disk, block, end);
        if wanted <= gap.blocks {
            return Ok(gap.start);
        }
        longest = longest.max(gap.blocks);
        block = gap.start + gap.blocks;
    }
    Err(longest)
}

// The lowest run of so many free blocks, on the lowest disk that has one.
fn find_run(used: &[Subdisk], disks: &[DiskEntry], wanted: u64) -> Result<Subdisk, Short>
    requires some { 0 < wanted }
    requires few { length disks.now ≤ DISK_PLACES }
    ensures { StepEnds (FoundRun used.now disks.now wanted) (LogShort used.now disks.now wanted) result }
{
    let mut longest: u64 = 0;
    for disk in 0..DISKS {
        match run_on(used, disk, end_of(disks, disk), wanted) {
            Ok(start) => {
                return Ok(Subdisk {
                    disk: disk,
                    start: start,
                    blocks: wanted,
                });
            }
            Err(blocks) => longest = longest.max(blocks),
        }
    }
    Err(Short::Space {
        need: wanted,
        have: longest,
    })
}

// Puts a log behind the others.
fn push_log(
    used: &mut Vec<Subdisk>,
    disks: &[DiskEntry],
    wanted: u64,
    logs: &mut Vec<Subdisk>,
) -> Result<(), Short>
    requires some { 0 < wanted }
    requires few { length disks.now ≤ DISK_PLACES }
    ensures { StepEnds (λ _. AddsLog used.old.items disks.now wanted used.new.items logs.old.items logs.new.items) (LogShort used.old.items disks.now wanted) result }
{
    let run = find_run(used.as_slice(), disks, wanted)?;
    used.push(run)?;
    logs.push(run)?;
    Ok(())
}

// The DRL of a shape, where it wants one.
fn push_drl(
    used: &mut Vec<Subdisk>,
    disks: &[DiskEntry],
    want: &Shape,
    logs: &mut Vec<Subdisk>,
) -> Result<(), Short>
    requires shape { IsShape want.now }
    requires few { length disks.now ≤ DISK_PLACES }
    ensures { StepEnds (λ _. AddsDrl want.now used.old.items disks.now used.new.items logs.old.items logs.new.items) (DrlShort want.now used.old.items disks.now) result }
{
    if want.drl {
        push_log(used, disks, map_blocks(want.blocks), logs)
    } else {
        Ok(())
    }
}

// The FMR log of a shape, where it wants one.
fn push_fmr(
    used: &mut Vec<Subdisk>,
    disks: &[DiskEntry],
    want: &Shape,
    logs: &mut Vec<Subdisk>,
) -> Result<(), Short>
    requires shape { IsShape want.now }
    requires few { length disks.now ≤ DISK_PLACES }
    ensures { StepEnds (λ _. AddsFmr want.now used.old.items disks.now logs.old.items logs.new.items) (FmrShort want.now used.old.items disks.now) result }
{
    if want.fmr {
        push_log(
            used,
            disks,
            u64::from(want.mirrors) * map_blocks(want.blocks),
            logs,
        )
    } else {
        Ok(())
    }
}

/// Where the logs that a shape wants lie, beside all runs that are used.
pub fn find_logs(
    alloc: Global,
    used: &mut Vec<Subdisk>,
    disks: &[DiskEntry],
    want: &Shape,
) -> Result<Vec<Subdisk>, Short>
    requires shape { IsShape want.now }
    requires few { length disks.now ≤ DISK_PLACES }
    ensures { StepEnds (λ logs. AreLogs want.now used.old.items disks.now want.now.drl want.now.fmr logs.items) (NoLog want.now used.old.items disks.now) result }
{
    let mut logs = Vec::new(alloc);
    push_drl(used, disks, want, &mut logs)?;
    push_fmr(used, disks, want, &mut logs)?;
    Ok(logs)
}

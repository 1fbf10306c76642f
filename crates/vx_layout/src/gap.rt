// The free blocks of a disk, run by run.
ghost use Rattle.std.specs.Prelude.{◌≡◌, ◌⊎◌, ◌+◌, ◌-◌, ◌<◌, ◌≤◌, ℕ, true, false};
ghost use Rattle.vx_layout.specs.Free.{IsGap, free_in, holds as holds_is, is_free};
ghost use Rattle.vx_layout.specs.Reaches.{IsCut, IsReach};

use vx_config::Subdisk;
use vx_model::limits::PUBLIC_START;

/// Free blocks that stand one behind the other.
#[derive(Clone, Copy)]
pub struct Gap {
    pub start: u64,
    pub blocks: u64,
}

fn holds(run: &Subdisk, disk: u8, block: u64) -> bool
    ensures { result ≡ holds_is disk block run.now }
{
    run.disk == disk
        && run.start <= block
        && u128::from(block) < u128::from(run.start) + u128::from(run.blocks)
}

// How many blocks from this one on a run has that holds it; 0 where none does.
fn held_from(used: &[Subdisk], disk: u8, block: u64) -> u64
    ensures held { (b : ℕ) → block ≤ b → b < block + result → is_free used.now disk b ≡ false }
    ensures free { result ≡ 0 → is_free used.now disk block ≡ true }
{
    for run in used {
        if holds(run, disk, block) {
            return run.blocks - (block - run.start);
        }
    }
    0
}

// The first free block from this one on, or the end.
fn skip(used: &[Subdisk], disk: u8, from: u64, end: u64) -> u64
    requires { from ≤ end }
    ensures behind { from ≤ result }
    ensures within { result ≤ end }
    ensures before { (b : ℕ) → from ≤ b → b < result → is_free used.now disk b ≡ false }
    ensures free { result < end → is_free used.now disk result ≡ true }
{
    let mut block = from;
    while block < end {
        let held = held_from(used, disk, block);
        if held == 0 {
            return block;
        }
        block += held.min(end - block);
    }
    block
}

// So many blocks from a free one on, cut off where a run begins.
fn cut(run: &Subdisk, disk: u8, block: u64, blocks: u64) -> u64
    requires { holds_is disk block run.now ≡ false }
    ensures { IsCut run.now disk block blocks result }
{
    if run.disk == disk && block < run.start && 0 < run.blocks {
        blocks.min(run.start - block)
    } else {
        blocks
    }
}

// How many blocks from a free one on are free.
fn reach(used: &[Subdisk], disk: u8, block: u64, end: u64) -> u64
    requires inside { block ≤ end }
    requires free { block < end → is_free used.now disk block ≡ true }
    ensures { IsReach used.now disk block end result }
{
    let mut blocks = end - block;
    if blocks == 0 {
        return 0;
    }
    for run in used {
        blocks = cut(run, disk, block, blocks);
    }
    blocks
}

/// The first free blocks of a disk from this one on that stand one behind the other. There are none where it has no free
/// block before the end.
pub fn next_gap(used: &[Subdisk], disk: u8, from: u64, end: u64) -> Gap
    requires { from ≤ end }
    ensures { IsGap used.now disk from end result }
{
    let start = skip(used, disk, from, end);
    Gap {
        start: start,
        blocks: reach(used, disk, start, end),
    }
}

/// How many blocks of the public region of a disk with so many blocks are free.
pub fn free_on(used: &[Subdisk], disk: u8, end: u64) -> u64
    ensures { result ≡ free_in used.now disk PUBLIC_START (end - PUBLIC_START) }
{
    let mut block = PUBLIC_START;
    let mut free = 0;
    while block < end {
        let gap = next_gap(used, disk, block, end);
        free += gap.blocks;
        block = gap.start + gap.blocks;
    }
    free
}

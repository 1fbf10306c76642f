// One disk in memory.
ghost use Rattle.std.specs.Prelude.{◌≡◌, ◌*◌, ◌+◌, ◌≤◌, ℕ, ◌/◌, ◌%◌, ◌<◌, length, take, drop, replicate, true, false, cond, ◌≢◌, IfOk, slice_index_or};
ghost use Rattle.vx_model.specs.declared.limits.TheConstants.{BLOCK};
ghost use Rattle.vx_disk.specs.Blocks.{bit_at, block_at, kept, over, trues};
ghost use Rattle.vx_disk.specs.Counts.{Rose};
ghost use Rattle.vx_disk.specs.Runs.{AreInside, AreNoted};

use crate::keeping::{Run, copy_over, keep_block, keep_written, note_run};
use std::alloc::{AllocError, Global};
use vx_model::limits::{BLOCK, MOST_FILE_BLOCKS};

/// A disk: of each block a stable and a latest value, and whether it was written since the last flush.
#[derive(Drop)]
pub struct MemUnit {
    pub stable: Vec<u8>,
    pub latest: Vec<u8>,
    pub loose: Vec<bool>,
    /// The runs that were written since the last flush, as long as there is room for them.
    pub runs: Vec<Run>,
    /// How many they are. Where it is the room's end, some may be missing.
    pub number: usize,
    pub faults: u64,
    pub failing: bool,
    pub ghost stable_size: { length stable.items ≡ BLOCK * length loose.items },
    pub ghost latest_size: { length latest.items ≡ BLOCK * length loose.items },
    // A block that is not loose has one value.
    pub ghost clean: { (b : ℕ) → slice_index_or loose.items b false ≡ false → block_at stable.items b ≡ block_at latest.items b },
    // A block that lies in none of the runs is not loose.
    pub ghost noted: { number < length runs.items → AreNoted number runs.items loose.items },
    pub ghost inside: { number < length runs.items → AreInside number runs.items (length loose.items) },
}

impl MemUnit {
    ghost use Rattle.vx_disk.specs.Memory.{IsZeroed};

    /// A disk of zeroed blocks.
    pub fn new(alloc: Global, blocks: usize) -> Result<MemUnit, AllocError>
        requires { blocks ≤ MOST_FILE_BLOCKS }
        ensures { IfOk result (IsZeroed blocks) }
    {
        let stable = Vec::from_elem(alloc, 0u8, BLOCK * blocks)?;
        let latest = Vec::from_elem(alloc, 0u8, BLOCK * blocks)?;
        let loose = Vec::from_elem(alloc, false, blocks)?;
        let runs = Vec::from_elem(alloc, Run { first: 0, count: 0 }, blocks)?;
        Ok(MemUnit {
            stable,
            latest,
            loose,
            runs,
            number: 0,
            faults: 0,
            failing: false,
        })
    }

    pub fn blocks(&self) -> u64
        ensures { result ≡ length self.now.loose.items }
    {
        self.loose.len() as u64
    }

    pub fn read(&self, block: usize, into: &mut [u8])
        requires whole { length into.old % BLOCK ≡ 0 }
        requires within { block + length into.old / BLOCK ≤ length self.now.loose.items }
        ensures { into.new ≡ take (length into.old) (drop (BLOCK * block) self.now.latest.items) }
    {
        let start = BLOCK * block;
        into.copy_from_slice(&self.latest[start..start + into.len()]);
    }

    pub fn write(&mut self, block: usize, bytes: &[u8])
        requires whole { length bytes.now % BLOCK ≡ 0 }
        requires within { block + length bytes.now / BLOCK ≤ length self.old.loose.items }
        ensures latest { self.new.latest.items ≡ over self.old.latest.items (BLOCK * block) bytes.now }
        ensures stable { self.new.stable.items ≡ self.old.stable.items }
        ensures blocks { length self.new.loose.items ≡ length self.old.loose.items }
        ensures loose { self.new.loose.items ≡ over self.old.loose.items block (replicate (length bytes.now / BLOCK) true) }
        ensures faults { self.new.faults ≡ self.old.faults }
        ensures failing { self.new.failing ≡ self.old.failing }
    {
        copy_over(&mut self.latest, BLOCK * block, bytes);
        mark(&mut self.loose, block, bytes.len() / BLOCK);
        self.number = note_run(&mut self.runs, self.number, block, bytes.len() / BLOCK);
    }

    pub fn flush(&mut self)
        ensures latest { self.new.latest.items ≡ self.old.latest.items }
        ensures stable { self.new.stable.items ≡ self.old.latest.items }
        ensures blocks { length self.new.loose.items ≡ length self.old.loose.items }
        ensures loose { self.new.loose.items ≡ replicate (length self.old.loose.items) false }
        ensures faults { self.new.faults ≡ self.old.faults }
        ensures failing { self.new.failing ≡ self.old.failing }
    {
        keep_written(
            &mut self.stable,
            &self.latest,
            &mut self.loose,
            &self.runs,
            self.number,
        );
        self.number = 0;
    }

    /// Counts one fault more.
    pub fn fault(&mut self)
        ensures latest { self.new.latest.items ≡ self.old.latest.items }
        ensures stable { self.new.stable.items ≡ self.old.stable.items }
        ensures loose { self.new.loose.items ≡ self.old.loose.items }
        ensures faults { Rose self.old.faults self.new.faults }
        ensures failing { self.new.failing ≡ self.old.failing }
    {
        self.faults = self.faults.saturating_add(1);
    }

    pub fn make_fail(&mut self, on: bool)
        ensures latest { self.new.latest.items ≡ self.old.latest.items }
        ensures stable { self.new.stable.items ≡ self.old.stable.items }
        ensures loose { self.new.loose.items ≡ self.old.loose.items }
        ensures faults { self.new.faults ≡ self.old.faults }
        ensures failing { self.new.failing ≡ on }
    {
        self.failing = on;
    }

    /// Keeps one value of each block: of a loose one by the bit of its number, from `from` on. Returns the next number.
    pub fn settle(&mut self, pick: u64, from: u32) -> u32
        requires { from < 64 }
        ensures next { result ≡ (from + trues self.old.loose.items) % 64 }
        ensures kept { (b : ℕ) → block_at self.new.stable.items b ≡ kept self.old.loose.items self.old.stable.items self.old.latest.items pick from b }
        ensures latest { self.new.latest.items ≡ self.new.stable.items }
        ensures blocks { length self.new.loose.items ≡ length self.old.loose.items }
        ensures loose { self.new.loose.items ≡ replicate (length self.old.loose.items) false }
        ensures faults { self.new.faults ≡ self.old.faults }
        ensures failing { self.new.failing ≡ self.old.failing }
    {
        let number = settle_blocks(&mut self.stable, &self.latest, &self.loose, pick, from);
        self.latest.copy_from_slice(&self.stable);
        self.loose.fill(false);
        self.number = 0;
        number
    }
}

fn settle_blocks(stable: &mut [u8], latest: &[u8], loose: &[bool], pick: u64, from: u32) -> u32
    requires from { from < 64 }
    requires stable { length stable.old ≡ BLOCK * length loose.now }
    requires latest { length latest.now ≡ BLOCK * length loose.now }
    ensures next { result ≡ (from + trues loose.now) % 64 }
    ensures kept { (b : ℕ) → block_at stable.new b ≡ kept loose.now stable.old latest.now pick from b }
{
    let mut number = from;
    for b in 0..loose.len() {
        number = settle_block(stable, latest, loose[b], pick, number, b);
    }
    number
}

// Settles block b, and returns the number of the next loose one.
fn settle_block(
    stable: &mut [u8],
    latest: &[u8],
    loose: bool,
    pick: u64,
    number: u32,
    b: usize,
) -> u32
    requires number { number < 64 }
    requires in_stable { BLOCK * b + BLOCK ≤ length stable.old }
    requires in_latest { BLOCK * b + BLOCK ≤ length latest.now }
    ensures next { result ≡ cond loose ((number + 1) % 64) number }
    ensures here { block_at stable.new b ≡ cond loose (cond (bit_at pick number) (block_at latest.now b) (block_at stable.old b)) (block_at stable.old b) }
    ensures elsewhere { (k : ℕ) → k ≢ b → block_at stable.new k ≡ block_at stable.old k }
{
    if !loose {
        return number;
    }
    if bit(pick, number) {
        keep_block(stable, latest, b);
    }
    (number + 1) % 64
}

fn bit(pick: u64, number: u32) -> bool
    requires { number < 64 }
    ensures { result ≡ bit_at pick number }
{
    (pick >> number) & 1 == 1
}

fn mark(loose: &mut [bool], from: usize, count: usize)
    requires { from + count ≤ length loose.old }
    ensures { loose.new ≡ over loose.old from (replicate count true) }
{
    loose[from..from + count].fill(true);
}

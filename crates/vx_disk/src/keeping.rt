// What a flush of a disk in memory keeps.
ghost use Rattle.std.specs.Prelude.{◌≡◌, ◌*◌, ◌+◌, ◌≤◌, ℕ, ◌<◌, ◌≢◌, length, take, drop, replicate, false, cond, slice_index_or};
ghost use Rattle.vx_disk.specs.Blocks.{block_at, over};
ghost use Rattle.vx_disk.specs.Runs.{AreInside, AreNoted, IsNoted};

use vx_model::limits::BLOCK;

/// So many blocks of a disk, from the first on.
#[derive(Clone, Copy)]
pub struct Run {
    pub first: usize,
    pub count: usize,
}

/// Puts a run behind the first ones, if there is room, and returns how many they then are.
pub fn note_run(runs: &mut [Run], number: usize, first: usize, count: usize) -> usize
    ensures { result < length runs.new → IsNoted number first count runs.old result runs.new }
{
    if number >= runs.len() {
        return number;
    }
    runs[number] = Run { first, count };
    number + 1
}

/// Keeps the latest value of each block that was written, and marks none as loose. It looks at the noted runs alone, and
/// where some may be missing at each block.
pub fn keep_written(
    stable: &mut [u8],
    latest: &[u8],
    loose: &mut [bool],
    runs: &[Run],
    number: usize,
)
    requires stable { length stable.old ≡ BLOCK * length loose.old }
    requires latest { length latest.now ≡ BLOCK * length loose.old }
    requires clean { (b : ℕ) → slice_index_or loose.old b false ≡ false → block_at stable.old b ≡ block_at latest.now b }
    requires noted { number < length runs.now → AreNoted number runs.now loose.old }
    requires inside { number < length runs.now → AreInside number runs.now (length loose.old) }
    ensures kept { stable.new ≡ latest.now }
    ensures none { loose.new ≡ replicate (length loose.old) false }
{
    if number < runs.len() {
        keep_runs(stable, latest, loose, runs, number);
    } else {
        keep_loose(stable, latest, loose);
        loose.fill(false);
    }
}

fn keep_runs(stable: &mut [u8], latest: &[u8], loose: &mut [bool], runs: &[Run], number: usize)
    requires stable { length stable.old ≡ BLOCK * length loose.old }
    requires latest { length latest.now ≡ BLOCK * length loose.old }
    requires number { number ≤ length runs.now }
    requires clean { (b : ℕ) → slice_index_or loose.old b false ≡ false → block_at stable.old b ≡ block_at latest.now b }
    requires noted { AreNoted number runs.now loose.old }
    requires inside { AreInside number runs.now (length loose.old) }
    ensures kept { stable.new ≡ latest.now }
    ensures none { loose.new ≡ replicate (length loose.old) false }
{
    for k in 0..number {
        let run = runs[k];
        keep_run(stable, latest, loose, run.first, run.count);
    }
}

// Keeps the latest values of a run of blocks, and marks none of them as loose.
fn keep_run(stable: &mut [u8], latest: &[u8], loose: &mut [bool], first: usize, count: usize)
    requires stable { length stable.old ≡ BLOCK * length loose.old }
    requires latest { length latest.now ≡ BLOCK * length loose.old }
    requires inside { first + count ≤ length loose.old }
    ensures kept { stable.new ≡ over stable.old (BLOCK * first) (take (BLOCK * count) (drop (BLOCK * first) latest.now)) }
    ensures none { loose.new ≡ over loose.old first (replicate count false) }
{
    let start = BLOCK * first;
    copy_over(stable, start, &latest[start..start + BLOCK * count]);
    loose[first..first + count].fill(false);
}

// Keeps the latest value of each loose block.
fn keep_loose(stable: &mut [u8], latest: &[u8], loose: &[bool])
    requires stable { length stable.old ≡ BLOCK * length loose.now }
    requires latest { length latest.now ≡ BLOCK * length loose.now }
    ensures kept { (b : ℕ) → block_at stable.new b ≡ cond (slice_index_or loose.now b false) (block_at latest.now b) (block_at stable.old b) }
{
    for b in 0..loose.len() {
        keep_where(stable, latest, loose[b], b);
    }
}

// Keeps the latest value of block b, if it is loose.
fn keep_where(stable: &mut [u8], latest: &[u8], loose: bool, b: usize)
    requires in_stable { BLOCK * b + BLOCK ≤ length stable.old }
    requires in_latest { BLOCK * b + BLOCK ≤ length latest.now }
    ensures here { block_at stable.new b ≡ cond loose (block_at latest.now b) (block_at stable.old b) }
    ensures elsewhere { (k : ℕ) → k ≢ b → block_at stable.new k ≡ block_at stable.old k }
{
    if loose {
        keep_block(stable, latest, b);
    }
}

/// Keeps the latest value of block b.
pub fn keep_block(stable: &mut [u8], latest: &[u8], b: usize)
    requires in_stable { BLOCK * b + BLOCK ≤ length stable.old }
    requires in_latest { BLOCK * b + BLOCK ≤ length latest.now }
    ensures { stable.new ≡ over stable.old (BLOCK * b) (block_at latest.now b) }
{
    let start = BLOCK * b;
    copy_over(stable, start, &latest[start..start + BLOCK]);
}

/// Copies bytes over others from that place on.
pub fn copy_over(into: &mut [u8], at: usize, bytes: &[u8])
    requires { at + length bytes.now ≤ length into.old }
    ensures { into.new ≡ over into.old at bytes.now }
{
    into[at..at + bytes.len()].copy_from_slice(bytes);
}

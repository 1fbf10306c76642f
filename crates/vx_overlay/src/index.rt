// The search for the newest entry of a block.
ghost use Rattle.std.specs.Prelude.{◌≡◌, ◌<◌, ◌≤◌, ◌^◌, length, IsTrue, MatchOption, None};
ghost use Rattle.vx_overlay.specs.Indexes.{IsIndex, NewestAt, bucket};
ghost use Rattle.vx_overlay.specs.Pending.{newest};

use crate::Entry;

/// The bucket of a block, of so many.
pub(crate) fn bucket(count: usize, vol: u32, block: u64) -> usize
    requires { 0 < count }
    ensures is { result ≡ bucket count vol block }
    ensures low { result < count }
{
    ((block % 0x1_0000_0000 + vol as u64) % count as u64) as usize
}

/// The place of the newest entry of a block, or none where none is of it.
pub(crate) fn find(
    entries: &Vec<Entry>,
    earlier: &[u64],
    last: &[u64],
    base: u64,
    kept: bool,
    vol: u32,
    block: u64,
) -> Option<usize>
    requires long { length earlier.now ≡ length entries.now.items }
    requires some { 0 < length last.now }
    requires small { base ≤ 2 ^ 62 }
    requires index { IsTrue kept → IsIndex entries.now.items earlier.now last.now base }
    ensures { MatchOption result (newest entries.now.items vol block ≡ None) (λ k. NewestAt entries.now.items k vol block) }
{
    let own = bucket(last.len(), vol, block);
    let end = base + entries.len() as u64;
    let mut at = if kept { last[own].min(end) } else { end };
    while at > base {
        let k = (at - 1 - base) as usize;
        let entry = &entries[k];
        if entry.volume == vol && entry.block == block {
            return Some(k);
        }
        at = if kept && bucket(last.len(), entry.volume, entry.block) == own {
            earlier[k].min(at - 1)
        } else {
            at - 1
        };
    }
    None
}

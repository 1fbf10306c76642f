// The blocks of an update over what was read.
ghost use Rattle.std.specs.Prelude.{◌≡◌, ◌+◌, ◌-◌, ◌<◌, ◌^◌, Some, None, if◌then◌else◌, length};
ghost use Rattle.vx_model.specs.Content.{blocks_in, touches, fold_writes, Content};
ghost use Rattle.vx_ringio.specs.Bodies.{IsBlocks};
ghost use Rattle.vx_rvg.specs.Contents.{ShowsContent, write_of_update};
ghost use Rattle.vx_secondary.specs.Overs.{AreWithin, IsPutOver};
ghost use Rattle.vx_secondary.specs.Receivers.{writes_of_updates};

use crate::Waiting;
use vx_model::Update;
use vx_model::limits::BLOCK;

// Which block of an update's write a block of a volume is, if any.
fn touched(update: &Update, vol: u32, block: u64) -> Option<usize>
    ensures { result ≡ (if touches (write_of_update update.now) vol block then Some (block - update.now.block) else None) }
{
    if update.vol != vol || block < update.block {
        return None;
    }
    let place = block - update.block;
    if place < (update.bytes.as_bytes().len() / BLOCK) as u64 {
        Some(place as usize)
    } else {
        None
    }
}

// Puts the blocks of an update over those of a volume.
fn put_over(update: &Update, vol: u32, start: u64, into: &mut [u8])
    requires blocks { IsBlocks into.old }
    requires end { start + blocks_in into.old < 2 ^ 64 }
    ensures { IsPutOver (write_of_update update.now) vol start into.old into.new }
{
    let bytes = update.bytes.as_bytes();
    for k in 0..into.len() / BLOCK {
        if let Some(place) = touched(update, vol, start + k as u64) {
            into[BLOCK * k..BLOCK * k + BLOCK].copy_from_slice(
                &bytes[BLOCK * place..BLOCK * place + BLOCK],
            );
        }
    }
}

/// Puts all that waits over blocks of a volume, the oldest first.
pub(crate) fn put_waiting(waiting: &Waiting, vol: u32, start: u64, into: &mut [u8])
    requires blocks { IsBlocks into.old }
    requires end { start + blocks_in into.old < 2 ^ 64 }
    ensures { (c : Content) → AreWithin c (writes_of_updates waiting.now) → ShowsContent c vol start (blocks_in into.old) into.old
        → ShowsContent (fold_writes c (writes_of_updates waiting.now)) vol start (blocks_in into.old) into.new }
{
    for place in 0..waiting.len() {
        let Some(update) = waiting.get(place) else {
            unreachable!()
        };
        put_over(update, vol, start, into);
    }
}

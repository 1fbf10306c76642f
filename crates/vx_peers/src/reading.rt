// Logged writes, read to be sent.
ghost use Rattle.std.specs.Prelude.{◌≡◌, ◌+◌, ◌<◌, ◌≤◌, ℕ, None, IfOk, IfErr, IsTrue, length};
ghost use Rattle.vx_disk.specs.Causes.{OnDisks};
ghost use Rattle.vx_disk.specs.Disks.{Untouched};
ghost use Rattle.vx_disk.specs.Shelf.{Goes, Nothing};
ghost use Rattle.vx_peers.specs.Senders.{AreRead, BlamesStop, IsOther, ReadCause, stop_with};
ghost use Rattle.vx_disk.specs.Spends.{Spends};
ghost use Rattle.vx_rvg.specs.Holdings.{Holding};
ghost use Rattle.vx_rvg.specs.Stands.{Stands};
ghost use Rattle.vx_rvg.specs.Views.{last_of};

use std::alloc::Global;
use vx_disk::Shelf;
use vx_model::limits::MOST_NUMBER;
use vx_model::{Blocks, Line, Stop, Update};
use vx_rvg::Rvg;
use vx_srl::SrlNo;

// A refusal of the log that comes of a number that it holds.
fn stop_of(why: SrlNo) -> Stop
    requires { IsOther why }
    ensures { result ≡ stop_with why }
{
    match why {
        SrlNo::Other(no) => Stop::No(no),
        SrlNo::NoRoom { need: _, free: _ } => unreachable!(),
        SrlNo::Overrun { low: _ } => unreachable!(),
    }
}

// What a write is read over.
fn blank() -> Update {
    Update {
        line: Line::default(),
        number: 0,
        vol: 0,
        block: 0,
        bytes: Blocks::filled(1, 0),
    }
}

/// The writes that a group's log holds under these numbers, the first and as many as `count`. It changes nothing.
///
/// It takes memory for them. Refusals: 7 where a device call failed, 6 where the shelf is down, 22 for a record with another digest.
pub(crate) fn read_updates<S: Shelf>(
    alloc: Global,
    rvg: &mut Rvg<S>,
    first: u64,
    count: u64,
) -> Result<Vec<Update>, Stop>
    requires running { rvg.old.core.halted ≡ None }
    requires low { rvg.old.core.log.header.low ≤ first }
    requires held { first + count ≤ last_of rvg.old.core + 1 }
    requires number { first + count ≤ MOST_NUMBER + 1 }
    ensures read { IfOk result (λ us. (length us.items ≡ count) × ((h : Holding) → Stands rvg.old.core h (S.meaning rvg.old.shelf) → IsTrue (S.meaning rvg.old.shelf).tells
        → AreRead h rvg.old.core.log.header.state.line first us.items × Stands rvg.old.core h (S.meaning rvg.new.shelf))) }
    ensures cause { IfErr result (ReadCause rvg.old.core (S.meaning rvg.old.shelf) (S.meaning rvg.new.shelf)) }
    ensures blames { IfErr result (BlamesStop (S.meaning rvg.old.shelf).disks rvg.old.core.log.unit) }
    ensures core { rvg.new.core ≡ rvg.old.core }
    ensures goes { Goes Nothing (S.meaning rvg.old.shelf) (S.meaning rvg.new.shelf) }
    ensures down { (S.meaning rvg.new.shelf).down ≡ (S.meaning rvg.old.shelf).down }
    ensures disks { OnDisks (S.meaning rvg.old.shelf).disks (S.meaning rvg.new.shelf).disks Untouched }
    ensures spends { Spends (S.meaning rvg.old.shelf) (S.meaning rvg.new.shelf) }
{
    let mut updates = Vec::with_capacity(alloc, count as usize)?;
    let mut update = blank();
    for past in 0..count {
        if let Err(why) = rvg.fetch(first + past, &mut update) {
            return Err(stop_of(why));
        }
        updates.push(update)?;
    }
    Ok(updates)
}

// A shelf whose units are disks, which can be crashed and made to fail.
ghost use Rattle.std.specs.Prelude.{◌≡◌, ◌≢◌, ◌<◌, ◌≤◌, ℕ, IsTrue, IsFalse, true, false, Some, Err, OnOk, IfErr};
ghost use Rattle.vx_model.specs.declared.errors.Stop.TheVariants.{No as Refused};
ghost use Rattle.vx_model.specs.declared.no.Counted.TheVariants.{Disks, Blocks};
ghost use Rattle.vx_model.specs.declared.no.No.TheVariants.{Limit};
ghost use Rattle.vx_disk.specs.Causes.{OnDisks, WithDisks};
ghost use Rattle.vx_disk.specs.Disks.{Crashed, SameBlocks, Untouched};
ghost use Rattle.vx_disk.specs.Racks.{Alike, Fitted, FitStops, IsRack, Stopped, Telling, Unfitted, most_blocks};
ghost use Rattle.vx_disk.specs.Shelf.{Goes, Nothing};

use crate::Shelf;
use std::alloc::Global;
use vx_model::Stop;
use vx_model::limits::{LEAST_BLOCKS, MOST_DISKS};

/// The disks of a site: a shelf whose units they are.
pub trait Rack: Shelf + Send {
    /// Makes 1 to 8 disks of 8 blocks and more each: at most 16,384 blocks in memory, and 4,194,304 in files of the folder `dir`.
    /// Their blocks are zero where contents are told.
    ///
    /// It refuses more disks (19) before more blocks (19), answers 7 only where the count of the disk that it names rose,
    /// and may run out of memory. Then nothing changes but that count.
    fn fit(
        &mut self,
        alloc: Global,
        dir: Option<&str>,
        site: u32,
        disks: u32,
        blocks: u64,
    ) -> Result<(), Stop>
        requires unfitted { (Self.meaning self.old).units ≡ 0 }
        requires some_disks { 1 ≤ disks }
        requires some_blocks { LEAST_BLOCKS ≤ blocks }
        requires up { IsFalse (Self.meaning self.old).down }
        ensures fitted { OnOk result (Fitted disks blocks (Self.meaning self.old) (Self.meaning self.new)) }
        ensures tells { Telling dir.entry (Self.meaning self.old) (Self.meaning self.new) }
        ensures many_disks { MOST_DISKS < disks → result ≡ Err (Refused (Limit Disks MOST_DISKS)) }
        ensures many_blocks { disks ≤ MOST_DISKS → most_blocks dir.entry < blocks → result ≡ Err (Refused (Limit Blocks (most_blocks dir.entry))) }
        ensures stops { disks ≤ MOST_DISKS → blocks ≤ most_blocks dir.entry → IfErr result (FitStops disks (Self.meaning self.old) (Self.meaning self.new)) }
        ensures unchanged { IfErr result (Unfitted (Self.meaning self.old) (Self.meaning self.new)) };

    /// All disks stop at one moment. The loose blocks are numbered from 0 by disk, then by block: each takes its latest value
    /// where the bit of its number modulo 64 in `pick` is 1, else its stable value. The fuse ends.
    fn crash(&mut self, pick: u64)
        ensures stopped { Stopped (Self.meaning self.old) (Self.meaning self.new) }
        ensures disks { OnDisks (Self.meaning self.old).disks (Self.meaning self.new).disks (Crashed (Self.meaning self.old).size pick) };

    /// Lets that many writes and flushes pass; reads do not count. The next changes nothing and is a crash.
    fn fuse(&mut self, calls: u64, pick: u64)
        ensures alike { Alike (Self.meaning self.old) (Self.meaning self.new) }
        ensures down { (Self.meaning self.new).down ≡ (Self.meaning self.old).down }
        ensures armed { IsTrue (Self.meaning self.new).armed }
        ensures disks { OnDisks (Self.meaning self.old).disks (Self.meaning self.new).disks (λ o n. SameBlocks o n × (n.fuse ≡ Some (calls, pick))) };

    /// Makes each later call on the disk fail, or ends that.
    fn fail(&mut self, disk: u32, on: bool)
        requires { disk < (Self.meaning self.old).units }
        ensures goes { Goes Nothing (Self.meaning self.old) (Self.meaning self.new) }
        ensures alike { Alike (Self.meaning self.old) (Self.meaning self.new) }
        ensures down { (Self.meaning self.new).down ≡ (Self.meaning self.old).down }
        ensures armed { (Self.meaning self.new).armed ≡ (Self.meaning self.old).armed }
        ensures disks { WithDisks (Self.meaning self.old).disks (Self.meaning self.new).disks (λ o n. Untouched o n × (n.failing disk ≡ on) × ((u : ℕ) → u ≢ disk → n.failing u ≡ o.failing u)) };

    /// Ends the down state.
    fn revive(&mut self)
        requires { IsTrue (Self.meaning self.old).down }
        ensures alike { Alike (Self.meaning self.old) (Self.meaning self.new) }
        ensures up { IsFalse (Self.meaning self.new).down }
        ensures armed { (Self.meaning self.new).armed ≡ (Self.meaning self.old).armed }
        ensures disks { OnDisks (Self.meaning self.old).disks (Self.meaning self.new).disks Untouched };

    ghost rack: { (s : Self) → IsRack (Self.meaning s) };
}

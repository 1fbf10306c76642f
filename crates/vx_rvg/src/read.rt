// The reading of blocks of a volume: what waits stands over what the volume has.
ghost use Rattle.std.specs.Prelude.{◌≡◌, ◌+◌, ◌<◌, List, length, IsTrue, IsSome, OnOk};
ghost use Rattle.vx_disk.specs.Causes.{OnDisks, Works};
ghost use Rattle.vx_disk.specs.Disks.{Untouched};
ghost use Rattle.vx_disk.specs.Shelf.{Goes, Nothing};
ghost use Rattle.vx_model.specs.Content.{Content, blocks_in};
ghost use Rattle.vx_ringio.specs.Bodies.{IsBlocks};
ghost use Rattle.vx_disk.specs.Spends.{Spends};
ghost use Rattle.vx_ringlog.specs.Records.{Record};
ghost use Rattle.vx_rvg.specs.Contents.{ShowsContent};
ghost use Rattle.vx_rvg.specs.Groups.{ReadIs, read_refusal};
ghost use Rattle.vx_rvg.specs.Stands.{IsCovered};
ghost use Rattle.vx_rvg.specs.Views.{UnitsPlaced, unit_of};

use crate::RvgCore;
use crate::patch::patch;
use vx_disk::{Shelf, refusal};
use vx_model::No;
use vx_model::limits::BLOCK;

/// Reads blocks, and puts what waits over them.
pub(crate) fn read_blocks<S: Shelf>(
    shelf: &mut S,
    core: &RvgCore,
    vol: u32,
    start: u64,
    into: &mut [u8],
) -> Result<(), No>
    requires placed { UnitsPlaced core.now.units (S.meaning shelf.old) }
    requires volume { vol < length core.now.units.vols }
    requires blocks { IsBlocks into.old }
    ensures answers { ReadIs (read_refusal core.now ((S.meaning shelf.old).size (unit_of core.now.units.vols vol)) start (blocks_in into.old))
        (S.meaning shelf.old) (S.meaning shelf.new) result }
    ensures gives { OnOk result ((c : Content) (rs : List Record) → IsCovered core.now c rs (S.meaning shelf.old) → IsTrue (S.meaning shelf.old).tells
        → ShowsContent c vol start (blocks_in into.old) into.new) }
    ensures numbers { 0 < core.now.log.header.low }
    ensures unchanged { IsSome (read_refusal core.now ((S.meaning shelf.old).size (unit_of core.now.units.vols vol)) start (blocks_in into.old))
        → shelf.new ≡ shelf.old }
    ensures goes { Goes Nothing (S.meaning shelf.old) (S.meaning shelf.new) }
    ensures down { (S.meaning shelf.new).down ≡ (S.meaning shelf.old).down }
    ensures disks { OnDisks (S.meaning shelf.old).disks (S.meaning shelf.new).disks Untouched }
    ensures spends { Spends (S.meaning shelf.old) (S.meaning shelf.new) }
    ensures works { OnOk result (Works (S.meaning shelf.old).disks (unit_of core.now.units.vols vol)) }
{
    // Numbers begin at 1.
    let _low = core.srl.low();
    let unit = core.unit(vol);
    let size = shelf.size(unit);
    if let Some(no) = core.read_refusal(size, start, (into.len() / BLOCK) as u64) {
        return Err(no);
    }
    match shelf.read(unit, start, into) {
        Ok(()) => {
            patch(&core.pending, vol, start, into);
            Ok(())
        }
        Err(error) => Err(refusal(error)),
    }
}

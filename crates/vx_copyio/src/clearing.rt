// The headers that an earlier group left.
ghost use Rattle.std.specs.Prelude.{◌≡◌, ◌<◌, ◌≤◌, ℕ, List, OnOk};
ghost use Rattle.vx_copyio.specs.Causes.{Failed};
ghost use Rattle.vx_copyio.specs.Labelling.{AreLarge};
ghost use Rattle.vx_copyio.specs.Settling.{AllCleared, HeadersZero, NoHeaders};
ghost use Rattle.vx_disk.specs.Causes.{Cause};
ghost use Rattle.vx_disk.specs.Shelf.{Goes};

use crate::{AREA_A, AREA_B};
use vx_disk::{Shelf, ShelfError};
use vx_model::limits::BLOCK;

// Writes zeros over both headers of one disk, and makes them durable.
fn clear_disk<S: Shelf>(shelf: &mut S, disk: u32) -> Result<(), ShelfError>
    requires there { disk < (S.meaning shelf.old).units }
    requires room { 257 ≤ (S.meaning shelf.old).size disk }
    ensures goes { Goes (HeadersZero (S.meaning shelf.old)) (S.meaning shelf.old) (S.meaning shelf.new) }
    ensures only { (u b : ℕ) (v : List ℕ) → (u ≡ disk → ⊥) → (S.meaning shelf.new).leaves u b v → (S.meaning shelf.old).leaves u b v }
    ensures none { OnOk result (NoHeaders disk (S.meaning shelf.new)) }
    ensures cause { Cause (S.meaning shelf.old) (S.meaning shelf.new) disk result }
{
    let zeros = [0; BLOCK];
    shelf.write(disk, AREA_A, &zeros)?;
    shelf.write(disk, AREA_B, &zeros)?;
    shelf.flush(disk)
}

/// Writes zeros over the headers of both areas of each disk, and makes them durable.
///
/// After Ok a crash leaves no header, so no import finds what stood on the disks before, and a configuration of any serial may be
/// committed. A fault comes only where the count of its disk rose, and Down only where the shelf is then down; each header may then be
/// as it was or gone. It takes no memory.
pub fn clear<S: Shelf>(shelf: &mut S) -> Result<(), ShelfError>
    requires large { AreLarge (S.meaning shelf.old) }
    ensures goes { Goes (HeadersZero (S.meaning shelf.old)) (S.meaning shelf.old) (S.meaning shelf.new) }
    ensures cleared { OnOk result (AllCleared (S.meaning shelf.old).units (S.meaning shelf.new)) }
    ensures failed { Failed (S.meaning shelf.old) (S.meaning shelf.new) result }
{
    for disk in 0..shelf.units() {
        clear_disk(shelf, disk)?;
    }
    Ok(())
}

// Plexes of a group that are detached and attached.
ghost use Rattle.std.specs.Prelude.{◌≡◌, Err, IfErr, IfOk, IsTrue, Ok, OnOk, Some, None, false, true, ℕ};
ghost use Rattle.vx_disk.specs.Racks.{IsRack};
ghost use Rattle.vx_disk.specs.Shelf.{Goes, Nothing};
ghost use Rattle.vx_group.specs.Attaches.{IsAttached, att_refusal, missed_regions};
ghost use Rattle.vx_group.specs.Dets.{DetStops, det_refusal};
ghost use Rattle.vx_group.specs.Holding.{wide};
ghost use Rattle.vx_group.specs.Regains.{Regains};
ghost use Rattle.vx_group.specs.Stands.{inner_meaning};
ghost use Rattle.vx_grouped.specs.ConfigMoves.{none_again};
ghost use Rattle.vx_grouped.specs.Copied.{CopiesRegions};
ghost use Rattle.vx_grouped.specs.CoreMoves.{CoreMoves};
ghost use Rattle.vx_grouped.specs.Ends.{CallLeaves};
ghost use Rattle.vx_grouped.specs.GroupNotes.{IsGroupAt};
ghost use Rattle.vx_grouped.specs.PlainMaps.{AttsMaps, DetsMaps, map_parts};
ghost use Rattle.vx_history.specs.Groups.{GroupNode};
ghost use Rattle.vx_history.specs.World.{Node};
ghost use Rattle.vx_loggroup.specs.Attaching.{map_by};
ghost use Rattle.vx_model.specs.declared.errors.Stop.TheVariants.{No as Refused};
ghost use Rattle.vx_model.specs.declared.no.No.{No as NoValue};
ghost use Rattle.vx_model.specs.declared.no.No.TheVariants.{Device};
ghost use Rattle.vx_volume.specs.Plexes.{active, uses};

use vx_disk::Shelf;
use vx_loggroup::LoggedGroup;
use vx_model::{No, Stop};

/// Detaches a plex of a group that is up, whose map begins then where the volume has one. Each volume has what it had. Disks that are down behind it
/// answer so.
///
/// Answers 1, 10 and 19 as the group does, and then nothing has changed; else 7 only where the count of the disk that it names rose, and 6 only
/// where the shelf is then down.
pub fn det_plex<S: Shelf>(group: &mut LoggedGroup<S>, vol: u32, plex: u32) -> Result<(), Stop>
    requires up { IsTrue (S.meaning group.old.shelf).down → ⊥ }
    ensures refused { (no : NoValue) → det_refusal group.old.core.inner.config vol plex ≡ Some no → (result ≡ Err (Refused no)) × (group.new.core ≡ group.old.core) × (group.new.shelf ≡ group.old.shelf) }
    ensures leaves { (n : Node) (note : GroupNode) → IsGroupAt n note group.old.core (S.meaning group.old.shelf) → CallLeaves n note group.new.core (S.meaning group.new.shelf) result }
    ensures goes { Goes Nothing (inner_meaning (wide group.old.core) (S.meaning group.old.shelf)) (inner_meaning (wide group.new.core) (S.meaning group.new.shelf)) }
    ensures off { OnOk result (active group.new.core.inner.config vol plex ≡ false) }
    ensures undone { (disk : ℕ) → result ≡ Err (Refused (Device disk)) → active group.new.core.inner.config vol plex ≡ active group.old.core.inner.config vol plex }
    ensures others { (w p : ℕ) → (w ≡ vol → p ≡ plex → ⊥) → active group.new.core.inner.config w p ≡ active group.old.core.inner.config w p }
    ensures trust { OnOk result (group.old.core.inner.committed ≡ true → group.new.core.inner.committed ≡ true) }
    ensures agreed { IfErr result (λ stop. group.old.core.inner.committed ≡ true → group.new.core.inner.agreed ≡ true) }
    ensures cause { det_refusal group.old.core.inner.config vol plex ≡ None → DetStops (S.meaning group.old.shelf) (S.meaning group.new.shelf) result }
    ensures narrows { (w p : ℕ) → IsTrue (active group.new.core.inner.config w p) → IsTrue (active group.old.core.inner.config w p) }
    ensures moves { CoreMoves none_again group.old.core.inner.config group.new.core.inner.config (S.meaning group.old.shelf) (S.meaning group.new.shelf) }
    ensures maps { IsRack (S.meaning group.old.shelf) → IsRack (S.meaning group.new.shelf) → DetsMaps vol plex (map_parts group.old.core.inner.config group.old.logs.items group.old.alike group.old.stopped) (S.meaning group.old.shelf) (map_parts group.new.core.inner.config group.new.logs.items group.new.alike group.new.stopped) (S.meaning group.new.shelf) result }
{
    let answer = group.det(vol, plex);
    if group.is_down() {
        return Err(Stop::No(No::Down));
    }
    answer
}

/// Attaches a plex of a group that is up, and answers how many regions were copied: those that the plex has missed by its map, or all of the volume
/// where no map is in memory. Each volume has what it had. Disks that are down behind it answer so.
///
/// Answers 1 and 19 as the group does, and then nothing has changed; else 7 only where the count of the disk that it names rose, and 6 only
/// where the shelf is then down.
pub fn att_plex<S: Shelf>(group: &mut LoggedGroup<S>, vol: u32, plex: u32) -> Result<u64, Stop>
    requires up { IsTrue (S.meaning group.old.shelf).down → ⊥ }
    ensures refused { (no : NoValue) → att_refusal group.old.core.inner.config vol plex ≡ Some no → (result ≡ Err (Refused no)) × (group.new.core ≡ group.old.core) × (group.new.shelf ≡ group.old.shelf) }
    ensures already { att_refusal group.old.core.inner.config vol plex ≡ None → IsTrue (active group.old.core.inner.config vol plex) → (result ≡ Ok 0) × (group.new.core ≡ group.old.core) × (group.new.shelf ≡ group.old.shelf) }
    ensures count { active group.old.core.inner.config vol plex ≡ false → IfOk result (λ n. n ≡ missed_regions group.old.core.inner.config vol plex (map_by group.old.logs.items group.old.core.inner.config group.old.stopped (S.meaning group.old.shelf).down vol plex)) }
    ensures copies { active group.old.core.inner.config vol plex ≡ false → IfOk result (CopiesRegions group.old.core.inner.config vol) }
    ensures undone { active group.old.core.inner.config vol plex ≡ false → (disk : ℕ) → result ≡ Err (Refused (Device disk)) → active group.new.core.inner.config vol plex ≡ false }
    ensures attached { active group.old.core.inner.config vol plex ≡ false → OnOk result (IsAttached vol plex group.new.core.inner.config (S.meaning group.new.shelf)) }
    ensures leaves { (n : Node) (note : GroupNode) → IsGroupAt n note group.old.core (S.meaning group.old.shelf) → CallLeaves n note group.new.core (S.meaning group.new.shelf) result }
    ensures goes { Goes Nothing (inner_meaning (wide group.old.core) (S.meaning group.old.shelf)) (inner_meaning (wide group.new.core) (S.meaning group.new.shelf)) }
    ensures regains { Regains group.old.core.inner.config group.new.core.inner.config vol plex (S.meaning group.old.shelf) (S.meaning group.new.shelf) }
    ensures others { (w p : ℕ) → (w ≡ vol → p ≡ plex → ⊥) → active group.new.core.inner.config w p ≡ active group.old.core.inner.config w p }
    ensures trust { OnOk result (group.old.core.inner.committed ≡ true → group.new.core.inner.committed ≡ true) }
    ensures cause { att_refusal group.old.core.inner.config vol plex ≡ None → DetStops (S.meaning group.old.shelf) (S.meaning group.new.shelf) result }
    ensures stays { IsTrue (active group.old.core.inner.config vol plex) → OnOk result (IsTrue (active group.new.core.inner.config vol plex)) }
    ensures moves { CoreMoves (uses group.old.core.inner.config vol plex) group.old.core.inner.config group.new.core.inner.config (S.meaning group.old.shelf) (S.meaning group.new.shelf) }
    ensures maps { IsRack (S.meaning group.old.shelf) → IsRack (S.meaning group.new.shelf) → AttsMaps vol plex (map_parts group.old.core.inner.config group.old.logs.items group.old.alike group.old.stopped) (S.meaning group.old.shelf) (map_parts group.new.core.inner.config group.new.logs.items group.new.alike group.new.stopped) (S.meaning group.new.shelf) result }
{
    let answer = group.att(vol, plex);
    if group.is_down() {
        return Err(Stop::No(No::Down));
    }
    answer
}

// A volume that is made in a group.
ghost use Rattle.std.specs.Prelude.{◌≡◌, ◌<◌, Err, IfErr, IfSome, IsTrue, None, OnOk, Some, true};
ghost use Rattle.vx_copies.specs.Commits.{MoreFailed};
ghost use Rattle.vx_disk.specs.Moves.{Nowhere};
ghost use Rattle.vx_group.specs.Holding.{wide};
ghost use Rattle.vx_group.specs.Loses.{SameParts};
ghost use Rattle.vx_group.specs.Makes.{MakeEnds, make_refusal};
ghost use Rattle.vx_group.specs.Stands.{inner_meaning};
ghost use Rattle.vx_grouped.specs.Added.{IsUnmoved, VolumeLeaves};
ghost use Rattle.vx_grouped.specs.GroupNotes.{IsGroupAt};
ghost use Rattle.vx_grouped.specs.Volumes.{VolumesGo};
ghost use Rattle.vx_disk.specs.Racks.{IsRack};
ghost use Rattle.vx_grouped.specs.PlainMaps.{AddsMaps, map_parts};
ghost use Rattle.vx_history.specs.Groups.{GroupNode};
ghost use Rattle.vx_history.specs.World.{Node};
ghost use Rattle.vx_model.specs.declared.errors.Stop.TheVariants.{No as Refused};
ghost use Rattle.vx_model.specs.declared.no.No.{No as NoValue};

use std::alloc::Global;
use vx_disk::Shelf;
use vx_layout::Shape;
use vx_loggroup::LoggedGroup;
use vx_model::{Name, No, Stop};

/// Makes a volume of a shape in a group that is up, and answers its number. It begins as zeros; each other volume has what it had. Disks that are
/// down behind a refusal answer so.
///
/// Answers 2, 19, 4 and 11 as the group does, and then nothing has changed; else 7 only where the count of the disk that it names rose, and 6
/// only where the shelf is then down. It takes memory.
pub fn make_volume_of<S: Shelf>(
    alloc: Global,
    group: &mut LoggedGroup<S>,
    name: &Name,
    want: &Shape,
) -> Result<u32, Stop>
    requires up { IsTrue (S.meaning group.old.shelf).down → ⊥ }
    requires prefer { IfSome want.now.prefer (λ p. p < want.now.mirrors) }
    ensures refused { (no : NoValue) → make_refusal group.old.core.inner.config name.now want.now ≡ Some no → (result ≡ Err (Refused no)) × (group.new.core ≡ group.old.core) × (group.new.shelf ≡ group.old.shelf) }
    ensures leaves { (n : Node) (note : GroupNode) → IsGroupAt n note group.old.core (S.meaning group.old.shelf) → VolumeLeaves n note want.now group.new.core (S.meaning group.new.shelf) result }
    ensures ends { make_refusal group.old.core.inner.config name.now want.now ≡ None → MakeEnds name.now want.now group.old.core.inner group.new.core.inner (S.meaning group.old.shelf) (S.meaning group.new.shelf) result }
    ensures trust { OnOk result (group.old.core.inner.committed ≡ true → group.new.core.inner.committed ≡ true) }
    ensures agreed { IfErr result (λ stop. group.old.core.inner.committed ≡ true → group.new.core.inner.agreed ≡ true) }
    ensures still { IsUnmoved result ((group.new.core ≡ group.old.core) × (group.new.shelf ≡ group.old.shelf)) }
    ensures volumes { VolumesGo Nowhere (inner_meaning (wide group.old.core) (S.meaning group.old.shelf)) (inner_meaning (wide group.new.core) (S.meaning group.new.shelf)) }
    ensures parts { SameParts group.old.core.inner.config group.new.core.inner.config }
    ensures disks { MoreFailed (S.meaning group.old.shelf) (S.meaning group.new.shelf) group.old.core.inner.config.disks group.new.core.inner.config.disks }
    ensures maps { IsRack (S.meaning group.old.shelf) → IsRack (S.meaning group.new.shelf) → AddsMaps (map_parts group.old.core.inner.config group.old.logs.items group.old.alike group.old.stopped) (S.meaning group.old.shelf) (map_parts group.new.core.inner.config group.new.logs.items group.new.alike group.new.stopped) (S.meaning group.new.shelf) result }
{
    match group.make_volume(alloc, name, want) {
        Ok(vol) => Ok(vol),
        Err(stop) => {
            if group.is_down() {
                return Err(Stop::No(No::Down));
            }
            Err(stop)
        }
    }
}

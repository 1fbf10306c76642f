// The line that shows the status of a disk group.
ghost use Rattle.std.specs.Prelude.{◌≡◌, true};
ghost use Rattle.vx_history.specs.Doubts.{Doubted};
ghost use Rattle.vx_script.specs.declared.line.ScriptLine.TheVariants.{Status as StatusLine};
ghost use Rattle.vx_events.specs.StepsOver.{is_for_group};
ghost use Rattle.vx_yard.specs.Standing.{LeadsOverIs, StandsFor};
ghost use Rattle.vx_yard.specs.Working.{IsFree};
ghost use Rattle.vx_yard.specs.Yards.{IsYardKept};

use crate::views::view_at;
use std::alloc::Global;
use vx_above::ViewRoom;
use vx_disk::Rack;
use vx_events::Said;
use vx_model::{Name, OutOfMemory};
use vx_yard::Yard;

/// The status of a site whose disks are a group.
pub fn status_line<R: Rack>(yard: &Yard<R>, alloc: Global, name: &Name) -> Result<Said, OutOfMemory>
    requires kept { IsYardKept yard.now }
    requires free { IsFree yard.now (StatusLine name.now) }
    ensures leads { (d : Doubted) → StandsFor d yard.now → is_for_group d.world (StatusLine name.now) ≡ true → LeadsOverIs d (StatusLine name.now) yard.now yard.now result }
{
    let room = ViewRoom::new(alloc)?;
    let site = yard.site_of(name);
    Ok(Said::Shown(view_at(yard, alloc, site, room)))
}

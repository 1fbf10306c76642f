// The line that imports a disk group that was deported.
ghost use Rattle.std.specs.Prelude.{◌≡◌, ◌<◌, IfOk, Some, length, slice_get, slice_set, true};
ghost use Rattle.vx_history.specs.Doubts.{Doubted};
ghost use Rattle.vx_script.specs.declared.line.ScriptLine.TheVariants.{GroupImport};
ghost use Rattle.vx_events.specs.RvgSteps.{is_for_rvg};
ghost use Rattle.vx_events.specs.StepsOver.{is_for_group};
ghost use Rattle.vx_events.specs.declared.said.Said.TheVariants.{Refused};
ghost use Rattle.vx_order.specs.declared.facts.SiteFacts.{SiteFacts as Facts};
ghost use Rattle.vx_yard.specs.AboveLines.{LeadsAboveIs, LeadsBesideIs};
ghost use Rattle.vx_yard.specs.OfSites.{AsAsked, HasCalled};
ghost use Rattle.vx_yard.specs.Standing.{StandsFor};
ghost use Rattle.vx_yard.specs.Working.{IsFree};
ghost use Rattle.vx_yard.specs.Writes.{below_facts};
ghost use Rattle.vx_yard.specs.Yards.{IsYardKept, IsTold, in_files};
ghost use Rattle.vx_group_lines.specs.Noting.{ImportReply, KeepsRest, LetsGoAt, LetsGoUnder};

use crate::noting::note_up;
use std::alloc::Global;
use std::mem;
use vx_disk::Rack;
use vx_diskset::DiskSet;
use vx_events::Said;
use vx_model::{Name, No, OutOfMemory, Stop};
use vx_order::VolumeRoom;
use vx_packet::Assembly;
use vx_yard::Yard;
use vx_yard::load::let_go_if_down;
use vx_yard::refusing::refused_below;

// What a site had in assembly where an import of its disks was refused: one over whose group a replicated volume group is has nothing there.
fn let_go_under<R: Rack>(
    assemblies: &mut Vec<Assembly>,
    disk_set: &DiskSet<R>,
    site: usize,
    no: &No,
)
    ensures { LetsGoUnder disk_set.now no.now site assemblies.old.items assemblies.new.items }
{
    match disk_set {
        DiskSet::Over(_) => {}
        _ => let_go_if_down(assemblies, site, no),
    }
}

// The disks refused it: the site is deported still, or down where its fuse ran out.
fn import_refused<R: Rack>(yard: &mut Yard<R>, alloc: Global, site: usize, no: No) -> Said
    requires facts { site < length yard.old.facts.items }
    requires disk_set { site < length yard.old.disk_sets.items }
    ensures facts { (f : Facts) → slice_get yard.old.facts.items site ≡ Some f → yard.new.facts.items ≡ slice_set yard.old.facts.items site (below_facts no f) }
    ensures assemblies { LetsGoAt site no yard.old yard.new }
    ensures same { KeepsRest yard.old yard.new }
    ensures said { result ≡ Refused no }
{
    let_go_under(&mut yard.assemblies, &yard.disk_sets[site], site, &no);
    refused_below(alloc, &mut yard.facts[site], no)
}

// The same of any stop: for want of memory nothing changes.
fn import_stopped<R: Rack>(
    yard: &mut Yard<R>,
    alloc: Global,
    site: usize,
    stop: Stop,
) -> Result<Said, OutOfMemory>
    requires facts { site < length yard.old.facts.items }
    requires disk_set { site < length yard.old.disk_sets.items }
    ensures { (f : Facts) → slice_get yard.old.facts.items site ≡ Some f → ImportReply site f stop yard.old yard.new result }
{
    match stop {
        Stop::No(no) => Ok(import_refused(yard, alloc, site, no)),
        Stop::OutOfMemory => Err(OutOfMemory),
    }
}

/// Imports the disk group of a site that was deported, with the replicated volume group that it has. Where it is refused, the site stays deported, or is
/// down where its fuse ran out.
pub fn import_line<R: Rack>(
    yard: &mut Yard<R>,
    alloc: Global,
    name: &Name,
) -> Result<Said, OutOfMemory>
    requires kept { IsYardKept yard.old }
    requires free { IsFree yard.old (GroupImport name.now) }
    ensures beside { (d : Doubted) → StandsFor d yard.old → is_for_group d.world (GroupImport name.now) ≡ true → LeadsBesideIs d (GroupImport name.now) yard.old yard.new result }
    ensures above { (d : Doubted) → StandsFor d yard.old → is_for_rvg d.world (GroupImport name.now) ≡ true → LeadsAboveIs d (GroupImport name.now) yard.old yard.new result }
    ensures asked { (d : Doubted) → StandsFor d yard.old → is_for_group d.world (GroupImport name.now) ≡ true → AsAsked d.world (GroupImport name.now) yard.old yard.new }
    ensures called { (d : Doubted) → StandsFor d yard.old → is_for_group d.world (GroupImport name.now) ≡ true → IfOk result (λ said. HasCalled d.world (GroupImport name.now) said yard.old yard.new) }
    ensures told { IsTold yard.new → IsTold yard.old }
    ensures files { in_files yard.new ≡ in_files yard.old }
{
    let room = VolumeRoom::new(alloc)?;
    let site = yard.site_of(name);
    let disk_set = mem::replace(&mut yard.disk_sets[site], DiskSet::Gone);
    let (disk_set, came) = disk_set.import_group(alloc);
    yard.disk_sets[site] = disk_set;
    match came {
        Ok(()) => {
            note_up(yard, site, room);
            Ok(Said::Done)
        }
        Err(stop) => import_stopped(yard, alloc, site, stop),
    }
}

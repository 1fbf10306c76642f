// The lines that detach and attach a plex.
ghost use Rattle.std.specs.Prelude.{◌≡◌, IfOk, true};
ghost use Rattle.vx_history.specs.Doubts.{Doubted};
ghost use Rattle.vx_script.specs.declared.line.ScriptLine.TheVariants.{PlexDetach, PlexAttach};
ghost use Rattle.vx_events.specs.RvgSteps.{over_rvg_at};
ghost use Rattle.vx_events.specs.StepsOver.{is_for_group};
ghost use Rattle.vx_yard.specs.AboveLines.{LeadsAboveIs};
ghost use Rattle.vx_yard.specs.OfSites.{AsAsked, HasCalled};
ghost use Rattle.vx_yard.specs.Standing.{LeadsOverIs, StandsFor};
ghost use Rattle.vx_yard.specs.Working.{IsFree};
ghost use Rattle.vx_yard.specs.Yards.{IsYardKept, IsTold, in_files};

use crate::noting::group_stopped;
use crate::numbers::number_of;
use std::alloc::Global;
use vx_disk::Rack;
use vx_events::Said;
use vx_model::{Name, OutOfMemory};
use vx_yard::Yard;

/// Detaches a plex of a volume.
pub fn detach_line<R: Rack>(
    yard: &mut Yard<R>,
    alloc: Global,
    name: &Name,
    volume: &Name,
    plex: u64,
) -> Result<Said, OutOfMemory>
    requires kept { IsYardKept yard.old }
    requires free { IsFree yard.old (PlexDetach name.now volume.now plex) }
    ensures leads { (d : Doubted) → StandsFor d yard.old → is_for_group d.world (PlexDetach name.now volume.now plex) ≡ true → LeadsOverIs d (PlexDetach name.now volume.now plex) yard.old yard.new result }
    ensures above { (d : Doubted) → StandsFor d yard.old → over_rvg_at d.world name.now ≡ true → LeadsAboveIs d (PlexDetach name.now volume.now plex) yard.old yard.new result }
    ensures asked { (d : Doubted) → StandsFor d yard.old → is_for_group d.world (PlexDetach name.now volume.now plex) ≡ true → AsAsked d.world (PlexDetach name.now volume.now plex) yard.old yard.new }
    ensures called { (d : Doubted) → StandsFor d yard.old → is_for_group d.world (PlexDetach name.now volume.now plex) ≡ true → IfOk result (λ said. HasCalled d.world (PlexDetach name.now volume.now plex) said yard.old yard.new) }
    ensures told { IsTold yard.new → IsTold yard.old }
    ensures files { in_files yard.new ≡ in_files yard.old }
{
    let site = yard.site_of(name);
    let place = number_of(yard, site, volume);
    match yard.disk_sets[site].detach_plex(place, plex.min(0xffff_ffff) as u32) {
        Ok(()) => Ok(Said::Done),
        Err(stop) => group_stopped(yard, alloc, site, stop),
    }
}

/// Attaches a plex of a volume. Answers how many regions were copied.
pub fn attach_line<R: Rack>(
    yard: &mut Yard<R>,
    alloc: Global,
    name: &Name,
    volume: &Name,
    plex: u64,
) -> Result<Said, OutOfMemory>
    requires kept { IsYardKept yard.old }
    requires free { IsFree yard.old (PlexAttach name.now volume.now plex) }
    ensures leads { (d : Doubted) → StandsFor d yard.old → is_for_group d.world (PlexAttach name.now volume.now plex) ≡ true → LeadsOverIs d (PlexAttach name.now volume.now plex) yard.old yard.new result }
    ensures above { (d : Doubted) → StandsFor d yard.old → over_rvg_at d.world name.now ≡ true → LeadsAboveIs d (PlexAttach name.now volume.now plex) yard.old yard.new result }
    ensures asked { (d : Doubted) → StandsFor d yard.old → is_for_group d.world (PlexAttach name.now volume.now plex) ≡ true → AsAsked d.world (PlexAttach name.now volume.now plex) yard.old yard.new }
    ensures called { (d : Doubted) → StandsFor d yard.old → is_for_group d.world (PlexAttach name.now volume.now plex) ≡ true → IfOk result (λ said. HasCalled d.world (PlexAttach name.now volume.now plex) said yard.old yard.new) }
    ensures told { IsTold yard.new → IsTold yard.old }
    ensures files { in_files yard.new ≡ in_files yard.old }
{
    let site = yard.site_of(name);
    let place = number_of(yard, site, volume);
    match yard.disk_sets[site].attach_plex(place, plex.min(0xffff_ffff) as u32) {
        Ok(copied) => Ok(Said::DoneAt(copied)),
        Err(stop) => group_stopped(yard, alloc, site, stop),
    }
}

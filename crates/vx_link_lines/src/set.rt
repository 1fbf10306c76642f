// The line that gives a link another setting.
ghost use Rattle.std.specs.Prelude.{◌≡◌, ◌<◌, IfOk, IfSome, false, length};
ghost use Rattle.vx_model.specs.declared.link.Prot.TheVariants.{Fail as FailsWhenFull};
ghost use Rattle.vx_model.specs.declared.link.Prot.{Prot};
ghost use Rattle.vx_model.specs.declared.site.SiteState.TheVariants.{Up as UpState};
ghost use Rattle.vx_history.specs.Doubts.{Doubted};
ghost use Rattle.vx_history.specs.Listed.{HasPlaces};
ghost use Rattle.vx_history.specs.Step.{step};
ghost use Rattle.vx_history.specs.World.{Node, World};
ghost use Rattle.vx_history.specs.declared.event.Event.TheVariants.{Set as SetAt};
ghost use Rattle.vx_history.specs.declared.event.Said.TheVariants.{Done as IsDone};
ghost use Rattle.vx_script.specs.declared.line.ScriptLine.TheVariants.{Set};
ghost use Rattle.vx_srlfmt.specs.Headers.{CanSpellState};
ghost use Rattle.vx_diskset.specs.Holds.{KeptBeside, header_links, state_with};
ghost use Rattle.vx_diskset.specs.Stands.{SiteStands};
ghost use Rattle.vx_events.specs.GroupLines.{is_over_group};
ghost use Rattle.vx_events.specs.StepsOver.{facts_over};
ghost use Rattle.vx_yard.specs.OfSites.{AsAsked, HasCalled};
ghost use Rattle.vx_yard.specs.Standing.{LeadsIs, StandsFor};
ghost use Rattle.vx_yard.specs.Working.{IsFree};
ghost use Rattle.vx_yard.specs.Yards.{IsYardKept, IsTold, in_files};

use std::alloc::Global;
use vx_disk::Rack;
use vx_diskset::DiskSet;
use vx_events::Said;
use vx_linked::{keep_set, kept_facts, kept_with, link_between, with_links, with_setting};
use vx_model::{Name, OutOfMemory, State, SyncMode};
use vx_order::SiteFacts;
use vx_yard::Yard;
use vx_yard::load::let_go_if_down;
use vx_yard::refusing::refused;

/// What the header of the log of a site keeps of it, with this setting of its link to another site. None where it has no spelling.
fn set_state<R: Rack>(
    disks: &DiskSet<R>,
    sites: &[SiteFacts],
    here: usize,
    there: u32,
    sync: SyncMode,
) -> Option<State>
    requires within { here < length sites.now }
    ensures spell { IfSome result (λ state. CanSpellState state) }
    ensures is { (beside : KeptBeside) (n : Node) (w : World) → SiteStands beside n disks.now → n.state ≡ UpState → is_over_group n ≡ false → sites.now ≡ facts_over w → HasPlaces w.sites (w.links here)
        → (step w (SetAt here there sync FailsWhenFull)).said ≡ IsDone → IfSome result (λ state. state ≡ state_with n (header_links (step w (SetAt here there sync FailsWhenFull)).world here)) }
{
    let Some(l) = link_between(sites, here, there) else {
        return None;
    };
    let Some(kept) = kept_facts(sites[here].links.as_slice()) else {
        return None;
    };
    let Some(state) = disks.state() else {
        return None;
    };
    let link = with_setting(&l.link, sync);
    with_links(state, kept_with(kept.as_slice(), &link))
}

/// Gives the link of a site to another this setting, in the header of the site's log first.
pub(crate) fn set_line<R: Rack>(
    yard: &mut Yard<R>,
    alloc: Global,
    first: &Name,
    second: &Name,
    sync: SyncMode,
) -> Result<Said, OutOfMemory>
    requires kept { IsYardKept yard.old }
    requires free { (prot : Prot) × IsFree yard.old (Set first.now second.now sync prot) }
    ensures leads { (d : Doubted) (prot : Prot) → StandsFor d yard.old → LeadsIs d (Set first.now second.now sync prot) yard.old yard.new result }
    // It makes no disk fail, and touches no other site.
    ensures asked { (d : Doubted) (prot : Prot) → StandsFor d yard.old → AsAsked d.world (Set first.now second.now sync prot) yard.old yard.new }
    // It is one header, and no other call.
    ensures called { (d : Doubted) (prot : Prot) → StandsFor d yard.old → IfOk result (λ said. HasCalled d.world (Set first.now second.now sync prot) said yard.old yard.new) }
    ensures flight { yard.new.flight ≡ yard.old.flight }
    ensures told { IsTold yard.new → IsTold yard.old }
    ensures files { in_files yard.new ≡ in_files yard.old }
{
    let here = yard.site_of(first);
    let there = yard.site_of(second);
    let Some(state) = set_state(&yard.disk_sets[here], &yard.facts, here, there as u32, sync) else {
        return Err(OutOfMemory);
    };
    match yard.disk_sets[here].keep(&state) {
        Ok(()) => {
            keep_set(&mut yard.facts, here, there as u32, sync);
            Ok(Said::Done)
        }
        Err(no) => {
            let_go_if_down(&mut yard.assemblies, here, &no);
            Ok(refused(alloc, &mut yard.facts[here], no))
        }
    }
}

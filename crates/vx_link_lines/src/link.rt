// The parts of the line that links a site to another. Each is durable before the next.
ghost use Rattle.std.specs.Prelude.{◌≡◌, ◌<◌, [], ℕ, None, Some, length, slice_get};
ghost use Rattle.vx_model.specs.declared.limits.TheConstants.{LINK_PLACES};
ghost use Rattle.vx_model.specs.declared.link.Prot.TheVariants.{Fail as FailsWhenFull};
ghost use Rattle.vx_model.specs.declared.link.SyncMode.{SyncMode as SyncValue};
ghost use Rattle.vx_model.specs.declared.site.Mark.TheVariants.{Consistent};
ghost use Rattle.vx_history.specs.Doubts.{Doubted};
ghost use Rattle.vx_history.specs.Step.{step};
ghost use Rattle.vx_history.specs.World.{Node};
ghost use Rattle.vx_history.specs.declared.event.Event.TheVariants.{Link as LinkAt};
ghost use Rattle.vx_history.specs.declared.event.LinkPart.TheVariants.{Made, Marked, Opened};
ghost use Rattle.vx_history.specs.declared.event.Said.TheVariants.{Done as IsDone};
ghost use Rattle.vx_order.specs.declared.facts.SiteFacts.{SiteFacts as SiteValue};
ghost use Rattle.vx_srlfmt.specs.Headers.{CanSpellState};
ghost use Rattle.vx_diskset.specs.Asked.{HeadUnder, SameFailing};
ghost use Rattle.vx_diskset.specs.Holds.{header_links, state_with};
ghost use Rattle.vx_events.specs.LinksFit.{LinksFit};
ghost use Rattle.vx_link_lines.specs.Headed.{HeadedSo, NotesAt, noted_by, part_said};
ghost use Rattle.vx_yard.specs.OfSites.{OfSite};
ghost use Rattle.vx_yard.specs.Standing.{StandsFor};
ghost use Rattle.vx_yard.specs.Yards.{IsTold, in_files};

use std::alloc::Global;
use vx_disk::Rack;
use vx_events::Said;
use vx_linked::{keep_made, keep_marked, keep_opened};
use vx_model::{State, SyncMode};
use vx_order::LinkRoom;
use vx_yard::Yard;
use vx_yard::load::let_go_if_down;
use vx_yard::refusing::refused;

/// The event that gives a site a link to another one, whose session this is. It goes by nothing yet. `state` is what the header keeps then.
pub(crate) fn make_link<R: Rack>(
    yard: &mut Yard<R>,
    alloc: Global,
    room: LinkRoom,
    here: usize,
    there: u32,
    sync: SyncMode,
    session: u64,
    state: &State,
) -> Result<(), Said>
    requires empty { room ≡ [] }
    requires facts { here < length yard.old.facts.items }
    requires disk_set { here < length yard.old.disk_sets.items }
    requires few { (site : SiteValue) → slice_get yard.old.facts.items here ≡ Some site → length site.links < LINK_PLACES }
    requires state { CanSpellState state.now }
    ensures heads { (d : Doubted) (note : (ℕ → Node) → ℕ → Node) → NotesAt here note → StandsFor (noted_by note d) yard.old → LinksFit d → here < d.world.sites
        → (d.world.nodes here).group ≡ None → (d.world.nodes there).session ≡ session → (step d.world (LinkAt here there sync FailsWhenFull Made)).said ≡ IsDone
        → state.now ≡ state_with (d.world.nodes here) (header_links (step d.world (LinkAt here there sync FailsWhenFull Made)).world here)
        → HeadedSo note d (LinkAt here there sync FailsWhenFull Made) here yard.old yard.new result }
    ensures asked { (d : Doubted) → StandsFor d yard.old → here < d.world.sites → OfSite SameFailing here yard.old yard.new }
    ensures called { (d : Doubted) → StandsFor d yard.old → here < d.world.sites → OfSite (HeadUnder 2 (part_said result)) here yard.old yard.new }
    ensures many { length yard.new.facts.items ≡ length yard.old.facts.items }
    ensures disk_sets { length yard.new.disk_sets.items ≡ length yard.old.disk_sets.items }
    ensures flight { yard.new.flight ≡ yard.old.flight }
    ensures told { IsTold yard.new → IsTold yard.old }
    ensures files { in_files yard.new ≡ in_files yard.old }
{
    match yard.disk_sets[here].keep(state) {
        Ok(()) => {
            keep_made(&mut yard.facts, room, here, there, sync, session);
            Ok(())
        }
        Err(no) => {
            let_go_if_down(&mut yard.assemblies, here, &no);
            Err(refused(alloc, &mut yard.facts[here], no))
        }
    }
}

/// The event that marks a site as consistent. `state` is what the header of its log keeps then.
pub(crate) fn mark_site<R: Rack>(
    yard: &mut Yard<R>,
    alloc: Global,
    there: usize,
    state: &State,
) -> Result<(), Said>
    requires facts { there < length yard.old.facts.items }
    requires disk_set { there < length yard.old.disk_sets.items }
    requires state { CanSpellState state.now }
    ensures heads { (d : Doubted) (note : (ℕ → Node) → ℕ → Node) (here : ℕ) (sync : SyncValue) → NotesAt there note → StandsFor (noted_by note d) yard.old → LinksFit d → there < d.world.sites
        → (d.world.nodes there).group ≡ None → (step d.world (LinkAt here there sync FailsWhenFull Marked)).said ≡ IsDone → state.now ≡ record (state_with (d.world.nodes there) (header_links d.world there)) { mark = Consistent }
        → HeadedSo note d (LinkAt here there sync FailsWhenFull Marked) there yard.old yard.new result }
    ensures asked { (d : Doubted) → StandsFor d yard.old → there < d.world.sites → OfSite SameFailing there yard.old yard.new }
    ensures called { (d : Doubted) → StandsFor d yard.old → there < d.world.sites → OfSite (HeadUnder 2 (part_said result)) there yard.old yard.new }
    ensures many { length yard.new.facts.items ≡ length yard.old.facts.items }
    ensures disk_sets { length yard.new.disk_sets.items ≡ length yard.old.disk_sets.items }
    ensures flight { yard.new.flight ≡ yard.old.flight }
    ensures told { IsTold yard.new → IsTold yard.old }
    ensures files { in_files yard.new ≡ in_files yard.old }
{
    match yard.disk_sets[there].keep(state) {
        Ok(()) => {
            keep_marked(&mut yard.facts, there);
            Ok(())
        }
        Err(no) => {
            let_go_if_down(&mut yard.assemblies, there, &no);
            Err(refused(alloc, &mut yard.facts[there], no))
        }
    }
}

/// The event by which the link of a site to another one goes by the log, behind the last number of the site. `state` is what the header keeps then.
pub(crate) fn open_link<R: Rack>(
    yard: &mut Yard<R>,
    alloc: Global,
    here: usize,
    there: u32,
    last: u64,
    state: &State,
) -> Result<(), Said>
    requires facts { here < length yard.old.facts.items }
    requires disk_set { here < length yard.old.disk_sets.items }
    requires state { CanSpellState state.now }
    ensures heads { (d : Doubted) (note : (ℕ → Node) → ℕ → Node) (sync : SyncValue) → NotesAt here note → StandsFor (noted_by note d) yard.old → LinksFit d → here < d.world.sites
        → (d.world.nodes here).group ≡ None → (d.world.nodes here).safe ≡ last → (step d.world (LinkAt here there sync FailsWhenFull Opened)).said ≡ IsDone
        → state.now ≡ state_with (d.world.nodes here) (header_links (step d.world (LinkAt here there sync FailsWhenFull Opened)).world here)
        → HeadedSo note d (LinkAt here there sync FailsWhenFull Opened) here yard.old yard.new result }
    ensures asked { (d : Doubted) → StandsFor d yard.old → here < d.world.sites → OfSite SameFailing here yard.old yard.new }
    ensures called { (d : Doubted) → StandsFor d yard.old → here < d.world.sites → OfSite (HeadUnder 2 (part_said result)) here yard.old yard.new }
    ensures many { length yard.new.facts.items ≡ length yard.old.facts.items }
    ensures disk_sets { length yard.new.disk_sets.items ≡ length yard.old.disk_sets.items }
    ensures flight { yard.new.flight ≡ yard.old.flight }
    ensures told { IsTold yard.new → IsTold yard.old }
    ensures files { in_files yard.new ≡ in_files yard.old }
{
    match yard.disk_sets[here].keep(state) {
        Ok(()) => {
            keep_opened(&mut yard.facts, here, there, last);
            Ok(())
        }
        Err(no) => {
            let_go_if_down(&mut yard.assemblies, here, &no);
            Err(refused(alloc, &mut yard.facts[here], no))
        }
    }
}

// The line that links a site to another, whose content it becomes a copy of.
ghost use Rattle.std.specs.Prelude.{◌≡◌, ◌≤◌, ◌<◌, [], ℕ, List, IfOk, IfSome, Some, false, length, slice_get};
ghost use Rattle.vx_model.specs.declared.limits.TheConstants.{LINK_PLACES, MOST_LINKS};
ghost use Rattle.vx_model.specs.declared.link.Prot.{Prot};
ghost use Rattle.vx_model.specs.declared.site.SiteState.TheVariants.{Up as UpState};
ghost use Rattle.vx_history.specs.Doubts.{Doubted};
ghost use Rattle.vx_order.specs.declared.facts.SiteFacts.{SiteFacts as SiteValue};
ghost use Rattle.vx_script.specs.declared.line.ScriptLine.TheVariants.{Link};
ghost use Rattle.vx_diskset.specs.Holds.{beside_of};
ghost use Rattle.vx_diskset.specs.Stands.{SiteStands};
ghost use Rattle.vx_events.specs.GroupLines.{is_over_group};
ghost use Rattle.vx_events.specs.RvgLinks.{links_rvg};
ghost use Rattle.vx_events.specs.LinkedFacts.{links_of_site};
ghost use Rattle.vx_link_lines.specs.Linking.{AreLinkStates, AreSpelled, IsLinking};
ghost use Rattle.vx_yard.specs.BothSites.{BothSites, LinkBurns};
ghost use Rattle.vx_yard.specs.OfSites.{AllSameFailing, AsAsked, HasCalled};
ghost use Rattle.vx_yard.specs.Standing.{Leads, LeadsIs, StandsFor};
ghost use Rattle.vx_yard.specs.Working.{IsFree};
ghost use Rattle.vx_yard.specs.Yards.{IsYardKept, IsTold, in_files};

use crate::joins::join_site;
use crate::link::{make_link, mark_site, open_link};
use std::alloc::Global;
use vx_disk::Rack;
use vx_diskset::DiskSet;
use vx_events::Said;
use vx_linked::{
    join_state, kept_facts, kept_further, kept_with, mark_state, new_link, opened, with_links,
};
use vx_model::{Name, OutOfMemory, State, SyncMode};
use vx_order::{LinkFacts, LinkRoom};
use vx_secondary::Waiting;
use vx_yard::Yard;

/// What the headers of two logs keep behind each part of a line that links a site to another: the second one as it joins and is marked, the first
/// one as it has the link and opens it. With the session of the second one, and the last number of the first one.
#[derive(Drop)]
pub(crate) struct LinkStates {
    pub(crate) joined: State,
    pub(crate) made: State,
    pub(crate) marked: State,
    pub(crate) opened: State,
    pub(crate) session: u64,
    pub(crate) last: u64,
}

// They are computed before the first part is done. None where a header has no spelling for them.
fn link_states<R: Rack>(
    first: &DiskSet<R>,
    second: &DiskSet<R>,
    links: &[LinkFacts],
    here: u32,
    there: u32,
    sync: SyncMode,
) -> Option<LinkStates>
    ensures spelled { IfSome result (λ states. AreSpelled states) }
    ensures few { IfSome result (λ states. length links.now ≤ MOST_LINKS) }
    ensures is { (d : Doubted) → SiteStands (beside_of d here) (d.world.nodes here) first.now → SiteStands (beside_of d there) (d.world.nodes there) second.now
        → is_over_group (d.world.nodes here) ≡ false → is_over_group (d.world.nodes there) ≡ false
        → (d.world.nodes here).state ≡ UpState → (d.world.nodes here).halted ≡ None → (d.world.nodes there).state ≡ UpState → links.now ≡ links_of_site d.world here
        → IfSome result (λ states. AreLinkStates d.world here there sync states) }
{
    let Some(state) = first.state() else {
        return None;
    };
    let Some(other) = second.state() else {
        return None;
    };
    let Some(kept) = kept_facts(links) else {
        return None;
    };
    let session = second.session();
    let last = first.last();
    let joined = join_state(state, other, here);
    let marked = mark_state(&joined);
    let link = new_link(there, sync, session);
    let further = kept_further(&kept, &link);
    let log_link = opened(&link, last);
    let over = kept_with(further.as_slice(), &log_link);
    let Some(made) = with_links(state, further) else {
        return None;
    };
    let Some(open) = with_links(state, over) else {
        return None;
    };
    Some(LinkStates {
        joined,
        made,
        marked,
        opened: open,
        session,
        last,
    })
}

// The parts of a line that makes a link, one behind the other.
fn link_parts<R: Rack>(
    yard: &mut Yard<R>,
    alloc: Global,
    room: LinkRoom,
    waiting: Waiting,
    here: usize,
    there: usize,
    sync: SyncMode,
    states: &LinkStates,
) -> Said
    requires room { room ≡ [] }
    requires waiting { waiting ≡ [] }
    requires states { AreSpelled states.now }
    requires kept { IsYardKept yard.old }
    requires first { here < length yard.old.facts.items }
    requires second { there < length yard.old.facts.items }
    requires few { (site : SiteValue) → slice_get yard.old.facts.items here ≡ Some site → length site.links < LINK_PLACES }
    ensures leads { (d : Doubted) (first second : List ℕ) (prot : Prot) → StandsFor d yard.old → IsLinking d first second here there sync states.now → Leads d (Link first second sync prot) result yard.old yard.new }
    // It makes no disk fail.
    ensures asked { (d : Doubted) (first second : List ℕ) (prot : Prot) → StandsFor d yard.old → IsLinking d first second here there sync states.now → AllSameFailing yard.old yard.new }
    // It writes the headers of its parts, and makes no other call.
    ensures called { (d : Doubted) (first second : List ℕ) (prot : Prot) → StandsFor d yard.old → IsLinking d first second here there sync states.now → BothSites (LinkBurns result) here there yard.old yard.new }
    ensures flight { yard.new.flight ≡ yard.old.flight }
    ensures told { IsTold yard.new → IsTold yard.old }
    ensures files { in_files yard.new ≡ in_files yard.old }
{
    match join_site(yard, alloc, waiting, here, there, &states.joined) {
        Err(said) => said,
        Ok(()) => {
            let session = states.session;
            match make_link(
                yard,
                alloc,
                room,
                here,
                there as u32,
                sync,
                session,
                &states.made,
            ) {
                Err(said) => said,
                Ok(()) => match mark_site(yard, alloc, there, &states.marked) {
                    Err(said) => said,
                    Ok(()) => {
                        let last = states.last;
                        match open_link(yard, alloc, here, there as u32, last, &states.opened) {
                            Err(said) => said,
                            Ok(()) => Said::Done,
                        }
                    }
                },
            }
        }
    }
}

/// Links a site to another one, which comes to its line: both are primaries of lines of their own, at which nothing is logged.
pub(crate) fn link_line<R: Rack>(
    yard: &mut Yard<R>,
    alloc: Global,
    first: &Name,
    second: &Name,
    sync: SyncMode,
) -> Result<Said, OutOfMemory>
    requires kept { IsYardKept yard.old }
    requires free { (prot : Prot) × IsFree yard.old (Link first.now second.now sync prot) }
    ensures leads { (d : Doubted) (prot : Prot) → StandsFor d yard.old → links_rvg d.world (Link first.now second.now sync prot) ≡ false → LeadsIs d (Link first.now second.now sync prot) yard.old yard.new result }
    ensures asked { (d : Doubted) (prot : Prot) → StandsFor d yard.old → links_rvg d.world (Link first.now second.now sync prot) ≡ false → AsAsked d.world (Link first.now second.now sync prot) yard.old yard.new }
    // It writes two headers at each of its sites, and touches no third.
    ensures called { (d : Doubted) (prot : Prot) → StandsFor d yard.old → links_rvg d.world (Link first.now second.now sync prot) ≡ false → IfOk result (λ said. HasCalled d.world (Link first.now second.now sync prot) said yard.old yard.new) }
    ensures flight { yard.new.flight ≡ yard.old.flight }
    ensures told { IsTold yard.new → IsTold yard.old }
    ensures files { in_files yard.new ≡ in_files yard.old }
{
    let here = yard.site_of(first);
    let there = yard.site_of(second);
    let Some(states) = link_states(
        &yard.disk_sets[here],
        &yard.disk_sets[there],
        yard.facts[here].links.as_slice(),
        here as u32,
        there as u32,
        sync,
    ) else {
        return Err(OutOfMemory);
    };
    let Ok(room) = LinkRoom::new(alloc) else {
        return Err(OutOfMemory);
    };
    let Ok(waiting) = Waiting::new(alloc) else {
        return Err(OutOfMemory);
    };
    Ok(link_parts(yard, alloc, room, waiting, here, there, sync, &states))
}

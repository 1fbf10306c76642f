// The sites in memory behind each part of a line that makes a link, and behind one that sets it.
ghost use Rattle.std.specs.Prelude.{◌≡◌, ◌≤◌, ◌<◌, [], Some, ℕ, false, length, slice_get};
ghost use Rattle.vx_model.specs.declared.limits.TheConstants.{LINK_PLACES};
ghost use Rattle.vx_model.specs.declared.link.Prot.TheVariants.{Fail as FailsWhenFull};
ghost use Rattle.vx_model.specs.declared.link.SyncMode.{SyncMode as SyncValue};
ghost use Rattle.vx_history.specs.Listed.{HasPlaces};
ghost use Rattle.vx_history.specs.Step.{step};
ghost use Rattle.vx_history.specs.World.{World};
ghost use Rattle.vx_history.specs.declared.event.Event.TheVariants.{Link as LinkAt, Set as SetAt};
ghost use Rattle.vx_history.specs.declared.event.LinkPart.TheVariants.{Joins, Made, Marked, Opened};
ghost use Rattle.vx_history.specs.declared.event.Said.TheVariants.{Done};
ghost use Rattle.vx_order.specs.declared.facts.SiteFacts.{SiteFacts as SiteValue};
ghost use Rattle.vx_events.specs.GroupLines.{is_over_group};
ghost use Rattle.vx_events.specs.StepsOver.{facts_over};
ghost use Rattle.vx_effects.specs.Facts.{marked_fact};
ghost use Rattle.vx_effects.specs.LinkParts.{further_fact, joined_fact};
ghost use Rattle.vx_linked.specs.Tables.{HasLinksOf};

use crate::keeping::{link_between, put_link};
use crate::making::{new_link, opened, with_setting};
use vx_model::{Line, Mark, Role, SyncMode};
use vx_order::{LinkFacts, LinkRoom, RvgFacts, SiteFacts};

fn join_site(site: &mut SiteFacts, line: Line, parent: Line)
    ensures { site.new ≡ joined_fact line parent site.old }
{
    if let Some(rvg) = site.rvg {
        site.rvg = Some(RvgFacts {
            role: Role::Secondary,
            line,
            parent,
            mark: Mark::Inconsistent,
            low: 1,
            last: 0,
            ..rvg
        });
    }
}

fn group_of(site: &SiteFacts) -> Option<RvgFacts>
    ensures { result ≡ site.now.rvg }
{
    site.rvg
}

/// Keeps the second site as it came to the line of the first one, by the numbers of the two.
pub fn keep_joined(sites: &mut [SiteFacts], here: usize, there: usize)
    requires first { here < length sites.old }
    requires second { there < length sites.old }
    ensures world { (w : World) (sync : SyncValue) → sites.old ≡ facts_over w → is_over_group (w.nodes here) ≡ false → is_over_group (w.nodes there) ≡ false
        → (step w (LinkAt here there sync FailsWhenFull Joins)).said ≡ Done
        → sites.new ≡ facts_over (step w (LinkAt here there sync FailsWhenFull Joins)).world }
    ensures links { (k : ℕ) (site : SiteValue) → slice_get sites.new k ≡ Some site → HasLinksOf sites.old k site }
{
    if let Some(first) = group_of(&sites[here]) {
        join_site(&mut sites[there], first.line, first.parent);
    }
}

fn add_link(site: &mut SiteFacts, room: LinkRoom, link: LinkFacts)
    requires empty { room ≡ [] }
    requires few { length site.old.links < LINK_PLACES }
    ensures { site.new ≡ further_fact link site.old }
{
    let mut room = room;
    let count = site.links.as_slice().len();
    for k in 0..count {
        room.push(site.links.as_slice()[k]);
    }
    room.push(link);
    site.links = room.into_table();
}

/// Keeps the first site with a link to the second one, whose session this is.
pub fn keep_made(
    sites: &mut [SiteFacts],
    room: LinkRoom,
    here: usize,
    there: u32,
    sync: SyncMode,
    session: u64,
)
    requires empty { room ≡ [] }
    requires first { here < length sites.old }
    requires few { (site : SiteValue) → slice_get sites.old here ≡ Some site → length site.links < LINK_PLACES }
    ensures world { (w : World) → sites.old ≡ facts_over w → is_over_group (w.nodes here) ≡ false → HasPlaces w.sites (w.links here) → (w.nodes there).session ≡ session
        → (step w (LinkAt here there sync FailsWhenFull Made)).said ≡ Done → sites.new ≡ facts_over (step w (LinkAt here there sync FailsWhenFull Made)).world }
{
    let link = new_link(there, sync, session);
    add_link(&mut sites[here], room, LinkFacts { link, used: 0 });
}

fn mark_site(site: &mut SiteFacts, mark: Mark)
    ensures { site.new ≡ marked_fact mark site.old }
{
    if let Some(rvg) = site.rvg {
        site.rvg = Some(RvgFacts { mark, ..rvg });
    }
}

/// Keeps the second site as it is consistent.
pub fn keep_marked(sites: &mut [SiteFacts], there: usize)
    requires second { there < length sites.old }
    ensures world { (w : World) (here : ℕ) (sync : SyncValue) → sites.old ≡ facts_over w → is_over_group (w.nodes there) ≡ false → (step w (LinkAt here there sync FailsWhenFull Marked)).said ≡ Done
        → sites.new ≡ facts_over (step w (LinkAt here there sync FailsWhenFull Marked)).world }
{
    mark_site(&mut sites[there], Mark::Consistent);
}

/// Keeps the link of the first site to the second one as it goes by the log, behind the last number of its site.
pub fn keep_opened(sites: &mut [SiteFacts], here: usize, there: u32, last: u64)
    ensures world { (w : World) (sync : SyncValue) → sites.old ≡ facts_over w → is_over_group (w.nodes here) ≡ false → HasPlaces w.sites (w.links here) → (w.nodes here).safe ≡ last
        → (step w (LinkAt here there sync FailsWhenFull Opened)).said ≡ Done → sites.new ≡ facts_over (step w (LinkAt here there sync FailsWhenFull Opened)).world }
{
    if let Some(l) = link_between(sites, here, there) {
        let link = opened(&l.link, last);
        put_link(sites, here, there, &LinkFacts { link, used: 0 });
    }
}

/// Keeps the link of one site to another with this setting.
pub fn keep_set(sites: &mut [SiteFacts], here: usize, there: u32, sync: SyncMode)
    ensures world { (w : World) → sites.old ≡ facts_over w → is_over_group (w.nodes here) ≡ false → HasPlaces w.sites (w.links here) → (step w (SetAt here there sync FailsWhenFull)).said ≡ Done
        → sites.new ≡ facts_over (step w (SetAt here there sync FailsWhenFull)).world }
{
    if let Some(l) = link_between(sites, here, there) {
        let link = with_setting(&l.link, sync);
        put_link(sites, here, there, &LinkFacts { link, used: l.used });
    }
}

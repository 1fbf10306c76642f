// Links that are made, and how writes wait for them.
ghost use Rattle.std.specs.Prelude.{◌≡◌, ◌<◌, ◌&&◌, not, length, IfOk};
ghost use Rattle.vx_history.specs.Sends.{is_linked};
ghost use Rattle.vx_history.specs.Receiving.{phase_takes};
ghost use Rattle.vx_history.specs.Refusals.{says, is_primary as primary, is_consistent, is_stale_mode, is_empty, unless, count_links_of, follows as following};
ghost use Rattle.vx_model.specs.declared.link.Prot.{Prot as PlainProt};
ghost use Rattle.vx_model.specs.declared.link.SyncMode.{SyncMode};
ghost use Rattle.vx_history.specs.Step.{outcome_of, link_part};
ghost use Rattle.vx_history.specs.declared.event.Event.TheVariants.{Attach, Detach, Link as LinkSites, Set};
ghost use Rattle.vx_history.specs.declared.event.LinkPart.TheVariants.{Joins, Made, Marked, Opened};
ghost use Rattle.vx_model.specs.declared.no.No.TheVariants.{Role as WrongRole};
ghost use Rattle.vx_history.specs.Events.{new_link};
ghost use Rattle.vx_sites.specs.Refusing.{Refuses};
ghost use Rattle.vx_sites.specs.Shapes.{world_of, link_of};

use vx_history::{LinkPart, Said, takes_updates};
use vx_model::{Mark, Mode, No, OutOfMemory, Prot, SyncMode};
use vx_sites::bounds::{count_links, follows, is_primary, refuse_join, refuse_made};
use vx_sites::refusals::{refuse_link_of_origin, refuse_site, refuse_work_of_both};
use vx_sites::{Link, World};

/// The link has these settings from now on. Refused with 1, 5, 6 and 20.
pub fn set(
    world: &mut World,
    from: u32,
    to: u32,
    sync: SyncMode,
    prot: Prot,
) -> Result<Said, OutOfMemory>
    ensures { IfOk result (λ said. says (world_of world.new) said ≡ outcome_of (world_of world.old) (Set from to sync prot)) }
{
    if let Some(no) = refuse_link_of_origin(world, from, to) {
        return Ok(Said::Refused(no));
    }
    let mut link = world.link(from, to);
    link.state.sync = sync;
    link.state.prot = prot;
    world.set_link(from, to, link)?;
    Ok(Said::Done)
}

/// The link holds the log from now on. Refused with 1, 5, 6 and 20.
pub fn attach(world: &mut World, from: u32, to: u32) -> Result<Said, OutOfMemory>
    ensures { IfOk result (λ said. says (world_of world.new) said ≡ outcome_of (world_of world.old) (Attach from to)) }
{
    if let Some(no) = refuse_link_of_origin(world, from, to) {
        return Ok(Said::Refused(no));
    }
    let mut link = world.link(from, to);
    link.state.attached = true;
    world.set_link(from, to, link)?;
    Ok(Said::Done)
}

/// The link holds nothing from now on, and is given up. Refused with 1, 5, 6 and 20.
pub fn detach(world: &mut World, from: u32, to: u32) -> Result<Said, OutOfMemory>
    ensures { IfOk result (λ said. says (world_of world.new) said ≡ outcome_of (world_of world.old) (Detach from to)) }
{
    if let Some(no) = refuse_link_of_origin(world, from, to) {
        return Ok(Said::Refused(no));
    }
    let mut link = world.link(from, to);
    link.state.attached = false;
    link.state.mode = Mode::Stale;
    world.renew_link(from, to, link)?;
    Ok(Said::Done)
}

/// One of the events of a line that links a site to another. Refused with 1, 6 and 20, and then as the part says.
pub fn link_sites(
    world: &mut World,
    from: u32,
    to: u32,
    sync: SyncMode,
    prot: Prot,
    part: LinkPart,
) -> Result<Said, OutOfMemory>
    ensures { IfOk result (λ said. says (world_of world.new) said ≡ outcome_of (world_of world.old) (LinkSites from to sync prot part)) }
{
    if let Some(no) = refuse_site(world, from) {
        return Ok(Said::Refused(no));
    }
    if let Some(no) = refuse_site(world, to) {
        return Ok(Said::Refused(no));
    }
    if let Some(no) = refuse_work_of_both(world, from, to) {
        return Ok(Said::Refused(no));
    }
    link_by_part(world, from, to, sync, prot, part)
}

fn link_by_part(
    world: &mut World,
    from: u32,
    to: u32,
    sync: SyncMode,
    prot: Prot,
    part: LinkPart,
) -> Result<Said, OutOfMemory>
    requires from { from < length world.old.nodes.items }
    requires to { to < length world.old.nodes.items }
    ensures { IfOk result (λ said. says (world_of world.new) said ≡ link_part part (world_of world.old) from to sync prot) }
{
    match part {
        LinkPart::Joins => join(world, from, to),
        LinkPart::Made => make_link(world, from, to, sync, prot),
        LinkPart::Marked => Ok(mark(world, from, to)),
        LinkPart::Opened => open_link(world, from, to),
    }
}

// Refused with 5, 2, 19 and 4.
fn join(world: &mut World, from: u32, to: u32) -> Result<Said, OutOfMemory>
    requires from { from < length world.old.nodes.items }
    requires to { to < length world.old.nodes.items }
    ensures { (sync : SyncMode) (prot : PlainProt) → IfOk result (λ said. says (world_of world.new) said ≡ link_part Joins (world_of world.old) from to sync prot) }
{
    if let Some(no) = refuse_join(world, from, to) {
        return Ok(Said::Refused(no));
    }
    world.join(from, to)?;
    world.empty(to);
    Ok(Said::Done)
}

// Refused with 5 and 2.
fn make_link(
    world: &mut World,
    from: u32,
    to: u32,
    sync: SyncMode,
    prot: Prot,
) -> Result<Said, OutOfMemory>
    requires from { from < length world.old.nodes.items }
    requires to { to < length world.old.nodes.items }
    ensures { IfOk result (λ said. says (world_of world.new) said ≡ link_part Made (world_of world.old) from to sync prot) }
{
    if let Some(no) = refuse_no_receiver(world, from, to) {
        return Ok(Said::Refused(no));
    }
    if let Some(no) = refuse_made(world, from, to) {
        return Ok(Said::Refused(no));
    }
    world.renew_link(from, to, next_link(world, from, to, sync, prot))?;
    Ok(Said::Done)
}

fn refuse_no_receiver(world: &World, from: u32, to: u32) -> Option<No>
    requires from { from < length world.now.nodes.items }
    requires to { to < length world.now.nodes.items }
    ensures { let w = world_of world.now in Refuses result w (unless (not (primary (w.nodes from).role && following w from to)) WrongRole w) }
{
    if is_primary(world.node(from)) && follows(world, from, to) {
        None
    } else {
        Some(No::Role)
    }
}

// The next link that the site `from` makes.
fn next_link(world: &World, from: u32, to: u32, sync: SyncMode, prot: Prot) -> Link
    requires { to < length world.now.nodes.items }
    ensures { let w = world_of world.now in link_of result ≡ new_link (count_links_of w from) sync prot (w.nodes to) }
{
    Link::new(count_links(world, from), sync, prot, world.node(to).session)
}

// Refused with 5.
fn mark(world: &mut World, from: u32, to: u32) -> Said
    requires from { from < length world.old.nodes.items }
    requires to { to < length world.old.nodes.items }
    ensures { (sync : SyncMode) (prot : PlainProt) → says (world_of world.new) result ≡ link_part Marked (world_of world.old) from to sync prot }
{
    let here = world.node(from);
    let is_first = is_primary(here) && follows(world, from, to);
    if !is_first || !world.link(from, to).is_linked() || !here.log.is_empty() {
        return Said::Refused(No::Role);
    }
    world.mark_consistent(to);
    Said::Done
}

// Refused with 5.
fn open_link(world: &mut World, from: u32, to: u32) -> Result<Said, OutOfMemory>
    requires from { from < length world.old.nodes.items }
    requires to { to < length world.old.nodes.items }
    ensures { (sync : SyncMode) (prot : PlainProt) → IfOk result (λ said. says (world_of world.new) said ≡ link_part Opened (world_of world.old) from to sync prot) }
{
    if !may_open(world, from, to) {
        return Ok(Said::Refused(No::Role));
    }
    let head = world.node(from).safe;
    let mut link = world.link(from, to);
    link.state.mode = Mode::Log;
    link.state.net = head;
    link.state.stored = head;
    link.state.sent = head;
    world.set_link(from, to, link)?;
    Ok(Said::Done)
}

// Whether the link is made and Stale, nothing is logged at its site, and its receiver is consistent and takes updates.
fn may_open(world: &World, from: u32, to: u32) -> bool
    requires from { from < length world.now.nodes.items }
    requires to { to < length world.now.nodes.items }
    ensures { let w = world_of world.now in result ≡ (primary (w.nodes from).role && (following w from to && (is_linked (w.links from to) && (is_empty (w.nodes from).log && (is_stale_mode (w.links from to).mode && (phase_takes (w.nodes to).phase && is_consistent (w.nodes to).mark)))))) }
{
    let here = world.node(from);
    let there = world.node(to);
    let link = world.link(from, to);
    let is_first = is_primary(here) && follows(world, from, to) && link.is_linked();
    let is_stale = here.log.is_empty() && link.state.mode == Mode::Stale;
    is_first && is_stale && takes_updates(&there.phase) && there.mark == Mark::Consistent
}

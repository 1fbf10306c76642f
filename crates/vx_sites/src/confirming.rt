// What the links of a site say of a write that is to be confirmed.
ghost use Rattle.std.specs.Prelude.{◌≡◌, ◌<◌, ◌++◌, length, map, leb, OnOk, if◌then◌else◌};
ghost use Rattle.vx_history.specs.World.{Durable, InSession};
ghost use Rattle.vx_history.specs.Admission.{is_log as logs, is_fail as fails};
ghost use Rattle.vx_history.specs.Refusals.{some_below, goes, holds_back, is_unconfirmed as unconfirmed};
ghost use Rattle.vx_history.specs.Sends.{promising};
ghost use Rattle.vx_history.specs.Events.{promise_of as promise_by, promises_of};
ghost use Rattle.vx_sites.specs.Shapes.{world_of, node_of, link_of, row_of, surety_of, plain_promise};

use crate::link::link_in;
use crate::{Link, Node, Promise, Surety, World};
use vx_history::is_waited_for;
use vx_model::{Mode, OutOfMemory, SyncMode};

impl World {
    /// Whether some link of the site has still to confirm the write of this number.
    pub fn is_held_back(&self, site: u32, number: u64) -> bool
        ensures { let w = world_of self.now in result ≡ some_below w.sites (λ k. holds_back number k (w.links site k)) }
    {
        let mut found = false;
        for to in 0..self.nodes.len() {
            found = self.holds_back(site, to, number) || found;
        }
        found
    }

    /// Whether some link of the site can't confirm the write of this number, as it has to.
    pub fn is_unconfirmed(&self, site: u32, number: u64) -> bool
        ensures { let w = world_of self.now in result ≡ some_below w.sites (λ k. unconfirmed number k (w.links site k)) }
    {
        let mut found = false;
        for to in 0..self.nodes.len() {
            found = self.fails_to_confirm(site, to, number) || found;
        }
        found
    }

    fn holds_back(&self, site: u32, to: usize, number: u64) -> bool
        ensures { result ≡ holds_back number to ((world_of self.now).links site to) }
    {
        let link = self.link_at(site, to);
        let waits = link.is_linked() && link.state.attached && is_waited_for(link.state.sync);
        waits && is_going(&link) && link.state.net < number
    }

    fn fails_to_confirm(&self, site: u32, to: usize, number: u64) -> bool
        ensures { result ≡ unconfirmed number to ((world_of self.now).links site to) }
    {
        let link = self.link_at(site, to);
        let fails = link.is_linked() && link.state.attached && is_failing(&link.state.sync);
        fails && link.state.net < number && !is_going(&link)
    }

    /// Each attached link of the site that fails writes promises this number.
    pub fn promise_number(&mut self, site: u32, number: u64) -> Result<(), OutOfMemory>
        requires { site < length self.old.nodes.items }
        ensures { OnOk result (let w = world_of self.old in world_of self.new ≡ promising w (promises_of (w.nodes site) number (w.links site) w.sites)) }
    {
        let sites = self.nodes.len();
        let node = &self.nodes[site as usize];
        match self.rows.get(site as usize) {
            Some(row) => promise_below(&mut self.promised, node, number, &row.links, sites),
            None => promise_below(&mut self.promised, node, number, &[], sites),
        }
    }
}

// Whether the link is live and goes by the log. The number of its site is of no account.
fn is_going(link: &Link) -> bool
    ensures { result ≡ goes 0 (link_of link.now) }
{
    link.state.attached && link.state.connected && !link.state.paused && is_by_log(&link.state.mode)
}

fn is_by_log(mode: &Mode) -> bool
    ensures { result ≡ logs mode.now }
{
    match mode {
        Mode::Log => true,
        Mode::Dcm | Mode::Replay { .. } | Mode::Fork { .. } | Mode::Stale => false,
    }
}

fn is_failing(sync: &SyncMode) -> bool
    ensures { result ≡ fails sync.now }
{
    match sync {
        SyncMode::Off | SyncMode::Override => false,
        SyncMode::Fail => true,
    }
}

// The promises of the links of a row to the sites below a number, the last of them first.
fn promise_below(
    promised: &mut Vec<Promise>,
    node: &Node,
    number: u64,
    links: &[Link],
    sites: usize,
) -> Result<(), OutOfMemory>
    ensures { OnOk result (map plain_promise promised.new.items ≡ map plain_promise promised.old.items ++ promises_of (node_of node.now) number (row_of links.now) sites) }
{
    for back in 0..sites {
        let to = sites - 1 - back;
        promise_one(promised, node, number, to, &link_in(links, to))?;
    }
    Ok(())
}

fn promise_one(
    promised: &mut Vec<Promise>,
    node: &Node,
    number: u64,
    to: usize,
    link: &Link,
) -> Result<(), OutOfMemory>
    ensures { OnOk result (map plain_promise promised.new.items ≡ map plain_promise promised.old.items ++ promise_by (node_of node.now) number to (link_of link.now)) }
{
    if !link.is_linked() || !link.state.attached || !is_failing(&link.state.sync) {
        return Ok(());
    }
    promised.push(Promise {
        line: node.line,
        number,
        site: to,
        surety: find_surety(link, number),
    })?;
    Ok(())
}

// By its disks where the number is stored there, else in the session of the link.
fn find_surety(link: &Link, number: u64) -> Surety
    ensures { let l = link_of link.now in surety_of result ≡ (if leb number l.stored then Durable else InSession l.session) }
{
    if number <= link.state.stored {
        Surety::Durable
    } else {
        Surety::InSession(link.state.session)
    }
}

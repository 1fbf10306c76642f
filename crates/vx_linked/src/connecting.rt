// A link is connected.
ghost use Rattle.std.specs.Prelude.{◌≡◌, ◌≤◌, Some, None, IsOk, OnOk, OnErr, length};
ghost use Rattle.vx_events.specs.Facts.{site_number};
ghost use Rattle.vx_history.specs.World.{World};
ghost use Rattle.vx_history.specs.declared.event.Event.TheVariants.{Connect as ConnectAt};
ghost use Rattle.vx_history.specs.declared.sender.SEvent.TheVariants.{Connect as ConnectLink};
ghost use Rattle.vx_model.specs.declared.limits.TheConstants.{MOST_SITES};
ghost use Rattle.vx_order.specs.declared.facts.RvgFacts.{RvgFacts};
ghost use Rattle.vx_script.specs.declared.line.ScriptLine.TheVariants.{Connect};
ghost use Rattle.vx_linked.specs.Greetings.{CanGreet, Tells, greeter};
ghost use Rattle.vx_linked.specs.Tables.{IsUnrefused};
ghost use Rattle.vx_linked.specs.Turns.{ComesBehind, FactsStandFor, Turned};

use crate::greeting::{find_greeter, greet};
use crate::seats::seat;
use crate::turning::turn;
use vx_model::{Name, OutOfMemory};
use vx_net::Net;
use vx_order::SiteFacts;
use vx_sender::SEvent;

/// The link of a site to another is connected. The other site greets the first one, where it is up, not halted, and receives on its line:
/// with its session, the last number that it has received, and `stored`, up to which number a crash keeps it.
///
/// Numbers past those that packets carry are answered as want of memory, which changes nothing.
pub fn connect<N: Net>(
    sites: &mut [SiteFacts],
    from: &Name,
    to: &Name,
    session: u64,
    stored: u64,
    flight: &mut N,
) -> Result<(), OutOfMemory>
    requires few { length sites.old ≤ MOST_SITES }
    requires free { IsUnrefused sites.old (Connect from.now to.now) }
    ensures turned { OnOk result (Turned ConnectLink from.now to.now sites.old sites.new) }
    ensures world { (w : World) → FactsStandFor w sites.old (N.flying flight.old) → Tells (w.nodes (site_number w to.now)) session stored
        → OnOk result (ComesBehind w (ConnectAt (site_number w from.now) (site_number w to.now)) sites.new (N.flying flight.new)) }
    ensures silent { greeter sites.old from.now to.now ≡ None → N.flying flight.new ≡ N.flying flight.old }
    ensures sites { OnErr result (sites.new ≡ sites.old) }
    ensures unsent { OnErr result (N.flying flight.new ≡ N.flying flight.old) }
    // It comes to Ok where nobody greets, or the greeting fits.
    ensures done { ((r : RvgFacts) → greeter sites.old from.now to.now ≡ Some r → CanGreet (N.flying flight.old) session stored r) → IsOk result }
{
    let here = seat(sites, from);
    let there = seat(sites, to);
    let rvg = find_greeter(&sites[here], &sites[there]);
    greet(rvg, there as u32, here as u32, session, stored, flight)?;
    turn(sites, from, to, &SEvent::Connect);
    Ok(())
}

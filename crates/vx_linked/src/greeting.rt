// The greeting of the site that a link leads to.
ghost use Rattle.std.specs.Prelude.{◌≡◌, ◌++◌, List, Some, None, IsOk, OnOk, OnErr, not};
ghost use Rattle.vx_courier.specs.UnderWay.{FlightStands};
ghost use Rattle.vx_history.specs.Sends.{packets_of};
ghost use Rattle.vx_history.specs.World.{Hello, Packet};
ghost use Rattle.vx_model.specs.Sites.{is_origin};
ghost use Rattle.vx_order.specs.Sites.{rvg_of};
ghost use Rattle.vx_order.specs.declared.facts.RvgFacts.{RvgFacts};
ghost use Rattle.vx_linked.specs.Greetings.{CanGreet, greeter_of, hello_of, receives_on};

use vx_courier::send_message;
use vx_model::limits::MOST_NUMBER;
use vx_model::{Line, OutOfMemory, Role, SiteState};
use vx_net::Net;
use vx_order::{RvgFacts, SiteFacts};
use vx_packet::{Envelope, Message};

// The group of a site, which only an up site has.
fn group(site: &SiteFacts) -> Option<RvgFacts>
    ensures { result ≡ rvg_of (Some site.now) }
{
    match site.state {
        SiteState::Up => site.rvg,
        _ => None,
    }
}

fn is_receiver(role: &Role) -> bool
    ensures { result ≡ not (is_origin role.now) }
{
    match role {
        Role::Secondary | Role::Bunker => true,
        Role::Primary | Role::Handing { .. } => false,
    }
}

fn is_receiving(line: &Line, rvg: &RvgFacts) -> bool
    ensures { result ≡ receives_on line.now rvg.now }
{
    rvg.halted.is_none() && is_receiver(&rvg.role) && rvg.line == *line
}

/// The group of the second site, where it receives on the line of the first one and is not halted.
pub fn find_greeter(first: &SiteFacts, second: &SiteFacts) -> Option<RvgFacts>
    ensures { result ≡ greeter_of (rvg_of (Some first.now)) (rvg_of (Some second.now)) }
{
    let here = group(first)?;
    let there = group(second)?;
    if is_receiving(&here.line, &there) {
        Some(there)
    } else {
        None
    }
}

fn send_hello<N: Net>(
    rvg: &RvgFacts,
    from: u32,
    to: u32,
    session: u64,
    stored: u64,
    flight: &mut N,
) -> Result<(), OutOfMemory>
    ensures sends { OnOk result ((ps : List Packet) → FlightStands ps (N.flying flight.old)
        → FlightStands (ps ++ packets_of from to rvg.now.line (Hello session rvg.now.last stored)) (N.flying flight.new)) }
    ensures done { CanGreet (N.flying flight.old) session stored rvg.now → IsOk result }
    ensures unsent { OnErr result (N.flying flight.new ≡ N.flying flight.old) }
{
    if flight.count() >= MOST_NUMBER
        || session > MOST_NUMBER
        || stored > MOST_NUMBER
        || rvg.last > MOST_NUMBER
        || rvg.line.generation > MOST_NUMBER
    {
        return Err(OutOfMemory);
    }
    let envelope = Envelope {
        source: from,
        target: to,
        line: rvg.line,
    };
    let hello = Message::Hello {
        session,
        number: rvg.last,
        stored,
    };
    send_message(flight, &envelope, &hello);
    Ok(())
}

/// Sends the greeting of a receiver, if there is one: its session, the last number that it received, and up to which number a crash keeps
/// it.
pub fn greet<N: Net>(
    rvg: Option<RvgFacts>,
    from: u32,
    to: u32,
    session: u64,
    stored: u64,
    flight: &mut N,
) -> Result<(), OutOfMemory>
    ensures sends { OnOk result ((ps : List Packet) → FlightStands ps (N.flying flight.old)
        → FlightStands (ps ++ hello_of rvg from to session stored) (N.flying flight.new)) }
    ensures done { ((r : RvgFacts) → rvg ≡ Some r → CanGreet (N.flying flight.old) session stored r) → IsOk result }
    ensures silent { rvg ≡ None → N.flying flight.new ≡ N.flying flight.old }
    ensures unsent { OnErr result (N.flying flight.new ≡ N.flying flight.old) }
{
    match rvg {
        Some(rvg) => send_hello(&rvg, from, to, session, stored, flight),
        None => Ok(()),
    }
}

// What was sent on a link counts as lost.
ghost use Rattle.std.specs.Prelude.{◌≡◌};
ghost use Rattle.vx_events.specs.Facts.{site_number};
ghost use Rattle.vx_history.specs.World.{World};
ghost use Rattle.vx_history.specs.declared.event.Event.TheVariants.{Tick as TickAt};
ghost use Rattle.vx_history.specs.declared.sender.SEvent.TheVariants.{Tick as TickLink};
ghost use Rattle.vx_net.specs.Flights.{Flying};
ghost use Rattle.vx_script.specs.declared.line.ScriptLine.TheVariants.{Tick};
ghost use Rattle.vx_linked.specs.Tables.{IsUnrefused};
ghost use Rattle.vx_linked.specs.Turns.{ComesBehind, FactsStandFor, Turned};

use crate::turning::turn;
use vx_model::Name;
use vx_order::SiteFacts;
use vx_sender::SEvent;

/// What was sent on the link of a site to another counts as lost: sending begins again behind what is acknowledged. No packet is sent.
pub fn tick(sites: &mut [SiteFacts], from: &Name, to: &Name)
    requires free { IsUnrefused sites.old (Tick from.now to.now) }
    ensures turned { Turned TickLink from.now to.now sites.old sites.new }
    ensures world { (w : World) (f : Flying) → FactsStandFor w sites.old f → ComesBehind w (TickAt (site_number w from.now) (site_number w to.now)) sites.new f }
{
    turn(sites, from, to, &SEvent::Tick);
}

// A link goes on.
ghost use Rattle.std.specs.Prelude.{◌≡◌};
ghost use Rattle.vx_events.specs.Facts.{site_number};
ghost use Rattle.vx_history.specs.World.{World};
ghost use Rattle.vx_history.specs.declared.event.Event.TheVariants.{Resume as ResumeAt};
ghost use Rattle.vx_history.specs.declared.sender.SEvent.TheVariants.{Resume as ResumeLink};
ghost use Rattle.vx_net.specs.Flights.{Flying};
ghost use Rattle.vx_script.specs.declared.line.ScriptLine.TheVariants.{Resume};
ghost use Rattle.vx_linked.specs.Tables.{IsUnrefused};
ghost use Rattle.vx_linked.specs.Turns.{ComesBehind, FactsStandFor, Turned};

use crate::turning::turn;
use vx_model::Name;
use vx_order::SiteFacts;
use vx_sender::SEvent;

/// The link of a site to another is not paused any more. No packet is sent.
pub fn resume(sites: &mut [SiteFacts], from: &Name, to: &Name)
    requires free { IsUnrefused sites.old (Resume from.now to.now) }
    ensures turned { Turned ResumeLink from.now to.now sites.old sites.new }
    ensures world { (w : World) (f : Flying) → FactsStandFor w sites.old f → ComesBehind w (ResumeAt (site_number w from.now) (site_number w to.now)) sites.new f }
{
    turn(sites, from, to, &SEvent::Resume);
}

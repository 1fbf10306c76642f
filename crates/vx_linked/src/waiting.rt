// A site is asked whether a write is confirmed.
ghost use Rattle.std.specs.Prelude.{◌≡◌, Some};
ghost use Rattle.std.specs.List.{list_any};
ghost use Rattle.vx_events.specs.Facts.{site_number};
ghost use Rattle.vx_events.specs.StepsOver.{facts_over};
ghost use Rattle.vx_history.specs.Listed.{AreListed};
ghost use Rattle.vx_history.specs.Step.{step};
ghost use Rattle.vx_history.specs.World.{World};
ghost use Rattle.vx_history.specs.declared.event.Event.TheVariants.{Wait as WaitAt};
ghost use Rattle.vx_order.specs.Sites.{site_named};
ghost use Rattle.vx_order.specs.declared.facts.SiteFacts.{SiteFacts};
ghost use Rattle.vx_script.specs.declared.line.ScriptLine.TheVariants.{Wait};
ghost use Rattle.vx_linked.specs.Tables.{IsUnrefused};
ghost use Rattle.vx_linked.specs.Waits.{holds_up, wait_said};

use crate::seats::seat;
use vx_history::{Said, is_live, is_waited_for};
use vx_model::{Mode, Name};
use vx_order::{LinkFacts, SiteFacts};

fn is_holding_up(l: &LinkFacts, number: u64) -> bool
    ensures { result ≡ holds_up number l.now }
{
    let goes = is_live(&l.link) && l.link.mode == Mode::Log;
    l.link.attached && is_waited_for(l.link.sync) && goes && l.link.net < number
}

fn has_holding_up(links: &[LinkFacts], number: u64) -> bool
    ensures { result ≡ list_any (holds_up number) links.now }
{
    links.iter().any(|l| is_holding_up(l, number))
}

fn answer(links: &[LinkFacts], number: u64) -> Said
    ensures { result ≡ wait_said number links.now }
{
    if has_holding_up(links, number) {
        Said::Pending(number)
    } else {
        Said::DoneAt(number)
    }
}

/// Whether the write of this number is confirmed as the links of its site ask: done with its number, or pending while a live link by the
/// log that writes wait for has not confirmed it. Nothing changes.
pub fn wait(sites: &[SiteFacts], from: &Name, number: u64) -> Said
    requires free { IsUnrefused sites.now (Wait from.now number) }
    ensures said { (site : SiteFacts) → site_named sites.now from.now ≡ Some site → result ≡ wait_said number site.links }
    ensures world { (w : World) → sites.now ≡ facts_over w → AreListed w → result ≡ (step w (WaitAt (site_number w from.now) number)).said }
    ensures facts { (w : World) → sites.now ≡ facts_over w → sites.now ≡ facts_over (step w (WaitAt (site_number w from.now) number)).world }
{
    let here = seat(sites, from);
    answer(sites[here].links.as_slice(), number)
}

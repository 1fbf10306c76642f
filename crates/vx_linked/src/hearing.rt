// A link that hears a greeting or an acknowledgement.
ghost use Rattle.std.specs.Prelude.{◌≡◌, ℕ, ◌<◌, Some, None, IsSome, true, false};
ghost use Rattle.std.specs.Option.{option_copied};
ghost use Rattle.vx_events.specs.LinkedFacts.{link_fact};
ghost use Rattle.vx_events.specs.GroupLines.{is_over_group};
ghost use Rattle.vx_events.specs.StepsOver.{facts_over};
ghost use Rattle.vx_history.specs.Listed.{AreListed};
ghost use Rattle.vx_history.specs.Events.{handed, heard, link_heard, packet_at};
ghost use Rattle.vx_history.specs.Refusals.{says};
ghost use Rattle.vx_history.specs.Sends.{is_linked};
ghost use Rattle.vx_history.specs.Step.{step};
ghost use Rattle.vx_history.specs.World.{Packet, World};
ghost use Rattle.vx_history.specs.declared.event.Event.TheVariants.{Deliver as DeliverAt};
ghost use Rattle.vx_history.specs.declared.event.Said.TheVariants.{Ignored};
ghost use Rattle.vx_history.specs.declared.sender.SEvent.{SEvent};
ghost use Rattle.vx_order.specs.declared.facts.LinkFacts.{LinkFacts as LinkValue};
ghost use Rattle.vx_linked.specs.Hearings.{Hears, IsHearing, hearing, listens};
ghost use Rattle.vx_linked.specs.Tables.{Put, fact_between};

use crate::keeping::{link_between, put_link, site_at};
use vx_history::has_links;
use vx_model::SiteState;
use vx_order::{LinkFacts, SiteFacts};

fn is_listening(site: Option<&SiteFacts>) -> bool
    ensures { result ≡ listens (option_copied site.entry) }
{
    match site {
        Some(site) if site.state == SiteState::Up => match site.rvg {
            Some(rvg) => rvg.halted.is_none() && has_links(&rvg.role),
            None => false,
        },
        _ => false,
    }
}

fn find_hearing(sites: &[SiteFacts], target: usize, source: u32) -> Option<LinkFacts>
    ensures { result ≡ hearing sites.now target source }
{
    if is_listening(site_at(sites, target)) {
        link_between(sites, target, source)
    } else {
        None
    }
}

/// The link of the target of a packet to its source, where it hears a greeting or an acknowledgement. Where it is none nothing comes of the
/// packet.
pub fn hearing_link(sites: &[SiteFacts], target: usize, source: u32) -> Option<LinkFacts>
    ensures link { result ≡ hearing sites.now target source }
    ensures between { (l : LinkValue) → result ≡ Some l → fact_between sites.now target source ≡ Some l }
    ensures hears { (w : World) (l : LinkValue) → sites.now ≡ facts_over w → result ≡ Some l → Hears w target source l }
    ensures deaf { (w : World) (p : Packet) (e : SEvent) → sites.now ≡ facts_over w → result ≡ None → p.target ≡ target → p.source ≡ source
        → target < w.sites → source < w.sites → (is_over_group (w.nodes target) ≡ true → is_linked (w.links target source) ≡ false) → AreListed w → heard w p p.message ≡ link_heard w p e → handed w p ≡ says w Ignored }
{
    find_hearing(sites, target, source)
}

/// Keeps the link of the target of a packet to its source as a greeting or an acknowledgement left it, with the blocks that the numbers
/// above its hold then take.
pub fn keep_heard(sites: &mut [SiteFacts], target: usize, source: u32, link: &LinkFacts)
    requires linked { IsSome (fact_between sites.old target source) }
    ensures put { Put target source link.now sites.old sites.new }
    ensures world { (w : World) (number : ℕ) (p : Packet) (e : SEvent) → sites.old ≡ facts_over w → packet_at w.packets number ≡ Some p
        → p.target ≡ target → p.source ≡ source → heard w p p.message ≡ link_heard w p e → IsHearing (w.nodes target)
        → link.now ≡ link_fact (w.nodes target) source ((step w (DeliverAt number)).world.links target source)
        → sites.new ≡ facts_over (step w (DeliverAt number)).world }
{
    put_link(sites, target, source, link);
}

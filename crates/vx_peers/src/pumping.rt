// What a site sends on a link as it is pumped.
ghost use Rattle.std.specs.Prelude.{◌≡◌, ◌≢◌, ◌+◌, ◌<◌, ◌≤◌, ℕ, None, OnOk, OnErr, IfErr, IsTrue, true, ◌&&◌};
ghost use Rattle.vx_courier.specs.UnderWay.{FlightStands};
ghost use Rattle.vx_disk.specs.Causes.{OnDisks};
ghost use Rattle.vx_disk.specs.Disks.{Untouched};
ghost use Rattle.vx_disk.specs.Shelf.{Goes, Nothing};
ghost use Rattle.vx_history.specs.Admission.{is_live_link};
ghost use Rattle.vx_history.specs.LinkForms.{plain_link};
ghost use Rattle.vx_history.specs.Sending.{by_log};
ghost use Rattle.vx_history.specs.World.{World};
ghost use Rattle.vx_history.specs.declared.sender.Action.TheVariants.{Nothing as SendsNothing};
ghost use Rattle.vx_history.specs.declared.sender.SEvent.TheVariants.{Pump};
ghost use Rattle.vx_packet.specs.Messages.{IsCounted};
ghost use Rattle.vx_peers.specs.Senders.{BlamesStop, LinkMoved, ReadCause, SendsBy, SendsFrom, SendsRange, SentRange, pump_asks, pumped_at, way_from};
ghost use Rattle.vx_disk.specs.Spends.{Spends};
ghost use Rattle.vx_rvg.specs.Holdings.{Holding};
ghost use Rattle.vx_rvg.specs.Stands.{Stands};
ghost use Rattle.vx_rvg.specs.Views.{last_of};

use crate::reading::read_updates;
use crate::sending::send_updates;
use std::alloc::Global;
use vx_disk::Shelf;
use vx_model::{Link, Stop};
use vx_net::Net;
use vx_packet::Envelope;
use vx_rvg::Rvg;
use vx_sender::{Action, SEvent, SFacts};

// The updates of these numbers, both ends included, and sent; where one of them cannot be read none is.
fn send_range<S: Shelf, N: Net>(
    alloc: Global,
    rvg: &mut Rvg<S>,
    envelope: &Envelope,
    from: u64,
    to: u64,
    flight: &mut N,
) -> Result<(), Stop>
    requires generation { IsCounted envelope.now.line.generation }
    requires running { rvg.old.core.halted ≡ None }
    requires low { rvg.old.core.log.header.low ≤ from }
    requires some { from ≤ to }
    requires held { to ≤ last_of rvg.old.core }
    requires number { IsCounted to }
    ensures sent { OnOk result (IsTrue (S.meaning rvg.old.shelf).tells → (h : Holding) → Stands rvg.old.core h (S.meaning rvg.old.shelf)
        → SentRange h rvg.old.core.log.header.state.line envelope.now from to (N.flying flight.old) (N.flying flight.new) × Stands rvg.old.core h (S.meaning rvg.new.shelf)) }
    ensures more { OnOk result (SendsRange envelope.now from to (N.flying flight.old) (N.flying flight.new)) }
    ensures unsent { OnErr result (N.flying flight.new ≡ N.flying flight.old) }
    ensures cause { IfErr result (ReadCause rvg.old.core (S.meaning rvg.old.shelf) (S.meaning rvg.new.shelf)) }
    ensures blames { IfErr result (BlamesStop (S.meaning rvg.old.shelf).disks rvg.old.core.log.unit) }
    ensures core { rvg.new.core ≡ rvg.old.core }
    ensures goes { Goes Nothing (S.meaning rvg.old.shelf) (S.meaning rvg.new.shelf) }
    ensures down { (S.meaning rvg.new.shelf).down ≡ (S.meaning rvg.old.shelf).down }
    ensures disks { OnDisks (S.meaning rvg.old.shelf).disks (S.meaning rvg.new.shelf).disks Untouched }
    ensures spends { Spends (S.meaning rvg.old.shelf) (S.meaning rvg.new.shelf) }
{
    let updates = read_updates(alloc, rvg, from, to - from + 1)?;
    let count = updates.len() as u64;
    // So many packets are never sent.
    if count >= 0x1_0000_0000 || flight.count() >= 0x4000_0000_0000_0000 {
        return Err(Stop::OutOfMemory);
    }
    send_updates(flight, envelope, from, &updates);
    Ok(())
}

/// Sends on a live link what its receiver may lack, as the rule of links has it: nothing where the link does not go by the log. Where a
/// write cannot be read nothing is sent, and the link stays as it was. `site` is the number of the sending site. Also where contents are not told it
/// sends the updates of those numbers, of whatever writes were read.
///
/// It takes memory for the updates that it sends, and is refused only where there are any. Refusals: 7 where a device call failed, 6 where the
/// shelf is down, 22 for a record with another digest.
pub fn pump<S: Shelf, N: Net>(
    alloc: Global,
    rvg: &mut Rvg<S>,
    link: &mut Link,
    site: u32,
    flight: &mut N,
) -> Result<(), Stop>
    requires generation { IsCounted rvg.old.core.log.header.state.line.generation }
    requires number { IsCounted (last_of rvg.old.core) }
    requires running { rvg.old.core.halted ≡ None }
    requires held { (is_live_link link.old && by_log link.old.mode) ≡ true → rvg.old.core.log.header.low ≤ link.old.stored + 1 }
    ensures moved { OnOk result ((w : World) → SendsFrom (w.nodes site) rvg.old.core (S.meaning rvg.old.shelf) → IsTrue (S.meaning rvg.old.shelf).tells
        → link.old ≡ plain_link link.old.site (w.links site link.old.site) → FlightStands w.packets (N.flying flight.old)
        → LinkMoved w site link.old.site Pump link.new (N.flying flight.new)) }
    ensures stands { OnOk result ((h : Holding) → Stands rvg.old.core h (S.meaning rvg.old.shelf) → IsTrue (S.meaning rvg.old.shelf).tells → Stands rvg.old.core h (S.meaning rvg.new.shelf)) }
    ensures more { OnOk result (SendsBy (pump_asks link.old (last_of rvg.old.core)) (way_from site link.old.site rvg.old.core.log.header.state.line) (N.flying flight.old) (N.flying flight.new)) }
    ensures rule { OnOk result (link.new ≡ pumped_at link.old (last_of rvg.old.core)) }
    ensures link { OnErr result (link.new ≡ link.old) }
    ensures unsent { OnErr result (N.flying flight.new ≡ N.flying flight.old) }
    ensures cause { IfErr result (ReadCause rvg.old.core (S.meaning rvg.old.shelf) (S.meaning rvg.new.shelf)) }
    ensures asks { OnErr result (pump_asks link.old (last_of rvg.old.core) ≢ SendsNothing) }
    ensures blames { IfErr result (BlamesStop (S.meaning rvg.old.shelf).disks rvg.old.core.log.unit) }
    ensures core { rvg.new.core ≡ rvg.old.core }
    ensures goes { Goes Nothing (S.meaning rvg.old.shelf) (S.meaning rvg.new.shelf) }
    ensures down { (S.meaning rvg.new.shelf).down ≡ (S.meaning rvg.old.shelf).down }
    ensures disks { OnDisks (S.meaning rvg.old.shelf).disks (S.meaning rvg.new.shelf).disks Untouched }
    ensures spends { Spends (S.meaning rvg.old.shelf) (S.meaning rvg.new.shelf) }
{
    let facts = SFacts {
        safe: rvg.head(),
        line_ok: true,
    };
    let envelope = Envelope {
        source: site,
        target: link.site,
        line: rvg.state().line,
    };
    let mut next = *link;
    match vx_sender::step(&mut next, &SEvent::Pump, &facts) {
        Action::Nothing | Action::Ignored | Action::Taken => {
            *link = next;
            Ok(())
        }
        Action::Updates { from, to } => {
            send_range(alloc, rvg, &envelope, from, to, flight)?;
            *link = next;
            Ok(())
        }
    }
}

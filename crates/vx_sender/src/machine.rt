// What the events of a link make of it.
ghost use Rattle.std.specs.Prelude.{◌≡◌};
ghost use Rattle.vx_history.specs.Sending.{sent_step, pumped, ticked, restarted, mode_restarted};

use crate::messages::{goes_by_log, hear_data_ack, hear_hello, hear_net_ack};
use crate::{Action, SEvent, SFacts};
use vx_history::is_live;
use vx_model::limits::MOST_AHEAD;
use vx_model::{Link, Mode};

/// What the event makes of the link, and what is then to be done.
///
/// `Pump` on a live link that goes by the log answers the numbers of the updates that are to be sent: from one above the greater
/// of `sent` and `stored`, to the lesser of the durable writes and `net + MOST_AHEAD`. A message that is not of the site's line is ignored.
/// So is a hello of an earlier session, and an acknowledgement of another session or with nothing new.
pub fn step(link: &mut Link, event: &SEvent, facts: &SFacts) -> Action
    ensures action { result ≡ (sent_step link.old event.now facts.now).action }
    ensures link { link.new ≡ (sent_step link.old event.now facts.now).link }
{
    match event {
        SEvent::Pump => pump(link, facts.safe),
        SEvent::Tick => tick(link),
        SEvent::Hello {
            session,
            number,
            stored,
        } => hear_hello(link, facts, *session, *number, *stored),
        SEvent::NetAck { session, number } => hear_net_ack(link, facts, *session, *number),
        SEvent::DataAck { number } => hear_data_ack(link, facts, *number),
        SEvent::Connect => connect(link, true),
        SEvent::Cut => connect(link, false),
        SEvent::Pause => pause(link, true),
        SEvent::Resume => pause(link, false),
        SEvent::Restart => restart(link),
    }
}

fn pump(link: &mut Link, safe: u64) -> Action
    ensures action { result ≡ (pumped link.old safe).action }
    ensures link { link.new ≡ (pumped link.old safe).link }
{
    if !is_live(link) || !goes_by_log(&link.mode) {
        return Action::Nothing;
    }
    let low = link.sent.max(link.stored);
    let high = safe.min(link.net.saturating_add(MOST_AHEAD));
    if low < high {
        link.sent = high;
        Action::Updates {
            from: low + 1,
            to: high,
        }
    } else {
        link.sent = low;
        Action::Nothing
    }
}

fn tick(link: &mut Link) -> Action
    ensures action { result ≡ Action.Nothing }
    ensures link { link.new ≡ ticked link.old }
{
    link.sent = link.net;
    link.trimmed = 0;
    Action::Nothing
}

fn connect(link: &mut Link, on: bool) -> Action
    ensures action { result ≡ Action.Nothing }
    ensures link { link.new ≡ record link.old { connected = on } }
{
    link.connected = on;
    Action::Nothing
}

fn pause(link: &mut Link, on: bool) -> Action
    ensures action { result ≡ Action.Nothing }
    ensures link { link.new ≡ record link.old { paused = on } }
{
    link.paused = on;
    Action::Nothing
}

fn restart(link: &mut Link) -> Action
    ensures action { result ≡ Action.Nothing }
    ensures link { link.new ≡ restarted link.old }
{
    link.connected = false;
    link.paused = false;
    link.session = 0;
    link.net = link.stored;
    link.sent = link.stored;
    link.trimmed = 0;
    link.mode = restart_mode(&link.mode);
    Action::Nothing
}

fn restart_mode(mode: &Mode) -> Mode
    ensures { result ≡ mode_restarted mode.now }
{
    match mode {
        Mode::Replay { .. } => Mode::Dcm,
        Mode::Fork { .. } => Mode::Fork { maps: 0 },
        _ => *mode,
    }
}

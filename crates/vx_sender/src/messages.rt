// What the messages of a receiver make of the link to it.
ghost use Rattle.std.specs.Prelude.{◌≡◌, max, ◌≤◌};
ghost use Rattle.vx_history.specs.Sending.{by_log, if_on_line, greeted, greeted_by_log, greeted_apart, mode_overtaken, memory_acknowledged, disk_acknowledged};

use crate::{Action, SFacts};
use vx_model::{Link, Mode, Phase};

/// A hello: the receiver's session, how many records it has received, and how many of them a crash keeps.
pub fn hear_hello(link: &mut Link, facts: &SFacts, session: u64, number: u64, stored: u64) -> Action
    ensures action { result ≡ (if_on_line facts.now link.old (greeted link.old session number stored)).action }
    ensures link { link.new ≡ (if_on_line facts.now link.old (greeted link.old session number stored)).link }
{
    if !facts.line_ok || session < link.session {
        return Action::Ignored;
    }
    if goes_by_log(&link.mode) {
        greet_by_log(link, session, number, stored);
    } else {
        greet_apart(link, session, number);
    }
    Action::Taken
}

fn greet_by_log(link: &mut Link, session: u64, number: u64, stored: u64)
    requires { link.old.session ≤ session }
    ensures { link.new ≡ greeted_by_log link.old session number stored }
{
    link.stored = link.stored.max(stored);
    if link.session < session {
        link.session = session;
        link.net = number.max(link.stored);
        link.sent = link.net;
    } else {
        link.net = link.net.max(number);
    }
}

fn greet_apart(link: &mut Link, session: u64, number: u64)
    ensures { link.new ≡ greeted_apart link.old session number }
{
    link.mode = overtake(&link.mode, number);
    if link.session < session {
        link.session = session;
        link.net = link.stored;
    }
}

// A replay that copied nothing yet falls back to its map, where its receiver came past its start by another way.
fn overtake(mode: &Mode, number: u64) -> Mode
    ensures { result ≡ mode_overtaken mode.now number }
{
    match mode {
        Mode::Replay {
            phase: Phase::Start,
            start,
            ..
        } if *start < number => Mode::Dcm,
        _ => *mode,
    }
}

/// The receiver has this number in memory.
pub fn hear_net_ack(link: &mut Link, facts: &SFacts, session: u64, number: u64) -> Action
    ensures action { result ≡ (if_on_line facts.now link.old (memory_acknowledged link.old session number)).action }
    ensures link { link.new ≡ (if_on_line facts.now link.old (memory_acknowledged link.old session number)).link }
{
    let is_ours = facts.line_ok && goes_by_log(&link.mode);
    if !is_ours || session != link.session || number <= link.net {
        return Action::Ignored;
    }
    link.net = number;
    Action::Taken
}

/// The receiver has this number on disk.
pub fn hear_data_ack(link: &mut Link, facts: &SFacts, number: u64) -> Action
    ensures action { result ≡ (if_on_line facts.now link.old (disk_acknowledged link.old number)).action }
    ensures link { link.new ≡ (if_on_line facts.now link.old (disk_acknowledged link.old number)).link }
{
    let is_ours = facts.line_ok && goes_by_log(&link.mode);
    if !is_ours || number <= link.stored {
        return Action::Ignored;
    }
    link.stored = number;
    link.net = link.net.max(number);
    Action::Taken
}

/// Whether the writes of a link in this mode go by the log.
pub fn goes_by_log(mode: &Mode) -> bool
    ensures { result ≡ by_log mode.now }
{
    match mode {
        Mode::Log => true,
        Mode::Replay { phase, .. } => *phase == Phase::Log,
        _ => false,
    }
}

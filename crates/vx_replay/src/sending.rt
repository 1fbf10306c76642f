// What the events of a replay make of the link at its sending end.
ghost use Rattle.std.specs.Prelude.{◌≡◌};
ghost use Rattle.vx_replay.specs.Primary.{acked, begun, can_begin as can_begin_is, copying as copying_is, done_heard, ends_at as ends_at_is, filling, mode_fallen, mode_read, mode_sends, phase_copies, phase_ends, primary_step, region_heard, start_heard, stored_up_to};
ghost use Rattle.vx_history.specs.Sending.{phase_overtaken};

use crate::{PAction, PEvent};
use vx_model::{Link, Mode, Phase};

/// What the event makes of the link, and what is then to be done.
///
/// A replay begins from a change map or from a stale link, with the site's last number as its start. It copies the regions of the map
/// until none is left, then it says so, and then the link goes by the log from its start on. It is finished where its receiver has
/// stored up to its end, the site's last number as the last region was read. An answer of another replay or phase is ignored.
pub fn primary(link: &mut Link, event: &PEvent) -> PAction
    ensures action { result ≡ (primary_step link.old event.now).action }
    ensures link { link.new ≡ (primary_step link.old event.now).link }
{
    match event {
        PEvent::Begin { id, head, regions } => begin(link, *id, *head, *regions),
        PEvent::Ack { id, kind, marked } => hear_ack(link, *id, *kind, *marked),
        PEvent::Read { head } => {
            link.mode = read_mode(&link.mode, *head);
            PAction::Nothing
        }
        PEvent::Stored { number } => hear_stored(link, *number),
        PEvent::Pump => sends(&link.mode),
        PEvent::Restart => {
            link.mode = fall_back(&link.mode);
            PAction::Nothing
        }
    }
}

fn begin(link: &mut Link, id: u64, head: u64, regions: u32) -> PAction
    ensures action { result ≡ (begun link.old id head regions).action }
    ensures link { link.new ≡ (begun link.old id head regions).link }
{
    if !can_begin(&link.mode) {
        return PAction::Nothing;
    }
    link.mode = Mode::Replay {
        id,
        phase: Phase::Start,
        left: regions,
        start: head,
        end: head,
    };
    PAction::SendStart
}

fn can_begin(mode: &Mode) -> bool
    ensures { result ≡ can_begin_is mode.now }
{
    match mode {
        Mode::Dcm | Mode::Stale => true,
        Mode::Log | Mode::Replay { .. } | Mode::Fork { .. } => false,
    }
}

fn hear_ack(link: &mut Link, id: u64, kind: u8, marked: bool) -> PAction
    ensures action { result ≡ (acked link.old id kind marked).action }
    ensures link { link.new ≡ (acked link.old id kind marked).link }
{
    if kind == 0 {
        return hear_start(link, id);
    }
    if kind == 1 {
        return hear_region(link, id, marked);
    }
    if kind == 2 {
        return hear_done(link, id);
    }
    PAction::Ignored
}

fn hear_start(link: &mut Link, id: u64) -> PAction
    ensures action { result ≡ (start_heard link.old id link.old.mode).action }
    ensures link { link.new ≡ (start_heard link.old id link.old.mode).link }
{
    match link.mode {
        Mode::Replay {
            id: of,
            phase,
            left,
            start,
            end,
        } => {
            if id == of && is_start(&phase) {
                link.mode = copying(of, left, start, end);
                return PAction::Nothing;
            }
            PAction::Ignored
        }
        _ => PAction::Ignored,
    }
}

fn hear_region(link: &mut Link, id: u64, marked: bool) -> PAction
    ensures action { result ≡ (region_heard link.old id marked link.old.mode).action }
    ensures link { link.new ≡ (region_heard link.old id marked link.old.mode).link }
{
    match link.mode {
        Mode::Replay {
            id: of,
            phase,
            left,
            start,
            end,
        } => {
            if id == of && is_copying(&phase) && marked {
                link.mode = copying(of, left.saturating_sub(1), start, end);
                return PAction::Nothing;
            }
            PAction::Ignored
        }
        _ => PAction::Ignored,
    }
}

fn hear_done(link: &mut Link, id: u64) -> PAction
    ensures action { result ≡ (done_heard link.old id link.old.mode).action }
    ensures link { link.new ≡ (done_heard link.old id link.old.mode).link }
{
    match link.mode {
        Mode::Replay {
            id: of,
            phase,
            left,
            start,
            end,
        } => {
            if id == of && is_done(&phase) {
                return fill(link, of, left, start, end);
            }
            PAction::Ignored
        }
        _ => PAction::Ignored,
    }
}

fn is_start(phase: &Phase) -> bool
    ensures { result ≡ phase_overtaken phase.now }
{
    match phase {
        Phase::Start => true,
        Phase::Regions | Phase::Done | Phase::Log => false,
    }
}

fn is_copying(phase: &Phase) -> bool
    ensures { result ≡ phase_copies phase.now }
{
    match phase {
        Phase::Regions => true,
        Phase::Start | Phase::Done | Phase::Log => false,
    }
}

fn is_done(phase: &Phase) -> bool
    ensures { result ≡ phase_ends phase.now }
{
    match phase {
        Phase::Done => true,
        Phase::Start | Phase::Regions | Phase::Log => false,
    }
}

// The phase in which regions are copied, or the next one where none is left.
fn copying(id: u64, left: u32, start: u64, end: u64) -> Mode
    ensures { result ≡ copying_is id left start end }
{
    let phase = if left == 0 {
        Phase::Done
    } else {
        Phase::Regions
    };
    Mode::Replay {
        id,
        phase,
        left,
        start,
        end,
    }
}

// The receiver stands at the start of the replay, and goes on by the log.
fn fill(link: &mut Link, id: u64, left: u32, start: u64, end: u64) -> PAction
    ensures action { result ≡ (filling link.old id left start end).action }
    ensures link { link.new ≡ (filling link.old id left start end).link }
{
    link.net = start;
    link.stored = start;
    link.sent = start;
    if end <= start {
        link.mode = Mode::Log;
        return PAction::Finished;
    }
    link.mode = Mode::Replay {
        id,
        phase: Phase::Log,
        left,
        start,
        end,
    };
    PAction::Nothing
}

fn read_mode(mode: &Mode, head: u64) -> Mode
    ensures { result ≡ mode_read head mode.now }
{
    match mode {
        Mode::Replay {
            id,
            phase,
            left,
            start,
            end,
        } => Mode::Replay {
            id: *id,
            phase: *phase,
            left: *left,
            start: *start,
            end: if is_copying(phase) { head } else { *end },
        },
        _ => *mode,
    }
}

fn hear_stored(link: &mut Link, number: u64) -> PAction
    ensures action { result ≡ (stored_up_to link.old number).action }
    ensures link { link.new ≡ (stored_up_to link.old number).link }
{
    if !ends_at(&link.mode, number) {
        return PAction::Nothing;
    }
    link.mode = Mode::Log;
    PAction::Finished
}

fn ends_at(mode: &Mode, number: u64) -> bool
    ensures { result ≡ ends_at_is number mode.now }
{
    match mode {
        Mode::Replay { phase, end, .. } => *phase == Phase::Log && *end <= number,
        _ => false,
    }
}

fn sends(mode: &Mode) -> PAction
    ensures { result ≡ mode_sends mode.now }
{
    match mode {
        Mode::Replay { phase, .. } => match phase {
            Phase::Start => PAction::SendStart,
            Phase::Done => PAction::SendDone,
            Phase::Regions | Phase::Log => PAction::Nothing,
        },
        _ => PAction::Nothing,
    }
}

fn fall_back(mode: &Mode) -> Mode
    ensures { result ≡ mode_fallen mode.now }
{
    match mode {
        Mode::Replay { .. } => Mode::Dcm,
        _ => *mode,
    }
}

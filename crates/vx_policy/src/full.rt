// What a link needs of the log, and what becomes of a write or of the link where too little room is left.
ghost use Rattle.std.specs.Prelude.{◌≡◌};
ghost use Rattle.vx_history.specs.Admission.{is_down as down, hold, mode_hold, is_holding, blocks, full_log, full_log_of, change, change_by, held_by_room, held_when_full};
ghost use Rattle.vx_policy.specs.Verdicts.{refusal_if};

use vx_history::{Change, FullLog, is_held, is_live};
use vx_model::{Link, Mode, No, Phase, Prot, SiteName, SyncMode};

/// The number up to which a link has no need of the log: what its site has stored, or where a replay has not come to its
/// phase Log, the number at which it began.
pub fn hold_of(link: &Link) -> u64
    ensures { result ≡ hold link.now }
{
    match link.mode {
        Mode::Replay {
            phase: Phase::Start | Phase::Regions | Phase::Done,
            start,
            ..
        } => start,
        _ => link.stored,
    }
}

/// Whether a write can't be confirmed as the link asks.
pub fn is_down(link: &Link) -> bool
    ensures { result ≡ down link.now }
{
    link.attached && link.sync == SyncMode::Fail && !(is_live(link) && link.mode == Mode::Log)
}

/// The refusal of a write by a link that leaves too little room.
pub fn refuse_full(link: &Link, used: u64, need: u64, room: u64) -> Option<No>
    ensures { result ≡ refusal_if (held_by_room need room link.now used) }
{
    if !is_blocking(link, used, need, room) {
        return None;
    }
    let site = SiteName::Number(link.site);
    match find_full_log(link) {
        FullLog::Stalls => Some(No::Stalled { link: site }),
        FullLog::Fails => Some(No::LogFull { link: site }),
        FullLog::TurnsStale | FullLog::TurnsDcm => None,
    }
}

/// What becomes of the link where the write is let in.
pub fn find_change(link: &Link, used: u64, need: u64, room: u64) -> Change
    ensures { result ≡ change need room link.now used }
{
    if !is_blocking(link, used, need, room) {
        return Change::Stays;
    }
    match find_full_log(link) {
        FullLog::TurnsDcm if !link.bunker => Change::ToDcm,
        FullLog::TurnsDcm | FullLog::TurnsStale => Change::ToStale,
        FullLog::Stalls | FullLog::Fails => Change::Stays,
    }
}

fn is_blocking(link: &Link, used: u64, need: u64, room: u64) -> bool
    ensures { result ≡ blocks need room link.now used }
{
    let is_holding = link.attached && is_held(&link.mode);
    is_holding && (used > room || need > room - used)
}

fn find_full_log(link: &Link) -> FullLog
    ensures { result ≡ full_log_of link.now }
{
    match (link.prot, is_live(link)) {
        (Prot::Off, _) | (Prot::Override, false) => FullLog::TurnsStale,
        (Prot::Override, true) | (Prot::Fail, true) | (Prot::Dcm, true) => FullLog::Stalls,
        (Prot::Fail, false) => FullLog::Fails,
        (Prot::Dcm, false) | (Prot::Autodcm, _) => FullLog::TurnsDcm,
    }
}

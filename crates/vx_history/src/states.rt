// What the rules ask of the role of a site, and of the state of a link and of a receiver.
ghost use Rattle.std.specs.Prelude.{◌≡◌};
ghost use Rattle.vx_history.specs.Admission.{is_live_link, mode_holds};
ghost use Rattle.vx_history.specs.Receiving.{is_log_phase, phase_takes};
ghost use Rattle.vx_history.specs.Refusals.{keeps_links, waits};

use vx_model::{Link, Mode, Role, SPhase, SyncMode};

/// Whether links start at a site of this role.
pub fn has_links(role: &Role) -> bool
    ensures { result ≡ keeps_links role.now }
{
    match role {
        Role::Primary | Role::Handing { .. } | Role::Bunker => true,
        Role::Secondary => false,
    }
}

/// Whether a link is attached and connected, and not paused.
pub fn is_live(link: &Link) -> bool
    ensures { result ≡ is_live_link link.now }
{
    link.attached && link.connected && !link.paused
}

/// Whether a write waits for the site of a link that is set so.
pub fn is_waited_for(sync: SyncMode) -> bool
    ensures { result ≡ waits sync }
{
    match sync {
        SyncMode::Off => false,
        SyncMode::Override | SyncMode::Fail => true,
    }
}

/// Whether a link in this mode needs the log.
pub fn is_held(mode: &Mode) -> bool
    ensures { result ≡ mode_holds mode.now }
{
    match mode {
        Mode::Log | Mode::Replay { .. } => true,
        Mode::Dcm | Mode::Fork { .. } | Mode::Stale => false,
    }
}

/// Whether a receiver in this phase takes updates.
pub fn takes_updates(phase: &SPhase) -> bool
    ensures { result ≡ phase_takes phase.now }
{
    match phase {
        SPhase::Quiet | SPhase::Log => true,
        SPhase::Regions | SPhase::ForkKept => false,
    }
}

/// Whether a receiver is in the phase Log of a replay.
pub fn is_in_log(phase: &SPhase) -> bool
    ensures { result ≡ is_log_phase phase.now }
{
    match phase {
        SPhase::Log => true,
        SPhase::Quiet | SPhase::Regions | SPhase::ForkKept => false,
    }
}

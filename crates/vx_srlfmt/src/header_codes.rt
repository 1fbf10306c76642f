// The codes of a header's enums and flags, and what a code is read as.
//
// A code that is none is read as the last of its enum. The block that has it is refused, since no header is spelled so.
ghost use Rattle.std.specs.Prelude.{◌≡◌};
ghost use Rattle.vx_srlfmt.specs.Codes.{role_code as role_code_is, mark_code as mark_code_is, phase_code as phase_code_is, mode_code as mode_code_is, sync_code as sync_code_is, prot_code as prot_code_is, flags_code as flags_code_is, role_of as role_of_is, mark_of as mark_of_is, phase_of as phase_of_is, mode_of as mode_of_is, sync_of as sync_of_is, prot_of as prot_of_is, attached_of as attached_of_is, bunker_of as bunker_of_is};

use vx_model::{KeptMode, Mark, Prot, Role, SPhase, SyncMode};

pub fn role_code(role: Role) -> u8
    ensures { result ≡ role_code_is role }
{
    match role {
        Role::Primary => 0,
        Role::Secondary => 1,
        Role::Handing { to: _ } => 2,
        Role::Bunker => 3,
    }
}

pub fn role_of(code: u8, other: u32) -> Role
    ensures { result ≡ role_of_is code other }
{
    match code {
        0 => Role::Primary,
        1 => Role::Secondary,
        2 => Role::Handing { to: other },
        _ => Role::Bunker,
    }
}

pub fn mark_code(mark: Mark) -> u8
    ensures { result ≡ mark_code_is mark }
{
    match mark {
        Mark::Inconsistent => 0,
        Mark::Consistent => 1,
    }
}

pub fn mark_of(code: u8) -> Mark
    ensures { result ≡ mark_of_is code }
{
    match code {
        0 => Mark::Inconsistent,
        _ => Mark::Consistent,
    }
}

pub fn phase_code(phase: SPhase) -> u8
    ensures { result ≡ phase_code_is phase }
{
    match phase {
        SPhase::Quiet => 0,
        SPhase::Regions => 1,
        SPhase::Log => 2,
        SPhase::ForkKept => 3,
    }
}

pub fn phase_of(code: u8) -> SPhase
    ensures { result ≡ phase_of_is code }
{
    match code {
        0 => SPhase::Quiet,
        1 => SPhase::Regions,
        2 => SPhase::Log,
        _ => SPhase::ForkKept,
    }
}

pub fn mode_code(mode: KeptMode) -> u8
    ensures { result ≡ mode_code_is mode }
{
    match mode {
        KeptMode::Log => 0,
        KeptMode::Dcm => 1,
        KeptMode::Replay => 2,
        KeptMode::Fork => 3,
        KeptMode::Stale => 4,
    }
}

pub fn mode_of(code: u8) -> KeptMode
    ensures { result ≡ mode_of_is code }
{
    match code {
        0 => KeptMode::Log,
        1 => KeptMode::Dcm,
        2 => KeptMode::Replay,
        3 => KeptMode::Fork,
        _ => KeptMode::Stale,
    }
}

pub fn sync_code(sync: SyncMode) -> u8
    ensures { result ≡ sync_code_is sync }
{
    match sync {
        SyncMode::Off => 0,
        SyncMode::Override => 1,
        SyncMode::Fail => 2,
    }
}

pub fn sync_of(code: u8) -> SyncMode
    ensures { result ≡ sync_of_is code }
{
    match code {
        0 => SyncMode::Off,
        1 => SyncMode::Override,
        _ => SyncMode::Fail,
    }
}

pub fn prot_code(prot: Prot) -> u8
    ensures { result ≡ prot_code_is prot }
{
    match prot {
        Prot::Off => 0,
        Prot::Override => 1,
        Prot::Fail => 2,
        Prot::Dcm => 3,
        Prot::Autodcm => 4,
    }
}

pub fn prot_of(code: u8) -> Prot
    ensures { result ≡ prot_of_is code }
{
    match code {
        0 => Prot::Off,
        1 => Prot::Override,
        2 => Prot::Fail,
        3 => Prot::Dcm,
        _ => Prot::Autodcm,
    }
}

pub fn flags_code(attached: bool, bunker: bool) -> u8
    ensures { result ≡ flags_code_is attached bunker }
{
    (if attached { 1 } else { 0 }) + (if bunker { 2 } else { 0 })
}

pub fn attached_of(flags: u8) -> bool
    ensures { result ≡ attached_of_is flags }
{
    flags & 1 == 1
}

pub fn bunker_of(flags: u8) -> bool
    ensures { result ≡ bunker_of_is flags }
{
    flags & 2 == 2
}

// Which sites a line names, and what it needs of them.
ghost use Rattle.std.specs.Prelude.{◌≡◌};
ghost use Rattle.vx_order.specs.Subject.{first_name, second_name, need_of, halt_of};

use vx_model::Name;
use vx_script::ScriptLine;

/// Which sites have to be up.
#[derive(Clone, Copy)]
pub enum Need {
    Nothing,
    FirstUp,
    /// A bare site counts as up.
    FirstUpOrBare,
    BothUp,
    /// The first is up, the second up or bare.
    SecondUpOrBare,
}

/// Which sites must not be halted.
#[derive(Clone, Copy)]
pub enum Halt {
    Neither,
    First,
    Both,
}

/// The site that a line names first, but for the one that it makes.
#[tactic(auto, unfolding(crate::specs::Subject::first_name))]
pub fn find_first(line: &ScriptLine) -> Option<Name>
    ensures { result ≡ first_name line.now }
{
    match line {
        ScriptLine::Site { .. }
        | ScriptLine::Deliver { .. }
        | ScriptLine::CallWrite { .. }
        | ScriptLine::CallRead { .. }
        | ScriptLine::End => None,
        ScriptLine::Raw { site }
        | ScriptLine::Disk { site, .. }
        | ScriptLine::Crash { site, .. }
        | ScriptLine::Fuse { site, .. }
        | ScriptLine::Recover { site }
        | ScriptLine::GroupInit { site }
        | ScriptLine::GroupDeport { site }
        | ScriptLine::GroupImport { site }
        | ScriptLine::Volume { site, .. }
        | ScriptLine::PlexDetach { site, .. }
        | ScriptLine::PlexAttach { site, .. }
        | ScriptLine::Rvg { site, .. }
        | ScriptLine::Write { site, .. }
        | ScriptLine::Put { site, .. }
        | ScriptLine::Read { site, .. }
        | ScriptLine::Show { site, .. }
        | ScriptLine::Apply { site, .. }
        | ScriptLine::Wait { site, .. }
        | ScriptLine::Takeover { site }
        | ScriptLine::Burst { site, .. }
        | ScriptLine::Status { site } => Some(*site),
        ScriptLine::Link { primary, .. }
        | ScriptLine::Set { primary, .. }
        | ScriptLine::Attach { primary, .. }
        | ScriptLine::Detach { primary, .. }
        | ScriptLine::Pause { primary, .. }
        | ScriptLine::Resume { primary, .. }
        | ScriptLine::Connect { primary, .. }
        | ScriptLine::Cut { primary, .. }
        | ScriptLine::Pump { primary, .. }
        | ScriptLine::Tick { primary, .. }
        | ScriptLine::Settle { primary, .. }
        | ScriptLine::Resync { primary, .. }
        | ScriptLine::Migrate { primary, .. }
        | ScriptLine::Bunker { primary, .. } => Some(*primary),
        ScriptLine::Failback { new, .. } => Some(*new),
        ScriptLine::Activate { bunker, .. } => Some(*bunker),
    }
}

/// The site that a line names second.
#[tactic(auto, unfolding(crate::specs::Subject::second_name))]
pub fn find_second(line: &ScriptLine) -> Option<Name>
    ensures { result ≡ second_name line.now }
{
    match line {
        ScriptLine::Link { secondary, .. }
        | ScriptLine::Set { secondary, .. }
        | ScriptLine::Attach { secondary, .. }
        | ScriptLine::Detach { secondary, .. }
        | ScriptLine::Pause { secondary, .. }
        | ScriptLine::Resume { secondary, .. }
        | ScriptLine::Connect { secondary, .. }
        | ScriptLine::Cut { secondary, .. }
        | ScriptLine::Pump { secondary, .. }
        | ScriptLine::Tick { secondary, .. }
        | ScriptLine::Settle { secondary, .. }
        | ScriptLine::Resync { secondary, .. }
        | ScriptLine::Migrate { secondary, .. }
        | ScriptLine::Activate { secondary, .. } => Some(*secondary),
        ScriptLine::Failback { old, .. } => Some(*old),
        ScriptLine::Bunker { bunker, .. } => Some(*bunker),
        _ => None,
    }
}

/// Which sites of the line have to be up.
#[tactic(auto, unfolding(crate::specs::Subject::need_of))]
pub fn find_need(line: &ScriptLine) -> Need
    ensures { result ≡ need_of line.now }
{
    match line {
        ScriptLine::Site { .. }
        | ScriptLine::Raw { .. }
        | ScriptLine::Disk { .. }
        | ScriptLine::Recover { .. }
        | ScriptLine::GroupInit { .. }
        | ScriptLine::GroupImport { .. }
        | ScriptLine::Deliver { .. }
        | ScriptLine::Status { .. }
        | ScriptLine::CallWrite { .. }
        | ScriptLine::CallRead { .. }
        | ScriptLine::End => Need::Nothing,
        ScriptLine::Write { .. }
        | ScriptLine::Put { .. }
        | ScriptLine::Read { .. }
        | ScriptLine::Show { .. } => Need::FirstUpOrBare,
        ScriptLine::Link { .. }
        | ScriptLine::Activate { .. }
        | ScriptLine::Resync { .. }
        | ScriptLine::Settle { .. } => Need::BothUp,
        ScriptLine::Bunker { .. } => Need::SecondUpOrBare,
        _ => Need::FirstUp,
    }
}

/// Which sites of the line must not be halted.
#[tactic(auto, unfolding(crate::specs::Subject::halt_of))]
pub fn find_halt(line: &ScriptLine) -> Halt
    ensures { result ≡ halt_of line.now }
{
    match line {
        ScriptLine::Site { .. }
        | ScriptLine::Raw { .. }
        | ScriptLine::Disk { .. }
        | ScriptLine::Crash { .. }
        | ScriptLine::Fuse { .. }
        | ScriptLine::Recover { .. }
        | ScriptLine::GroupInit { .. }
        | ScriptLine::GroupImport { .. }
        | ScriptLine::Volume { .. }
        | ScriptLine::PlexDetach { .. }
        | ScriptLine::PlexAttach { .. }
        | ScriptLine::Rvg { .. }
        | ScriptLine::Deliver { .. }
        | ScriptLine::Status { .. }
        | ScriptLine::CallWrite { .. }
        | ScriptLine::CallRead { .. }
        | ScriptLine::End => Halt::Neither,
        ScriptLine::Link { .. }
        | ScriptLine::Settle { .. }
        | ScriptLine::Resync { .. }
        | ScriptLine::Activate { .. } => Halt::Both,
        _ => Halt::First,
    }
}

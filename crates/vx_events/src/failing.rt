// Whether the calls on a disk are to fail.
ghost use Rattle.std.specs.Prelude.{◌≡◌};
ghost use Rattle.vx_events.specs.Failing.{is_failing as is_failing_is};

use vx_script::DiskState as DiskWord;

/// Whether the calls on the disk are to fail.
pub fn is_failing(state: DiskWord) -> bool
    ensures { result ≡ is_failing_is state }
{
    matches!(state, DiskWord::Fail)
}

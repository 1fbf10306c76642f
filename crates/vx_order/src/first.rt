// The first test that holds.
ghost use Rattle.std.specs.Prelude.{◌≡◌};
ghost use Rattle.vx_order.specs.Tests as order;

use vx_model::No;

/// The first of these refusals that is there.
#[tactic(auto, unfolding(crate::specs::Tests::first_said_no))]
pub fn first_of(tests: &[Option<No>]) -> Option<No>
    ensures { result ≡ order.first_said_no tests.now }
{
    for test in tests {
        if test.is_some() {
            return *test;
        }
    }
    None
}

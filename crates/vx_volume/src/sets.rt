// Sets of plexes as bits.
ghost use Rattle.std.specs.Prelude.{◌≡◌};
ghost use Rattle.vx_volume.specs.Sets.{bits};

use vx_model::limits::MOST_PLEXES;

/// The set of the plexes that failed, with bit P for plex P, and the disk of the last device call that did.
#[derive(Clone, Copy, Debug, PartialEq, Eq)]
pub struct Failed {
    pub set: u8,
    pub disk: u32,
}

/// The set of those that are told, with bit P for plex P.
pub fn set_of(told: &[bool; MOST_PLEXES]) -> u8
    ensures { result ≡ bits told.now }
{
    let mut set = 0;
    for k in 0..MOST_PLEXES {
        set = 2 * set + u8::from(told[MOST_PLEXES - 1 - k]);
    }
    set
}

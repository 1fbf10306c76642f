// Of which volumes disks tell what a clean stop left.
ghost use Rattle.std.specs.Prelude.{◌≡◌, ◌<◌, ℕ, false, true};
ghost use Rattle.vx_logimport.specs.Rests.{RestsNone, rests};
ghost use Rattle.vx_model.specs.declared.limits.TheConstants.{MOST_VOLUMES};

use vx_model::limits::MOST_VOLUMES;

/// Of which volumes the disks of a group tell what a clean stop left.
#[derive(Clone, Copy)]
pub struct Rested {
    /// Of each volume whether its plexes are alike, where it stopped cleanly.
    pub alike: [bool; MOST_VOLUMES],
    /// Of each volume whether its log of missed regions knows what its plexes miss, where it stopped cleanly.
    pub maps: [bool; MOST_VOLUMES],
    /// Of each volume whether a crash leaves one value of each block of its dirty region log, so that it may be read.
    pub drls: [bool; MOST_VOLUMES],
}

impl Rested {
    /// Of none: behind a crash. Each dirty region log may be read.
    pub fn none() -> Rested
        ensures none { RestsNone result }
        ensures drls { (v : ℕ) → v < MOST_VOLUMES → rests result.drls v ≡ true }
    {
        Rested {
            alike: [false; MOST_VOLUMES],
            maps: [false; MOST_VOLUMES],
            drls: [true; MOST_VOLUMES],
        }
    }

    /// Of disks that were found, of which nothing is told: the plexes of each are alike, and no log of missed regions is taken up; each dirty region log may be read.
    pub fn found() -> Rested
        ensures alike { (v : ℕ) → v < MOST_VOLUMES → rests result.alike v ≡ true }
        ensures drls { (v : ℕ) → v < MOST_VOLUMES → rests result.drls v ≡ true }
    {
        Rested {
            alike: [true; MOST_VOLUMES],
            maps: [false; MOST_VOLUMES],
            drls: [true; MOST_VOLUMES],
        }
    }

    /// Of each.
    pub fn all() -> Rested
        ensures alike { (v : ℕ) → v < MOST_VOLUMES → rests result.alike v ≡ true }
        ensures maps { (v : ℕ) → v < MOST_VOLUMES → rests result.maps v ≡ true }
        ensures drls { (v : ℕ) → v < MOST_VOLUMES → rests result.drls v ≡ true }
    {
        Rested {
            alike: [true; MOST_VOLUMES],
            maps: [true; MOST_VOLUMES],
            drls: [true; MOST_VOLUMES],
        }
    }

    /// The same behind a crash: what a plex has is then what it kept, so no log of missed regions knows what it misses.
    pub fn crashed(&self) -> Rested
        ensures alike { result.alike ≡ self.now.alike }
        ensures maps { (v : ℕ) → rests result.maps v ≡ false }
        ensures drls { result.drls ≡ self.now.drls }
    {
        Rested {
            alike: self.alike,
            maps: [false; MOST_VOLUMES],
            drls: self.drls,
        }
    }
}

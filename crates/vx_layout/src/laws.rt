//! What is promised of places and of space.
ghost use Rattle.std.specs.Prelude.{◌≡◌, IsTrue};
ghost use Rattle.vx_config.specs.Checks.{is_sound};
ghost use Rattle.vx_config.specs.declared.config.Config.{Config as ConfigValue};
ghost use Rattle.vx_layout.specs.Made.{StaysSound};
ghost use Rattle.vx_layout.specs.Places.{AreApart};

/// Two blocks of plexes have two places, be they of one plex, of two plexes or of two volumes, and each lies in the public
/// region of a disk.
pub fn are_apart()
    ensures { (c : ConfigValue) → IsTrue (is_sound c) → AreApart c }
{}

/// A volume that is put into the space which was found, under a name that no other has, keeps a checked configuration so.
pub fn stays_sound()
    ensures { StaysSound }
{}

// The fields of a configuration, one after the other.
ghost use Rattle.std.specs.Prelude.{◌≡◌, ◌≤◌, ◌<◌, ◌^◌, length, drop, take};
ghost use Rattle.vx_config.specs.Forms.{Gives, number, within, flag, name};
ghost use Rattle.vx_config.specs.Table.{state};

use crate::Wrong;
use vx_model::limits::MOST_NAME_BYTES;
use vx_model::{Name, PlexState};
use vx_wire::{get_u8, get_u32, get_u64};

/// What is left of the bytes.
#[derive(Drop)]
pub struct Cursor<'a> {
    pub left: &'a [u8],
}

impl<'a> Cursor<'a> {
    /// A number of one byte.
    pub fn u8(&mut self) -> Result<u8, Wrong>
        ensures { Gives result self.new.left.now ((number 1).read self.old.left.now) }
    {
        if self.left.is_empty() {
            return Err(Wrong::Left(self.left.len()));
        }
        let number = get_u8(self.left, 0);
        self.left = &self.left[1..];
        Ok(number)
    }

    /// A number of 4 bytes.
    pub fn u32(&mut self) -> Result<u32, Wrong>
        ensures { Gives result self.new.left.now ((number 4).read self.old.left.now) }
    {
        if self.left.len() < 4 {
            return Err(Wrong::Left(self.left.len()));
        }
        let number = get_u32(self.left, 0);
        self.left = &self.left[4..];
        Ok(number)
    }

    /// A number of 8 bytes.
    pub fn u64(&mut self) -> Result<u64, Wrong>
        ensures { Gives result self.new.left.now ((number 8).read self.old.left.now) }
    {
        if self.left.len() < 8 {
            return Err(Wrong::Left(self.left.len()));
        }
        let number = get_u64(self.left, 0);
        self.left = &self.left[8..];
        Ok(number)
    }

    /// A number of one byte, from `least` to `most`.
    pub fn count(&mut self, least: u8, most: u8) -> Result<u8, Wrong>
        ensures { Gives result self.new.left.now ((within 1 least most).read self.old.left.now) }
    {
        let left = self.left.len();
        let number = self.u8()?;
        if number < least || number > most {
            return Err(Wrong::Left(left));
        }
        Ok(number)
    }

    /// A number of 8 bytes, up to `most`.
    pub fn up_to(&mut self, most: u64) -> Result<u64, Wrong>
        ensures { Gives result self.new.left.now ((within 8 0 most).read self.old.left.now) }
    {
        let left = self.left.len();
        let number = self.u64()?;
        if number > most {
            return Err(Wrong::Left(left));
        }
        Ok(number)
    }

    /// A flag.
    #[tactic(auto, unfolding(crate::specs::Forms::flag))]
    pub fn flag(&mut self) -> Result<bool, Wrong>
        ensures { Gives result self.new.left.now (flag.read self.old.left.now) }
    {
        let left = self.left.len();
        match self.u8()? {
            0 => Ok(false),
            1 => Ok(true),
            _ => Err(Wrong::Left(left)),
        }
    }

    /// The state of a plex.
    #[tactic(auto, unfolding(crate::specs::Table::state))]
    pub fn state(&mut self) -> Result<PlexState, Wrong>
        ensures { Gives result self.new.left.now (state.read self.old.left.now) }
    {
        let left = self.left.len();
        match self.u8()? {
            0 => Ok(PlexState::Active),
            1 => Ok(PlexState::Clean),
            2 => Ok(PlexState::Stale),
            _ => Err(Wrong::Left(left)),
        }
    }

    /// A name.
    #[tactic(auto, unfolding(crate::specs::Forms::name))]
    pub fn name(&mut self) -> Result<Name, Wrong>
        ensures { Gives result self.new.left.now (name.read self.old.left.now) }
    {
        match self.left {
            [] => Err(Wrong::Left(0)),
            [len, rest @ ..] => {
                let len = *len as usize;
                if len == 0 || len > MOST_NAME_BYTES || rest.len() < len {
                    return Err(Wrong::Left(self.left.len()));
                }
                let (text, after) = rest.split_at(len);
                self.left = after;
                Ok(Name::new(text))
            }
        }
    }
}

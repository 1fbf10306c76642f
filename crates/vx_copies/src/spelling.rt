// The body of a copy.
ghost use Rattle.std.specs.Prelude.{◌≡◌, ◌%◌, ◌≤◌, length, take};
ghost use Rattle.vx_config.specs.Configs.{CanSpell, HasSpelling, spelled_config, subdisk_count};
ghost use Rattle.vx_copyfmt.specs.Areas.{CanSpellArea};
ghost use Rattle.vx_copies.specs.Bodies.{body_bytes, body_for};
ghost use Rattle.vx_wire.specs.Places.{put_at};
ghost use Rattle.vx_wire.specs.Seals.{digest_of};
ghost use Rattle.vx_model.specs.declared.limits.TheConstants.{MOST_SUBDISKS};

use vx_config::{Config, encode_into, is_short};
use vx_copyfmt::AreaHeader;
use vx_model::limits::{BLOCK, MOST_CONFIG_BYTES};
use vx_wire::{digest, put_zeros};

/// Spells a configuration at the front of a room, with zeros up to the end of its last block. Gives the header of a copy of it, and
/// the bytes of its blocks. It takes no memory.
pub fn spell(config: &Config, room: &mut [u8]) -> (AreaHeader, usize)
    requires can { CanSpell config.now }
    requires short { subdisk_count config.now ≤ MOST_SUBDISKS }
    requires room { body_bytes config.now ≤ length room.old }
    ensures can { CanSpellArea result.0 }
    ensures serial { result.0.serial ≡ config.now.serial }
    ensures long { result.0.length ≡ length (spelled_config config.now) }
    ensures digest { result.0.digest ≡ digest_of (spelled_config config.now) }
    ensures text { room.new ≡ put_at 0 (body_for config.now) room.old }
    ensures body { take result.0.length room.new ≡ spelled_config config.now }
    ensures bytes { result.1 ≡ body_bytes config.now }
    ensures inside { result.0.length ≤ result.1 }
    ensures whole { result.1 % BLOCK ≡ 0 }
    ensures few { result.1 ≤ MOST_CONFIG_BYTES }
    ensures kept { length room.new ≡ length room.old }
    ensures has { HasSpelling config.now }
{
    is_short(config);
    let length = encode_into(config, room);
    let filled = BLOCK * length.div_ceil(BLOCK);
    put_zeros(room, length, filled - length);
    let header = AreaHeader {
        serial: config.serial,
        length: length as u32,
        digest: digest(&room[..length]),
    };
    (header, filled)
}

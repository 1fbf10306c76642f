// From configurations to bytes.
ghost use Rattle.std.specs.Prelude.{◌≡◌, ◌<◌, ◌≤◌, length, IfOk, IsOkUnless, Err};
ghost use Rattle.vx_config.specs.Configs.{CanSpell, HasSpelling, IsSpelling, spelled_config, subdisk_count};
ghost use Rattle.vx_model.specs.declared.errors.Stop.TheVariants.{OutOfMemory as MemoryStop, No as Refused};
ghost use Rattle.vx_model.specs.declared.no.No.TheVariants.{Limit};
ghost use Rattle.vx_model.specs.declared.no.Counted.TheVariants.{Subdisks};
ghost use Rattle.vx_wire.specs.Places.{put_at};

use crate::Config;
use crate::fits::config_fits;
use crate::shape::has_few_subdisks;
use crate::spelling::page_of;
use std::alloc::Global;
use vx_model::limits::{MOST_CONFIG_BYTES, MOST_SUBDISKS};
use vx_model::{Bytes, Counted, No, Stop};
use vx_wire::put_bytes;

/// The bytes of a configuration. More than 1,024 subdisks are refused (19).
pub fn encode(alloc: Global, config: &Config) -> Result<Bytes, Stop>
    requires can { CanSpell config.now }
    ensures spelling { IfOk result (λ bytes. IsSpelling bytes config.now) }
    ensures many { MOST_SUBDISKS < subdisk_count config.now → result ≡ Err (Refused (Limit Subdisks MOST_SUBDISKS)) }
    ensures few { subdisk_count config.now ≤ MOST_SUBDISKS → IsOkUnless result MemoryStop }
{
    if !has_few_subdisks(config) {
        return Err(Stop::No(No::Limit {
            what: Counted::Subdisks,
            most: MOST_SUBDISKS as u64,
        }));
    }
    is_short(config);
    config_fits(config);
    let page = page_of(config);
    Ok(Bytes::new(Vec::from_slice(alloc, page.as_slice())?))
}

/// Writes the bytes of a configuration from the front on, and answers how many they are. It takes no memory.
pub fn encode_into(config: &Config, into: &mut [u8]) -> usize
    requires can { CanSpell config.now }
    requires few { subdisk_count config.now ≤ MOST_SUBDISKS }
    requires room { length (spelled_config config.now) ≤ length into.old }
    ensures len { result ≡ length (spelled_config config.now) }
    ensures bytes { into.new ≡ put_at 0 (spelled_config config.now) into.old }
    ensures has { HasSpelling config.now }
{
    is_short(config);
    config_fits(config);
    let page = page_of(config);
    let bytes = page.as_slice();
    put_bytes(into, 0, bytes);
    bytes.len()
}

/// A configuration of up to 1,024 subdisks has at most 65,024 bytes, which is the room of an area.
pub fn is_short(config: &Config)
    requires can { CanSpell config.now }
    requires few { subdisk_count config.now ≤ MOST_SUBDISKS }
    ensures { length (spelled_config config.now) ≤ MOST_CONFIG_BYTES }
{
    config_fits(config);
}

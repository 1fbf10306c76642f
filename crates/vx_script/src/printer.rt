// How a line is printed.
ghost use Rattle.std.specs.Prelude.{◌≡◌, IfOk};
ghost use Rattle.vx_script.specs.Grammar.{spelling};

use crate::ScriptLine;
use crate::printers::*;
use std::alloc::Global;
use vx_model::{Bytes, OutOfMemory};

fn text_of_line(alloc: Global, line: &ScriptLine) -> Result<Vec<u8>, OutOfMemory>
    ensures { IfOk result (λ text. text.items ≡ spelling line.now) }
{
    match line {
        ScriptLine::Site {
            site,
            disks,
            blocks,
        } => print_site_numbers(alloc, b"site", site, *disks, *blocks),
        ScriptLine::Raw { site } => print_one_site(alloc, b"raw", site),
        ScriptLine::Disk { site, disk, state } => print_disk(alloc, site, *disk, *state),
        ScriptLine::Crash { site, pick } => print_site_number(alloc, b"crash", site, *pick),
        ScriptLine::Fuse { site, writes, pick } => print_site_numbers(
            alloc, b"fuse", site, *writes, *pick,
        ),
        ScriptLine::Recover { site } => print_one_site(alloc, b"recover", site),
        ScriptLine::GroupInit { site } => print_site_word(alloc, b"dg", site, b"init"),
        ScriptLine::GroupDeport { site } => print_site_word(alloc, b"dg", site, b"deport"),
        ScriptLine::GroupImport { site } => print_site_word(alloc, b"dg", site, b"import"),
        ScriptLine::Volume {
            site,
            volume,
            blocks,
            mirrors,
            layout,
            log,
            map,
            policy,
        } => print_volume(
            alloc, site, volume, *blocks, *mirrors, *layout, *log, *map, *policy,
        ),
        ScriptLine::PlexDetach { site, volume, plex } => print_plex(
            alloc, site, volume, *plex, b"det",
        ),
        ScriptLine::PlexAttach { site, volume, plex } => print_plex(
            alloc, site, volume, *plex, b"att",
        ),
        ScriptLine::Rvg {
            site,
            srl,
            dcm,
            volumes,
        } => print_rvg(alloc, site, srl, dcm, volumes),
        ScriptLine::Write {
            site,
            volume,
            block,
            count,
            fill,
        } => print_write(alloc, site, volume, *block, *count, *fill),
        ScriptLine::Put {
            site,
            volume,
            block,
            bytes,
        } => print_put(alloc, site, volume, *block, bytes),
        ScriptLine::Read {
            site,
            volume,
            block,
            count,
        } => print_block_run(alloc, b"read", site, volume, *block, *count),
        ScriptLine::Show {
            site,
            volume,
            block,
            count,
        } => print_block_run(alloc, b"show", site, volume, *block, *count),
        ScriptLine::Apply { site, count } => print_site_number(alloc, b"apply", site, *count),
        ScriptLine::Wait { site, number } => print_site_number(alloc, b"wait", site, *number),
        ScriptLine::Link {
            primary,
            secondary,
            sync,
            prot,
        } => print_two_modes(alloc, b"link", primary, secondary, *sync, *prot),
        ScriptLine::Set {
            primary,
            secondary,
            sync,
            prot,
        } => print_two_modes(alloc, b"set", primary, secondary, *sync, *prot),
        ScriptLine::Attach { primary, secondary } => print_two_sites(
            alloc, b"attach", primary, secondary,
        ),
        ScriptLine::Detach { primary, secondary } => print_two_sites(
            alloc, b"detach", primary, secondary,
        ),
        ScriptLine::Pause { primary, secondary } => print_two_sites(
            alloc, b"pause", primary, secondary,
        ),
        ScriptLine::Resume { primary, secondary } => print_two_sites(
            alloc, b"resume", primary, secondary,
        ),
        ScriptLine::Connect { primary, secondary } => print_two_sites(
            alloc, b"connect", primary, secondary,
        ),
        ScriptLine::Cut { primary, secondary } => print_two_sites(
            alloc, b"cut", primary, secondary,
        ),
        ScriptLine::Pump { primary, secondary } => print_two_sites(
            alloc, b"pump", primary, secondary,
        ),
        ScriptLine::Tick { primary, secondary } => print_two_sites(
            alloc, b"tick", primary, secondary,
        ),
        ScriptLine::Deliver { packet } => print_deliver(alloc, *packet),
        ScriptLine::Settle { primary, secondary } => print_two_sites(
            alloc, b"settle", primary, secondary,
        ),
        ScriptLine::Resync { primary, secondary } => print_two_sites(
            alloc, b"resync", primary, secondary,
        ),
        ScriptLine::Migrate { primary, secondary } => print_two_sites(
            alloc, b"migrate", primary, secondary,
        ),
        ScriptLine::Takeover { site } => print_one_site(alloc, b"takeover", site),
        ScriptLine::Failback { new, old } => print_two_sites(alloc, b"failback", new, old),
        ScriptLine::Bunker {
            primary,
            bunker,
            sync,
            prot,
        } => print_two_modes(alloc, b"bunker", primary, bunker, *sync, *prot),
        ScriptLine::Activate { bunker, secondary } => print_two_sites(
            alloc,
            b"activate",
            bunker,
            secondary,
        ),
        ScriptLine::Burst { site, threads } => print_site_number(alloc, b"burst", site, *threads),
        ScriptLine::Status { site } => print_one_site(alloc, b"status", site),
        ScriptLine::CallWrite {
            thread,
            volume,
            block,
            count,
            fill,
        } => print_call_write(alloc, *thread, volume, *block, *count, *fill),
        ScriptLine::CallRead {
            thread,
            volume,
            block,
        } => print_call_read(alloc, *thread, volume, *block),
        ScriptLine::End => Ok(Vec::from_slice(alloc, b"end")?),
    }
}

/// The one printed spelling of a line: single spaces, numbers with no leading zero, digits in lower case.
pub fn print(alloc: Global, line: &ScriptLine) -> Result<Bytes, OutOfMemory>
    ensures { IfOk result (λ text. text ≡ spelling line.now) }
{
    let text = text_of_line(alloc, line)?;
    Ok(Bytes::new(text))
}

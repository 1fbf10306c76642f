// Each shape of a line, as it is printed.
ghost use Rattle.std.specs.Prelude.{◌≡◌, ◌∷◌, [], codes, IfOk};
ghost use Rattle.vx_script.specs.Tokens.{joined_words, Key, Named, Number, Hex};
ghost use Rattle.vx_script.specs.Grammar.{spelling, one_site, site_word, site_and_number, site_numbers, two_sites, two_modes, block_run, plex_word};
ghost use Rattle.vx_script.specs.declared.line.ScriptLine.{ScriptLine};

use crate::Names;
use crate::line::{DiskState, Layout, ReadPolicy, VolumeLog, VolumeMap};
use crate::word::Word;
use crate::writer::{push_hex, push_name, push_names, push_number, push_options, push_word};
use std::alloc::Global;
use vx_model::{Block, Name, OutOfMemory, Prot, SyncMode};

pub fn print_one_site(alloc: Global, key: &[u8], site: &Name) -> Result<Vec<u8>, OutOfMemory>
    ensures { IfOk result (λ text. text.items ≡ joined_words (one_site key.now site.now)) }
{
    let mut out = Vec::from_slice(alloc, key)?;
    push_name(&mut out, b"", site)?;
    Ok(out)
}

pub fn print_site_word(
    alloc: Global,
    key: &[u8],
    site: &Name,
    word: &[u8],
) -> Result<Vec<u8>, OutOfMemory>
    ensures { IfOk result (λ text. text.items ≡ joined_words (site_word key.now site.now word.now)) }
{
    let mut out = Vec::from_slice(alloc, key)?;
    push_name(&mut out, b"", site)?;
    push_word(&mut out, word)?;
    Ok(out)
}

pub fn print_site_number(
    alloc: Global,
    key: &[u8],
    site: &Name,
    n: u64,
) -> Result<Vec<u8>, OutOfMemory>
    ensures { IfOk result (λ text. text.items ≡ joined_words (site_and_number key.now site.now n)) }
{
    let mut out = Vec::from_slice(alloc, key)?;
    push_name(&mut out, b"", site)?;
    push_number(alloc, &mut out, b"", n)?;
    Ok(out)
}

pub fn print_site_numbers(
    alloc: Global,
    key: &[u8],
    site: &Name,
    m: u64,
    n: u64,
) -> Result<Vec<u8>, OutOfMemory>
    ensures { IfOk result (λ text. text.items ≡ joined_words (site_numbers key.now site.now m n)) }
{
    let mut out = Vec::from_slice(alloc, key)?;
    push_name(&mut out, b"", site)?;
    push_number(alloc, &mut out, b"", m)?;
    push_number(alloc, &mut out, b"", n)?;
    Ok(out)
}

pub fn print_disk(
    alloc: Global,
    site: &Name,
    disk: u64,
    state: DiskState,
) -> Result<Vec<u8>, OutOfMemory>
    ensures { IfOk result (λ text. text.items ≡ spelling (ScriptLine.Disk site.now disk state)) }
{
    let mut out = Vec::from_slice(alloc, b"disk")?;
    push_name(&mut out, b"", site)?;
    push_number(alloc, &mut out, b"", disk)?;
    push_word(&mut out, state.text())?;
    Ok(out)
}

pub fn print_plex(
    alloc: Global,
    site: &Name,
    volume: &Name,
    plex: u64,
    word: &[u8],
) -> Result<Vec<u8>, OutOfMemory>
    ensures { IfOk result (λ text. text.items ≡ joined_words (plex_word site.now volume.now plex word.now)) }
{
    let mut out = Vec::from_slice(alloc, b"plex")?;
    push_name(&mut out, b"", site)?;
    push_name(&mut out, b"", volume)?;
    push_number(alloc, &mut out, b"", plex)?;
    push_word(&mut out, word)?;
    Ok(out)
}

pub fn print_rvg(
    alloc: Global,
    site: &Name,
    srl: &Name,
    dcm: &Name,
    volumes: &Names,
) -> Result<Vec<u8>, OutOfMemory>
    ensures { IfOk result (λ text. text.items ≡ spelling (ScriptLine.Rvg site.now srl.now dcm.now volumes.now)) }
{
    let mut out = Vec::from_slice(alloc, b"rvg")?;
    push_name(&mut out, b"", site)?;
    push_name(&mut out, b"srl=", srl)?;
    push_name(&mut out, b"dcm=", dcm)?;
    push_names(&mut out, b"vols=", volumes.as_slice())?;
    Ok(out)
}

pub fn print_block_run(
    alloc: Global,
    key: &[u8],
    site: &Name,
    volume: &Name,
    block: u64,
    count: u64,
) -> Result<Vec<u8>, OutOfMemory>
    ensures { IfOk result (λ text. text.items ≡ joined_words (block_run key.now site.now volume.now block count)) }
{
    let mut out = Vec::from_slice(alloc, key)?;
    push_name(&mut out, b"", site)?;
    push_name(&mut out, b"", volume)?;
    push_number(alloc, &mut out, b"", block)?;
    push_number(alloc, &mut out, b"", count)?;
    Ok(out)
}

pub fn print_write(
    alloc: Global,
    site: &Name,
    volume: &Name,
    block: u64,
    count: u64,
    fill: u8,
) -> Result<Vec<u8>, OutOfMemory>
    ensures { IfOk result (λ text. text.items ≡ spelling (ScriptLine.Write site.now volume.now block count fill)) }
{
    let mut out = Vec::from_slice(alloc, b"write")?;
    push_name(&mut out, b"", site)?;
    push_name(&mut out, b"", volume)?;
    push_number(alloc, &mut out, b"", block)?;
    push_number(alloc, &mut out, b"", count)?;
    push_hex(alloc, &mut out, &[fill])?;
    Ok(out)
}

pub fn print_put(
    alloc: Global,
    site: &Name,
    volume: &Name,
    block: u64,
    bytes: &Block,
) -> Result<Vec<u8>, OutOfMemory>
    ensures { IfOk result (λ text. text.items ≡ spelling (ScriptLine.Put site.now volume.now block bytes.now)) }
{
    let mut out = Vec::from_slice(alloc, b"put")?;
    push_name(&mut out, b"", site)?;
    push_name(&mut out, b"", volume)?;
    push_number(alloc, &mut out, b"", block)?;
    push_hex(alloc, &mut out, bytes.as_bytes())?;
    Ok(out)
}

pub fn print_two_sites(
    alloc: Global,
    key: &[u8],
    first: &Name,
    second: &Name,
) -> Result<Vec<u8>, OutOfMemory>
    ensures { IfOk result (λ text. text.items ≡ joined_words (two_sites key.now first.now second.now)) }
{
    let mut out = Vec::from_slice(alloc, key)?;
    push_name(&mut out, b"", first)?;
    push_name(&mut out, b"", second)?;
    Ok(out)
}

pub fn print_two_modes(
    alloc: Global,
    key: &[u8],
    first: &Name,
    second: &Name,
    sync: SyncMode,
    prot: Prot,
) -> Result<Vec<u8>, OutOfMemory>
    ensures { IfOk result (λ text. text.items ≡ joined_words (two_modes key.now first.now second.now sync prot)) }
{
    let mut out = Vec::from_slice(alloc, key)?;
    push_name(&mut out, b"", first)?;
    push_name(&mut out, b"", second)?;
    push_word(&mut out, sync.text())?;
    push_word(&mut out, prot.text())?;
    Ok(out)
}

pub fn print_deliver(alloc: Global, packet: u64) -> Result<Vec<u8>, OutOfMemory>
    ensures { IfOk result (λ text. text.items ≡ spelling (ScriptLine.Deliver packet)) }
{
    let mut out = Vec::from_slice(alloc, b"deliver")?;
    push_number(alloc, &mut out, b"", packet)?;
    Ok(out)
}

pub fn print_call_write(
    alloc: Global,
    thread: u64,
    volume: &Name,
    block: u64,
    count: u64,
    fill: u8,
) -> Result<Vec<u8>, OutOfMemory>
    ensures { IfOk result (λ text. text.items ≡ spelling (ScriptLine.CallWrite thread volume.now block count fill)) }
{
    let mut out = Vec::from_slice(alloc, b"t")?;
    push_number(alloc, &mut out, b"", thread)?;
    push_word(&mut out, b"write")?;
    push_name(&mut out, b"", volume)?;
    push_number(alloc, &mut out, b"", block)?;
    push_number(alloc, &mut out, b"", count)?;
    push_hex(alloc, &mut out, &[fill])?;
    Ok(out)
}

pub fn print_call_read(
    alloc: Global,
    thread: u64,
    volume: &Name,
    block: u64,
) -> Result<Vec<u8>, OutOfMemory>
    ensures { IfOk result (λ text. text.items ≡ spelling (ScriptLine.CallRead thread volume.now block)) }
{
    let mut out = Vec::from_slice(alloc, b"t")?;
    push_number(alloc, &mut out, b"", thread)?;
    push_word(&mut out, b"read")?;
    push_name(&mut out, b"", volume)?;
    push_number(alloc, &mut out, b"", block)?;
    Ok(out)
}

pub fn print_volume(
    alloc: Global,
    site: &Name,
    volume: &Name,
    blocks: u64,
    mirrors: u64,
    layout: Layout,
    log: VolumeLog,
    map: VolumeMap,
    policy: ReadPolicy,
) -> Result<Vec<u8>, OutOfMemory>
    ensures { IfOk result (λ text. text.items ≡ spelling (ScriptLine.Volume site.now volume.now blocks mirrors layout log map policy)) }
{
    let mut out = Vec::from_slice(alloc, b"vol")?;
    push_name(&mut out, b"", site)?;
    push_name(&mut out, b"", volume)?;
    push_number(alloc, &mut out, b"", blocks)?;
    push_number(alloc, &mut out, b"mirrors=", mirrors)?;
    push_options(alloc, &mut out, layout, log, map, policy)?;
    Ok(out)
}

// What each line is answered, with all later reasons holding too: the sites of the tables are made, and each line is tried at them.
use crate::{order_groups, order_links, order_sites};
use std::alloc::Global;
use std::test::Fail;
use vx_model::{
    Bytes, Line, Link, Mark, Mode, Name, Named, No, OutOfMemory, Prot, Role, SiteState, SyncMode,
};
use vx_order::{
    LinkFacts, LinkTable, RvgFacts, SiteFacts, VolumeFacts, VolumeKind, VolumeTable, refuse,
    refuse_packet,
};
use vx_report::refusal;
use vx_script::{Names, ScriptLine, parse};

/// The one volume of a site that is no group, whose name is `d1` and which has the blocks of a disk; or those of a group: the
/// name of each, its blocks, what it is, and how often it is there.
#[derive(Clone, Copy)]
pub enum Has {
    Nothing,
    D1,
    Volumes(&'static [(&'static [u8; 1], u64, VolumeKind, u32)]),
}

/// A replicated volume group: its role, generation and origin, the last number, the blocks of its ring, and the disk that halts it.
pub type Rvg = (Role, u64, u32, u64, u64, Option<u32>);

/// A link: its site, whether it leads to a bunker, its mode of writes, whether it is connected, its mode, and the blocks that it needs.
pub type Sends = (u32, bool, SyncMode, bool, Mode, u64);

/// A site: its name and state, its disks and the blocks of each, whether they are a group, and what it has.
pub type Stands = (
    &'static [u8; 1],
    SiteState,
    u32,
    u64,
    bool,
    Has,
    Option<Rvg>,
    &'static [Sends],
);

/// What the rows show, the sites, whether disks are files, and the lines with what each is refused with, which is nothing where it is taken.
pub type Rows = (
    &'static str,
    &'static [Stands],
    bool,
    &'static [(&'static str, &'static str)],
);

fn volumes_of(alloc: Global, has: &Has, blocks: u64) -> Result<VolumeTable, OutOfMemory> {
    let mut volumes = VolumeTable::new(alloc);
    match has {
        Has::Nothing => {}
        Has::D1 => volumes.push(VolumeFacts {
            name: Name::new(b"d1"),
            blocks,
            kind: VolumeKind::Data,
            plexes: 0,
        })?,
        Has::Volumes(all) => {
            for (name, blocks, kind, times) in *all {
                for _ in 0..*times {
                    volumes.push(VolumeFacts {
                        name: Name::new(*name),
                        blocks: *blocks,
                        kind: *kind,
                        plexes: 2,
                    })?;
                }
            }
        }
    }
    Ok(volumes)
}

fn links_of(alloc: Global, all: &[Sends]) -> Result<LinkTable, OutOfMemory> {
    let mut links = LinkTable::new(alloc);
    for (site, bunker, sync, connected, mode, used) in all {
        links.push(LinkFacts {
            link: Link {
                site: *site,
                bunker: *bunker,
                attached: true,
                connected: *connected,
                paused: false,
                sync: *sync,
                prot: Prot::Fail,
                session: 1,
                net: 0,
                stored: 0,
                sent: 0,
                trimmed: 0,
                mode: *mode,
            },
            used: *used,
        })?;
    }
    Ok(links)
}

fn rvg_of(rvg: &Option<Rvg>) -> Option<RvgFacts> {
    match rvg {
        Some((role, generation, origin, last, ring, halted)) => Some(RvgFacts {
            role: *role,
            line: Line {
                generation: *generation,
                origin: *origin,
            },
            parent: Line::default(),
            mark: Mark::Consistent,
            low: 1,
            last: *last,
            ring: *ring,
            halted: *halted,
        }),
        None => None,
    }
}

fn sites_of(alloc: Global, all: &[Stands]) -> Result<Vec<SiteFacts>, OutOfMemory> {
    let mut sites = Vec::new(alloc);
    for (name, state, disks, blocks, grouped, has, rvg, links) in all {
        sites.push(SiteFacts {
            name: Name::new(*name),
            state: *state,
            disks: *disks,
            blocks: *blocks,
            grouped: *grouped,
            volumes: volumes_of(alloc, has, *blocks)?,
            rvg: rvg_of(rvg),
            links: links_of(alloc, links)?,
        })?;
    }
    Ok(sites)
}

// What a line is refused with, as it is printed, and nothing where it is taken.
fn refused(alloc: Global, sites: &[SiteFacts], files: bool, text: &str) -> Result<Bytes, Fail> {
    let line = parse(alloc, text.as_bytes(), 1)?.ok_or("a line")?;
    match refuse(sites, files, &line) {
        Some(no) => Ok(refusal(alloc, &no)?),
        None => Ok(Bytes::new(Vec::new(alloc))),
    }
}

#[test]
fn lines_are_refused_in_order(rt: HostRuntime) -> Result<(), Fail> {
    let alloc = rt.alloc();
    for table in [order_sites::ROWS, order_groups::ROWS, order_links::ROWS] {
        for (shows, sites, files, rows) in table {
            let sites = sites_of(alloc, sites)?;
            for (text, wanted) in *rows {
                let said = refused(alloc, &sites, *files, text)?;
                assert!(rt; said.as_slice() == wanted.as_bytes(), "{shows}: {text}");
            }
        }
    }
    Ok(())
}

// There is no line for a replicated volume group of no volumes.
#[test]
fn what_has_no_line_is_refused(rt: HostRuntime) -> Result<(), Fail> {
    let alloc = rt.alloc();
    let sites = sites_of(alloc, &order_groups::SITES)?;
    let none = ScriptLine::Rvg {
        site: Name::new(b"g"),
        srl: Name::new(b"l"),
        dcm: Name::new(b"m"),
        volumes: Names::new(alloc),
    };
    assert!(rt; refuse(&sites, false, &none) == Some(No::Size));
    let what = Named::Number(10);
    assert!(rt; refuse_packet(9, 10) == Some(No::Unknown { what }));
    assert!(rt; refuse_packet(9, 9) == None);
    Ok(())
}

// What no clause says: the lines on sites in memory, one after another, as an operator would have them.
use std::alloc::Global;
use std::test::*;
use vx_courier::part_at;
use vx_history::Said;
use vx_linked::{connect, cut, pause, resume, tick, wait};
use vx_model::limits::MOST_SITES;
use vx_model::{Line, Link, Mark, Mode, Name, OutOfMemory, Prot, Role, SiteState, SyncMode};
use vx_net::{Flight, Net};
use vx_order::{LinkFacts, LinkTable, RvgFacts, SiteFacts, VolumeTable, refuse};
use vx_script::ScriptLine;

fn link(site: u32, sync: SyncMode, connected: bool) -> LinkFacts {
    LinkFacts {
        link: Link {
            site,
            bunker: false,
            attached: true,
            connected,
            paused: false,
            sync,
            prot: Prot::Fail,
            session: 1,
            net: 1,
            stored: 0,
            sent: 3,
            trimmed: 0,
            mode: Mode::Log,
        },
        used: 4,
    }
}

// A site that is up, on the first line of site 0.
fn site(alloc: Global, name: &[u8; 1], role: Role, last: u64) -> SiteFacts {
    let line = Line {
        generation: 1,
        origin: 0,
    };
    SiteFacts {
        name: Name::new(name),
        state: SiteState::Up,
        disks: 3,
        blocks: 64,
        grouped: false,
        volumes: VolumeTable::new(alloc),
        rvg: Some(RvgFacts {
            role,
            line,
            parent: Line::default(),
            mark: Mark::Consistent,
            low: 1,
            last,
            ring: 62,
            halted: None,
        }),
        links: LinkTable::new(alloc),
    }
}

// The primary a with three writes and links to b and c, which have one each.
fn three_sites(alloc: Global) -> Result<Vec<SiteFacts>, OutOfMemory> {
    let mut a = site(alloc, b"a", Role::Primary, 3);
    a.links.push(link(1, SyncMode::Fail, false))?;
    a.links.push(link(2, SyncMode::Override, true))?;
    let mut sites = Vec::new(alloc);
    sites.push(a)?;
    sites.push(site(alloc, b"b", Role::Secondary, 1))?;
    sites.push(site(alloc, b"c", Role::Secondary, 1))?;
    Ok(sites)
}

#[derive(Clone, Copy, PartialEq, Eq)]
enum Heard {
    Done,
    Confirmed,
    Pending,
    Refused,
}

fn reply(said: Said) -> Heard {
    match said {
        Said::DoneAt(_) => Heard::Confirmed,
        Said::Pending(_) => Heard::Pending,
        _ => Heard::Refused,
    }
}

// Answers a line, at receivers in their second session which have nothing durable.
fn answer(
    sites: &mut [SiteFacts],
    flight: &mut Flight,
    line: &ScriptLine,
) -> Result<Heard, OutOfMemory> {
    if sites.len() > MOST_SITES {
        return Err(OutOfMemory);
    }
    if refuse(sites, false, line).is_some() {
        return Ok(Heard::Refused);
    }
    match line {
        ScriptLine::Connect { primary, secondary } => {
            connect(sites, primary, secondary, 2, 0, flight)?
        }
        ScriptLine::Cut { primary, secondary } => cut(sites, primary, secondary),
        ScriptLine::Pause { primary, secondary } => pause(sites, primary, secondary),
        ScriptLine::Resume { primary, secondary } => resume(sites, primary, secondary),
        ScriptLine::Tick { primary, secondary } => tick(sites, primary, secondary),
        ScriptLine::Wait { site, number } => return Ok(reply(wait(sites, site, *number))),
        _ => return Err(OutOfMemory),
    }
    Ok(Heard::Done)
}

// Whether the links of the first site are connected and paused, and up to which number they sent.
fn first_links(sites: &[SiteFacts]) -> [(bool, bool, u64); 2] {
    let mut seen = [(false, false, 0); 2];
    if sites.len() > 0 {
        let links = sites[0].links.as_slice();
        if links.len() == 2 {
            seen[0] = (
                links[0].link.connected,
                links[0].link.paused,
                links[0].link.sent,
            );
            seen[1] = (
                links[1].link.connected,
                links[1].link.paused,
                links[1].link.sent,
            );
        }
    }
    seen
}

fn halt_second(sites: &mut [SiteFacts]) {
    if sites.len() > 1 {
        if let Some(rvg) = sites[1].rvg {
            sites[1].rvg = Some(RvgFacts {
                halted: Some(0),
                ..rvg
            });
        }
    }
}

fn waits(number: u64) -> ScriptLine {
    ScriptLine::Wait {
        site: Name::new(b"a"),
        number,
    }
}

// b greets with its session and what it has in memory, once for each connect, and not while it is halted. The link to c stays.
#[test]
fn a_receiver_greets_as_its_link_is_connected(rt: HostRuntime) -> Result<(), Fail> {
    let mut sites = three_sites(rt.alloc())?;
    let mut flight = Flight::new(rt.alloc())?;
    let (primary, secondary) = (Name::new(b"a"), Name::new(b"b"));
    let connects = ScriptLine::Connect { primary, secondary };
    let said = answer(&mut sites, &mut flight, &connects)?;
    assert!(rt; said == Heard::Done);
    assert!(rt; flight.count() == 1);
    let sent = part_at(&flight, 1).map(|p| (p.kind, p.source, p.target, p.session, p.number));
    assert!(rt; sent == Some((1, 1, 0, 2, 1)));
    assert!(rt; first_links(&sites) == [(true, false, 3), (true, false, 3)]);
    halt_second(&mut sites);
    let said = answer(&mut sites, &mut flight, &connects)?;
    assert!(rt; said == Heard::Done);
    assert!(rt; flight.count() == 1);
    Ok(())
}

// A line turns its link and no other. A tick begins again behind what is acknowledged.
#[test]
fn links_are_turned(rt: HostRuntime) -> Result<(), Fail> {
    let mut sites = three_sites(rt.alloc())?;
    let mut flight = Flight::new(rt.alloc())?;
    let primary = Name::new(b"a");
    let secondary = Name::new(b"b");
    let connect = ScriptLine::Connect { primary, secondary };
    let tick = ScriptLine::Tick { primary, secondary };
    let secondary = Name::new(b"c");
    let pause = ScriptLine::Pause { primary, secondary };
    let resume = ScriptLine::Resume { primary, secondary };
    let cut = ScriptLine::Cut { primary, secondary };
    for (line, wanted) in [
        (connect, [(true, false, 3), (true, false, 3)]),
        (pause, [(true, false, 3), (true, true, 3)]),
        (tick, [(true, false, 1), (true, true, 3)]),
        (resume, [(true, false, 1), (true, false, 3)]),
        (cut, [(true, false, 1), (false, false, 3)]),
    ] {
        let said = answer(&mut sites, &mut flight, &line)?;
        assert!(rt; said == Heard::Done);
        assert!(rt; first_links(&sites) == wanted);
    }
    Ok(())
}

// A write is not to be confirmed where a link that fails writes is cut, is pending while a live link has not confirmed it, and is not
// waited for by a link that overrides and is cut.
#[test]
fn links_are_waited_for(rt: HostRuntime) -> Result<(), Fail> {
    let mut sites = three_sites(rt.alloc())?;
    let mut flight = Flight::new(rt.alloc())?;
    let primary = Name::new(b"a");
    let secondary = Name::new(b"b");
    let connect = ScriptLine::Connect { primary, secondary };
    let secondary = Name::new(b"c");
    let cut = ScriptLine::Cut { primary, secondary };
    for (line, wanted) in [
        (waits(1), Heard::Confirmed),
        (waits(2), Heard::Refused),
        (connect, Heard::Done),
        (cut, Heard::Done),
        (waits(2), Heard::Pending),
    ] {
        let said = answer(&mut sites, &mut flight, &line)?;
        assert!(rt; said == wanted);
    }
    Ok(())
}

// Links, by the sites that they start at and lead to.
ghost use Rattle.std.specs.Prelude.{◌≡◌, ◌<◌, length, OnOk};
ghost use Rattle.vx_history.specs.World.{Node, no_link, updated};
ghost use Rattle.vx_history.specs.Events.{new_link};
ghost use Rattle.vx_history.specs.LinkForms.{plain_link, with_plain};
ghost use Rattle.vx_history.specs.Sends.{is_linked as linked};
ghost use Rattle.vx_sites.specs.Shapes.{link_of, row_of, links_of};

use std::alloc::Global;
use vx_model::{Link as PlainLink, Mode, OutOfMemory, Prot, SyncMode};

/// A link. The number of its site is of no account: it stands in the place of that number.
#[derive(Clone, Copy)]
pub struct Link {
    /// The place in which it was made among those of its site. Without one it is no link.
    pub made: Option<usize>,
    pub state: PlainLink,
}

impl Link {
    /// No link.
    pub fn none() -> Link
        ensures { link_of result ≡ no_link }
    {
        Link {
            made: None,
            state: PlainLink {
                site: 0,
                bunker: false,
                attached: false,
                connected: false,
                paused: false,
                sync: SyncMode::Off,
                prot: Prot::Off,
                session: 0,
                net: 0,
                stored: 0,
                sent: 0,
                trimmed: 0,
                mode: Mode::Stale,
            },
        }
    }

    /// A link that is made in this place among those of its site, to a receiver in this session, with these settings.
    pub fn new(place: usize, sync: SyncMode, prot: Prot, session: u64) -> Link
        ensures { (b : Node) → b.session ≡ session → link_of result ≡ new_link place sync prot b }
    {
        Link {
            made: Some(place),
            state: PlainLink {
                site: 0,
                bunker: false,
                attached: true,
                connected: false,
                paused: false,
                sync,
                prot,
                session,
                net: 0,
                stored: 0,
                sent: 0,
                trimmed: 0,
                mode: Mode::Stale,
            },
        }
    }

    /// Whether it is a link.
    pub fn is_linked(&self) -> bool
        ensures { result ≡ linked (link_of self.now) }
    {
        match self.made {
            Some(_) => true,
            None => false,
        }
    }

    /// The link as the one to this site, in the form that the rules of links take.
    pub fn plain(&self, site: u32) -> PlainLink
        ensures { result ≡ plain_link site (link_of self.now) }
    {
        PlainLink { site, ..self.state }
    }

    /// The link with what a rule made of it.
    pub fn with_plain(&self, state: &PlainLink) -> Link
        ensures { link_of result ≡ with_plain (link_of self.now) state.now }
    {
        Link {
            made: self.made,
            state: PlainLink {
                site: state.site,
                bunker: self.state.bunker,
                attached: self.state.attached,
                sync: self.state.sync,
                prot: self.state.prot,
                ..*state
            },
        }
    }
}

// The link in this place of a row.
pub fn link_in(links: &[Link], to: usize) -> Link
    ensures { link_of result ≡ row_of links.now to }
{
    match links.get(to) {
        Some(link) => *link,
        None => Link::none(),
    }
}

/// The links of one site, each in the place of the site that it leads to.
#[derive(Drop)]
pub struct Row {
    pub links: Vec<Link>,
}

impl Row {
    /// The link to the site in this place.
    pub fn link(&self, to: usize) -> Link
        ensures { link_of result ≡ row_of self.now.links.items to }
    {
        link_in(&self.links, to)
    }

    /// Puts this link into the place of the site.
    pub fn set(&mut self, to: u32, link: Link) -> Result<(), OutOfMemory>
        ensures { OnOk result (row_of self.new.links.items ≡ updated (row_of self.old.links.items) to (link_of link)) }
    {
        lengthen_row(&mut self.links, to as usize)?;
        self.links[to as usize] = link;
        Ok(())
    }
}

// Adds places without links, up to this one.
fn lengthen_row(links: &mut Vec<Link>, to: usize) -> Result<(), OutOfMemory>
    ensures within { OnOk result (to < length links.new.items) }
    ensures same { OnOk result (row_of links.new.items ≡ row_of links.old.items) }
{
    while links.len() <= to {
        links.push(Link::none())?;
    }
    Ok(())
}

/// Adds rows without links, up to the one of this site.
pub fn lengthen_rows(alloc: Global, rows: &mut Vec<Row>, from: usize) -> Result<(), OutOfMemory>
    ensures within { OnOk result (from < length rows.new.items) }
    ensures same { OnOk result (links_of rows.new.items ≡ links_of rows.old.items) }
{
    while rows.len() <= from {
        rows.push(Row {
            links: Vec::new(alloc),
        })?;
    }
    Ok(())
}

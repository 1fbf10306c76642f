// What the header of a log keeps of its site.
ghost use Rattle.std.specs.Prelude.{◌≡◌, ◌<◌, ◌≤◌, [], ◌∷◌, ◌++◌, length};

use crate::limits::{LINK_PLACES, NO_SITE};
use crate::{Line, Mark, Prot, Role, SPhase, SyncMode};
use arrayvec::ArrayVec;
use std::marker::Model;

/// The mode of a link, as a header keeps it.
#[derive(Clone, Copy, Debug, Default, PartialEq, Eq)]
pub enum KeptMode {
    #[default]
    Log,
    Dcm,
    Replay,
    Fork,
    Stale,
}

/// A link, as a header keeps it.
#[derive(Clone, Copy, Debug, Default, PartialEq, Eq)]
pub struct KeptLink {
    pub site: u32,
    pub attached: bool,
    pub bunker: bool,
    pub mode: KeptMode,
    pub sync: SyncMode,
    pub prot: Prot,
    pub stored: u64,
    pub start: u64,
}

/// Up to 8 links. Contracts see their list.
#[derive(Drop)]
pub struct KeptLinks {
    links: ArrayVec<KeptLink, LINK_PLACES>,
}

impl Model for KeptLinks {
    ghost use Rattle.std.specs.Prelude.{List, ◌≤◌, length};
    ghost use Rattle.vx_model.specs.declared.state.KeptLink.{KeptLink};
    ghost use Rattle.vx_model.specs.declared.limits.TheConstants.{LINK_PLACES};

    ghost Value = { List KeptLink };

    ghost view = { λ k. k.links.items };

    ghost invariant = { λ k. length k.links.items ≤ LINK_PLACES };
}

impl KeptLinks {
    /// No links.
    pub fn new() -> KeptLinks
        ensures { result ≡ [] }
    {
        KeptLinks {
            links: ArrayVec::new(),
        }
    }

    /// Adds a link after the others.
    pub fn push(&mut self, link: KeptLink)
        requires room { length self.old < LINK_PLACES }
        ensures { self.new ≡ self.old ++ link ∷ [] }
    {
        self.links.push(link);
    }

    /// The links, in the order of their making.
    pub fn as_slice(&self) -> &[KeptLink]
        ensures links { result.now ≡ self.now }
        ensures few { length self.now ≤ LINK_PLACES }
    {
        &self.links
    }

    /// The same links once more.
    pub fn copy(&self) -> KeptLinks
        ensures { result ≡ self.now }
    {
        let mut links = KeptLinks::new();
        for link in self.as_slice() {
            links.push(*link);
        }
        links
    }
}

/// What the header of a log keeps of its site.
#[derive(Drop)]
pub struct State {
    pub line: Line,
    /// The greatest generation that the site ever stood on.
    pub top: u64,
    pub role: Role,
    pub mark: Mark,
    pub phase: SPhase,
    pub replay: u64,
    pub end: u64,
    /// The primary of a secondary or bunker, the target of a handing site, else `NO_SITE`.
    pub other: u32,
    pub parent: Line,
    pub fork: u64,
    pub links: KeptLinks,
}

impl State {
    ghost use Rattle.vx_model.specs.States.{first_state};

    /// That of a primary on its first line, with no links.
    pub fn first(site: u32) -> State
        ensures { result ≡ first_state site }
    {
        State {
            line: Line {
                generation: 1,
                origin: site,
            },
            top: 1,
            role: Role::Primary,
            mark: Mark::Consistent,
            phase: SPhase::Quiet,
            replay: 0,
            end: 0,
            other: NO_SITE,
            parent: Line::default(),
            fork: 0,
            links: KeptLinks::new(),
        }
    }

    /// The same state once more.
    pub fn copy(&self) -> State
        ensures { result ≡ self.now }
    {
        State {
            line: self.line,
            top: self.top,
            role: self.role,
            mark: self.mark,
            phase: self.phase,
            replay: self.replay,
            end: self.end,
            other: self.other,
            parent: self.parent,
            fork: self.fork,
            links: self.links.copy(),
        }
    }
}

// A peer that takes what it is handed, up to a number.
ghost use Rattle.std.specs.Prelude.{◌≡◌, ◌+◌, [], ◌∷◌, length, MatchBool, IfSome};
ghost use Rattle.vx_settle.specs.Peers.{LiesIn};
ghost use Rattle.vx_plain.specs.Taking.{stand_of, root_of, TakesNextUpdate, IsNextUpdate, TakersOfTwo};
ghost use Rattle.vx_plain.specs.declared.small.TheConstants.{VOLUME_BLOCKS};

use crate::small::{VOLUME_BLOCKS, count_of, put, raised};
use std::alloc::Global;
use std::snapshot::Snapshot;
use vx_model::Update;
use vx_settle::{Ack, Peer};

/// It has one volume as large as that of the small engine, and stores what it takes at once. Behind so many updates it takes no more, and
/// counts a fault for each that it is handed.
#[derive(Drop)]
pub struct Taker {
    pub link: u32,
    pub most: usize,
    pub faults: u64,
    pub handed: Vec<Update>,
    first: Snapshot<Vec<Update>>,
}

impl Taker {
    /// One that has taken nothing yet.
    pub fn new(alloc: Global, link: u32, most: usize) -> Taker
        ensures { (result.link ≡ link) × (result.handed.items ≡ []) }
    {
        let handed = Vec::new(alloc);
        let first = Snapshot::of(&handed);
        Taker {
            link,
            most,
            faults: 0,
            handed,
            first,
        }
    }

    // What it has received, all of which is stored.
    fn ack(&self) -> Ack
        ensures { (result.net ≡ length self.now.handed.items) × (result.stored ≡ length self.now.handed.items) }
    {
        let net = self.handed.len() as u64;
        Ack { net, stored: net }
    }

    // Takes an update that is the next one.
    fn take(&mut self, update: &Update)
        ensures { TakesNextUpdate self.old update.now self.new }
    {
        if !is_next(update, self.handed.len() as u64) {
            return;
        }
        if self.handed.len() >= self.most || !put(&mut self.handed, *update) {
            self.faults = raised(self.faults);
        }
    }
}

// Whether the update lies within the volume.
fn lies(update: &Update) -> bool
    ensures { MatchBool result (LiesIn (VOLUME_BLOCKS ∷ []) update.now) (LiesIn (VOLUME_BLOCKS ∷ []) update.now → ⊥) }
{
    let count = count_of(&update.bytes);
    if update.vol != 0 || update.block > VOLUME_BLOCKS - count {
        return false;
    }
    true
}

// Whether the update is the one behind so many.
fn is_next(update: &Update, net: u64) -> bool
    ensures { MatchBool result (IsNextUpdate net update.now) (IsNextUpdate net update.now → ⊥) }
{
    if update.line.generation != 0 || update.line.origin != 0 {
        return false;
    }
    if update.number == 0 || update.number - 1 != net {
        return false;
    }
    lies(update)
}

impl Peer for Taker {
    ghost stand = { stand_of };

    ghost root = { root_of };

    fn link(&self) -> u32 {
        self.link
    }

    fn hand(&mut self, update: &Update) -> Ack {
        self.take(update);
        self.ack()
    }

    fn finish(&mut self) -> Ack {
        self.ack()
    }
}

/// A peer for each of two links, each of which takes so many updates.
pub fn two_takers(alloc: Global, most: [usize; 2]) -> Option<Vec<Taker>>
    ensures { IfSome result (λ v. TakersOfTwo v.items × (length v.items ≡ 2)) }
{
    let mut peers = Vec::new(alloc);
    if peers.push(Taker::new(alloc, 0, most[0])).is_err() {
        return None;
    }
    if peers.push(Taker::new(alloc, 1, most[1])).is_err() {
        return None;
    }
    Some(peers)
}

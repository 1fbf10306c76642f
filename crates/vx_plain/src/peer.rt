// A peer to which nothing comes.
ghost use Rattle.std.specs.Prelude.{◌≡◌, length, IfSome};
ghost use Rattle.vx_plain.specs.Trails.{AreOfTwo};

use std::alloc::Global;
use vx_model::Update;
use vx_settle::{Ack, Peer};

/// It has no volumes, and takes nothing.
#[derive(Drop)]
pub struct Idle {
    pub link: u32,
}

impl Peer for Idle {
    ghost use Rattle.std.specs.Prelude.{[]};

    ghost stand = { λ p. record { link = p.link; line = record { generation = 0; origin = 0 }; sizes = []; net = 0; stored = 0; faults = 0; handed = [] } };

    ghost root = { λ p. p };

    fn link(&self) -> u32 {
        self.link
    }

    fn hand(&mut self, update: &Update) -> Ack {
        let _ = update;
        Ack { net: 0, stored: 0 }
    }

    fn finish(&mut self) -> Ack {
        Ack { net: 0, stored: 0 }
    }
}

/// A peer for each of two links.
pub fn two_peers(alloc: Global) -> Option<Vec<Idle>>
    ensures { IfSome result (λ v. AreOfTwo v.items × (length v.items ≡ 2)) }
{
    let mut peers = Vec::new(alloc);
    if peers.push(Idle { link: 0 }).is_err() {
        return None;
    }
    if peers.push(Idle { link: 1 }).is_err() {
        return None;
    }
    Some(peers)
}

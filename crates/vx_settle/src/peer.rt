// The other end of a link.
ghost use Rattle.std.specs.Prelude.{◌≡◌};
ghost use Rattle.vx_settle.specs.Peers.{Hands, Finishes};
ghost use Rattle.vx_settle.specs.declared.peer.Stand.{Stand};

use std::collections::LinkedList;
use vx_model::{Line, Update};

/// The numbers up to which a peer has received and stored.
#[derive(Clone, Copy, Debug, PartialEq, Eq)]
pub struct Ack {
    pub net: u64,
    pub stored: u64,
}

/// What contracts see of a peer. No value of it is made.
pub struct Stand {
    /// The place of its link among the engine's.
    pub link: u32,
    pub line: Line,
    /// The blocks of each of its volumes.
    pub sizes: LinkedList<u64>,
    pub net: u64,
    pub stored: u64,
    /// A count that never falls.
    pub faults: u64,
    /// The updates that it took, in order.
    pub handed: LinkedList<Update>,
}

/// It takes the updates of an engine's log. Its `stand` is what contracts see of it. Its `root` is for contracts alone, and no call
/// changes it.
pub trait Peer: Send + Drop {
    ghost stand: { Self → Stand };

    ghost root: { Self → Self };

    /// The place of its link among the engine's.
    fn link(&self) -> u32
        ensures { result ≡ (stand self.now).link };

    /// Hands an update over, whatever its number is. It answers what the peer has then.
    fn hand(&mut self, update: &Update) -> Ack
        ensures hands { Hands (stand self.old) update.now result (stand self.new) }
        ensures root { root self.new ≡ root self.old };

    /// Lets the peer apply everything that waits. It answers what the peer has then.
    fn finish(&mut self) -> Ack
        ensures finishes { Finishes (stand self.old) result (stand self.new) }
        ensures root { root self.new ≡ root self.old };
}

// A network, as the sites see it.
ghost use Rattle.std.specs.Prelude.{◌≡◌, ◌≤◌, ◌<◌, ◌⊎◌, ◌↔◌, length, IsNone};
ghost use Rattle.std.specs.Option.{option_map};
ghost use Rattle.vx_net.specs.Flights.{Flying, IsFullNet, oldest_of, sent, kept_packet};

/// A network that gives only what was sent, under the number that it was sent as.
pub trait Net {
    ghost flying: { Self → Flying };

    /// Sends a packet of at most 1,072 bytes, and answers its number, the first of which is 1. Where 65,536 packets are kept the
    /// oldest is dropped. A packet past number `MOST_NUMBER` is lost, and the count is answered.
    fn send(&mut self, bytes: &[u8]) -> u64
        requires fits { length bytes.now ≤ 1072 }
        ensures number { result ≡ (flying self.new).count }
        ensures packets { flying self.new ≡ sent (flying self.old) bytes.now };

    /// How many packets were sent: the number of the newest one.
    fn count(&self) -> u64
        ensures count { result ≡ (flying self.now).count }
        ensures full { IsFullNet (flying self.now) };

    /// The number of the oldest packet that is kept, and 1 where none was sent.
    fn first(&self) -> u64
        ensures { result ≡ oldest_of (flying self.now) };

    /// The bytes that were sent under this number. None exactly where it is below the first or above the count.
    fn get(&self, k: u64) -> Option<&[u8]>
        ensures packet { option_map (λ bytes. bytes.now) result ≡ kept_packet (flying self.now) k }
        ensures none { IsNone result ↔ ((k < oldest_of (flying self.now)) ⊎ ((flying self.now).count < k)) };
}

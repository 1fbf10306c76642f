// What the packets under their numbers come to over a whole run.
ghost use Rattle.std.specs.Prelude.{◌≡◌, ℕ, ◌+◌, ◌≤◌, List, length, slice_get, None};
ghost use Rattle.vx_net.specs.Flights.{greatest_packet, most_kept, nothing_sent, kept_packet, sent_all};

/// After any packets, fewer than 2^63, the count is how many they are; under each number of the newest 65,536 stand the bytes that
/// were sent as this number; and under no other number stands anything.
pub fn gives_what_was_sent()
    ensures count { (packets : List (List ℕ)) → length packets ≤ greatest_packet → (sent_all nothing_sent packets).count ≡ length packets }
    ensures given { (packets : List (List ℕ)) (k : ℕ) → length packets ≤ greatest_packet → length packets ≤ k + most_kept → kept_packet (sent_all nothing_sent packets) (k + 1) ≡ slice_get packets k }
    ensures dropped { (packets : List (List ℕ)) (k : ℕ) → length packets ≤ greatest_packet → k + most_kept ≤ length packets → kept_packet (sent_all nothing_sent packets) k ≡ None }
{}

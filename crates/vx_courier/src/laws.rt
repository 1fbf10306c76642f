// What a packet comes to at the place where messages are put together.
ghost use Rattle.std.specs.Prelude.{◌≡◌, ℕ, List, ◌++◌, Option, Some, slice_get};
ghost use Rattle.vx_courier.specs.Together.{AssemblyStands, AreOne, IsPutTo};
ghost use Rattle.vx_courier.specs.UnderWay.{CanFly, carrier, part_carried};
ghost use Rattle.vx_history.specs.World.{Gathering, Packet};
ghost use Rattle.vx_packet.specs.Assemblies.{Assembled, TakesPart};
ghost use Rattle.vx_packet.specs.Packets.{payload_in};
ghost use Rattle.vx_packet.specs.declared.assembly.Taken.{Taken};

/// A packet that a site takes is whole in its bytes exactly where it is in the world, and what is in assembly then is what the world has
/// there. What is whole is its message. None is bad. What stands in assembly stands there whatever is sent.
pub fn puts_together()
    ensures takes { (ps : List Packet) (site place : ℕ) (p : Packet) (g : Option Gathering) (old new : Assembled) (t : Taken) → AreOne ps → AssemblyStands ps site g old
        → slice_get ps place ≡ Some p → p.target ≡ site → CanFly p → TakesPart old (part_carried p) (payload_in (part_carried p) (carrier p)) t new
        → IsPutTo ps site g p t new }
    ensures later { (ps more : List Packet) (site : ℕ) (g : Option Gathering) (a : Assembled) → AssemblyStands ps site g a → AssemblyStands (ps ++ more) site g a }
{}

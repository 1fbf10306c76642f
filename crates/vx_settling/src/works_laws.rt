// What parts of a line that settles a link come to, one after another, and how the line ends by them.
ghost use Rattle.std.specs.Prelude.{◌≡◌, ◌≢◌, ◌⊎◌, ℕ, ◌+◌, ◌≤◌, ◌∷◌, ◌++◌, Bool, true, false, List, [], Some};
ghost use Rattle.vx_model.specs.Content.{Write};
ghost use Rattle.vx_model.specs.Sites.{is_origin};
ghost use Rattle.vx_model.specs.declared.limits.TheConstants.{MOST_NUMBER};
ghost use Rattle.vx_model.specs.declared.no.Counted.TheVariants.{Number};
ghost use Rattle.vx_model.specs.declared.no.No.{No};
ghost use Rattle.vx_model.specs.declared.no.No.TheVariants.{Device, Limit, Down as IsOff};
ghost use Rattle.vx_history.specs.Doubts.{Doubted, crashed_as, halved, happened};
ghost use Rattle.vx_history.specs.Events.{link_step, packet_at};
ghost use Rattle.vx_history.specs.Settling.{is_between};
ghost use Rattle.vx_history.specs.Stops.{IsFused, IsHeardAt, IsOpen};
ghost use Rattle.vx_history.specs.World.{Packet};
ghost use Rattle.vx_history.specs.declared.event.Event.{Event};
ghost use Rattle.vx_history.specs.declared.event.Event.TheVariants.{Apply, Connect, Deliver, Fault, Pump, Tick};
ghost use Rattle.vx_history.specs.declared.sender.Action.TheVariants.{Nothing as SendsNothing};
ghost use Rattle.vx_history.specs.declared.sender.SEvent.TheVariants.{Pump as PumpLink};
ghost use Rattle.vx_script.specs.declared.line.ScriptLine.TheVariants.{Settle};
ghost use Rattle.vx_events.specs.Facts.{site_number};
ghost use Rattle.vx_events.specs.Fails.{Fails, IsLogDisk, IsSiteDisk};
ghost use Rattle.vx_events.specs.LinkEnds.{AreLeft, LinkEnds};
ghost use Rattle.vx_events.specs.LinkFinds.{IsGivenUp, MayTake, PumpSends, kept_with, pumped_with, taken_with};
ghost use Rattle.vx_events.specs.LinkLists.{link_events};
ghost use Rattle.vx_events.specs.Parts.{StopsShort};
ghost use Rattle.vx_events.specs.Stamps.{most_stamp_at, stamps_of};
ghost use Rattle.vx_events.specs.declared.said.Said.{Said};
ghost use Rattle.vx_events.specs.declared.said.Said.TheVariants.{Refused, Settled};
ghost use Rattle.vx_settling.specs.Between.{IsSent, MayMove};
ghost use Rattle.vx_settling.specs.Kinds.{AreSettling};
ghost use Rattle.vx_settling.specs.Works.{Shortens, SettleStops, SettleWorks};

/// Each event of settling is done so, or stopped so, whether contents are told or not.
pub fn settling_works()
    ensures none { (t : Bool) (p s : ℕ) (d : Doubted) → MayMove p s d.world → SettleWorks (t ≡ true) p s d [] d }
    ensures connect { (t : Bool) (p s : ℕ) (d : Doubted) → MayMove p s d.world → SettleWorks (t ≡ true) p s d (Connect p s ∷ []) (happened d (Connect p s) false) }
    ensures tick { (t : Bool) (p s : ℕ) (d : Doubted) → MayMove p s d.world → SettleWorks (t ≡ true) p s d (Tick p s ∷ []) (happened d (Tick p s) false) }
    ensures pump { (t : Bool) (p s : ℕ) (d : Doubted) → MayMove p s d.world → SettleWorks (t ≡ true) p s d (Pump p s ∷ []) (happened d (Pump p s) false) }
    ensures pump_other { (t : Bool) (p s : ℕ) (d : Doubted) → MayMove p s d.world → (more : List Packet) → PumpSends d.world p s more → (t ≡ true → ⊥)
        → SettleWorks (t ≡ true) p s d (Pump p s ∷ []) (record d { world = pumped_with d.world p s more }) }
    ensures apply { (t : Bool) (p s : ℕ) (d : Doubted) → MayMove p s d.world → (count reached : ℕ) → SettleWorks (t ≡ true) p s d (Apply s count reached ∷ []) (happened d (Apply s count reached) false) }
    ensures deliver { (t : Bool) (p s : ℕ) (d : Doubted) → MayMove p s d.world → (number : ℕ) (q : Packet) → IsSent p s q → packet_at d.world.packets number ≡ Some q → is_between p s q ≡ true
        → SettleWorks (t ≡ true) p s d (Deliver number ∷ []) (happened d (Deliver number) false) }
    ensures take_other { (t : Bool) (p s : ℕ) (d : Doubted) → MayMove p s d.world → (number : ℕ) (q : Packet) → IsSent p s q → (x : Write) → (t ≡ true → ⊥) → (takes : MayTake d.world number q)
        → SettleWorks (t ≡ true) p s d (Deliver number ∷ []) (record d { world = taken_with d.world q takes.count x }) }
    ensures keep_other { (t : Bool) (p s : ℕ) (d : Doubted) → MayMove p s d.world → (number : ℕ) (q : Packet) → IsSent p s q → (t ≡ true → ⊥) → MayTake d.world number q
        → SettleWorks (t ≡ true) p s d (Deliver number ∷ []) (record d { world = kept_with d.world q }) }
    ensures lose_other { (t : Bool) (p s : ℕ) (d : Doubted) → MayMove p s d.world → (number : ℕ) (q : Packet) → IsSent p s q → (t ≡ true → ⊥) → SettleWorks (t ≡ true) p s d (Deliver number ∷ []) d }
    ensures unread { (t : Bool) (p s : ℕ) (d : Doubted) → MayMove p s d.world → (disk : ℕ) → (link_step d.world p s PumpLink).action ≢ SendsNothing → IsLogDisk (d.world.nodes p) disk → SettleStops (t ≡ true) p s d (Pump p s ∷ []) ((p, disk) ∷ []) (Refused (Device disk)) d }
    ensures header { (t : Bool) (p s : ℕ) (d : Doubted) → MayMove p s d.world → (number disk : ℕ) → IsOpen (d.world.nodes p) → IsHeardAt d.world number p → IsLogDisk (d.world.nodes p) disk
        → SettleStops (t ≡ true) p s d (Deliver number ∷ []) ((p, disk) ∷ []) (Refused (Device disk)) (halved d (Deliver number) p disk) }
    ensures header_cut { (t : Bool) (p s : ℕ) (d : Doubted) → MayMove p s d.world → (number kept : ℕ) (taken : Bool) → IsOpen (d.world.nodes p) → IsHeardAt d.world number p
        → IsFused (d.world.nodes p).fuse → SettleStops (t ≡ true) p s d (Deliver number ∷ []) [] (Refused IsOff) (crashed_as (halved d (Deliver number) p 0) p kept taken) }
    ensures header_lacks { (t : Bool) (p s : ℕ) (d : Doubted) → MayMove p s d.world → (number : ℕ) → IsHeardAt d.world number p
        → (t ≡ true → MOST_NUMBER ≤ most_stamp_at d.world p + stamps_of (Deliver number) d.world p) → SettleStops (t ≡ true) p s d (Deliver number ∷ []) [] (Refused (Limit Number MOST_NUMBER)) d }
    ensures applying { (t : Bool) (p s : ℕ) (d : Doubted) → MayMove p s d.world → (count reached disk : ℕ) → IsOpen (d.world.nodes s) → IsSiteDisk ((happened d (Fault s disk) false).world.nodes s) disk
        → SettleStops (t ≡ true) p s d (Apply s count reached ∷ []) ((s, disk) ∷ []) (Refused (Device disk)) (happened d (Fault s disk) false) }
    ensures applying_cut { (t : Bool) (p s : ℕ) (d : Doubted) → MayMove p s d.world → (count reached kept : ℕ) (taken : Bool) → kept ≤ (d.world.nodes s).safe + count → IsOpen (d.world.nodes s) → IsFused (d.world.nodes s).fuse
        → SettleStops (t ≡ true) p s d (Apply s count reached ∷ []) [] (Refused IsOff) (crashed_as (halved d (Fault s 0) s 0) s kept taken) }
    ensures applying_lacks { (t : Bool) (p s : ℕ) (d : Doubted) → MayMove p s d.world → (count reached : ℕ)
        → (t ≡ true → MOST_NUMBER ≤ most_stamp_at d.world s + stamps_of (Apply s count reached) d.world s)
        → SettleStops (t ≡ true) p s d (Apply s count reached ∷ []) [] (Refused (Limit Number MOST_NUMBER)) d }
    ensures gives_up { (t : Bool) (p s : ℕ) (d : Doubted) → MayMove p s d.world → (events : List Event) (why : No) → (t ≡ true → ⊥) → IsGivenUp why
        → SettleStops (t ≡ true) p s d events [] (Refused why) d }
    ensures short { (t : Bool) (p s : ℕ) (d : Doubted) → MayMove p s d.world → (events : List Event) → Shortens (t ≡ true) p s d events d }
{}

/// Parts of a line that settles a link follow one another: done, stopped or ended by want of memory, they are so as one part.
pub fn parts_of_settling_follow()
    ensures works { (t : Bool) (p s : ℕ) (d m : Doubted) (xs ys : List Event) (n : Doubted) → SettleWorks (t ≡ true) p s d xs m → SettleWorks (t ≡ true) p s m ys n → SettleWorks (t ≡ true) p s d (xs ++ ys) n }
    ensures stop_more { (t : Bool) (p s : ℕ) (d : Doubted) (xs ys : List Event) (fails : Fails) (said : Said) (last : Doubted) → SettleStops (t ≡ true) p s d xs fails said last
        → SettleStops (t ≡ true) p s d (xs ++ ys) fails said last }
    ensures stop_behind { (t : Bool) (p s : ℕ) (d m : Doubted) (xs ys : List Event) (fails : Fails) (said : Said) (last : Doubted) → AreSettling xs → SettleWorks (t ≡ true) p s d xs m
        → SettleStops (t ≡ true) p s m ys fails said last → SettleStops (t ≡ true) p s d (xs ++ ys) fails said last }
    ensures short_more { (t : Bool) (p s : ℕ) (d n : Doubted) (xs ys : List Event) → Shortens (t ≡ true) p s d xs n → Shortens (t ≡ true) p s d (xs ++ ys) n }
    ensures short_behind { (t : Bool) (p s : ℕ) (d m : Doubted) (xs ys : List Event) (n : Doubted) → SettleWorks (t ≡ true) p s d xs m → Shortens (t ≡ true) p s m ys n
        → Shortens (t ≡ true) p s d (xs ++ ys) n }
    ensures short_here { (t : Bool) (p s : ℕ) (d e : Doubted) (xs ys : List Event) → SettleWorks (t ≡ true) p s d xs e → Shortens (t ≡ true) p s d (xs ++ ys) e }
{}

/// As all its events are done, or as they are stopped or ended by want of memory, so a line that settles a link ends, where contents are told only as long as the
/// world has not strayed. It has settled it only where all that is durable is stored.
pub fn settling_ends_so()
    ensures done { (t : Bool) (d : Doubted) (p s : List ℕ) (last new : Doubted) → is_origin (d.world.nodes (site_number d.world p)).role ≡ true
        → SettleWorks ((t ≡ true) × (d.strayed ≡ false)) (site_number d.world p) (site_number d.world s) d (link_events d.world (Settle p s)) last
        → (d.world.nodes (site_number d.world p)).safe ≤ (last.world.links (site_number d.world p) (site_number d.world s)).stored
        → AreLeft (Settle p s) d last new → LinkEnds (t ≡ true) d (Settle p s) [] (Settled (d.world.nodes (site_number d.world p)).safe) new }
    ensures stopped { (t : Bool) (d : Doubted) (p s : List ℕ) (fails : Fails) (said : Said) (last new : Doubted)
        → SettleStops ((t ≡ true) × (d.strayed ≡ false)) (site_number d.world p) (site_number d.world s) d (link_events d.world (Settle p s)) fails said last → AreLeft (Settle p s) d last new
        → LinkEnds (t ≡ true) d (Settle p s) fails said new }
    ensures short { (t : Bool) (d : Doubted) (p s : List ℕ) (last : Doubted)
        → Shortens ((t ≡ true) × (d.strayed ≡ false)) (site_number d.world p) (site_number d.world s) d (link_events d.world (Settle p s)) last
        → (StopsShort (t ≡ true) d (Settle p s) d × (last ≡ d)) ⊎ ((new : Doubted) → AreLeft (Settle p s) d last new → StopsShort (t ≡ true) d (Settle p s) new) }
{}

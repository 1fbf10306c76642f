// What the events of settling leave of a world, and what is left of them.
ghost use Rattle.std.specs.Prelude.{◌≡◌, ℕ, zero, suc, ◌+◌, ◌<◌, ◌≤◌, ◌∷◌, ◌++◌, Bool, true, false, leb, List, [], length, drop, slice_get, Some, None};
ghost use Rattle.vx_history.specs.Doubts.{Doubted, Runs};
ghost use Rattle.vx_history.specs.Events.{packet_at};
ghost use Rattle.vx_history.specs.Settling.{MaySettle, deliver_between, is_between, settling, turn, turns};
ghost use Rattle.vx_history.specs.Step.{run, step};
ghost use Rattle.vx_history.specs.Stops.{IsFused, all_fails};
ghost use Rattle.vx_history.specs.World.{Packet, World};
ghost use Rattle.vx_history.specs.declared.event.Event.{Event};
ghost use Rattle.vx_events.specs.Doubts.{run_as};
ghost use Rattle.vx_history.specs.declared.event.Event.TheVariants.{Deliver};
ghost use Rattle.vx_settling.specs.Kinds.{AreSettling, StaysAs, is_settling};
ghost use Rattle.vx_settling.specs.Turning.{applying_all, greeting_if, sending_again};

/// Settling is made of events of five kinds. They leave each site and each link as it was, but for what a receiver takes and a link knows of it: so a link
/// that may be settled still may, and a fuse that is set was set before. None of them fails a disk or crashes a site by itself: they lead to one world.
pub fn settling_keeps()
    ensures all { (w : World) (p s : ℕ) → AreSettling (settling w p s) }
    ensures parts { (xs ys : List Event) → AreSettling (xs ++ ys) → AreSettling xs × AreSettling ys }
    ensures event { (w : World) (e : Event) → is_settling e ≡ true → StaysAs w (step w e).world }
    ensures events { (w : World) (es : List Event) → AreSettling es → StaysAs w (run w es) }
    ensures may { (w v : World) (p s : ℕ) → StaysAs w v → MaySettle w p s → MaySettle v p s }
    ensures fuses { (w v : World) (i : ℕ) → StaysAs w v → IsFused (v.nodes i).fuse → IsFused (w.nodes i).fuse }
    ensures fails { (es : List Event) → AreSettling es → all_fails es ≡ [] }
    ensures world { (d : Doubted) (es : List Event) → AreSettling es → run_as false d es ≡ record d { world = run d.world es } }
    ensures only { (d new : Doubted) (es : List Event) → AreSettling es → Runs d es new → new ≡ record d { world = run d.world es } }
{}

/// What is left of the events of settling behind each step of the loops that work them: all events are those that are done, and the rest. Packets that were
/// sent are looked at one by one, and those between the two sites delivered; a turn is what is sent again, what is applied, and a greeting where that has
/// brought nothing; turns go on until all that is durable is stored.
pub fn unfolds_settling()
    ensures next { (all done xs rest : List Event) → all ≡ done ++ (xs ++ rest) → all ≡ (done ++ xs) ++ rest }
    ensures last { (all done : List Event) → all ≡ done ++ [] → all ≡ done }
    ensures delivered { (p s k : ℕ) (qs : List Packet) (q : Packet) (all done : List Event) → slice_get qs k ≡ Some q → is_between p s q ≡ true
        → all ≡ done ++ deliver_between p s k (drop k qs) → all ≡ (done ++ Deliver (suc k) ∷ []) ++ deliver_between p s (suc k) (drop (suc k) qs) }
    ensures passed { (p s k : ℕ) (qs : List Packet) (q : Packet) (all done : List Event) → slice_get qs k ≡ Some q → is_between p s q ≡ false
        → all ≡ done ++ deliver_between p s k (drop k qs) → all ≡ done ++ deliver_between p s (suc k) (drop (suc k) qs) }
    ensures all_delivered { (p s k : ℕ) (qs : List Packet) (all done : List Event) → length qs ≤ k → all ≡ done ++ deliver_between p s k (drop k qs) → all ≡ done }
    ensures found { (w v : World) (k : ℕ) (q : Packet) → StaysAs w v → k < length w.packets → packet_at v.packets (suc k) ≡ Some q → slice_get w.packets k ≡ Some q }
    ensures given { (qs : List Packet) (k : ℕ) → k < length qs → (q : Packet) × (slice_get qs k ≡ Some q) }
    ensures gone { (w : World) (number : ℕ) → packet_at w.packets number ≡ None → (step w (Deliver number)).world ≡ record w { headers = λ i. w.headers i + 0 } }
    ensures turn { (w : World) (p s : ℕ) → turn w p s ≡ (let again : List Event = sending_again w p s in let v : World = run w again in let apply : List Event = applying_all v p s in
        again ++ (apply ++ greeting_if (w.links p s).stored (run v apply) p s)) }
    ensures over { (w : World) (p s : ℕ) (all done : List Event) (n : ℕ) → leb (w.nodes p).safe (w.links p s).stored ≡ true → all ≡ done ++ turns n w p s → all ≡ done }
    ensures on { (w : World) (p s : ℕ) (all done : List Event) (n : ℕ) → leb (w.nodes p).safe (w.links p s).stored ≡ false → all ≡ done ++ turns (suc n) w p s
        → all ≡ (done ++ turn w p s) ++ turns n (run w (turn w p s)) p s }
    ensures none { (w : World) (p s : ℕ) (all done : List Event) → all ≡ done ++ turns zero w p s → all ≡ done }
{}

// What the rule of a receiver promises of every event.
ghost use Rattle.std.specs.Prelude.{◌≡◌, ◌+◌, ◌-◌, ◌≤◌, ◌<◌, ℕ};
ghost use Rattle.vx_history.specs.Receiving.{received_step};
ghost use Rattle.vx_history.specs.declared.receiver.RState.{RState};
ghost use Rattle.vx_history.specs.declared.receiver.REvent.{REvent};
ghost use Rattle.vx_history.specs.declared.receiver.RAction.TheVariants.{Ignored, IgnoredAck, Take};
ghost use Rattle.vx_model.specs.declared.limits.TheConstants.{MOST_WAITING};
ghost use Rattle.vx_model.specs.declared.site.Mark.TheVariants.{Consistent, Inconsistent};
ghost use Rattle.vx_model.specs.declared.site.SPhase.TheVariants.{Log};

/// What is taken is the next number of all, and no more than `MOST_WAITING` records wait. A receiver becomes consistent only in a replay's
/// phase Log, where the records up to the replay's end are applied, and no event takes that from it. What is ignored changes
/// nothing.
pub fn takes_in_order()
    ensures next { (s : RState) (e : REvent) (number : ℕ) → (received_step s e).action ≡ Take number → (number ≡ s.last + 1) × ((received_step s e).state.last ≡ number) }
    ensures few { (s : RState) (e : REvent) → s.waiting ≤ MOST_WAITING → (received_step s e).state.waiting ≤ MOST_WAITING }
    ensures becomes { (s : RState) (e : REvent) → s.mark ≡ Inconsistent → (received_step s e).state.mark ≡ Consistent → (s.phase ≡ Log) × (s.end ≤ (received_step s e).state.last - (received_step s e).state.waiting) }
    ensures stays { (s : RState) (e : REvent) → s.mark ≡ Consistent → (received_step s e).state.mark ≡ Consistent }
    ensures ignored { (s : RState) (e : REvent) → (received_step s e).action ≡ Ignored → (received_step s e).state ≡ s }
    ensures again { (s : RState) (e : REvent) (number : ℕ) → (received_step s e).action ≡ IgnoredAck number → ((received_step s e).state ≡ s) × (number ≡ s.last) }
{}

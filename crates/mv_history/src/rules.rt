// A client's rules.
ghost use Rattle.std.specs.Prelude.{ℕ, List};
ghost use Rattle.mv_history.specs.State.{State, Writes};

/// A client's rules: which opening states are lawful, and which commits a client may make.
///
/// `allowed tag before writes` speaks of the state just before the commit.
pub trait Protocol {
    ghost start: { State → Type 0 };

    ghost allowed: { List ℕ → State → Writes → Type 0 };

    // Both are plain propositions, so that the facts which stores keep are.
    ghost one_start: { (s : State) → IsProp (start s) };

    ghost one_allowed: { (tag : List ℕ) (before : State) (writes : Writes) → IsProp (allowed tag before writes) };
}

/// The rules that allow every opening state and every commit.
pub struct AnyRules;

impl Protocol for AnyRules {
    ghost use Rattle.std.specs.Prelude.{⊤};
    ghost use Rattle.std.specs.Coded.{Unit-prop};

    ghost start = { λ s. ⊤ };

    ghost allowed = { λ tag before writes. ⊤ };

    ghost one_start = { λ s. Unit-prop };

    ghost one_allowed = { λ tag before writes. Unit-prop };
}

//! What a step over the table is of and what it tells, which is picked where the step is called, by a
//! `Transition` for `Brand`. The steps themselves are the functions of `shared::accesses`.
ghost use Rattle.std.specs.Prelude.{◌≡◌, ℕ};

use crate::view::Knowledge;
use atomic_table::Play;
use mv_history::{Protocol, Tag};
use std::marker::{Brand, PhantomData};

/// The numbers of the domain that a step is in, the word that it is of, what it tells of the number
/// found and of the view after, and the kind of move that it is.
pub(crate) trait Transition {
    ghost use Rattle.mv_core.specs.declared.view.Knowledge.{Knowledge};
    ghost use Rattle.mv_layout.specs.declared.Config.{Config};
    ghost use Rattle.mv_layout.specs.declared.SharedWord.{SharedWord};
    ghost use Rattle.mv_core.specs.Moves.{MoveKind};

    ghost config: { Config };

    ghost place: { SharedWord };

    ghost tells: { ℕ → Knowledge → Type 0 };

    ghost kind: { MoveKind };
}

impl Transition for Brand {
    ghost use Rattle.mv_layout.specs.declared.SharedWord.TheVariants.{Clock};
    ghost use Rattle.mv_core.specs.Moves.{load_low};

    ghost config = { record { seats = 0; objects = 0; slots = 0; write_max = 0; low = 0; high = 0; base = 0 } };

    ghost place = { Clock };

    ghost tells = { λ _ _. Unit {0} };

    ghost kind = { load_low };
}

/// A step that leaves what the pass has at run time.
pub(crate) struct QuietStep<P, J> {
    turn: PhantomData<(P, J)>,
}

impl<P: Protocol, J: Transition> Play<Tag, Knowledge> for QuietStep<P, J> {
    ghost use Rattle.std.specs.Prelude.{◌≡◌};
    ghost use Rattle.mv_core.specs.Known.{Known, KnownInDomain, RunsOn};
    ghost use Rattle.mv_core.specs.Rule.{IsKept};

    ghost then = { λ _ m n w. (J.tells n w.0 × RunsOn m.0 w.0) × IsKept m.0 w.0
        × (Known P.start P.allowed w.0 × KnownInDomain J.config w.0) × (w.1 ≡ m.1) };
}

/// A step after which its caller sets what the pass has at run time.
pub(crate) struct ToldAlone<P, J> {
    turn: PhantomData<(P, J)>,
}

impl<P: Protocol, J: Transition> Play<Tag, Knowledge> for ToldAlone<P, J> {
    ghost use Rattle.mv_core.specs.Known.{Known, KnownInDomain};
    ghost use Rattle.mv_core.specs.Rule.{IsKept};

    ghost then = { λ _ m n w. J.tells n w.0 × IsKept m.0 w.0 × (Known P.start P.allowed w.0 × KnownInDomain J.config w.0) × (w.1 ≡ m.1) };
}

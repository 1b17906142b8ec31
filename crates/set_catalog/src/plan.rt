// What a del leaves vacant.
ghost use Rattle.std.specs.Prelude.{◌≡◌, ◌-◌, ◌==◌, if◌then◌else◌};
ghost use Rattle.set_catalog.specs.Hinted.{gone_noted};

use crate::hints::Hints;
use crate::picks::Picked;

/// The objects that a del leaves vacant; each is 0 where there is none.
#[derive(Clone, Copy)]
pub struct Vacated {
    pub node: u32,
    pub inner: u32,
}

impl Vacated {
    pub(crate) fn nothing() -> Vacated
        ensures node { result.node ≡ 0 }
        ensures inner { result.inner ≡ 0 }
    {
        Vacated { node: 0, inner: 0 }
    }

    // How many vacant objects a move wants beside these, whose add takes so many.
    pub(crate) fn still_wanted(self, takes: u32) -> u32
        ensures { result ≡ takes - (if self.inner == 0 then 1 else 2) }
    {
        takes.saturating_sub(if self.inner == 0 { 1 } else { 2 })
    }

    // The vacant objects that a move's add takes: these first, and then what was picked.
    pub(crate) fn before(self, picked: Picked) -> Picked
        ensures first { result.first ≡ self.node }
        ensures second { result.second ≡ (if self.inner == 0 then picked.first else self.inner) }
    {
        Picked {
            first: self.node,
            second: if self.inner == 0 {
                picked.first
            } else {
                self.inner
            },
        }
    }

    /// Notes what became vacant.
    pub fn note(self, hints: &mut Hints)
        ensures { hints.new ≡ gone_noted hints.old self.node self.inner }
    {
        if self.node != 0 {
            hints.note(self.node);
        }
        if self.inner != 0 {
            hints.note(self.inner);
        }
    }
}

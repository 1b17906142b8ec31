// A section between two calls of a thread that can't keep a loan of its domain, and a seat that is let go.
use crate::domain::{Domain, Seat};
use crate::places::Idle;
use crate::session::{SectionState, Session};
use mv_history::Protocol;

/// A section without its loan of the domain: a value that borrows nothing, so that it can be kept beside
/// a share of the domain, as behind a pointer. `Domain::resume` makes it a `Session` again. It keeps its
/// mark and its locks, and with them the logs of all seats, so it must be spent: one that is let go
/// doesn't compile.
pub struct Parked<P: Protocol> {
    pub(crate) part: SectionState<P>,
}

impl<'d, P: Protocol> Session<'d, P> {
    ghost use Rattle.std.specs.Prelude.{◌≡◌};
    ghost use Rattle.mvrlu.specs.Meant.{aborts_before, aborts_parked, section_of, section_in};

    /// Gives the loan of the domain back, and keeps all that the section means. It makes no step.
    #[inline(always)]
    pub fn park(self) -> Parked<P>
        ensures meant { section_in result ≡ section_of self.entry }
        ensures aborts { aborts_parked result ≡ aborts_before self.entry }
    {
        let Session { domain: _, part } = self;
        Parked { part }
    }
}

impl<P: Protocol> Domain<P> {
    ghost use Rattle.std.specs.Prelude.{◌≡◌};
    ghost use Rattle.mvrlu.specs.Meant.{aborts_before, aborts_parked, section_of, section_in, IsSectionOf};

    /// Lends the domain to a section of one of its seats, which means what it meant before. It makes no
    /// step.
    #[inline(always)]
    pub fn resume<'d>(&'d self, parked: Parked<P>) -> Session<'d, P>
        requires { IsSectionOf self.now parked }
        ensures meant { section_of result ≡ section_in parked }
        ensures aborts { aborts_before result ≡ aborts_parked parked }
    {
        let Parked { part } = parked;
        Session { domain: self, part }
    }
}

impl<P: Protocol> Seat<P> {
    /// Ends the seat alone, and gives its memory back. It makes no step. Its versions stay in the domain
    /// for those who read them; its log takes no more. A domain one of whose seats was let go can't meet.
    pub fn let_go(self) {
        let Seat { idle } = self;
        let Idle { place } = idle;
        drop(place);
    }
}

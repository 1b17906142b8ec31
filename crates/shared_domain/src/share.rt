// A share of a domain.
ghost use Rattle.std.specs.Prelude.{◌≡◌, IfOk};
ghost use Rattle.mvrlu.specs.Meant.{numbers_of, IsSeatOf};

use crate::gathering::{Closed, Gathering};
use mv_history::Protocol;
use mvrlu::{Domain, Seat};
use std::alloc::{AllocError, Global};
use std::sync::Arc;

/// A share of a domain, which lasts as long as one of its shares does. It may go from one thread to another.
#[derive(Drop)]
pub struct Share<P: Protocol> {
    pub(crate) gathering: Arc<Gathering<P>, Global>,
}

impl<P: Protocol> Share<P> {
    ghost use Rattle.shared_domain.specs.Met.{Closes, domain_of, gathering_of};

    /// The first share of a domain that has so many seats. The error is want of memory; then the domain is
    /// let go.
    pub fn new(alloc: Global, domain: Domain<P>, seats: usize) -> Result<Share<P>, AllocError>
        requires count { seats ≡ (numbers_of domain).seats }
        ensures domain { IfOk result (λ share. domain_of share ≡ domain) }
    {
        let gathering = Gathering::new(alloc, domain, seats)?;
        match Arc::new(alloc, gathering) {
            Ok(gathering) => Ok(Share { gathering }),
            Err(_) => Err(AllocError),
        }
    }

    /// One more share of the same domain. The error is want of memory for the count of shares.
    pub fn try_clone(&self) -> Result<Share<P>, AllocError>
        ensures domain { IfOk result (λ share. domain_of share ≡ domain_of self.now) }
    {
        let gathering = Arc::try_clone(&self.gathering)?;
        Ok(Share { gathering })
    }

    /// The domain.
    #[inline(always)]
    pub fn domain(&self) -> &Domain<P>
        ensures { result.now ≡ domain_of self.now }
    {
        &self.gathering.domain
    }

    /// Puts the seat into its place, and gives the share up. If it was the last one, all seats of the domain
    /// meet. It never refuses and takes no memory.
    pub fn close(self, seat: Seat<P>) -> Closed<P>
        requires of { IsSeatOf (domain_of self) seat }
        ensures closes { Closes P.start P.allowed (gathering_of self) result }
    {
        let Share { gathering } = self;
        gathering.leave(seat);
        match Arc::into_inner(gathering) {
            None => Closed::Left,
            Some(gathering) => gathering.meet(),
        }
    }
}

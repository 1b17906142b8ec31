// That handles and sections of a domain may go to threads: each function here is proved only where
// that is so.
use mv_history::Protocol;
use mvrlu::{Domain, Handle, Seat, Session};

fn must_send<T: Send>(it: T) -> T {
    it
}

fn must_share<T: Sync>(_: &T) {}

/// A seat may go to another thread.
pub fn sends_seat<P: Protocol + Send + Sync>(it: Seat<P>) -> Seat<P> {
    must_send(it)
}

/// A handle may go to another thread.
pub fn sends_handle<P: Protocol + Send + Sync>(it: Handle<'_, P>) -> Handle<'_, P> {
    must_send(it)
}

/// A session may go to another thread.
pub fn sends_session<P: Protocol + Send + Sync>(it: Session<'_, P>) -> Session<'_, P> {
    must_send(it)
}

/// A domain may be shared by threads.
pub fn shares_domain<P: Protocol + Send + Sync>(it: &Domain<P>) {
    must_share(it)
}

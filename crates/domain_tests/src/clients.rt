// The clients of a domain: a seat each, outside a section or in one.
use mv_history::AnyRules;
use mvrlu::{Handle, Session};

// A seat of a domain that is lent to it.
pub(crate) enum Client<'d> {
    Outside(Handle<'d, AnyRules>),
    Inside(Session<'d, AnyRules>),
}

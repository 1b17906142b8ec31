// What a command on a growing hash set comes to in a state, before anything is locked.
ghost use Rattle.set_model.specs.declared.commands.Reply.TheVariants.{Yes, No};
ghost use Rattle.std.specs.Prelude.{◌≡◌, if◌then◌else◌};
ghost use Rattle.grow_hash.specs.Terms.{Add, Del};
ghost use Rattle.grow_hash.specs.Grown.{IsGrown, grown_name};
ghost use Rattle.grow_hash.specs.GrowPlans.{IsOfGrown};
ghost use Rattle.grow_hash.specs.GrowFindings.{IsGrowFound, reply_at_last};

use crate::search::{find, next, size, vacant};
use mv_history::{View, Words};
use set_model::{Command, Reply};

/// What a command comes to.
#[derive(Drop)]
pub enum GrowFinding {
    /// It changes nothing, and this is its reply.
    Settled(Reply),
    /// It changes something by these writes.
    Open([(u32, Words); 2]),
}

impl GrowFinding {
    /// The reply at the last time, where a change comes too late.
    pub fn at_last(self) -> Reply
        ensures { result ≡ reply_at_last self }
    {
        match self {
            GrowFinding::Settled(reply) => reply,
            GrowFinding::Open(_) => Reply::Worn,
        }
    }
}

/// Finds what the command comes to in the view's state, where a time is left. It walks along the bucket of
/// its key once; a `size` reads each object of each bucket once.
pub fn find_change<const LEVELS: u32, V: View>(view: &mut V, command: &Command) -> GrowFinding
    requires lawful { IsGrown LEVELS (V.state view.old) }
    requires command { IsOfGrown command.now }
    ensures found { IsGrowFound LEVELS command.now (V.state view.old) result }
    ensures as_before { V.as_before view.old view.new }
{
    match *command {
        Command::Add { key, .. } => find_add::<LEVELS, V>(view, key),
        Command::Del { key, .. } => find_del::<LEVELS, V>(view, key),
        Command::Has { key, .. } => GrowFinding::Settled(yes_or_no(
            find::<LEVELS, V>(view, key).window.has(key),
        )),
        Command::Size { .. } => GrowFinding::Settled(Reply::Count {
            count: size::<LEVELS, V>(view),
        }),
        Command::Next { key, .. } => GrowFinding::Settled(match next::<LEVELS, V>(view, key) {
            Some(key) => Reply::Key { key },
            None => Reply::NoKey,
        }),
        _ => unreachable!(),
    }
}

fn yes_or_no(holds: bool) -> Reply
    ensures { result ≡ (if holds then Yes else No) }
{
    if holds { Reply::Yes } else { Reply::No }
}

fn find_add<const LEVELS: u32, V: View>(view: &mut V, key: u32) -> GrowFinding
    requires lawful { IsGrown LEVELS (V.state view.old) }
    ensures found { IsGrowFound LEVELS (Add grown_name key) (V.state view.old) result }
    ensures as_before { V.as_before view.old view.new }
{
    let search = find::<LEVELS, V>(view, key);
    if search.window.has(key) {
        return GrowFinding::Settled(Reply::No);
    }
    match vacant::<LEVELS, V>(view, key) {
        None => GrowFinding::Settled(Reply::Full),
        Some(node) => GrowFinding::Open(search.window.add_writes(search.head, key, 0, node)),
    }
}

fn find_del<const LEVELS: u32, V: View>(view: &mut V, key: u32) -> GrowFinding
    requires lawful { IsGrown LEVELS (V.state view.old) }
    ensures found { IsGrowFound LEVELS (Del grown_name key) (V.state view.old) result }
    ensures as_before { V.as_before view.old view.new }
{
    let search = find::<LEVELS, V>(view, key);
    if search.window.has(key) {
        GrowFinding::Open(search.window.del_writes())
    } else {
        GrowFinding::Settled(Reply::No)
    }
}

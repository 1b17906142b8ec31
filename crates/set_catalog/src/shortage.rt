// What is known of how few nodes are vacant.
ghost use Rattle.std.specs.Prelude.{◌≡◌, ◌<◌, ◌==◌, nat_lt, not};
ghost use Rattle.set_catalog.specs.Needs.{first_tree};
ghost use Rattle.set_catalog.specs.Shortages.{few_at, followed, may_free};

use set_model::{Command, MOST_OBJECTS, Name};

// More than a store has nodes, so that fewer are vacant in each state.
const NO_BOUND: u32 = MOST_OBJECTS + 1;

// The number of the first name that is a tree's.
const FIRST_TREE: u32 = 20;

/// A time that a store has seen: in its state fewer than `few` nodes are vacant.
#[derive(Clone, Copy, Drop)]
pub struct Shortage {
    pub time: u64,
    pub few: u32,
}

impl Shortage {
    // What is known of each store: at its first time fewer nodes are vacant than any store has.
    pub fn unknown() -> Shortage
        ensures time { result.time ≡ 0 }
        ensures few { result.few ≡ NO_BOUND }
    {
        Shortage {
            time: 0,
            few: NO_BOUND,
        }
    }

    /// A number of which fewer nodes are vacant at this printed time.
    pub fn at(self, time: u64) -> u32
        ensures { result ≡ few_at self time }
    {
        if self.time == time {
            self.few
        } else {
            NO_BOUND
        }
    }

    // What is known after a commit of the command at this printed time. Where the commit follows the
    // known time, no other entry lies between; so if it frees nothing, no more nodes are vacant.
    pub fn after(self, command: &Command, time: u64) -> Shortage
        requires later { 0 < time }
        ensures { result ≡ followed self command.now time }
    {
        if self.time == time - 1 && !may_free(command) {
            Shortage {
                time,
                few: self.few,
            }
        } else {
            self
        }
    }
}

// Whether a change by the command may leave more nodes vacant than there were. A move out of a list or
// a bucket takes the one node again that it leaves.
fn may_free(command: &Command) -> bool
    ensures { result ≡ may_free command.now }
{
    match *command {
        Command::Del { .. } => true,
        Command::Move { source, .. } => is_tree(source),
        _ => false,
    }
}

// Whether the name is a tree's.
fn is_tree(name: Name) -> bool
    ensures { result ≡ not (nat_lt name first_tree) }
{
    name.index() >= FIRST_TREE
}

// The rules of the directory, and its opening state.
ghost use Rattle.std.specs.Prelude.{◌≡◌};
ghost use Rattle.directory.specs.Layout.{link_of};
ghost use Rattle.directory.specs.Moves.{IsOpening};

use crate::layout::DirectoryNode;
use mv_client::Record;
use mv_history::{Protocol, Words};

/// The objects 0 and 1 are the shelves: 0 of the archived users, 1 of the active ones.
pub const SHELVES: u32 = 2;

/// How many users there are. They are the objects 2 to 9.
pub const ENTRIES: u32 = 8;

/// How many objects there are.
pub const OBJECTS: u32 = 10;

/// The rules of the directory: each commit takes one user to the front of a shelf, and changes links alone.
pub struct Directory;

impl Protocol for Directory {
    ghost use Rattle.directory.specs.Moves.{IsOpening, IsMove};
    ghost use Rattle.directory.specs.MoveLaws.{IsOpening-prop, IsMove-prop};

    ghost start = { IsOpening };

    ghost allowed = { IsMove };

    ghost one_start = { IsOpening-prop };

    ghost one_allowed = { IsMove-prop };
}

/// An opening state in which all users are active.
pub fn opening() -> [Words; OBJECTS as usize]
    ensures { IsOpening result }
{
    [
        node_words(1, 0, 0),
        node_words(2, 0, 0),
        node_words(3, 101, 7001),
        node_words(4, 102, 7002),
        node_words(5, 103, 7003),
        node_words(6, 104, 7004),
        node_words(7, 105, 7005),
        node_words(8, 106, 7006),
        node_words(9, 107, 7007),
        node_words(0, 108, 7008),
    ]
}

// The words of a node with this link, id and hash.
fn node_words(next: u32, id: u64, hash: u64) -> Words
    ensures { link_of result ≡ next }
{
    let rest = [0; 3];
    let node = DirectoryNode {
        next,
        id,
        hash,
        rest,
    };
    node.to_words()
}

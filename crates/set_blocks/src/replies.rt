// The replies of a block.
ghost use Rattle.std.specs.Prelude.{◌≡◌, ◌<◌, ◌≤◌, ◌++◌, [], ◌∷◌, length, replicate, slice_get, Some};

use crate::block::MOST_IN_BLOCK;
use set_model::Reply;
use std::marker::Model;

/// The replies of a block's commands, in their order. It is seen as the list of them, and takes no memory.
#[derive(Drop)]
pub struct Replies {
    replies: [Reply; MOST_IN_BLOCK],
    count: u32,
}

impl Model for Replies {
    ghost use Rattle.std.specs.Prelude.{List, take, length, ◌≡◌, ◌≤◌};
    ghost use Rattle.set_model.specs.declared.commands.Reply.{Reply};

    ghost Value = { List Reply };

    ghost view = { λ r. take r.count r.replies };

    ghost invariant = { λ r. (r.count ≤ 8) × (length r.replies ≡ 8) };
}

impl Replies {
    /// No reply yet.
    pub(crate) fn new() -> Replies
        ensures { result ≡ [] }
    {
        Replies {
            replies: [Reply::No; MOST_IN_BLOCK],
            count: 0,
        }
    }

    /// As many times the same reply, at most `MOST_IN_BLOCK` times.
    pub(crate) fn all(reply: Reply, count: u32) -> Replies
        requires { count ≤ 8 }
        ensures { result ≡ replicate count reply }
    {
        Replies {
            replies: [reply; MOST_IN_BLOCK],
            count,
        }
    }

    /// Puts a reply behind those that are there, which are fewer than `MOST_IN_BLOCK`.
    pub(crate) fn push(&mut self, reply: Reply)
        requires { length self.old < 8 }
        ensures { self.new ≡ self.old ++ reply ∷ [] }
    {
        self.replies[self.count as usize] = reply;
        self.count += 1;
    }

    /// How many there are, at most `MOST_IN_BLOCK`.
    pub fn len(&self) -> u32
        ensures is { result ≡ length self.now }
        ensures few { result ≤ 8 }
    {
        self.count
    }

    /// The reply of the command of this index, counted from 0.
    pub fn get(&self, index: u32) -> Reply
        requires { index < length self.now }
        ensures { slice_get self.now index ≡ Some result }
    {
        self.replies[index as usize]
    }
}

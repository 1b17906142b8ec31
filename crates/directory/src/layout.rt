// What the objects of a directory say.
use mv_client::Record;
use mv_history::Words;

/// A shelf or a user, as its object's words say it. Of a shelf only the link is looked at.
#[derive(Clone, Copy, Debug, PartialEq, Eq)]
pub struct DirectoryNode {
    /// The link: the object behind this one.
    pub next: u32,
    /// The user's id.
    pub id: u64,
    /// The hash of the user's name.
    pub hash: u64,
    /// The words that have no name, which stay as they are.
    pub rest: [u64; 3],
}

// Which of the words has each field; those of `rest` come behind them.
const NEXT: usize = 0;

const ID: usize = 1;

const HASH: usize = 2;

const REST: usize = 3;

impl Record for DirectoryNode {
    ghost use Rattle.std.specs.Prelude.{◌^◌, ◌<◌, refl};
    ghost use Rattle.directory.specs.Layout.{words_of as node_words, node_in, link_of};

    ghost words_of = { node_words };

    ghost record_of = { node_in };

    ghost is_record = { λ node. node.next < 2 ^ 32 };

    ghost are_words = { λ words. link_of words < 2 ^ 32 };

    fn to_words(self) -> Words {
        let mut words = [0; 6];
        words[NEXT] = self.next as u64;
        words[ID] = self.id;
        words[HASH] = self.hash;
        words[REST] = self.rest[0];
        words[REST + 1] = self.rest[1];
        words[REST + 2] = self.rest[2];
        words
    }

    fn from_words(words: Words) -> DirectoryNode {
        DirectoryNode {
            next: words[NEXT] as u32,
            id: words[ID],
            hash: words[HASH],
            rest: [words[REST], words[REST + 1], words[REST + 2]],
        }
    }

    ghost words = { λ node is. is };

    ghost reads_back = { λ node is. refl };
}

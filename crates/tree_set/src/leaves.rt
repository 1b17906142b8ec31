// The walk over the leaves of a tree, in the order of their keys.
ghost use Rattle.std.specs.Prelude.{◌≡◌, ℕ, ◌<◌, ◌≤◌, ◌↔◌, List, length, IsTrue};
ghost use Rattle.set_model.specs.Catalogue.{Map, map_of};
ghost use Rattle.set_model.specs.CatalogueOf.{name_of, catalogue_of};
ghost use Rattle.set_model.specs.Lawful.{IsLawful};
ghost use Rattle.tree_set.specs.Leaves.{Passes, AfterNext};

use mv_history::View;
use set_model::word;

/// A leaf's key and value.
#[derive(Clone, Copy, Debug, PartialEq, Eq)]
pub struct Leaf {
    pub key: u32,
    pub value: u64,
}

/// Where a walk over the leaves of a tree stands, from the least key on.
///
/// At an inner node it goes left, and keeps the right link in a table of the caller's, so that each
/// node is read once. The table is the same one in each call.
#[derive(Clone, Copy)]
pub struct Leaves {
    // The node to which it comes next, or 0 once it is over.
    node: u32,
    // How many right links are pending, in the first places of the table.
    held: usize,
}

impl Leaves {
    /// A walk before the least key of the tree of this root, 170 to 179, in a lawful state. It reads
    /// the root alone.
    pub fn of<V: View>(view: &mut V, root: u32) -> Leaves
        requires root_from { 170 ≤ root }
        requires root_in { root < 180 }
        requires lawful { IsLawful (V.state view.old) }
        ensures walk { (table : List ℕ) → Passes (V.state view.old) table result (map_of (name_of root) (catalogue_of (V.state view.old))) }
        ensures as_before { V.as_before view.old view.new }
    {
        let node = view.read(root)[word::NEXT] as u32;
        Leaves { node, held: 0 }
    }

    /// Whether the walk has passed all leaves.
    pub fn is_over(&self) -> bool
        ensures { IsTrue result ↔ (self.now.node ≡ 0) }
    {
        self.node == 0
    }

    /// The next leaf's key and value. `None` where the walk is over, or where the table is full, which
    /// one of half as many places as the state has objects never is: each pending link has an inner node
    /// that the walk passed by and a node that it leads to. Then the walk goes on with a longer table that
    /// begins with the same links.
    ///
    /// It reads the inner nodes down to the leaf, and the leaf. It never refuses, and takes no memory.
    pub fn next<V: View>(&mut self, view: &mut V, pending: &mut [u32]) -> Option<Leaf>
        requires lawful { IsLawful (V.state view.old) }
        requires walk { (m : Map) × Passes (V.state view.old) pending.old self.old m }
        ensures next { (m : Map) → Passes (V.state view.old) pending.old self.old m → AfterNext (V.state view.old) pending.new self.new m result }
        ensures places { length pending.new ≡ length pending.old }
        ensures as_before { V.as_before view.old view.new }
    {
        if self.node == 0 {
            return None;
        }
        let mut words = view.read(self.node);
        while words[word::KIND] == word::INNER {
            if self.held == pending.len() {
                return None;
            }
            pending[self.held] = words[word::RIGHT] as u32;
            self.held += 1;
            self.node = words[word::LEFT] as u32;
            words = view.read(self.node);
        }
        if self.held == 0 {
            self.node = 0;
        } else {
            self.held -= 1;
            self.node = pending[self.held];
        }
        Some(Leaf {
            key: words[word::KEY] as u32,
            value: words[word::VALUE],
        })
    }
}

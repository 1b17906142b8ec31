// Where the search for a key in a set ended.
ghost use Rattle.std.specs.Prelude.{◌≡◌, ◌+◌, ◌<◌, ◌≤◌, ℕ, false, [], length};
ghost use Rattle.set_model.specs.Catalogue.{map_of, has_key, value_of};
ghost use Rattle.set_model.specs.CatalogueOf.{catalogue_of};
ghost use Rattle.set_model.specs.Lawful.{IsLawful};
ghost use Rattle.section_work.specs.Held.{count_unheld};
ghost use Rattle.set_catalog.specs.Ends.{EndsAt, HasHead, Wherever, Present, adds_at, objects_added, dels_at, node_gone, inner_gone, puts_at};
ghost use Rattle.set_catalog.specs.Merges.{writes_in, merged, PlansMore};
ghost use Rattle.set_catalog.specs.Needs.{AreEnough, taken};
ghost use Rattle.set_catalog.specs.Plans.{AddsWithin};

use crate::names::{Set, set_of};
use crate::picks::Picked;
use crate::plan::Vacated;
use hash_set::list_set;
use hash_set::list_set::{Fingers, Window};
use mv_history::View;
use set_model::{Name, word};
use tree_balance::tree_set::{Descent, tree_add_writes};
use tree_balance::{WritePlan, find_way, plan_add, tree_set};

/// Where the search for a key ended: all that a command needs to know of its set.
#[derive(Clone, Copy, Drop)]
pub enum End {
    /// In the list of this head, of a list or a bucket.
    InList { head: u32, window: Window },
    /// At this root, whose tree is empty.
    Empty { root: u32 },
    /// At a leaf of the tree of this root.
    InTree { root: u32, descent: Descent },
}

/// Searches the set of the name for the key. It makes one walk.
pub fn search<V: View>(view: &mut V, name: Name, key: u32) -> End
    requires lawful { IsLawful (V.state view.old) }
    ensures name_in { name < 30 }
    ensures ends { EndsAt (V.state view.old) name key result }
    ensures head { HasHead result }
    ensures as_before { V.as_before view.old view.new }
{
    search_near(view, &mut Fingers::none(), name, key)
}

// Searches the set of the name for the key, and begins in a list or a bucket at a finger. It makes one walk.
pub(crate) fn search_near<V: View>(view: &mut V, fingers: &mut Fingers, name: Name, key: u32) -> End
    requires lawful { IsLawful (V.state view.old) }
    ensures name_in { name < 30 }
    ensures ends { EndsAt (V.state view.old) name key result }
    ensures head { HasHead result }
    ensures as_before { V.as_before view.old view.new }
{
    match set_of(name) {
        Set::List(head) => End::InList {
            head,
            window: list_set::find_near(view, fingers, head, key),
        },
        Set::Table(set) => {
            let head = hash_set::bucket_of(set, key);
            End::InList {
                head,
                window: list_set::find_near(view, fingers, head, key),
            }
        }
        Set::Tree(root) => match tree_set::find(view, root, key) {
            None => End::Empty { root },
            Some(descent) => End::InTree { root, descent },
        },
    }
}

impl End {
    /// Whether the set has the key.
    pub fn has(&self, key: u32) -> bool
        ensures { Wherever self.now key (λ s name. result ≡ has_key key (map_of name (catalogue_of s))) }
    {
        match self {
            End::InList { window, .. } => window.has(key),
            End::Empty { .. } => false,
            End::InTree { descent, .. } => descent.has(key),
        }
    }

    /// The value of the key in the set, or none where it is not there.
    pub fn value(&self, key: u32) -> Option<u64>
        ensures { Wherever self.now key (λ s name. result ≡ value_of key (map_of name (catalogue_of s))) }
    {
        if !self.has(key) {
            return None;
        }
        match self {
            End::InList { window, .. } => Some(window.node_words[word::VALUE]),
            End::Empty { .. } => None,
            End::InTree { descent, .. } => Some(descent.words[word::VALUE]),
        }
    }

    // How many nodes a new key takes.
    pub(crate) fn takes(&self) -> u32
        ensures takes { (key : ℕ) → Wherever self.now key (λ s name. result ≡ taken name (map_of name (catalogue_of s))) }
        ensures few { result ≤ 2 }
    {
        match self {
            End::InList { .. } => 1,
            End::Empty { .. } => 1,
            End::InTree { .. } => 2,
        }
    }

    // Plans an add of the key, which is not there, with this value, in these vacant nodes.
    pub(crate) fn add(&self, plan: &mut WritePlan, key: u32, value: u64, picked: Picked)
        requires head { HasHead self.now }
        requires room { length (writes_in plan.old) + count_unheld (writes_in plan.old) (objects_added picked.first picked.second self.now) ≤ 16 }
        ensures writes { Wherever self.now key (λ s name. PlansMore plan.old plan.new (adds_at s key value picked.first picked.second self.now)) }
    {
        let Picked { first, second } = picked;
        match self {
            End::InList { head, window } => plan.write(&window.add_writes(
                *head, key, value, first,
            )),
            End::Empty { root } => plan.write(&tree_add_writes(*root, key, value, first)),
            End::InTree { root, descent } => {
                plan.write(&descent.grow_writes(*root, key, value, first, second))
            }
        }
    }

    // Plans an add of the key to the set of this name, where it is not, with this value, in these vacant nodes. In a
    // tree that has keys steps follow by which it stays short, within `most` objects beside the add's own, if that isn't 0.
    pub(crate) fn plan_new<V: View>(
        &self,
        plan: &mut WritePlan,
        view: &mut V,
        name: Name,
        key: u32,
        value: u64,
        picked: Picked,
        most: u32,
    )
        requires none { plan.old.count ≡ 0 }
        requires lawful { IsLawful (V.state view.old) }
        requires head { HasHead self.now }
        requires name_in { name < 30 }
        requires ends { EndsAt (V.state view.old) name key self.now }
        requires absent { has_key key (map_of name (catalogue_of (V.state view.old))) ≡ false }
        requires enough { AreEnough (V.state view.old) (taken name (map_of name (catalogue_of (V.state view.old)))) picked.first picked.second }
        requires most { most ≤ 12 }
        ensures plan { AddsWithin most (V.state view.old) name key value picked.first picked.second (writes_in plan.new) }
        ensures as_before { V.as_before view.old view.new }
    {
        if most == 0 {
            self.add(plan, key, value, picked);
            return;
        }
        match self {
            End::InTree { root, descent } => {
                let Picked { first, second } = picked;
                let way = find_way(view, *root, key);
                plan_add(
                    plan,
                    view,
                    *root,
                    key,
                    value,
                    descent,
                    &way,
                    first,
                    second,
                    most as usize,
                );
            }
            _ => self.add(plan, key, value, picked),
        }
    }

    // Plans a del of the key, which is there, and answers what it leaves vacant.
    pub(crate) fn del(&self, plan: &mut WritePlan) -> Vacated
        requires none { plan.old.count ≡ 0 }
        ensures writes { (key : ℕ) → Present self.now key (λ s. PlansMore plan.old plan.new (dels_at s self.now)) }
        ensures node { result.node ≡ node_gone self.now }
        ensures inner { result.inner ≡ inner_gone self.now }
    {
        match self {
            End::InList { window, .. } => {
                plan.write(&window.del_writes());
                Vacated {
                    node: window.node,
                    inner: 0,
                }
            }
            End::Empty { .. } => Vacated::nothing(),
            End::InTree { root, descent } => {
                let node = descent.leaf;
                if descent.parent == *root {
                    plan.write(&descent.bare_writes(*root));
                    Vacated { node, inner: 0 }
                } else {
                    plan.write(&descent.tree_del_writes());
                    Vacated {
                        node,
                        inner: descent.parent,
                    }
                }
            }
        }
    }

    // Plans a put of another value for the key, which is there.
    pub(crate) fn put(&self, plan: &mut WritePlan, value: u64)
        requires none { plan.old.count ≡ 0 }
        ensures writes { (key : ℕ) → Present self.now key (λ s. PlansMore plan.old plan.new (puts_at s value self.now)) }
    {
        match self {
            End::InList { window, .. } => plan.write(&window.put_writes(value)),
            End::Empty { .. } => {}
            End::InTree { descent, .. } => plan.write(&descent.put_writes(value)),
        }
    }
}

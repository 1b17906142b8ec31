// How deep a tree gets whose keys are added one after another, each by a command of its own.
use crate::comparing::must;
use crate::costs::add;
use crate::opening::open_sets;
use mv_history::{Section, Store, View};
use set_catalog::Hints;
use set_model::SetRules;
use std::process::Abort;
use std::test::Fail;

// The order in which the keys from 0 on are added.
#[derive(Clone, Copy)]
enum Order {
    Rising,
    Falling,
    FromBothEndsInwards,
}

// The key that is added at this place, of so many.
fn key_at(order: Order, count: u32, place: u32) -> u32 {
    let last = count.saturating_sub(1);
    match order {
        Order::Rising => place,
        Order::Falling => last.saturating_sub(place),
        Order::FromBothEndsInwards => {
            let half = place / 2;
            if place % 2 == 0 {
                half
            } else {
                last.saturating_sub(half)
            }
        }
    }
}

// The inner nodes above the leaf where the search for the key ends, in the tree of this root.
fn depth<V: View>(view: &mut V, root: u32, key: u32) -> u32 {
    let objects = view.objects();
    let mut object = root as u64;
    for above in 0..objects {
        if object >= view.objects() as u64 {
            return above;
        }
        let words = view.read(object as u32);
        if words[1] == 1 {
            return above.saturating_sub(1);
        }
        let left = words[1] == 0 || (key as u64) < words[2];
        object = if left { words[3] } else { words[4] };
    }
    objects
}

// The depth of the deepest of so many keys of the tree `t0`, and the store back.
fn deepest<S: Store<Rules = SetRules>>(store: S, count: u32) -> (S, u32) {
    let mut section = store.enter();
    let mut most = 0;
    for key in 0..count {
        let deep = depth(&mut section, 170, key);
        if deep > most {
            most = deep;
        }
    }
    (section.abort(), most)
}

// Adds so many keys to `t0` in this order.
fn add_all<S: Store<Rules = SetRules>>(
    rt: &impl Abort,
    mut store: S,
    hints: &mut Hints,
    order: Order,
    count: u32,
) -> S {
    for place in 0..count {
        store = add(rt, store, hints, 20, key_at(order, count, place));
    }
    store
}

// An order by its name, how many keys are added in it, and how deep the tree may be then: an AVL tree of so many
// leaves is at most so deep, since one of depth d + 2 has at least the leaves of one of d and of one of d + 1.
static ORDERS: [(&str, Order, u32, u32); 3] = [
    ("rising keys", Order::Rising, 376, 11),
    ("falling keys", Order::Falling, 376, 11),
    (
        "keys from both ends inwards",
        Order::FromBothEndsInwards,
        376,
        11,
    ),
];

#[test]
fn a_tree_stays_short_whatever_the_order_of_its_keys(rt: HostRuntime) -> Result<(), Fail> {
    for (name, order, count, most) in &ORDERS {
        let mut hints = Hints::new(rt.alloc(), 1)?;
        let store = open_sets(&rt, rt.alloc(), 1000, 1000)?;
        let store = add_all(&rt, store, &mut hints, *order, *count);
        let (_store, deep) = deepest(store, *count);
        must(&rt, deep <= *most, name);
    }
    Ok(())
}

// Searches that begin at a node where an earlier one ended.
ghost use Rattle.std.specs.Prelude.{◌≡◌, ◌<◌, ◌≤◌, IfSome};
ghost use Rattle.set_model.specs.Catalogue.{has_key, value_of, next_key};
ghost use Rattle.set_model.specs.CatalogueOf.{map_at};
ghost use Rattle.set_model.specs.Lawful.{IsLawful};
ghost use Rattle.list_set.specs.Windows.{EndsHere, StopsHere};
ghost use Rattle.list_set.specs.Walks.{IsBehind};

use crate::key_window::{KEY, KeyWindow, walk_from};
use crate::search::{Window, window_at};
use mv_history::View;
use std::alloc::{AllocError, Global};

// The place of the owner among an object's words, and the place before its value.
const OWNER: u32 = 0;

const BEFORE_VALUE: u32 = 4;

// The first object that is a node; those below are heads.
const FIRST_NODE: u32 = 180;

// The heads of the lists, 0 to 9, have the most fingers, and those of the buckets, 10 to 169, fewer.
const LISTS: usize = 10;

const BUCKETS: usize = 160;

// The most fingers of a list, and those of a bucket.
const OF_LIST: usize = 32;

const OF_BUCKET: usize = 8;

// A walk past more nodes of a list, or of a bucket, leaves a finger where it ended.
const LONG_IN_LIST: u32 = 16;

const LONG_IN_BUCKET: u32 = 4;

// A node of a list, by its key then; 0 is none.
#[derive(Clone, Copy, Drop)]
struct Finger {
    node: u32,
    key: u64,
}

/// Fingers into lists and buckets: nodes where long walks ended, so that a later search seldom begins at
/// the head.
///
/// A finger may be wrong, since nodes are taken out of lists and come into others. So a search reads the
/// node in its own view, and begins there only where it is in the list, with the key that it had. No
/// clause speaks of what fingers there are. Searches in blocks and growing sets have none.
#[derive(Drop)]
pub struct Fingers {
    // Boxed, so that who moves a store with its fingers moves few words; None in the form that takes no
    // memory.
    table: Option<Box<Table>>,
}

// The fingers of all heads.
#[derive(Drop)]
struct Table {
    // `OF_LIST` for each list and then `OF_BUCKET` for each bucket, of each head those that are none last.
    fingers: Vec<Finger>,
    // Which one of a head is replaced next.
    turn: u32,
}

impl Finger {
    fn none() -> Finger {
        Finger { node: 0, key: 0 }
    }

    // The last node before the key that was looked for, or the first node where none is before it.
    fn at(key_window: &KeyWindow) -> Finger {
        if key_window.previous >= FIRST_NODE {
            Finger {
                node: key_window.previous,
                key: key_window.previous_key,
            }
        } else {
            Finger {
                node: key_window.node,
                key: key_window.node_key,
            }
        }
    }
}

impl Fingers {
    /// No fingers yet, with room for 32 of each list and 8 of each bucket. The error is want of memory; no
    /// other call takes memory.
    pub fn new(alloc: Global) -> Result<Fingers, AllocError> {
        let fingers = vec![in alloc; Finger::none(); LISTS * OF_LIST + BUCKETS * OF_BUCKET]?;
        let table = Box::new(alloc, Table { fingers, turn: 0 })?;
        Ok(Fingers { table: Some(table) })
    }

    /// No fingers, with room for none. It takes no memory.
    pub fn none() -> Fingers {
        Fingers { table: None }
    }

    // The finger of the list with the greatest key below this one, and where it is kept.
    fn nearest(&self, head: u32, key: u32) -> (usize, Finger)
        requires { head < 170 }
    {
        let mut place = 0;
        let mut nearest = Finger::none();
        let Some(table) = &self.table else {
            return (place, nearest);
        };
        let fingers = &table.fingers;
        let (first, most) = places_of(head);
        if first + most > fingers.len() {
            return (place, nearest);
        }
        for i in first..first + most {
            let finger = fingers[i];
            if finger.node == 0 {
                return (place, nearest);
            }
            if finger.key < key as u64 && finger.key >= nearest.key {
                place = i;
                nearest = finger;
            }
        }
        (place, nearest)
    }

    // Keeps a finger there.
    fn keep(&mut self, place: usize, finger: Finger) {
        let Some(table) = &mut self.table else {
            return;
        };
        if place < table.fingers.len() {
            table.fingers[place] = finger;
        }
    }

    // Keeps one more finger of the list.
    fn keep_more(&mut self, head: u32, finger: Finger)
        requires { head < 170 }
    {
        if let Some(table) = &mut self.table {
            let place = table.place_for(head);
            self.keep(place, finger);
        }
    }
}

impl Table {
    // Where the next finger of the list is kept: where there is none yet, or else in the place of one.
    fn place_for(&mut self, head: u32) -> usize
        requires { head < 170 }
    {
        let (first, most) = places_of(head);
        for i in first..first + most {
            if i < self.fingers.len() && self.fingers[i].node == 0 {
                return i;
            }
        }
        self.turn = self.turn.wrapping_add(1);
        first + self.turn as usize % most
    }
}

// Where the fingers of a head are kept: the first place, and how many there are.
fn places_of(head: u32) -> (usize, usize)
    requires { head < 170 }
    ensures few { result.0 ≤ 1592 }
    ensures some { (0 < result.1) × (result.1 ≤ 32) }
{
    let head = head as usize;
    if head < LISTS {
        (head * OF_LIST, OF_LIST)
    } else {
        (LISTS * OF_LIST + (head - LISTS) * OF_BUCKET, OF_BUCKET)
    }
}

// Whether a walk past so many nodes of the list of this head leaves a finger.
fn is_long(head: u32, passed: u32) -> bool {
    let long = if (head as usize) < LISTS {
        LONG_IN_LIST
    } else {
        LONG_IN_BUCKET
    };
    passed > long
}

/// Where the key is, or belongs, in the list of the head, as `find` answers it.
///
/// It needs what `find` needs. It begins at the finger of the list with the greatest key below `key`
/// where that still is a node of the list, and else at the head; from there on it reads as `find` does.
/// A long walk leaves a finger. It takes no memory.
pub fn find_near<V: View>(view: &mut V, fingers: &mut Fingers, head: u32, key: u32) -> Window
    requires head_in { head < 170 }
    requires lawful { IsLawful (V.state view.old) }
    ensures window { EndsHere (V.state view.old) head key result }
    ensures as_before { V.as_before view.old view.new }
{
    let key_window = walk_near(view, fingers, head, key);
    window_at(view, head, key, key_window)
}

/// Whether the list of this head has the key, as `has_in` answers it.
///
/// It needs what `find_near` needs, and walks as it does; it reads no more than the key and the link of
/// each object.
pub fn has_near<V: View>(view: &mut V, fingers: &mut Fingers, head: u32, key: u32) -> bool
    requires head_in { head < 170 }
    requires lawful { IsLawful (V.state view.old) }
    ensures has { result ≡ has_key key (map_at (V.state view.old) head) }
    ensures as_before { V.as_before view.old view.new }
{
    walk_near(view, fingers, head, key).has(key)
}

/// The value of the key in the list of this head, or `None` exactly where the key is not there, as `get_in`
/// answers it.
///
/// It needs what `find_near` needs, and reads as `has_near` does, and then the value.
pub fn get_near<V: View>(view: &mut V, fingers: &mut Fingers, head: u32, key: u32) -> Option<u64>
    requires head_in { head < 170 }
    requires lawful { IsLawful (V.state view.old) }
    ensures value { result ≡ value_of key (map_at (V.state view.old) head) }
    ensures as_before { V.as_before view.old view.new }
{
    let key_window = walk_near(view, fingers, head, key);
    if key_window.has(key) {
        let (_, value) = view.read_pair(key_window.node, BEFORE_VALUE);
        Some(value)
    } else {
        None
    }
}

/// The least key of the list of this head that is not below `key`, or `None` where each is, as `next_in`
/// answers it.
///
/// It needs what `find_near` needs, and reads as `has_near` does.
pub fn next_near<V: View>(view: &mut V, fingers: &mut Fingers, head: u32, key: u32) -> Option<u32>
    requires head_in { head < 170 }
    requires lawful { IsLawful (V.state view.old) }
    ensures next { result ≡ next_key key (map_at (V.state view.old) head) }
    ensures as_before { V.as_before view.old view.new }
{
    walk_near(view, fingers, head, key).next()
}

// Where the key is, or belongs, in the list of the head, by keys alone. It begins at a finger, and a long
// walk leaves one.
fn walk_near<V: View>(view: &mut V, fingers: &mut Fingers, head: u32, key: u32) -> KeyWindow
    requires head_in { head < 170 }
    requires lawful { IsLawful (V.state view.old) }
    ensures stops { StopsHere (V.state view.old) head key result }
    ensures as_before { V.as_before view.old view.new }
{
    let (place, finger) = fingers.nearest(head, key);
    let (from, first) = begin(view, head, key, finger);
    let (key_window, passed) = walk_from(view, head, key, from, finger.key, first);
    if finger.node != 0 && from == head {
        fingers.keep(place, Finger::at(&key_window));
    } else if is_long(head, passed) {
        fingers.keep_more(head, Finger::at(&key_window));
    }
    key_window
}

// Where a walk along the list of the head begins that looks for the key, and the link there: at the
// finger's node, or else at the head.
fn begin<V: View>(view: &mut V, head: u32, key: u32, finger: Finger) -> (u32, u64)
    requires head_in { head < 170 }
    requires lawful { IsLawful (V.state view.old) }
    ensures behind { IsBehind (V.state view.old) head key result.0 result.1 }
    ensures as_before { V.as_before view.old view.new }
{
    if let Some(first) = link_behind(view, head, key, finger) {
        return (finger.node, first);
    }
    let (_, first) = view.read_pair(head, KEY);
    (head, first)
}

// The link of the finger's node, where it is a node of the list, with the finger's key, which is below
// `key`.
fn link_behind<V: View>(view: &mut V, head: u32, key: u32, finger: Finger) -> Option<u64>
    ensures behind { IfSome result (λ first. IsBehind (V.state view.old) head key finger.node first) }
    ensures as_before { V.as_before view.old view.new }
{
    let node = finger.node;
    if node < FIRST_NODE || node >= view.objects() {
        return None;
    }
    let (owner, _) = view.read_pair(node, OWNER);
    let (node_key, next) = view.read_pair(node, KEY);
    if owner != head as u64 + 1 || node_key != finger.key || node_key >= key as u64 {
        return None;
    }
    Some(next)
}

// The search for vacant objects.
ghost use Rattle.std.specs.Prelude.{◌≡◌, ◌≢◌, ℕ, ◌<◌, ◌≤◌, ◌⊎◌, ◌↔◌, [], length, IsTrue, IfSome, IfNone, MatchOption};
ghost use Rattle.set_catalog.specs.Picks.{IsVacant, vacant_nodes, ArePicked, TriesHints, TriesFor, AllTried};
ghost use Rattle.set_model.specs.Objects.{most_objects};

use crate::hints::Hints;
use crate::names::FIRST_NODE;
use mv_history::View;
use set_model::word;

/// Vacant objects: `first`, and where two were wanted a different `second`, else 0.
#[derive(Clone, Copy, Debug, PartialEq, Eq)]
pub struct Picked {
    pub first: u32,
    pub second: u32,
}

// A store of so many objects at most is looked through at once, from where the last look ended.
const FEW_OBJECTS: u32 = 65_535;

// How many nodes a look in a larger one tries from there on, and then of those that lie far from one another.
const NEAR: u32 = 8;

const FAR: u32 = 1024;

// Strides in millionths of all nodes: of such a look, and from the share of one seat to that of the next one. Any number of strides
// of one kind leaves no large gap (a golden and a plastic number), and the nodes of one seat's look are not those of another's.
const LOOK_STRIDE: u64 = 618_034;

const SEAT_STRIDE: u64 = 754_878;

/// Finds `want` vacant objects, 1 or 2, from 180 on.
///
/// It needs a view of 181 to 16,777,216 objects. None exactly where fewer than `want` objects from 180 on
/// are vacant in the view's state.
///
/// Hints are tried before other objects, the last noted first, and those that were tried are gone: a
/// wrong one, and one that is picked. Where none is left, it looks through the nodes, from where the
/// last look ended (the first one begins at the seat's own share) and once round; among more than 65,535
/// objects it tries 8 nodes from there on, and 1,023 that lie far from one another, before that. It takes
/// no memory.
pub fn pick<V: View>(view: &mut V, hints: &mut Hints, want: u32) -> Option<Picked>
    requires want { (want ≡ 1) ⊎ (want ≡ 2) }
    requires some { 180 < length (V.state view.old) }
    requires few { length (V.state view.old) ≤ most_objects }
    ensures none { MatchOption result (vacant_nodes (V.state view.old) < want) (λ p. want ≤ vacant_nodes (V.state view.old)) }
    ensures picked { IfSome result (λ p. ArePicked (V.state view.old) want p.first p.second) }
    ensures hints { IfSome result (λ p. TriesHints (V.state view.old) hints.old hints.new p.first p.second) }
    ensures none_left { IfNone result (hints.new.objects ≡ []) }
    ensures room { hints.new.room ≡ hints.old.room }
    ensures as_before { V.as_before view.old view.new }
{
    let first = another(view, hints, 0)?;
    if want == 1 {
        return Some(Picked { first, second: 0 });
    }
    let second = another(view, hints, first)?;
    Some(Picked { first, second })
}

// A vacant object other than this one.
fn another<V: View>(view: &mut V, hints: &mut Hints, but: u32) -> Option<u32>
    requires some { 180 < length (V.state view.old) }
    requires few { length (V.state view.old) ≤ most_objects }
    ensures found { MatchOption result ((o : ℕ) → IsVacant (V.state view.old) o → o ≡ but) (λ o. IsVacant (V.state view.old) o × (o ≢ but)) }
    ensures hints { IfSome result (λ o. TriesFor (V.state view.old) hints.old hints.new but o) }
    ensures none_left { IfNone result (hints.new.objects ≡ []) }
    ensures room { hints.new.room ≡ hints.old.room }
    ensures as_before { V.as_before view.old view.new }
{
    match hinted(view, hints, but) {
        Some(object) => Some(object),
        None => look(view, hints, but),
    }
}

// The last hint that is vacant, other than this object.
fn hinted<V: View>(view: &mut V, hints: &mut Hints, but: u32) -> Option<u32>
    requires some { 180 < length (V.state view.old) }
    requires few { length (V.state view.old) ≤ most_objects }
    ensures found { IfSome result (λ o. IsVacant (V.state view.old) o × (o ≢ but)) }
    ensures hints { MatchOption result (AllTried (V.state view.old) hints.old hints.new but) (λ o. TriesFor (V.state view.old) hints.old hints.new but o) }
    ensures as_before { V.as_before view.old view.new }
{
    while let Some(object) = hints.take() {
        if object != but && is_vacant(view, object) {
            return Some(object);
        }
    }
    None
}

// A vacant node other than this one, from where the last look ended. Among many objects it tries some nodes that lie
// far from one another before it goes once round.
fn look<V: View>(view: &mut V, hints: &mut Hints, but: u32) -> Option<u32>
    requires some { 180 < length (V.state view.old) }
    requires few { length (V.state view.old) ≤ most_objects }
    ensures found { MatchOption result ((o : ℕ) → IsVacant (V.state view.old) o → o ≡ but) (λ o. IsVacant (V.state view.old) o × (o ≢ but)) }
    ensures hints { hints.new ≡ hints.old }
    ensures as_before { V.as_before view.old view.new }
{
    let objects = view.objects();
    let from = match hints.next() {
        Some(object) => object.clamp(FIRST_NODE, objects),
        None => far_node(objects, FIRST_NODE, hints.seat(), SEAT_STRIDE),
    };
    let found = match vacant_soon(view, from, but) {
        Some(object) => Some(object),
        None => vacant_round(view, from, but),
    };
    if let Some(object) = found {
        hints.look_on_from(object + 1);
    }
    found
}

// A vacant node other than this one, from this one on and once round.
fn vacant_round<V: View>(view: &mut V, from: u32, but: u32) -> Option<u32>
    requires from { (180 ≤ from) × (from ≤ length (V.state view.old)) }
    requires few { length (V.state view.old) ≤ most_objects }
    ensures found { MatchOption result ((o : ℕ) → IsVacant (V.state view.old) o → o ≡ but) (λ o. IsVacant (V.state view.old) o × (o ≢ but)) }
    ensures as_before { V.as_before view.old view.new }
{
    let objects = view.objects();
    match vacant_between(view, from, objects, but) {
        Some(object) => Some(object),
        None => vacant_between(view, FIRST_NODE, from, but),
    }
}

// Among many objects, a vacant node other than this one: of the next ones, or of some that lie far from one another.
// Where it finds none, one may be vacant.
fn vacant_soon<V: View>(view: &mut V, from: u32, but: u32) -> Option<u32>
    requires some { 180 < length (V.state view.old) }
    requires from { (180 ≤ from) × (from ≤ length (V.state view.old)) }
    requires few { length (V.state view.old) ≤ most_objects }
    ensures found { IfSome result (λ o. IsVacant (V.state view.old) o × (o ≢ but)) }
    ensures as_before { V.as_before view.old view.new }
{
    let objects = view.objects();
    if objects <= FEW_OBJECTS {
        return None;
    }
    match vacant_between(view, from, (from + NEAR).min(objects), but) {
        Some(object) => Some(object),
        None => vacant_far(view, from, but),
    }
}

// A vacant node other than this one, of some that lie far from one another.
fn vacant_far<V: View>(view: &mut V, from: u32, but: u32) -> Option<u32>
    requires some { 180 < length (V.state view.old) }
    requires from { (180 ≤ from) × (from ≤ length (V.state view.old)) }
    requires few { length (V.state view.old) ≤ most_objects }
    ensures found { IfSome result (λ o. IsVacant (V.state view.old) o × (o ≢ but)) }
    ensures as_before { V.as_before view.old view.new }
{
    let objects = view.objects();
    for strides in 1..FAR {
        let object = far_node(objects, from, strides, LOOK_STRIDE);
        if object != but && is_vacant(view, object) {
            return Some(object);
        }
    }
    None
}

// The node that lies so many strides behind this one, round and round. A stride is so many millionths of all nodes.
fn far_node(objects: u32, from: u32, strides: u32, millionths: u64) -> u32
    requires some { 180 < objects }
    requires few { objects ≤ most_objects }
    requires from { (180 ≤ from) × (from ≤ objects) }
    requires part { millionths ≤ 1000000 }
    ensures { (180 ≤ result) × (result ≤ objects) }
{
    let nodes = u64::from(objects - FIRST_NODE);
    let stride = nodes * millionths / 1_000_000;
    let place = u64::from(from - FIRST_NODE) + u64::from(strides) * stride;
    FIRST_NODE + (place % nodes) as u32
}

// The first vacant object of a range of nodes, other than this one.
fn vacant_between<V: View>(view: &mut V, from: u32, end: u32, but: u32) -> Option<u32>
    requires nodes { 180 ≤ from }
    requires within { end ≤ length (V.state view.old) }
    requires few { length (V.state view.old) ≤ most_objects }
    ensures found { MatchOption result ((o : ℕ) → from ≤ o → o < end → IsVacant (V.state view.old) o → o ≡ but)
        (λ o. IsVacant (V.state view.old) o × (o ≢ but)) }
    ensures as_before { V.as_before view.old view.new }
{
    for object in from..end {
        if object != but && is_vacant(view, object) {
            return Some(object);
        }
    }
    None
}

// Whether the object is a node, and vacant.
fn is_vacant<V: View>(view: &mut V, object: u32) -> bool
    requires few { length (V.state view.old) ≤ most_objects }
    ensures vacant { IsTrue result ↔ IsVacant (V.state view.old) object }
    ensures as_before { V.as_before view.old view.new }
{
    object >= FIRST_NODE && object < view.objects() && view.read(object)[word::OWNER] == 0
}

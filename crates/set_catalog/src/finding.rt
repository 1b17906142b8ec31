// What a command comes to in a state, before anything is locked.
ghost use Rattle.std.specs.Prelude.{◌≡◌, ◌<◌, ◌≤◌, ℕ, true, false, if◌then◌else◌, IfSome, MatchOption};
ghost use Rattle.set_model.specs.Catalogue.{map_of, has_key};
ghost use Rattle.set_model.specs.CatalogueOf.{catalogue_of};
ghost use Rattle.set_model.specs.Lawful.{IsLawful};
ghost use Rattle.set_model.specs.declared.commands.Command.{Command};
ghost use Rattle.set_model.specs.declared.commands.Command.TheVariants.{Add, Put, Del, Has, Get, Move, Pair, Size, Next};
ghost use Rattle.set_model.specs.declared.commands.Reply.TheVariants.{Yes, No};
ghost use Rattle.set_catalog.specs.Hinted.{TakesHints};
ghost use Rattle.set_catalog.specs.Ends.{EndsAt, HasHead};
ghost use Rattle.set_catalog.specs.Picks.{vacant_nodes};
ghost use Rattle.set_catalog.specs.Needs.{AreEnough, may_change, wanted};
ghost use Rattle.set_catalog.specs.Findings.{IsFound, IsFoundWithin, IsNew, reply_at_last, with_plan};
ghost use Rattle.set_catalog.specs.declared.finding.Finding.TheVariants.{Settled};

use crate::ends::{End, search_near};
use crate::hints::Hints;
use crate::outcome::PlanOutcome;
use crate::picks::{Picked, pick};
use crate::plan::Vacated;
use crate::sets::{has, next, size, value};
use hash_set::list_set::Fingers;
use mv_history::View;
use set_model::{Command, Name, Reply};
use tree_balance::WritePlan;

/// What a command comes to.
#[derive(Drop)]
pub enum Finding {
    /// It changes nothing, and this is its reply.
    Settled(Reply),
    /// It changes something by these writes, and a del leaves these objects vacant.
    Open { plan: WritePlan, gone: Vacated },
}

impl Finding {
    /// The reply at the last time, where a change comes too late.
    pub fn at_last(self) -> Reply
        ensures { result ≡ reply_at_last self }
    {
        match self {
            Finding::Settled(reply) => reply,
            Finding::Open { .. } => Reply::Worn,
        }
    }
}

/// Finds what the command comes to in the view's state, where a time is left. It searches each set of
/// the command once. Where a new key wants vacant objects it looks for them, unless it is known that
/// there are too few: fewer than `few` nodes are vacant in that state, and what a look finds of that
/// stands in `few` afterwards.
pub fn find_plan<V: View>(
    view: &mut V,
    hints: &mut Hints,
    few: &mut u32,
    command: &Command,
) -> Finding
    requires lawful { IsLawful (V.state view.old) }
    requires few { vacant_nodes (V.state view.old) < few.old }
    ensures found { IsFound command.now (V.state view.old) result }
    ensures few { vacant_nodes (V.state view.old) < few.new }
    ensures hints { TakesHints hints.old hints.new }
    ensures untouched { wanted command.now (catalogue_of (V.state view.old)) ≡ 0 → hints.new ≡ hints.old }
    ensures as_before { V.as_before view.old view.new }
{
    let mut plan = WritePlan::nothing();
    find_plan_near(&mut plan, view, hints, &mut Fingers::none(), few, command).with(plan)
}

/// Finds what the command comes to, as `find_plan` does, by searches that begin at fingers, and plans its writes in a plan of the
/// caller's, whatever that has.
pub fn find_plan_near<V: View>(
    plan: &mut WritePlan,
    view: &mut V,
    hints: &mut Hints,
    fingers: &mut Fingers,
    few: &mut u32,
    command: &Command,
) -> PlanOutcome
    requires lawful { IsLawful (V.state view.old) }
    requires few { vacant_nodes (V.state view.old) < few.old }
    ensures found { IsFound command.now (V.state view.old) (with_plan result plan.new) }
    ensures few { vacant_nodes (V.state view.old) < few.new }
    ensures hints { TakesHints hints.old hints.new }
    ensures untouched { wanted command.now (catalogue_of (V.state view.old)) ≡ 0 → hints.new ≡ hints.old }
    ensures as_before { V.as_before view.old view.new }
{
    match answer(view, fingers, command) {
        Some(reply) => PlanOutcome::Settled(reply),
        None => {
            plan.clear();
            find_change(plan, view, hints, fingers, few, command, 0)
        }
    }
}

// The reply of a command that only asks, or none where it is one that may change something. Searches begin
// at fingers. Inlined, so that what only asks makes no plan.
#[inline(always)]
pub(crate) fn answer<V: View>(
    view: &mut V,
    fingers: &mut Fingers,
    command: &Command,
) -> Option<Reply>
    requires lawful { IsLawful (V.state view.old) }
    ensures found { MatchOption result (may_change command.now ≡ true) (λ reply. IsFound command.now (V.state view.old) (Settled reply)) }
    ensures as_before { V.as_before view.old view.new }
{
    match *command {
        Command::Has { name, key } => Some(answer_has(view, fingers, name, key)),
        Command::Get { name, key } => Some(answer_get(view, fingers, name, key)),
        Command::Pair { first, second, key } => {
            Some(answer_pair(view, fingers, first, second, key))
        }
        Command::Size { name } => Some(answer_size(view, name)),
        Command::Next { name, key } => Some(answer_next(view, fingers, name, key)),
        _ => None,
    }
}

// Finds what a command comes to that may change something, as `find_plan` does, by searches that begin at
// fingers. After an add to a tree steps keep it short, within `most` objects beside the add's own, if that
// isn't 0.
#[inline(never)]
pub(crate) fn find_change<V: View>(
    plan: &mut WritePlan,
    view: &mut V,
    hints: &mut Hints,
    fingers: &mut Fingers,
    few: &mut u32,
    command: &Command,
    most: u32,
) -> PlanOutcome
    requires none { plan.old.count ≡ 0 }
    requires changes { may_change command.now ≡ true }
    requires lawful { IsLawful (V.state view.old) }
    requires few { vacant_nodes (V.state view.old) < few.old }
    requires most { most ≤ 12 }
    ensures found { IsFoundWithin most command.now (V.state view.old) (with_plan result plan.new) }
    ensures few { vacant_nodes (V.state view.old) < few.new }
    ensures hints { TakesHints hints.old hints.new }
    ensures untouched { wanted command.now (catalogue_of (V.state view.old)) ≡ 0 → hints.new ≡ hints.old }
    ensures as_before { V.as_before view.old view.new }
{
    match *command {
        Command::Add { name, key } => find_add(plan, view, hints, fingers, few, name, key, most),
        Command::Put { name, key, value } => {
            find_put(plan, view, hints, fingers, few, name, key, value, most)
        }
        Command::Del { name, key } => find_del(plan, view, fingers, name, key),
        Command::Move {
            source,
            target,
            key,
        } => find_move(plan, view, hints, fingers, few, source, target, key),
        _ => unreachable!(),
    }
}

fn answer_has<V: View>(view: &mut V, fingers: &mut Fingers, name: Name, key: u32) -> Reply
    requires lawful { IsLawful (V.state view.old) }
    ensures found { IsFound (Has name key) (V.state view.old) (Settled result) }
    ensures as_before { V.as_before view.old view.new }
{
    yes_or_no(has(view, fingers, name, key))
}

fn answer_get<V: View>(view: &mut V, fingers: &mut Fingers, name: Name, key: u32) -> Reply
    requires lawful { IsLawful (V.state view.old) }
    ensures found { IsFound (Get name key) (V.state view.old) (Settled result) }
    ensures as_before { V.as_before view.old view.new }
{
    match value(view, fingers, name, key) {
        Some(value) => Reply::Value { value },
        None => Reply::NoKey,
    }
}

fn answer_pair<V: View>(
    view: &mut V,
    fingers: &mut Fingers,
    first: Name,
    second: Name,
    key: u32,
) -> Reply
    requires lawful { IsLawful (V.state view.old) }
    ensures found { IsFound (Pair first second key) (V.state view.old) (Settled result) }
    ensures as_before { V.as_before view.old view.new }
{
    Reply::Both {
        first: has(view, fingers, first, key),
        second: has(view, fingers, second, key),
    }
}

fn answer_size<V: View>(view: &mut V, name: Name) -> Reply
    requires lawful { IsLawful (V.state view.old) }
    ensures found { IsFound (Size name) (V.state view.old) (Settled result) }
    ensures as_before { V.as_before view.old view.new }
{
    Reply::Count {
        count: size(view, name),
    }
}

fn answer_next<V: View>(view: &mut V, fingers: &mut Fingers, name: Name, key: u32) -> Reply
    requires lawful { IsLawful (V.state view.old) }
    ensures found { IsFound (Next name key) (V.state view.old) (Settled result) }
    ensures as_before { V.as_before view.old view.new }
{
    match next(view, fingers, name, key) {
        Some(key) => Reply::Key { key },
        None => Reply::NoKey,
    }
}

fn yes_or_no(holds: bool) -> Reply
    ensures { result ≡ (if holds then Yes else No) }
{
    if holds { Reply::Yes } else { Reply::No }
}

fn find_add<V: View>(
    plan: &mut WritePlan,
    view: &mut V,
    hints: &mut Hints,
    fingers: &mut Fingers,
    few: &mut u32,
    name: Name,
    key: u32,
    most: u32,
) -> PlanOutcome
    requires none { plan.old.count ≡ 0 }
    requires lawful { IsLawful (V.state view.old) }
    requires few { vacant_nodes (V.state view.old) < few.old }
    requires most { most ≤ 12 }
    ensures found { IsFoundWithin most (Add name key) (V.state view.old) (with_plan result plan.new) }
    ensures few { vacant_nodes (V.state view.old) < few.new }
    ensures hints { TakesHints hints.old hints.new }
    ensures untouched { wanted (Add name key) (catalogue_of (V.state view.old)) ≡ 0 → hints.new ≡ hints.old }
    ensures as_before { V.as_before view.old view.new }
{
    let end = search_near(view, fingers, name, key);
    if end.has(key) {
        return PlanOutcome::Settled(Reply::No);
    }
    find_new(plan, view, hints, few, &end, name, key, 0, most)
}

fn find_put<V: View>(
    plan: &mut WritePlan,
    view: &mut V,
    hints: &mut Hints,
    fingers: &mut Fingers,
    few: &mut u32,
    name: Name,
    key: u32,
    value: u64,
    most: u32,
) -> PlanOutcome
    requires none { plan.old.count ≡ 0 }
    requires lawful { IsLawful (V.state view.old) }
    requires few { vacant_nodes (V.state view.old) < few.old }
    requires most { most ≤ 12 }
    ensures found { IsFoundWithin most (Put name key value) (V.state view.old) (with_plan result plan.new) }
    ensures few { vacant_nodes (V.state view.old) < few.new }
    ensures hints { TakesHints hints.old hints.new }
    ensures untouched { wanted (Put name key value) (catalogue_of (V.state view.old)) ≡ 0 → hints.new ≡ hints.old }
    ensures as_before { V.as_before view.old view.new }
{
    let end = search_near(view, fingers, name, key);
    match end.value(key) {
        None => find_new(plan, view, hints, few, &end, name, key, value, most),
        Some(old) if old == value => PlanOutcome::Settled(Reply::No),
        Some(_) => {
            end.put(plan, value);
            PlanOutcome::Open(Vacated::nothing())
        }
    }
}

// What the add or the put of a key comes to that is not there, by where the search for it ended.
fn find_new<V: View>(
    plan: &mut WritePlan,
    view: &mut V,
    hints: &mut Hints,
    few: &mut u32,
    end: &End,
    name: Name,
    key: u32,
    value: u64,
    most: u32,
) -> PlanOutcome
    requires none { plan.old.count ≡ 0 }
    requires lawful { IsLawful (V.state view.old) }
    requires few { vacant_nodes (V.state view.old) < few.old }
    requires head { HasHead end.now }
    requires name_in { name < 30 }
    requires ends { EndsAt (V.state view.old) name key end.now }
    requires absent { has_key key (map_of name (catalogue_of (V.state view.old))) ≡ false }
    requires most { most ≤ 12 }
    ensures found { (command : Command) → IsNew name key value command → IsFoundWithin most command (V.state view.old) (with_plan result plan.new) }
    ensures few { vacant_nodes (V.state view.old) < few.new }
    ensures hints { TakesHints hints.old hints.new }
    ensures as_before { V.as_before view.old view.new }
{
    match vacant_for(view, hints, few, end.takes()) {
        None => PlanOutcome::Settled(Reply::Full),
        Some(picked) => {
            end.plan_new(plan, view, name, key, value, picked, most);
            PlanOutcome::Open(Vacated::nothing())
        }
    }
}

fn find_del<V: View>(
    plan: &mut WritePlan,
    view: &mut V,
    fingers: &mut Fingers,
    name: Name,
    key: u32,
) -> PlanOutcome
    requires none { plan.old.count ≡ 0 }
    requires lawful { IsLawful (V.state view.old) }
    ensures found { IsFound (Del name key) (V.state view.old) (with_plan result plan.new) }
    ensures as_before { V.as_before view.old view.new }
{
    let end = search_near(view, fingers, name, key);
    if !end.has(key) {
        return PlanOutcome::Settled(Reply::No);
    }
    PlanOutcome::Open(end.del(plan))
}

// The add of a move takes the objects that its del leaves vacant before others. The del writes none
// that the search in the target read.
fn find_move<V: View>(
    plan: &mut WritePlan,
    view: &mut V,
    hints: &mut Hints,
    fingers: &mut Fingers,
    few: &mut u32,
    source: Name,
    target: Name,
    key: u32,
) -> PlanOutcome
    requires none { plan.old.count ≡ 0 }
    requires lawful { IsLawful (V.state view.old) }
    requires few { vacant_nodes (V.state view.old) < few.old }
    ensures found { IsFound (Move source target key) (V.state view.old) (with_plan result plan.new) }
    ensures few { vacant_nodes (V.state view.old) < few.new }
    ensures hints { TakesHints hints.old hints.new }
    ensures untouched { wanted (Move source target key) (catalogue_of (V.state view.old)) ≡ 0 → hints.new ≡ hints.old }
    ensures as_before { V.as_before view.old view.new }
{
    let from = search_near(view, fingers, source, key);
    let Some(value) = from.value(key) else {
        return PlanOutcome::Settled(Reply::No);
    };
    let to = search_near(view, fingers, target, key);
    if to.has(key) {
        return PlanOutcome::Settled(Reply::No);
    }
    let gone = from.del(plan);
    let Some(picked) = vacant_for(view, hints, few, gone.still_wanted(to.takes())) else {
        return PlanOutcome::Settled(Reply::Full);
    };
    let picked = gone.before(picked);
    to.add(plan, key, value, picked);
    PlanOutcome::Open(Vacated::nothing())
}

// So many vacant objects, 2 at most. Where fewer are known to be vacant, it doesn't look.
fn vacant_for<V: View>(view: &mut V, hints: &mut Hints, few: &mut u32, want: u32) -> Option<Picked>
    requires want { want ≤ 2 }
    requires lawful { IsLawful (V.state view.old) }
    requires few { vacant_nodes (V.state view.old) < few.old }
    ensures none { MatchOption result (vacant_nodes (V.state view.old) < want) (λ p. want ≤ vacant_nodes (V.state view.old)) }
    ensures enough { IfSome result (λ p. AreEnough (V.state view.old) want p.first p.second) }
    ensures few { vacant_nodes (V.state view.old) < few.new }
    ensures hints { TakesHints hints.old hints.new }
    ensures untouched { want ≡ 0 → hints.new ≡ hints.old }
    ensures as_before { V.as_before view.old view.new }
{
    if want == 0 {
        return Some(Picked {
            first: 0,
            second: 0,
        });
    }
    if *few <= want {
        return None;
    }
    let picked = pick(view, hints, want);
    if picked.is_none() {
        *few = want;
    }
    picked
}

// One command of a block at its turn.
ghost use Rattle.std.specs.Prelude.{◌≡◌, ◌+◌, ◌<◌, ◌≤◌, ℕ, true, false, take, if◌then◌else◌, Some};
ghost use Rattle.set_model.specs.Lawful.{IsLawful};
ghost use Rattle.set_model.specs.Replies.{applies, value_reply};
ghost use Rattle.set_catalog.specs.Needs.{may_change};
ghost use Rattle.set_blocks.specs.Terms.{written, catalogue_of, Add, Put, Del, Has, Get, Move, Pair, Yes, No};
ghost use Rattle.set_blocks.specs.BlockReplies.{is_full};
ghost use Rattle.set_blocks.specs.Blocks.{stands_alone};
ghost use Rattle.set_blocks.specs.Turns.{HoldsReply, TurnsTo};

use crate::holds::{hold_key, hold_value};
use crate::overlay::Overlay;
use list_set::Fingers;
use mv_history::View;
use set_catalog::{Hints, PlanOutcome, WritePlan, find_plan_near, search};
use set_model::{Command, Name, Reply};

/// What a command of a block replies at its turn, and whether it changes something.
#[derive(Clone, Copy, Drop)]
pub struct TurnReply {
    pub reply: Reply,
    pub changes: bool,
}

/// Plans a command in the state that those before it leave; it is none that is alone. What it changes is written in the plan,
/// and what the reply of one that changes nothing depends on is held there. None where it is full.
pub fn plan_turn<V: View>(overlay: &mut Overlay<V>, command: &Command) -> Option<TurnReply>
    requires lawful { IsLawful (written (V.state overlay.old.view) (take overlay.old.count overlay.old.writes)) }
    requires room { overlay.old.count + 5 ≤ 40 }
    requires apart { stands_alone command.now ≡ false }
    ensures turn { TurnsTo command.now (written (V.state overlay.old.view) (take overlay.old.count overlay.old.writes)) result
        (take overlay.old.count overlay.old.writes) (take overlay.new.count overlay.new.writes) }
    ensures view { V.as_before overlay.old.view overlay.new.view }
    ensures count { overlay.new.count ≤ overlay.old.count + 5 }
{
    match *command {
        Command::Has { name, key } => Some(turn_has(overlay, name, key)),
        Command::Get { name, key } => Some(turn_get(overlay, name, key)),
        Command::Pair { first, second, key } => Some(turn_pair(overlay, first, second, key)),
        Command::Size { .. } | Command::Next { .. } => None,
        _ => turn_change(overlay, command),
    }
}

fn yes_or_no(holds: bool) -> Reply
    ensures { result ≡ (if holds then Yes else No) }
{
    if holds { Reply::Yes } else { Reply::No }
}

fn named(value: Option<u64>) -> Reply
    ensures { result ≡ value_reply value }
{
    match value {
        Some(value) => Reply::Value { value },
        None => Reply::NoKey,
    }
}

// Whether the reply says that there is no room.
fn is_full(reply: Reply) -> bool
    ensures { result ≡ is_full reply }
{
    matches!(reply, Reply::Full)
}

fn turn_has<V: View>(overlay: &mut Overlay<V>, name: Name, key: u32) -> TurnReply
    requires lawful { IsLawful (written (V.state overlay.old.view) (take overlay.old.count overlay.old.writes)) }
    requires room { overlay.old.count + 1 ≤ 40 }
    ensures turn { TurnsTo (Has name key) (written (V.state overlay.old.view) (take overlay.old.count overlay.old.writes)) (Some result)
        (take overlay.old.count overlay.old.writes) (take overlay.new.count overlay.new.writes) }
    ensures view { V.as_before overlay.old.view overlay.new.view }
    ensures count { overlay.new.count ≤ overlay.old.count + 1 }
{
    let has = hold_key(overlay, name, key);
    TurnReply {
        reply: yes_or_no(has),
        changes: false,
    }
}

fn turn_get<V: View>(overlay: &mut Overlay<V>, name: Name, key: u32) -> TurnReply
    requires lawful { IsLawful (written (V.state overlay.old.view) (take overlay.old.count overlay.old.writes)) }
    requires room { overlay.old.count + 2 ≤ 40 }
    ensures turn { TurnsTo (Get name key) (written (V.state overlay.old.view) (take overlay.old.count overlay.old.writes)) (Some result)
        (take overlay.old.count overlay.old.writes) (take overlay.new.count overlay.new.writes) }
    ensures view { V.as_before overlay.old.view overlay.new.view }
    ensures count { overlay.new.count ≤ overlay.old.count + 2 }
{
    let value = hold_value(overlay, name, key);
    TurnReply {
        reply: named(value),
        changes: false,
    }
}

fn turn_pair<V: View>(overlay: &mut Overlay<V>, first: Name, second: Name, key: u32) -> TurnReply
    requires lawful { IsLawful (written (V.state overlay.old.view) (take overlay.old.count overlay.old.writes)) }
    requires room { overlay.old.count + 2 ≤ 40 }
    ensures turn { TurnsTo (Pair first second key) (written (V.state overlay.old.view) (take overlay.old.count overlay.old.writes)) (Some result)
        (take overlay.old.count overlay.old.writes) (take overlay.new.count overlay.new.writes) }
    ensures view { V.as_before overlay.old.view overlay.new.view }
    ensures count { overlay.new.count ≤ overlay.old.count + 2 }
{
    let one = hold_key(overlay, first, key);
    let other = hold_key(overlay, second, key);
    TurnReply {
        reply: Reply::Both {
            first: one,
            second: other,
        },
        changes: false,
    }
}

// Plans a command that may change something.
fn turn_change<V: View>(overlay: &mut Overlay<V>, command: &Command) -> Option<TurnReply>
    requires lawful { IsLawful (written (V.state overlay.old.view) (take overlay.old.count overlay.old.writes)) }
    requires room { overlay.old.count + 5 ≤ 40 }
    requires may { may_change command.now ≡ true }
    ensures turn { TurnsTo command.now (written (V.state overlay.old.view) (take overlay.old.count overlay.old.writes)) result
        (take overlay.old.count overlay.old.writes) (take overlay.new.count overlay.new.writes) }
    ensures view { V.as_before overlay.old.view overlay.new.view }
    ensures count { overlay.new.count ≤ overlay.old.count + 5 }
{
    let mut few = overlay.objects();
    let mut plan = WritePlan::nothing();
    let found = find_plan_near(
        &mut plan,
        overlay,
        &mut Hints::none(),
        &mut Fingers::none(),
        &mut few,
        command,
    );
    match found {
        PlanOutcome::Open(_) => {
            overlay.write(plan.writes());
            Some(TurnReply {
                reply: Reply::Yes,
                changes: true,
            })
        }
        PlanOutcome::Settled(reply) => {
            if is_full(reply) {
                return None;
            }
            hold_unchanged(overlay, command);
            Some(TurnReply {
                reply: Reply::No,
                changes: false,
            })
        }
    }
}

// Holds what shows that a command which may change something has nothing to change.
fn hold_unchanged<V: View>(overlay: &mut Overlay<V>, command: &Command)
    requires lawful { IsLawful (written (V.state overlay.old.view) (take overlay.old.count overlay.old.writes)) }
    requires room { overlay.old.count + 2 ≤ 40 }
    requires may { may_change command.now ≡ true }
    requires nothing { applies command.now (catalogue_of (written (V.state overlay.old.view) (take overlay.old.count overlay.old.writes))) ≡ false }
    ensures held { HoldsReply command.now (written (V.state overlay.old.view) (take overlay.old.count overlay.old.writes)) No
        (take overlay.old.count overlay.old.writes) (take overlay.new.count overlay.new.writes) }
    ensures view { V.as_before overlay.old.view overlay.new.view }
    ensures count { overlay.new.count ≤ overlay.old.count + 2 }
{
    match *command {
        Command::Add { name, key } => hold_add(overlay, name, key),
        Command::Put { name, key, value } => hold_put(overlay, name, key, value),
        Command::Del { name, key } => hold_del(overlay, name, key),
        Command::Move {
            source,
            target,
            key,
        } => hold_move(overlay, source, target, key),
        _ => {}
    }
}

fn hold_add<V: View>(overlay: &mut Overlay<V>, name: Name, key: u32)
    requires lawful { IsLawful (written (V.state overlay.old.view) (take overlay.old.count overlay.old.writes)) }
    requires room { overlay.old.count + 2 ≤ 40 }
    requires nothing { applies (Add name key) (catalogue_of (written (V.state overlay.old.view) (take overlay.old.count overlay.old.writes))) ≡ false }
    ensures held { HoldsReply (Add name key) (written (V.state overlay.old.view) (take overlay.old.count overlay.old.writes)) No
        (take overlay.old.count overlay.old.writes) (take overlay.new.count overlay.new.writes) }
    ensures view { V.as_before overlay.old.view overlay.new.view }
    ensures count { overlay.new.count ≤ overlay.old.count + 2 }
{
    name.index();
    hold_key(overlay, name, key);
}

fn hold_put<V: View>(overlay: &mut Overlay<V>, name: Name, key: u32, value: u64)
    requires lawful { IsLawful (written (V.state overlay.old.view) (take overlay.old.count overlay.old.writes)) }
    requires room { overlay.old.count + 2 ≤ 40 }
    requires nothing { applies (Put name key value) (catalogue_of (written (V.state overlay.old.view) (take overlay.old.count overlay.old.writes))) ≡ false }
    ensures held { HoldsReply (Put name key value) (written (V.state overlay.old.view) (take overlay.old.count overlay.old.writes)) No
        (take overlay.old.count overlay.old.writes) (take overlay.new.count overlay.new.writes) }
    ensures view { V.as_before overlay.old.view overlay.new.view }
    ensures count { overlay.new.count ≤ overlay.old.count + 2 }
{
    name.index();
    hold_value(overlay, name, key);
}

fn hold_del<V: View>(overlay: &mut Overlay<V>, name: Name, key: u32)
    requires lawful { IsLawful (written (V.state overlay.old.view) (take overlay.old.count overlay.old.writes)) }
    requires room { overlay.old.count + 2 ≤ 40 }
    requires nothing { applies (Del name key) (catalogue_of (written (V.state overlay.old.view) (take overlay.old.count overlay.old.writes))) ≡ false }
    ensures held { HoldsReply (Del name key) (written (V.state overlay.old.view) (take overlay.old.count overlay.old.writes)) No
        (take overlay.old.count overlay.old.writes) (take overlay.new.count overlay.new.writes) }
    ensures view { V.as_before overlay.old.view overlay.new.view }
    ensures count { overlay.new.count ≤ overlay.old.count + 2 }
{
    name.index();
    hold_key(overlay, name, key);
}

// In the first set where the key is not there, else in the second.
fn hold_move<V: View>(overlay: &mut Overlay<V>, source: Name, target: Name, key: u32)
    requires lawful { IsLawful (written (V.state overlay.old.view) (take overlay.old.count overlay.old.writes)) }
    requires room { overlay.old.count + 2 ≤ 40 }
    requires nothing { applies (Move source target key)
        (catalogue_of (written (V.state overlay.old.view) (take overlay.old.count overlay.old.writes))) ≡ false }
    ensures held { HoldsReply (Move source target key) (written (V.state overlay.old.view) (take overlay.old.count overlay.old.writes)) No
        (take overlay.old.count overlay.old.writes) (take overlay.new.count overlay.new.writes) }
    ensures view { V.as_before overlay.old.view overlay.new.view }
    ensures count { overlay.new.count ≤ overlay.old.count + 2 }
{
    target.index();
    let end = search(overlay, source, key);
    if end.has(key) {
        hold_key(overlay, target, key);
    } else {
        hold_key(overlay, source, key);
    }
}

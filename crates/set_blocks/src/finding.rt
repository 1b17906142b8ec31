// What a block comes to in a state, before anything is locked.
ghost use Rattle.std.specs.Prelude.{◌≡◌, ◌*◌, ◌^◌, ◌<◌, ◌≤◌, true, false, length, take, MatchOption};
ghost use Rattle.set_model.specs.Lawful.{IsLawful};
ghost use Rattle.set_blocks.specs.Terms.{catalogue_of, capacity, IsInRange, reply_in, list_any};
ghost use Rattle.set_blocks.specs.Blocks.{stands_alone, IsBlock};
ghost use Rattle.set_blocks.specs.BlockPlans.{BlockPlan};
ghost use Rattle.set_blocks.specs.BlockReplies.{some_full};
ghost use Rattle.set_blocks.specs.BlockFindings.{IsBlockFound, found_by};

use crate::block::has_alone;
use crate::overlay::Overlay;
use crate::replies::Replies;
use crate::turns::plan_turn;
use mv_history::View;
use set_catalog::{Hints, find_plan};
use set_model::{Command, Name, Reply};

/// What a block comes to.
#[derive(Drop)]
pub enum BlockFinding {
    /// It changes nothing, and these are its replies.
    Settled(Replies),
    /// It changes something by what is planned for it, and these are its replies.
    Open(Replies),
}

/// What commands reply one after another, and whether one of them changes something.
#[derive(Drop)]
pub struct TurnReplies {
    pub replies: Replies,
    pub changes: bool,
}

/// Finds what a block comes to in the view's state, where a time is left, and plans over the view what it locks and writes.
pub fn find_block<V: View>(overlay: &mut Overlay<V>, commands: &[Command]) -> BlockFinding
    requires lawful { IsLawful (V.state overlay.old.view) }
    requires none { overlay.old.count ≡ 0 }
    requires block { IsBlock commands.now }
    ensures found { IsBlockFound commands.now (V.state overlay.old.view) (take overlay.new.count overlay.new.writes) result }
    ensures view { V.as_before overlay.old.view overlay.new.view }
    ensures count { overlay.new.count ≤ 5 * length commands.now }
{
    if has_alone(commands) {
        let reply = read_alone(&mut overlay.view, &commands[0]);
        return BlockFinding::Settled(Replies::all(reply, 1));
    }
    match plan_turns(overlay, commands) {
        None => BlockFinding::Settled(Replies::all(Reply::Full, commands.len() as u32)),
        Some(turns) => turns.found(),
    }
}

impl TurnReplies {
    // Of a block that is not full.
    fn found(self) -> BlockFinding
        ensures { result ≡ found_by self }
    {
        if self.changes {
            BlockFinding::Open(self.replies)
        } else {
            BlockFinding::Settled(self.replies)
        }
    }
}

// The reply of a command that reads a whole set.
fn read_alone<V: View>(view: &mut V, command: &Command) -> Reply
    requires lawful { IsLawful (V.state view.old) }
    requires alone { stands_alone command.now ≡ true }
    ensures reply { result ≡ reply_in command.now (V.state view.old) false }
    ensures as_before { V.as_before view.old view.new }
{
    let mut few = view.objects();
    find_plan(view, &mut Hints::none(), &mut few, command).at_last()
}

// Plans commands one after another, each in the state that those before it leave. None where one of them is full at its turn.
fn plan_turns<V: View>(overlay: &mut Overlay<V>, commands: &[Command]) -> Option<TurnReplies>
    requires lawful { IsLawful (V.state overlay.old.view) }
    requires none { overlay.old.count ≡ 0 }
    requires few { length commands.now ≤ 8 }
    requires apart { list_any stands_alone commands.now ≡ false }
    ensures planned { MatchOption result
        (some_full commands.now (catalogue_of (V.state overlay.old.view)) (capacity (V.state overlay.old.view)) ≡ true)
        (λ turns. BlockPlan (V.state overlay.old.view) commands.now (take overlay.new.count overlay.new.writes) turns.replies turns.changes) }
    ensures view { V.as_before overlay.old.view overlay.new.view }
    ensures count { overlay.new.count ≤ 5 * length commands.now }
{
    let mut replies = Replies::new();
    let mut changes = false;
    for command in commands {
        has_range(command);
        let turn = plan_turn(overlay, command)?;
        replies.push(turn.reply);
        changes |= turn.changes;
    }
    Some(TurnReplies { replies, changes })
}

// What the types of a command's names, key and value say, as a fact.
fn has_range(command: &Command)
    ensures { IsInRange command.now }
{
    match *command {
        Command::Add { name, key }
        | Command::Del { name, key }
        | Command::Has { name, key }
        | Command::Get { name, key }
        | Command::Next { name, key } => fit(name, key, 0),
        Command::Put { name, key, value } => fit(name, key, value),
        Command::Size { name } => fit(name, 0, 0),
        Command::Move {
            source,
            target,
            key,
        } => {
            fit(source, key, 0);
            fit(target, key, 0);
        }
        Command::Pair { first, second, key } => {
            fit(first, key, 0);
            fit(second, key, 0);
        }
    }
}

// What the types of a name, a key and a value say, as a fact.
fn fit(name: Name, key: u32, value: u64)
    ensures name { name < 30 }
    ensures key { key < 2 ^ 32 }
    ensures value { value < 2 ^ 64 }
{
    name.index();
}

// A block of commands on one seat of the sets.
ghost use Rattle.mvrlu_c.specs.SetsBlock.{AnswersBlock, TellsBlock};

use crate::handle::on_open;
use crate::sets_handle::MvrluSets;
use c_answers::{MvrluCommand, MvrluReply, Status, block_of, tell_block};
use set_blocks::Block;
use set_seats::SetSeat;
use std::alloc::Global;

/// Does 1 to 8 commands as one, in their order: one entry of the history, or one read. A size and a next are alone. Each
/// command has its reply. Memory is taken for the commands, and given back before the call returns.
#[unsafe(no_mangle)]
pub extern "C" fn mvrlu_raw_sets_block(
    alloc: Global,
    sets: &mut MvrluSets,
    commands: &[MvrluCommand],
    replies: &mut [MvrluReply],
) -> i32
    ensures tells { TellsBlock commands.now sets.old sets.new replies.old replies.new result }
{
    if replies.len() != commands.len() {
        return Status::BadBlock.code();
    }
    let block = match block_of(alloc, commands) {
        Ok(block) => block,
        Err(why) => return why.code(),
    };
    let answer = on_open(
        alloc,
        sets,
        &block,
        |seat: SetSeat, block: &Block|
            ensures { AnswersBlock block.now seat result.0 result.1 }
        { seat.attempt_block(block) },
    );
    match answer {
        None => Status::Closed.code(),
        Some(answer) => tell_block(answer, replies).code(),
    }
}

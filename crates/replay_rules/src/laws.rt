// What holds of the runs of all plans.
ghost use Rattle.replay_rules.specs.ReplayLaws.{TurnsMakeOneStep};
ghost use Rattle.replay_rules.specs.NextSteps.{TurnsGoOn};
ghost use Rattle.replay_rules.specs.RuledRuns.{RunsAreRuled};

/// A turn makes at most one step, of a word of the domain. The line of the step has the word that is at its place just
/// before, and the words after it are those with what the step writes there; no other line comes with a write.
pub fn turns_make_one_step()
    ensures { TurnsMakeOneStep }
{}

/// Where a replay is behind steps of the core, a turn that makes no step leaves it behind the same ones. A turn that makes one
/// leaves it behind each further step of the core that may be made there, is of the same word, and writes the same of what it
/// finds.
pub fn turns_go_on()
    ensures { TurnsGoOn }
{}

/// A plan is run by steps of the core alone, in the order of its schedule, whatever that is, and each call that ends answers as
/// the same call of the runtime does. Before the first turn no step was made, and no seat is in a call.
///
/// A turn makes no step only where its seat is in no call and has none left that needs a step: the seat is idle. Else it makes
/// one, by the seat whose turn it is, which that seat may make where it is, of the place and with the write that its line prints;
/// the steps behind the turn are those before it, and this one. It is a step of the call that the seat is in (`IsTaskOf`), and of
/// the core's kind of such a step (`IsKindOf`). Where the seat is in no call, it is of the next one that needs a step: each call
/// before that is skipped, since by the seat's view it may not begin (`MayNotBegin`), or answered by what the seat knows. The
/// calls of a seat are those of the plan, in their order.
///
/// A call that ends has its line, and its answer is what the contract of the same call of the runtime says of the seat's view
/// before the call's first step and behind its last (`AnswersSo`): the contracts of `enter` and `leave` of `reader_marks`, of
/// `lock` and `write` of `object_lock`, of `commit` and `abort` of `commit_abort`, and what that of `tidy` of `log_reclaim` says
/// of its answer (`TidiesSo`). A read answers the words of its object in the section's state. A refusal, a rival and who holds a
/// log back have their causes in the call's own steps.
///
/// Behind each turn the words are those of the state that these steps make, one after another, of a new domain, and as many
/// lines of steps were printed. With the views of the seats there they are a state of the core's rule.
pub fn runs_are_ruled()
    ensures { RunsAreRuled }
{}

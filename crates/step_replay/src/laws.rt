// What holds of a machine behind any steps.
ghost use Rattle.step_replay.specs.MachineLaws.{ReplaysAreRuled};

/// Behind any steps, in whatever order the seats made them, the machine's words, the history and the views of the
/// seats are a state of the core's rule: each law of `mv_core` over the states that the rule allows speaks of it.
pub fn replays_are_ruled()
    ensures { ReplaysAreRuled }
{}

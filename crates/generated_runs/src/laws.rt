// Laws of the runs of generated scripts, over all legal runs.
ghost use Rattle.std.specs.Prelude.{◌≡◌, ◌≢◌, ◌≤◌, ℕ, All, List, [], ◌∷◌, codes};
ghost use Rattle.set_model.specs.Catalogue.{Maps};
ghost use Rattle.set_model.specs.declared.commands.Command.{Command};
ghost use Rattle.set_model.specs.declared.commands.Command.TheVariants.{Add, Del, Has, Move};
ghost use Rattle.set_model.specs.declared.commands.Reply.TheVariants.{Full};
ghost use Rattle.run_report.specs.declared.line.Line.{Line};
ghost use Rattle.run_report.specs.Legal.{LegalRun};
ghost use Rattle.run_report.specs.Summary.{summary};
ghost use Rattle.generated_runs.specs.OneAfterAnother.{AreGenerated, IsTallyOf, NoneIsWorn, one_after_another, scripts_of, text_of_tally};

/// A legal run of scripts that are generated for their four seats, with room for at least 10,230 nodes, of which no reply is
/// `worn`, counts what the scripts count where they are replayed one after another, and leaves the same maps. So its summary
/// is that replay's. The four scripts of a number are such scripts, and the program runs them with room for 16,204 nodes:
/// the summary of that run is a function of the number alone. Worn or not, no reply of such a run is `full`.
pub fn a_run_counts_as_one_after_another()
    ensures counts { (scripts : List (List Command)) (lines : List Line) (base capacity : ℕ) (end : Maps) → AreGenerated scripts → 10230 ≤ capacity
        → LegalRun scripts lines base capacity end → NoneIsWorn lines → IsTallyOf lines end (one_after_another capacity scripts) }
    ensures text { (scripts : List (List Command)) (lines : List Line) (base capacity : ℕ) (end : Maps) → AreGenerated scripts → 10230 ≤ capacity
        → LegalRun scripts lines base capacity end → NoneIsWorn lines
        → (number : ℕ) → summary number lines end ≡ text_of_tally number (one_after_another capacity scripts) }
    ensures full { (scripts : List (List Command)) (lines : List Line) (base capacity : ℕ) (end : Maps) → AreGenerated scripts → 10230 ≤ capacity
        → LegalRun scripts lines base capacity end → All (λ line. line.reply ≢ Full) lines }
    ensures generated { (number : ℕ) → AreGenerated (scripts_of number) }
    ensures work { (number : ℕ) (lines : List Line) (base : ℕ) (end : Maps) → LegalRun (scripts_of number) lines base 16204 end → NoneIsWorn lines
        → summary number lines end ≡ text_of_tally number (one_after_another 16204 (scripts_of number)) }
{}

/// What is counted of scripts, by an example: the second add of a key and the del and the move of a key that isn't there
/// reply `no`, a has changes nothing, and a key that a move takes along is in one set alone.
pub fn counting_by_example()
    ensures { text_of_tally 7 (one_after_another 10230 (
        (Add 0 0 ∷ Add 0 0 ∷ Has 0 0 ∷ [])
        ∷ (Add 10 1 ∷ Del 10 1 ∷ Del 10 1 ∷ [])
        ∷ (Add 29 2 ∷ Move 29 0 2 ∷ Move 29 0 2 ∷ Has 29 2 ∷ [])
        ∷ (Add 20 3 ∷ Add 20 7 ∷ [])
        ∷ []))
        ≡ codes "work 7\nyes 8\nno 4\nworn 0\ncommits 7\nl0 2\nt0 2\n" }
{}

// Laws of the grammar, over all texts and commands.
ghost use Rattle.std.specs.Prelude.{◌≡◌, ◌≤◌, ℕ, ◌↔◌, List, ◌++◌, length};
ghost use Rattle.std.specs.List.{AllByRecursion};
ghost use Rattle.set_model.specs.declared.commands.Command.{Command};
ghost use Rattle.script_parser.specs.declared.faults.FaultKind.{FaultKind};
ghost use Rattle.script_parser.specs.Formats.{IsFormat};
ghost use Rattle.script_parser.specs.Grammar.{parsed};
ghost use Rattle.script_parser.specs.GrammarLaws.{IsScriptOf, IsFirstFault, MaySay, script_text, format_text};

use set_model::MOST_COMMANDS;

/// What a text comes to, said of all of its lines. It is a script of commands exactly where each
/// line is in the grammar, the commands are those of the lines in order, and there are no more
/// than `MOST_COMMANDS`. It has a fault at a line exactly where that line is the first that is
/// outside the grammar, or whose command is one too many.
pub fn parse_is_exact()
    ensures script { (text : List ℕ) (commands : List Command) → (parsed text ≡ Ok commands) ↔ IsScriptOf text commands }
    ensures fault { (text : List ℕ) (number : ℕ) (kind : FaultKind)
        → (parsed text ≡ Err (number, kind)) ↔ IsFirstFault text number kind }
{}

/// Commands are read back from their plainest script, each on a line of its own with one space
/// between its words, unless there are more than `MOST_COMMANDS`: behind a line on the format that
/// has them all, or without one where format 1 has them all.
pub fn commands_read_back()
    ensures plain { (commands : List Command) → AllByRecursion (MaySay 1) commands → length commands ≤ MOST_COMMANDS
        → parsed (script_text commands) ≡ Ok commands }
    ensures headed { (format : ℕ) (commands : List Command) → IsFormat format → AllByRecursion (MaySay format) commands
        → length commands ≤ MOST_COMMANDS
        → parsed (format_text format ++ script_text commands) ≡ Ok commands }
{}

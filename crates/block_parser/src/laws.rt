// A law of the grammar of blocks, over all texts.
ghost use Rattle.std.specs.Prelude.{◌≡◌, ℕ, List};
ghost use Rattle.std.specs.List.{AllByRecursion};
ghost use Rattle.script_parser.specs.Grammar.{lines_of, parsed};
ghost use Rattle.block_parser.specs.BlockGrammar.{IsPlainLine, as_blocks, parsed_blocks};

/// A script without `begin` and `end` says the blocks of one command each that it says as a script, or has the same first fault.
pub fn plain_scripts_are_blocks_of_one()
    ensures { (text : List ℕ) → AllByRecursion IsPlainLine (lines_of text) → parsed_blocks text ≡ as_blocks (parsed text) }
{}

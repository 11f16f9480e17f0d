//! Consequences of the definitions of the output. Nothing here runs.

ghost use Rattle.std.specs.Prelude.{◌≡◌, ℕ, List, [], length};
ghost use Rattle.dom_model.specs.Commands.Answer.{Bounds};
ghost use Rattle.dom_model.specs.Commands.Table.{whole_table};
ghost use Rattle.dom_model.specs.Commands.Output.{whole_lines, last_piece, lines_of, output_of};

/// States a law: the output has one whole line for each line of the input, and nothing after the last of them.
pub fn each_line_has_one_reply()
    ensures one_each { (b : Bounds) (input : List ℕ) →
        length (whole_lines (output_of whole_table b input)) ≡ length (lines_of input) }
    ensures nothing_more { (b : Bounds) (input : List ℕ) →
        last_piece (output_of whole_table b input) ≡ [] }
{}

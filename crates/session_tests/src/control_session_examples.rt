//! The definitions, computed on lines that were worked out by hand.
ghost use Rattle.control_session.specs.Examples.{Words, FiveLines, LineEnds};

fn words()
    ensures { Words }
{}

fn five_lines()
    ensures { FiveLines }
{}

fn line_ends()
    ensures { LineEnds }
{}

#[test]
fn definitions_compute() {
    words();
    five_lines();
    line_ends();
}

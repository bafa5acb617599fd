//! Laws of sizes and refusals. The functions do nothing: each one's contract is the law.
ghost use Rattle.frame.specs.Examples.{Worked_examples};
ghost use Rattle.frame.specs.Laws.{Refused_with_the_first_that_applies, Legal_sizes_are_sound};

/// A header is refused with the first refusal that applies to it, and is legal if none does.
pub fn refused_with_the_first_that_applies()
    ensures { Refused_with_the_first_that_applies }
{}

/// A legal header has a payload, live carriers and payload rows, and its block fills its cells.
pub fn legal_sizes_are_sound()
    ensures { Legal_sizes_are_sound }
{}

/// The worked examples of sizes and refusals hold of the definitions.
pub fn worked_examples()
    ensures { Worked_examples }
{}

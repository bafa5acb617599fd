//! What a stage tells a pile about itself: alphabets, members, and the lengths of lists.

ghost use Rattle.std.specs.Prelude.{◌≡◌, Some, None};
ghost use Rattle.stage.specs.Lengths.{one_step, two_steps, roomy};

/// What a stage takes and puts out, how many plain stages it is made of, and whether they fit.
#[derive(Clone, Copy, PartialEq, Eq, Debug)]
pub struct Outline {
    /// The highest element that it takes.
    pub takes: u8,
    /// The highest element that it puts out.
    pub puts: u8,
    // A number for too many: pilers add counts up, and a count that stops adds up as one that goes on.
    /// How many plain stages it is made of; 65,536 stands for any count above 65,535.
    pub members: u32,
    // A flag: what members that do not fit take, put out and count is told too.
    /// Whether the members fit; a plain stage always does.
    pub fit: bool,
}

/// How long the lists of one call become.
#[derive(Clone, Copy, PartialEq, Eq, Debug)]
pub struct Span {
    /// The longest list of the call, the given one included: the room that each buffer needs.
    pub longest: usize,
    /// The list that the call ends with; none where some stage does not have the length.
    pub last: Option<usize>,
}

impl Span {
    /// The lists of a plain stage: one of `length`, and the one it leads to, if there is one.
    pub fn of(length: usize, last: Option<usize>) -> Span
        ensures { result ≡ one_step length last }
    {
        let longest = match last {
            Some(end) => length.max(end),
            None => length,
        };
        Span { longest, last }
    }

    /// Whether a work buffer and a result buffer of these lengths have room for every list.
    pub fn fits_in(self, work: usize, res: usize) -> bool
        ensures { result ≡ roomy self.longest work res }
    {
        self.longest <= work && self.longest <= res
    }

    /// The lists of two members in turn, `next` beginning with the last list of this one.
    pub fn then(self, next: Span) -> Span
        ensures { result ≡ two_steps self next }
    {
        Span {
            longest: self.longest.max(next.longest),
            last: next.last,
        }
    }
}

//! The laws of receiving. The functions do nothing: each one's contract is a law.
ghost use Rattle.receiving.specs.Laws.{Nothing_lost_altered_or_invented, Rows_yield_exactly_their_frame};

/// Over any history of calls on a new receiver, refused ones included, nothing is lost, altered or
/// invented: a take hands over a frame exactly if the counted rows are its rows, the room is enough and
/// it was not handed over before; the feed that completes the rows answers 0, and no other does; every
/// other answer is fixed too.
pub fn nothing_lost_altered_or_invented()
    ensures { Nothing_lost_altered_or_invented }
{}

/// Rows fed in order to a new receiver under a reference yield a frame exactly if they are the rows of
/// that frame, and they are those of one frame at most.
pub fn rows_yield_exactly_their_frame()
    ensures { Rows_yield_exactly_their_frame }
{}

//! The law of sending. The function does nothing: its contract is the law.
ghost use Rattle.sending.specs.Laws.{Begun_and_finished_rows_are_the_frames};

/// A begin and a finish that are both accepted, the buffer untouched between them, leave the rows of
/// the frame under the reference in front, and the rest as it was.
pub fn begun_and_finished_rows_are_the_frames()
    ensures { Begun_and_finished_rows_are_the_frames }
{}

//! A list sent over a line that damages nothing.

ghost use Rattle.std.specs.Prelude.{◌≡◌, length, take, IfOk};

use stage::{Refusal, Stage};

/// Codes `list` into `line` and decodes it from there; answers the length of what arrived.
///
/// What arrives at the front of `res` is `list`, whatever the stage. Refuses as the two calls
/// do.
pub fn arrives<S: Stage>(
    stage: &S,
    list: &[u8],
    work: &mut [u8],
    line: &mut [u8],
    res: &mut [u8],
) -> Result<usize, Refusal>
    ensures { IfOk result (λ n. take n res.new ≡ list.now) }
{
    let length = stage.code(list, work, line)?;
    let arrived = stage.decode(&line[0..length], work, res)?;
    Ok(arrived)
}

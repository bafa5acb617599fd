//! The two calls of any stage, made of its settings or refused.

ghost use Rattle.std.specs.Prelude.{◌≡◌, length};
ghost use Rattle.framecoder.specs.Calls.{code_told, decode_told, CodeLeaves, DecodeLeaves};
ghost use Rattle.std.specs.Result.{result_map_both};

use crate::answers::Answer;
use stage::{Refusal, Stage};

// Two functions alike: what the two calls leave in the buffers differs, and each contract says which.
/// Codes `list` with a stage, or tells why its settings make none.
pub fn code_with<S: Stage + Drop>(
    stage: Result<S, Refusal>,
    list: &[u8],
    work: &mut [u8],
    res: &mut [u8],
) -> Answer
    ensures answer { result ≡ code_told (result_map_both S.Stage.model (λ e. e) stage) list.now (length work.old) (length res.old) }
    ensures buffers { CodeLeaves (result_map_both S.Stage.model (λ e. e) stage) list.now work.old res.old work.new res.new }
{
    match stage {
        Ok(stage) => Answer::from(stage.code(list, work, res)),
        Err(refusal) => Answer::from(refusal),
    }
}

/// Decodes `list` with a stage, or tells why its settings make none.
pub fn decode_with<S: Stage + Drop>(
    stage: Result<S, Refusal>,
    list: &[u8],
    work: &mut [u8],
    res: &mut [u8],
) -> Answer
    ensures answer { result ≡ decode_told (result_map_both S.Stage.model (λ e. e) stage) list.now (length work.old) (length res.old) }
    ensures buffers { DecodeLeaves (result_map_both S.Stage.model (λ e. e) stage) list.now work.old res.old work.new res.new }
{
    match stage {
        Ok(stage) => Answer::from(stage.decode(list, work, res)),
        Err(refusal) => Answer::from(refusal),
    }
}

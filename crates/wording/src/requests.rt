//! Stage calls: reading what is asked of a stage, and answering it.
ghost use Rattle.std.specs.Prelude.{◌≡◌, length, IfOk, vec_items};
ghost use Rattle.wording.specs.Requests.{answer_to, asked, asking, read_request, stage_text};
ghost use Rattle.wording.specs.Texts.{answer_text, served};
ghost use Rattle.wording.specs.Words.{unread};
ghost use Rattle.std.specs.Option.{option_map};
ghost use Rattle.std.specs.Result.{result_map_both as mapped_both};

use crate::texts::{answer_text, refusal_text};
use crate::words::Words;
use stage::{Refusal, Stage};
use std::alloc::{AllocError, Global};

/// The most elements that a buffer is served with: no list or frame is longer.
const MOST_SERVED: u32 = 65_536;

/// Which of a stage's two calls is made.
#[derive(Clone, Copy)]
pub enum Direction {
    /// `code`.
    Code,
    /// `decode`.
    Decode,
}

impl Direction {
    /// Makes the call on a stage.
    fn call<S: Stage>(
        self,
        stage: &S,
        list: &[u8],
        work: &mut [u8],
        res: &mut [u8],
    ) -> Result<usize, Refusal>
        ensures { answer_text result res.new ≡ stage_text self (S.Stage.model stage.now) (asking list.now (length work.old) (length res.old)) }
    {
        match self {
            Direction::Code => stage.code(list, work, res),
            Direction::Decode => stage.decode(list, work, res),
        }
    }
}

/// What is asked of a stage.
#[derive(Drop)]
pub struct Request {
    /// The list to code or to decode.
    pub list: Vec<u8>,
    /// The length of the work buffer to lend.
    pub work: usize,
    /// The length of the result buffer to lend.
    pub result: usize,
}

/// The length that a buffer is served with.
pub fn served(length: u32) -> usize
    ensures { result ≡ served length }
{
    length.min(MOST_SERVED) as usize
}

impl Words<'_> {
    /// The words that are left as a request; none if they are not one, or there are more.
    pub fn request(&mut self, heap: Global) -> Result<Option<Request>, AllocError>
        ensures { IfOk result (λ o. option_map asked o ≡ read_request (unread self.old)) }
    {
        let Some(list) = self.list(heap)? else {
            return Ok(None);
        };
        let Some(work) = self.number() else {
            return Ok(None);
        };
        let Some(result) = self.number() else {
            return Ok(None);
        };
        Ok(self.alone(Request {
            list,
            work: served(work),
            result: served(result),
        }))
    }
}

/// Makes the call on a stage, and gives the text of the answer.
///
/// Fails only for want of memory.
pub fn call_text<S: Stage>(
    heap: Global,
    direction: Direction,
    stage: &S,
    request: &Request,
) -> Result<Vec<u8>, AllocError>
    ensures { IfOk result (λ t. t.items ≡ stage_text direction (S.Stage.model stage.now) (asked request.now)) }
{
    let mut work = vec![in heap; 0u8; request.work]?;
    let mut result = vec![in heap; 0u8; request.result]?;
    let answer = direction.call(
        stage,
        request.list.as_slice(),
        work.as_mut_slice(),
        result.as_mut_slice(),
    );
    answer_text(heap, answer, result.as_slice())
}

/// Reads what is asked of a stage, which its settings made or did not, and gives the text of the
/// answer; none if it cannot be read.
pub fn answer_to<S: Stage + Drop>(
    heap: Global,
    words: &mut Words<'_>,
    direction: Direction,
    stage: Result<S, Refusal>,
) -> Result<Option<Vec<u8>>, AllocError>
    ensures { IfOk result (λ o. option_map vec_items o ≡ answer_to direction (mapped_both S.Stage.model (λ e. e) stage) (read_request (unread words.old))) }
{
    let Some(request) = words.request(heap)? else {
        return Ok(None);
    };
    match stage {
        Ok(stage) => {
            let text = call_text(heap, direction, &stage, &request)?;
            Ok(Some(text))
        }
        Err(refusal) => {
            let text = refusal_text(heap, refusal)?;
            Ok(Some(text))
        }
    }
}

//! Calls on the stages that all programs know.
ghost use Rattle.std.specs.Prelude.{◌≡◌, ℕ, IfOk, vec_items, Result};
ghost use Rattle.phases.specs.Meanings.{of_difference};
ghost use Rattle.wording.specs.Stages.{difference_of, difference_reply, fill_reply, Makes, number_reply};
ghost use Rattle.stage.specs.declared.faults.Refusal.{Refusal};
ghost use Rattle.stage.specs.Model.{Model};
ghost use Rattle.wording.specs.Words.{unread};
ghost use Rattle.std.specs.Option.{option_map};
ghost use Rattle.std.specs.Result.{result_map_both as mapped_both};

use crate::requests::{Direction, answer_to};
use crate::words::Words;
use codings::Fill;
use phases::Difference;
use stage::{Refusal, Stage};
use std::alloc::{AllocError, Global};

// Three parameters and no struct: an allocator goes first by custom, and the words are lent and come back.
/// `fill K P`.
pub fn fill_reply(
    heap: Global,
    words: &mut Words<'_>,
    direction: Direction,
) -> Result<Option<Vec<u8>>, AllocError>
    ensures { IfOk result (λ o. option_map vec_items o ≡ fill_reply direction (unread words.old)) }
{
    let Some(bits) = words.number() else {
        return Ok(None);
    };
    let Some(total) = words.number() else {
        return Ok(None);
    };
    answer_to(
        heap,
        words,
        direction,
        Fill::new(bits as usize, total as usize),
    )
}

/// Reads the number by which `make` makes a stage and what is asked of the stage, and gives the text
/// of the answer; none if it cannot be read.
pub fn number_reply<S: Stage + Drop, F: FnOnce(usize) -> Result<S, Refusal>>(
    heap: Global,
    words: &mut Words<'_>,
    direction: Direction,
    make: F,
) -> Result<Option<Vec<u8>>, AllocError>
    requires { F.IsAlwaysCallable make }
    ensures { (made : ℕ → Result Model Refusal) → Makes S.Stage.model (λ n r. F.post make n r) made → IfOk result (λ o. option_map vec_items o ≡ number_reply made direction (unread words.old)) }
{
    let Some(number) = words.number() else {
        return Ok(None);
    };
    answer_to(heap, words, direction, make(number as usize))
}

/// The stage over a reference of `count` cells; `Setting` for a reference of another length or a
/// bad one.
fn difference_of(count: u32, reference: &[u8]) -> Result<Difference, Refusal>
    ensures { mapped_both of_difference (λ e. e) result ≡ difference_of count reference.now }
{
    if reference.len() != count as usize {
        return Err(Refusal::Setting);
    }
    Difference::new(reference)
}

/// `difference M HEX`.
pub fn difference_reply(
    heap: Global,
    words: &mut Words<'_>,
    direction: Direction,
) -> Result<Option<Vec<u8>>, AllocError>
    ensures { IfOk result (λ o. option_map vec_items o ≡ difference_reply direction (unread words.old)) }
{
    let Some(count) = words.number() else {
        return Ok(None);
    };
    let Some(reference) = words.list(heap)? else {
        return Ok(None);
    };
    answer_to(
        heap,
        words,
        direction,
        difference_of(count, reference.as_slice()),
    )
}

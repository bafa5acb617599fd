//! Playing a script of calls on a new receiver.
ghost use Rattle.std.specs.Prelude.{◌≡◌, [], map, length, IfOk};
ghost use Rattle.receiving.specs.Histories.{Take, Took, after, answer};
ghost use Rattle.receiving.specs.Playback.{answer_in, call_of};
ghost use Rattle.receiving.specs.Receivers.{view};
ghost use Rattle.receiving.specs.Scripts.{LawfulAnswers};
ghost use Rattle.receiving.specs.Steps.{taken};

use crate::receivers::Receiver;
use crate::scripts::{Reply, Step};
use std::alloc::{AllocError, Global};

/// Takes into a buffer, and gives the answer with the payload's bytes.
fn take_into(heap: Global, receiver: &mut Receiver, out: &mut [u8]) -> Result<Reply, AllocError>
    ensures value { IfOk result (λ reply. answer_in reply ≡ Took (taken (view receiver.old) (length out.old)).1) }
    ensures after { view receiver.new ≡ (taken (view receiver.old) (length out.old)).0 }
{
    match receiver.take(out) {
        Ok((header, length)) => {
            let mut bytes = Vec::new(heap);
            bytes.extend_from_slice(&out[0..length])?;
            Ok(Reply::Took(Ok((header, bytes))))
        }
        Err(refusal) => Ok(Reply::Took(Err(refusal))),
    }
}

/// Takes with so much room.
fn take_with(heap: Global, receiver: &mut Receiver, room: u8) -> Result<Reply, AllocError>
    ensures value { IfOk result (λ reply. answer_in reply ≡ answer (view receiver.old) (Take room)) }
    ensures after { view receiver.new ≡ after (view receiver.old) (Take room) }
{
    let mut buffer = [0u8; 255];
    let (out, _) = buffer.split_at_mut(room as usize);
    take_into(heap, receiver, out)
}

/// Makes one call of a script.
fn play(heap: Global, receiver: &mut Receiver, step: &Step) -> Result<Reply, AllocError>
    ensures value { IfOk result (λ reply. answer_in reply ≡ answer (view receiver.old) (call_of step.now)) }
    ensures after { view receiver.new ≡ after (view receiver.old) (call_of step.now) }
{
    match step {
        Step::Start(reference) => Ok(Reply::Started(receiver.start(reference.as_slice()))),
        Step::Feed(row) => Ok(Reply::Fed(receiver.feed(row.as_slice()))),
        Step::Take(room) => take_with(heap, receiver, *room),
    }
}

/// Plays a script of calls on a new receiver, and gives the reply to each of them, in order.
///
/// The replies are lawful: each is the one that the history of the calls before it makes due. Fails
/// only for want of memory.
pub fn replay(heap: Global, script: &[Step]) -> Result<Vec<Reply>, AllocError>
    ensures { IfOk result (λ replies. LawfulAnswers [] (map call_of script.now) (map answer_in replies.items)) }
{
    let mut receiver = Receiver::new();
    let mut replies = Vec::new(heap);
    for step in script {
        let reply = play(heap, &mut receiver, step)?;
        replies.push(reply)?;
    }
    Ok(replies)
}

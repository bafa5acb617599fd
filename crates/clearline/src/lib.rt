//! A frame over a line that damages nothing: what is sent arrives.
#![tactic(auto)]

ghost use Rattle.std.specs.Prelude.{◌≡◌, ℕ, ◌*◌, ◌≤◌, length};
ghost use Rattle.clearline.specs.Deliveries.{Delivers};
ghost use Rattle.receiving.specs.Laws.{fed_all};
ghost use Rattle.receiving.specs.Receivers.{view};
ghost use Rattle.rows.specs.Carriers.{rows_in};

use frame::Header;
use receiving::Receiver;
use rows::CARRIERS;
use sending::send;

// A count beside the cells: a sender's buffer may be longer than its frame.
/// Feeds so many rows, which stand one behind the other, to a receiver.
fn feed_rows(receiver: &mut Receiver, rows: usize, cells: &[u8])
    requires { 36 * rows ≤ length cells.now }
    ensures { view receiver.new ≡ fed_all (view receiver.old) (rows_in rows cells.now) }
{
    for row in cells.chunks_exact(CARRIERS).take(rows) {
        let _ = receiver.feed(row);
    }
}

/// Sends a frame into `cells` and receives it from there, under one reference; answers the header and
/// the payload's length, with the payload at the front of `out`.
///
/// Whatever can be sent arrives, if `out` has room for it. Answers none where it cannot be sent, or
/// where the room is too short.
pub fn deliver(
    header: Header,
    reference: &[u8],
    bytes: &[u8],
    cells: &mut [u8],
    out: &mut [u8],
) -> Option<(Header, usize)>
    ensures { Delivers header reference.now bytes.now (length cells.old) out.old result out.new }
{
    let Ok(rows) = send(header, reference, bytes, cells) else {
        return None;
    };
    let mut receiver = Receiver::new();
    if receiver.start(reference).is_err() {
        return None;
    }
    feed_rows(&mut receiver, rows, cells);
    match receiver.take(out) {
        Ok(taken) => Some(taken),
        Err(_) => None,
    }
}

//! Sends a meter's reading over a line that damages nothing, shows some of its rows, receives it, and
//! then shows what the receiver says when one cell is damaged.
#![tactic(auto)]

pub mod script;

use clearline::deliver;
use frame::{HEADER_ROWS, Header, size};
use receiving::{FeedRefusal, Part, Receiver, ReceiverFault, Reply, replay};
use rows::{CARRIERS, LAST_HEADER_ROW, SILENCE};
use script::reception;
use sending::{begin, finish};
use std::io;

/// The rows of the frame.
const ROWS: usize = 33;

/// The cells of the frame.
const CELLS: usize = ROWS * CARRIERS;

/// The cell that is damaged: row 20, carrier 7.
const DAMAGED: usize = 20 * CARRIERS + 7;

/// Shows a row: a phase for each live carrier, a dot for each silent one.
fn show_row(rt: &impl Print, number: usize, row: &[u8]) -> io::Result<()> {
    print!(rt; "  row {number:2}  ")?;
    for cell in row {
        if *cell == SILENCE {
            print!(rt; ".")?;
        } else {
            print!(rt; "{cell}")?;
        }
    }
    println!(rt)
}

/// Shows the first and the last header row and the first two payload rows.
fn show_rows(rt: &impl Print, cells: &[u8; CELLS]) -> io::Result<()> {
    for (number, row) in cells.chunks_exact(CARRIERS).enumerate() {
        if number == 0 || (LAST_HEADER_ROW..HEADER_ROWS + 2).contains(&number) {
            show_row(rt, number, row)?;
        }
    }
    Ok(())
}

/// Says which stage found a fault, where, and in which part of the frame.
fn show_fault(rt: &impl Print, fault: ReceiverFault) -> io::Result<()> {
    let stage = fault.fault.fault.number;
    let place = fault.fault.fault.place;
    let depth = fault.fault.depth;
    let part = match fault.part {
        Part::Header => "header",
        Part::Payload => "payload",
    };
    println!(rt;
        "  the {part} is refused: stage {stage} took {place} elements and not the next; {depth} stages stand nearer the line"
    )
}

/// Says why a row was refused.
fn show_refusal(rt: &impl Print, refusal: FeedRefusal) -> io::Result<()> {
    match refusal {
        FeedRefusal::NotListening => println!(rt;
            "  refused with 11: the receiver does not listen"
        ),
        FeedRefusal::Row => println!(rt; "  refused with 9: this is no row"),
        FeedRefusal::Fault(fault) => show_fault(rt, fault),
        FeedRefusal::Header(reason) => {
            let number = reason.number();
            println!(rt; "  refused with {number}: the header is illegal")
        }
    }
}

/// Shows the payload that a receiver hands over.
fn show_payload(rt: &impl Print, receiver: &mut Receiver) -> io::Result<()> {
    let mut payload = [0u8; 255];
    match receiver.take(&mut payload) {
        Ok((header, length)) => {
            let fl = header.fl;
            print!(rt; "  taken: {length} bytes under a header with FL {fl}: ")?;
            for byte in &payload[0..length] {
                let letter = *byte as char;
                print!(rt; "{letter}")?;
            }
            println!(rt)
        }
        Err(_) => println!(rt; "  there is no frame to take"),
    }
}

/// Feeds the rows to a new receiver one by one, and shows what it says.
fn receive(rt: &impl Print, reference: &[u8; CARRIERS], cells: &[u8; CELLS]) -> io::Result<()> {
    let mut receiver = Receiver::new();
    if receiver.start(reference).is_err() {
        return println!(rt; "  this is no reference");
    }
    for (row, phases) in cells.chunks_exact(CARRIERS).enumerate() {
        match receiver.feed(phases) {
            Ok(0) => println!(rt; "  row {row}: the frame is whole")?,
            Ok(missing) => {
                if row == LAST_HEADER_ROW {
                    println!(rt; "  row {row}: the header is there, {missing} rows are missing")?;
                }
            }
            Err(refusal) => return show_refusal(rt, refusal),
        }
    }
    show_payload(rt, &mut receiver)
}

/// Plays the reception as a script of calls, and says what the two takes at its end were answered.
fn show_script(
    rt: &HostRuntime,
    reference: &[u8; CARRIERS],
    cells: &[u8; CELLS],
) -> io::Result<()> {
    let heap = rt.alloc();
    let script = reception(heap, reference, cells)?;
    let replies = replay(heap, script.as_slice())?;
    for reply in replies.as_slice() {
        match reply {
            Reply::Took(Ok((_, payload))) => {
                let length = payload.len();
                println!(rt; "  a take hands over {length} bytes")?;
            }
            Reply::Took(Err(refusal)) => {
                let number = refusal.number();
                println!(rt; "  a take is refused with {number}: no frame is whole")?;
            }
            _ => {}
        }
    }
    Ok(())
}

fn main(rt: HostRuntime) -> io::Result<()> {
    let header = Header {
        pdc: 17,
        modulation: 1,
        fl: 5,
        tm: 59,
        dt: 1,
    };
    let reading = b"meter 47: 001234 kWh";
    let reference = [0u8; CARRIERS];
    let mut cells = [0u8; CELLS];
    println!(rt; "header: PDC 17, MOD 1 (DBPSK), FL 5, TM 59 (sub-band 2 is silent), DT 1")?;
    if let Ok((length, rows)) = size(header) {
        println!(rt; "size: {length} bytes of payload in {rows} rows of 36 carriers")?;
    }
    let Ok(begun) = begin(header, &reference, &mut cells) else {
        return println!(rt; "the frame cannot be begun");
    };
    if finish(begun, reading, &mut cells).is_err() {
        return println!(rt; "the frame cannot be finished");
    }
    println!(rt; "sent, phases in eighths of a turn, a dot for a silent carrier:")?;
    show_rows(&rt, &cells)?;
    println!(rt; "received as it was sent:")?;
    receive(&rt, &reference, &cells)?;
    println!(rt; "the same calls as a script, with two takes at the end:")?;
    show_script(&rt, &reference, &cells)?;
    let mut line = [0u8; CELLS];
    let mut payload = [0u8; 255];
    if let Some((_, length)) = deliver(header, &reference, reading, &mut line, &mut payload) {
        println!(rt; "sent and received in one call: {length} bytes arrive")?;
    }
    cells[DAMAGED] = (cells[DAMAGED] % 8 + 1) % 8;
    println!(rt; "received with the cell in row 20 on carrier 7 turned by an eighth:")?;
    receive(&rt, &reference, &cells)
}

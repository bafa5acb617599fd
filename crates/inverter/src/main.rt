//! Two plain stages of a third party's own, piled with themselves and with each other.
//!
//! The program codes a list, decodes it again, and shows what the chain says of damaged lists
//! and of lists that it does not take.
#![tactic(auto)]

pub mod complement;
pub mod line;
pub mod mark;
#[cfg(test)]
mod tests;

use complement::Inverter;
use line::arrives;
use mark::Marker;
use stage::{Pile, Refusal, Stage, pile_keeps_the_promise};
use std::io;

/// The length of the buffers that the program lends.
const ROOM: usize = 6;

/// Says why a call was refused.
fn tell_refusal(rt: &impl Print, refusal: Refusal) -> io::Result<()> {
    let number = refusal.number();
    match refusal {
        Refusal::Setting => println!(rt; "refused with {number}, a setting is out of range"),
        Refusal::TooShort => println!(rt; "refused with {number}, a buffer is too short"),
        Refusal::Fault(chain) => {
            let depth = chain.depth;
            let stage = chain.fault.number;
            let place = chain.fault.place;
            println!(rt;
                "refused with {number}, by stage {stage} at place {place}, with {depth} stages nearer the line"
            )
        }
        Refusal::Illegal => println!(rt; "refused with {number}, the list is not legal"),
        Refusal::Misfit => println!(rt; "refused with {number}, the members do not fit"),
    }
}

/// Codes a list and says what came of it.
fn show_coding<S: Stage>(rt: &impl Print, stage: &S, list: &[u8]) -> io::Result<()> {
    let mut work = [0u8; ROOM];
    let mut result = [0u8; ROOM];
    print!(rt; "coding {list:?}: ")?;
    match stage.code(list, &mut work, &mut result) {
        Ok(length) => {
            let coding = &result[0..length];
            println!(rt; "{coding:?}")
        }
        Err(refusal) => tell_refusal(rt, refusal),
    }
}

/// Decodes a received list and says what came of it.
fn show_decoding<S: Stage>(rt: &impl Print, stage: &S, list: &[u8]) -> io::Result<()> {
    let mut work = [0u8; ROOM];
    let mut result = [0u8; ROOM];
    print!(rt; "decoding {list:?}: ")?;
    match stage.decode(list, &mut work, &mut result) {
        Ok(length) => {
            let message = &result[0..length];
            println!(rt; "{message:?}")
        }
        Err(refusal) => tell_refusal(rt, refusal),
    }
}

/// Sends a list over a line that damages nothing and says what arrived.
fn show_sending<S: Stage>(rt: &impl Print, stage: &S, list: &[u8]) -> io::Result<()> {
    let mut work = [0u8; ROOM];
    let mut line = [0u8; ROOM];
    let mut result = [0u8; ROOM];
    print!(rt; "sending {list:?} over a clear line: ")?;
    match arrives(stage, list, &mut work, &mut line, &mut result) {
        Ok(length) => println!(rt; "{length} elements arrive as they were sent"),
        Err(refusal) => tell_refusal(rt, refusal),
    }
}

fn main(rt: HostRuntime) -> io::Result<()> {
    let inner = Pile {
        first: Inverter,
        second: Marker,
    };
    let outer = Pile {
        first: Inverter,
        second: Inverter,
    };
    let chain = Pile {
        first: inner,
        second: outer,
    };
    let members = chain.outline().members;
    if pile_keeps_the_promise(&chain) {
        println!(rt; "inverter, marker, inverter, inverter, line: {members} stages that fit")?;
    }
    show_coding(&rt, &chain, &[1, 0, 1, 1])?;
    show_decoding(&rt, &chain, &[0, 1, 0, 0, 1])?;
    show_sending(&rt, &chain, &[0, 0, 1])?;
    show_decoding(&rt, &chain, &[0, 1, 0, 0, 0])?;
    show_decoding(&rt, &chain, &[0, 1, 7, 0, 1])?;
    show_decoding(&rt, &chain, &[])?;
    show_coding(&rt, &chain, &[1, 2])?;
    show_coding(&rt, &chain, &[1, 1, 1, 1, 1, 1])
}

// What a case prints: its name, and for each container that it stands in the refusal's number with its offset, or that all is well.
use crate::pieces;
use crate::pieces::Piece;
use crate::pieces::Piece::{Bytes, Item, Sequence};
use layout::UNDEFINED;
use std::io;

// The sequence that elements and items are put in.
const OUTER: u64 = 0x0040_0275;

// The shape of pieces, put together in a room.
fn shape(rt: &impl Print, room: &mut [u8], pieces: &[Piece]) -> io::Result<()> {
    let Some(bytes) = pieces::put_together(room, pieces) else {
        return print!(rt; " too long");
    };
    match layout::shape_of(bytes) {
        Ok(past) => print!(rt; " fine to {past}"),
        Err(fault) => print!(rt; " {} at {}", fault.refusal.number(), fault.offset),
    }
}

// Elements by themselves, in an item of stated length, and in one of undefined length.
pub fn elements(rt: &impl Print, name: &str, pieces: &[Piece]) -> io::Result<()> {
    let mut alone = [0u8; 512];
    let Some(elements) = pieces::put_together(&mut alone, pieces) else {
        return println!(rt; "{name}: too long");
    };
    let n = elements.len();
    let mut room = [0u8; 1024];
    print!(rt; "{name}: top")?;
    shape(rt, &mut room, &[Bytes(elements)])?;
    print!(rt; "; stated")?;
    shape(
        rt,
        &mut room,
        &[Sequence(OUTER, n + 8), Item(n), Bytes(elements)],
    )?;
    print!(rt; "; undefined")?;
    shape(
        rt,
        &mut room,
        &[Sequence(OUTER, UNDEFINED), Item(UNDEFINED), Bytes(elements)],
    )?;
    println!(rt)
}

// Items in a sequence of stated length, and in one of undefined length.
pub fn items(rt: &impl Print, name: &str, pieces: &[Piece]) -> io::Result<()> {
    let mut alone = [0u8; 512];
    let Some(items) = pieces::put_together(&mut alone, pieces) else {
        return println!(rt; "{name}: too long");
    };
    let mut room = [0u8; 1024];
    print!(rt; "{name}: stated")?;
    shape(rt, &mut room, &[Sequence(OUTER, items.len()), Bytes(items)])?;
    print!(rt; "; undefined")?;
    shape(rt, &mut room, &[Sequence(OUTER, UNDEFINED), Bytes(items)])?;
    println!(rt)
}

// A whole data set.
pub fn whole(rt: &impl Print, name: &str, room: &mut [u8], pieces: &[Piece]) -> io::Result<()> {
    print!(rt; "{name}:")?;
    shape(rt, room, pieces)?;
    println!(rt)
}

// The pieces that the cases are put together from.
use layout::UNDEFINED;
use vr::SQ;

// Room for the longest case. It is a function of its own, since the check runs out of stack on a literal of this length beside a slice.
const ROOM: usize = 900000;

pub fn room() -> [u8; ROOM] {
    [0u8; ROOM]
}

#[derive(Clone, Copy)]
pub enum Piece<'a> {
    // The header of an element: its tag, its VR and its length. Its value, if it has one, is the next piece.
    Element(u64, u64, usize),
    // The header of a sequence: its tag and its length.
    Sequence(u64, usize),
    // An item, and the end marks of an item and of a sequence: the length of each.
    Item(usize),
    ItemEnd(usize),
    SequenceEnd(usize),
    // A value, or what is left over.
    Bytes(&'a [u8]),
    // So many sequences one in the other, each with one item, all of undefined length; the same with stated lengths.
    Nest(usize),
    NestStated(u8),
    // The ends of so many nested sequences that have undefined length.
    Close(usize),
    // So many elements on one level, with tags from (0010,0000) on.
    Elements(u32),
    // So many items with nothing in them.
    Items(usize),
}

impl<'a> Piece<'a> {
    // Writes the piece; the place past it.
    fn put(self, out: &mut [u8], pos: usize) -> usize {
        match self {
            Piece::Element(tag, vr, n) => header(out, pos, tag, vr, n),
            Piece::Sequence(tag, n) => header(out, pos, tag, SQ, n),
            Piece::Item(n) => mark(out, pos, layout::ITEM, n),
            Piece::ItemEnd(n) => mark(out, pos, layout::ITEM_END, n),
            Piece::SequenceEnd(n) => mark(out, pos, layout::SEQUENCE_END, n),
            Piece::Bytes(bytes) => value(out, pos, bytes),
            Piece::Nest(n) => (0..n).fold(pos, |at, _| nested(out, at, UNDEFINED, UNDEFINED)),
            Piece::NestStated(n) => (0..n).rev().fold(pos, |at, deeper| {
                let inside = 20 * usize::from(deeper);
                nested(out, at, inside + 8, inside)
            }),
            Piece::Close(n) => (0..n).fold(pos, |at, _| {
                let past = mark(out, at, layout::ITEM_END, 0);
                mark(out, past, layout::SEQUENCE_END, 0)
            }),
            Piece::Elements(n) => (0..n).fold(pos, |at, i| {
                header(out, at, 0x0010_0000 + u64::from(i), vr::CS, 0)
            }),
            Piece::Items(n) => (0..n).fold(pos, |at, _| {
                let past = mark(out, at, layout::ITEM, UNDEFINED);
                mark(out, past, layout::ITEM_END, 0)
            }),
        }
    }
}

// A place past the room is handed back as it came.
fn header(out: &mut [u8], pos: usize, tag: u64, vr: u64, n: usize) -> usize {
    if ROOM < pos {
        return pos;
    }
    write_headers::put_header(tag, vr, n, out, pos)
}

fn mark(out: &mut [u8], pos: usize, tag: u64, n: usize) -> usize {
    if ROOM < pos {
        return pos;
    }
    write_headers::put_mark(tag, n, out, pos)
}

fn value(out: &mut [u8], pos: usize, bytes: &[u8]) -> usize {
    if ROOM < pos {
        return pos;
    }
    buffer::copy_block(bytes, out, pos)
}

// A sequence with one item, and the length of each.
fn nested(out: &mut [u8], pos: usize, sequence: usize, item: usize) -> usize {
    let at = header(out, pos, 0x0040_0555, SQ, sequence);
    mark(out, at, layout::ITEM, item)
}

// Writes pieces one after the other; what was written, if the room was enough.
pub fn put_together<'a>(room: &'a mut [u8], pieces: &[Piece]) -> Option<&'a [u8]> {
    let to = pieces.iter().fold(0, |at, piece| piece.put(room, at));
    room.get(..to)
}

// Faults at an item or an end mark, in the order of document 01.
use crate::pieces::Piece;
use crate::pieces::Piece::{Bytes, Element, Item, ItemEnd, SequenceEnd};
use crate::report;
use layout::UNDEFINED;
use std::io;

const CASES: [(&str, &[Piece]); 12] = [
    // The bytes end too soon: 6.
    ("item_of_six_bytes", &[Bytes(b"\xFE\xFF\0\xE0\0\0")]),
    ("item_past_the_end", &[Item(8), Bytes(b"AAAAAA")]),
    ("two_bytes_after_an_item", &[Item(0), Bytes(b"AA")]),
    ("six_bytes_left_in_an_item", &[Item(6), Bytes(b"AAAAAA")]),
    // Neither an item nor the end mark: 7.
    ("item_end_among_items", &[ItemEnd(0)]),
    ("sequence_end_first", &[SequenceEnd(0)]),
    ("element_among_items", &[Element(0x0010_0010, vr::PN, 0)]),
    ("item_end_in_a_stated_item", &[Item(8), ItemEnd(0)]),
    // An odd length, or a mark with one: 9.
    ("odd_item", &[Item(3), Bytes(b"AAAA")]),
    ("odd_item_past_the_end", &[Item(3)]),
    ("sequence_end_with_a_length", &[SequenceEnd(2)]),
    ("item_end_with_a_length", &[Item(UNDEFINED), ItemEnd(4)]),
];

pub fn all(rt: &impl Print) -> io::Result<()> {
    for (name, pieces) in CASES {
        report::items(rt, name, pieces)?;
    }
    Ok(())
}

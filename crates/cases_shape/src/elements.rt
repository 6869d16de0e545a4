// Faults at an element, in the order of document 01.
use crate::pieces::Piece;
use crate::pieces::Piece::{Bytes, Element, Item, ItemEnd, Sequence, SequenceEnd};
use crate::report;
use layout::UNDEFINED;
use std::io;
use vr::{OB, PN, UI, UN, UT};

const CASES: [(&str, &[Piece]); 27] = [
    // The bytes end too soon: 6.
    ("six_bytes_left", &[Bytes(b"AAAAAA")]),
    (
        "two_bytes_after_an_element",
        &[Element(0x0010_0010, PN, 0), Bytes(b"AA")],
    ),
    (
        "long_header_of_ten_bytes",
        &[Bytes(b"\x10\0\x10\0OB\0\0\0\0")],
    ),
    // A value, or a sequence, passes the end: 6.
    (
        "value_past_the_end",
        &[Element(0x0010_0010, PN, 8), Bytes(b"AAAAAA")],
    ),
    (
        "long_value_past_the_end",
        &[Element(0x0010_0010, UT, 8), Bytes(b"AAAAAA")],
    ),
    ("sequence_past_the_end", &[Sequence(0x0010_1002, 8)]),
    // A group that no element has: 7.
    ("group_0002", &[Element(0x0002_0010, UI, 0)]),
    ("group_0007", &[Element(0x0007_0010, UI, 0)]),
    ("group_FFFF", &[Element(0xFFFF_0010, UI, 0)]),
    ("group_FFFE", &[Element(0xFFFE_0010, UI, 0)]),
    ("group_FFFD_is_allowed", &[Element(0xFFFD_0010, UI, 0)]),
    // Tags that do not rise: 7.
    (
        "equal_tags",
        &[Element(0x0010_0010, PN, 0), Element(0x0010_0010, PN, 0)],
    ),
    (
        "falling_tags",
        &[Element(0x0010_0010, PN, 0), Element(0x0008_0018, UI, 0)],
    ),
    (
        "falling_after_a_sequence",
        &[Sequence(0x0010_1002, 0), Element(0x0010_0010, PN, 0)],
    ),
    // A mark that may not stand among elements: 7, and 9 for the one that may.
    ("sequence_end_among_elements", &[SequenceEnd(0)]),
    ("item_among_elements", &[Item(0)]),
    ("item_end_with_a_length_among_elements", &[ItemEnd(2)]),
    // An unknown VR, or zero bytes that are not zero: 8.
    ("unknown_vr", &[Element(0x0008_0005, 0x584F, 1)]),
    ("lower_case_vr", &[Element(0x0008_0005, 0x6E70, 0)]),
    (
        "zero_bytes_not_zero",
        &[Bytes(b"\x08\0\x05\0UT\x01\0\x03\0\0\0")],
    ),
    (
        "second_zero_byte_not_zero",
        &[Bytes(b"\x08\0\x05\0UT\0\x01\x03\0\0\0")],
    ),
    // An odd length: 9.
    ("odd_length", &[Element(0x0010_0010, PN, 3), Bytes(b"AAAA")]),
    ("odd_past_the_end", &[Element(0x0010_0010, PN, 3)]),
    (
        "sequence_of_odd_length",
        &[Sequence(0x0010_1002, 7), Bytes(b"AAAAAAAA")],
    ),
    // An undefined length: 9.
    ("undefined_ob", &[Element(0x7FE0_0010, OB, UNDEFINED)]),
    ("undefined_un", &[Element(0x0010_0010, UN, UNDEFINED)]),
    ("short_length_FFFF", &[Element(0x0010_0010, PN, 65535)]),
];

pub fn all(rt: &impl Print) -> io::Result<()> {
    for (name, pieces) in CASES {
        report::elements(rt, name, pieces)?;
    }
    Ok(())
}

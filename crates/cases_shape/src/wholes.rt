// Whole data sets: what is well made, what lacks its end, how deep items nest, and long levels.
use crate::pieces::Piece;
use crate::pieces::Piece::{
    Bytes, Close, Element, Elements, Item, ItemEnd, Items, Nest, NestStated, Sequence, SequenceEnd,
};
use crate::{pieces, report};
use layout::UNDEFINED;
use std::io;
use vr::{CS, LO, PN};

const WELL_MADE: [(&str, &[Piece]); 6] = [
    ("empty_data_set", &[]),
    (
        "one_element",
        &[Element(0x0010_0010, PN, 8), Bytes(b"AAAAAAAA")],
    ),
    (
        "empty_sequence",
        &[
            Element(0x0010_0010, PN, 8),
            Bytes(b"AAAAAAAA"),
            Sequence(0x0010_1002, 0),
        ],
    ),
    // Sequences with stated lengths and with undefined ones.
    (
        "stated_sequence_and_item",
        &[
            Sequence(0x0010_1002, 16),
            Item(8),
            Element(0x0010_0020, LO, 0),
        ],
    ),
    (
        "undefined_sequence_and_items",
        &[
            Sequence(0x0010_1002, UNDEFINED),
            Item(0),
            Item(UNDEFINED),
            Element(0x0010_0020, LO, 0),
            ItemEnd(0),
            SequenceEnd(0),
        ],
    ),
    (
        "undefined_sequence_without_items",
        &[Sequence(0x0010_1002, UNDEFINED), SequenceEnd(0)],
    ),
];

const AT_THE_LIMITS: [(&str, &[Piece]); 14] = [
    // The end mark is missing: 6 where it should stand.
    ("seven_bytes", &[Bytes(b"AAAAAAA")]),
    ("item_end_missing", &[Nest(1)]),
    ("sequence_end_missing", &[Nest(1), ItemEnd(0)]),
    (
        "item_end_past_the_stated_sequence",
        &[
            Sequence(0x0010_1002, 20),
            Item(UNDEFINED),
            Sequence(0x0010_1003, 0),
            ItemEnd(0),
        ],
    ),
    // Items nest eight deep, and not nine: 10 at the ninth.
    ("eight_deep", &[Nest(8), Close(8)]),
    ("nine_deep", &[Nest(9), Close(9)]),
    (
        "empty_sequence_in_the_eighth_item",
        &[Nest(8), Sequence(0x0040_0555, 0), Close(8)],
    ),
    // What else may stand where a ninth item would.
    (
        "sequence_end_at_the_ninth_level",
        &[
            Nest(8),
            Sequence(0x0040_0555, UNDEFINED),
            SequenceEnd(0),
            Close(8),
        ],
    ),
    (
        "odd_ninth_item",
        &[Nest(8), Sequence(0x0040_0555, UNDEFINED), Item(3)],
    ),
    (
        "ninth_item_of_seven_bytes",
        &[Nest(8), Sequence(0x0040_0555, UNDEFINED), Bytes(b"AAAAAAA")],
    ),
    (
        "wrong_tag_for_a_ninth_item",
        &[Nest(8), Sequence(0x0040_0555, UNDEFINED), ItemEnd(0)],
    ),
    // The same where lengths are stated, and where nothing of it will be kept.
    ("eight_deep_stated", &[NestStated(8)]),
    ("nine_deep_stated", &[NestStated(9)]),
    (
        "nine_deep_in_a_private_group",
        &[Sequence(0x0009_1010, UNDEFINED), Item(UNDEFINED), Nest(8)],
    ),
];

// 100,000 elements on one level, and 2,000 items in one sequence.
const LONG: [(&str, &[Piece]); 4] = [
    ("hundred_thousand_elements", &[Elements(100000)]),
    (
        "falling_after_them",
        &[Elements(100000), Element(0x0010_0000, CS, 0)],
    ),
    (
        "sequence_end_missing_after_two_thousand_items",
        &[Sequence(0x0010_1002, UNDEFINED), Items(2000)],
    ),
    (
        "two_thousand_items",
        &[
            Sequence(0x0010_1002, UNDEFINED),
            Items(2000),
            SequenceEnd(0),
        ],
    ),
];

fn cases(rt: &impl Print, room: &mut [u8], cases: &[(&str, &[Piece])]) -> io::Result<()> {
    for (name, pieces) in cases {
        report::whole(rt, name, room, pieces)?;
    }
    Ok(())
}

pub fn well_made(rt: &impl Print) -> io::Result<()> {
    cases(rt, &mut [0u8; 1024], &WELL_MADE)
}

pub fn at_the_limits(rt: &impl Print) -> io::Result<()> {
    cases(rt, &mut [0u8; 1024], &AT_THE_LIMITS)
}

pub fn long(rt: &impl Print) -> io::Result<()> {
    cases(rt, &mut pieces::room(), &LONG)
}

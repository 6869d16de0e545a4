// The rule of replacement lists, at its edges.
use crate::report;
use refusals::Refusal;
use std::io;

const LISTS: [(&str, &[u8]); 28] = [
    // Tags and lengths.
    ("of document 01", b"\x90\x80\x40\x05SUBJ7"),
    ("without entries", b""),
    ("of tag 0", b"\x00\x01A"),
    ("of tag FFFFFFFF", b"\xFF\xFF\xFF\xFF\x0F\x01A"),
    ("of tag 100000000", b"\x80\x80\x80\x80\x10\x01A"),
    (
        "of tag FFFFFFFF with one group too many",
        b"\xFF\xFF\xFF\xFF\x8F\x00\x01A",
    ),
    ("of a tag in six groups", b"\x80\x80\x80\x80\x80\x01\x01A"),
    (
        "of a tag in ten groups",
        b"\xFF\xFF\xFF\xFF\xFF\xFF\xFF\xFF\xFF\x01\x01A",
    ),
    (
        "of a tag with one group too many",
        b"\x90\x80\xC0\x00\x05SUBJ7",
    ),
    ("of tag 0 in two groups", b"\x80\x00\x01A"),
    (
        "of a length with one group too many",
        b"\x90\x80\x40\x85\x00SUBJ7",
    ),
    (
        "of a length in ten groups",
        b"\x90\x80\x40\x81\x80\x80\x80\x80\x80\x80\x80\x80\x02A",
    ),
    // Values.
    ("of a value of 0 bytes", b"\x90\x80\x40\x00"),
    ("of a value of 1 byte", b"\x90\x80\x40\x01A"),
    (
        "of a value of 64 bytes",
        b"\x90\x80\x40\x400123456789012345678901234567890123456789012345678901234567890123",
    ),
    (
        "of a value of 65 bytes",
        b"\x90\x80\x40\x4101234567890123456789012345678901234567890123456789012345678901234",
    ),
    (
        "of a value of 128 bytes",
        b"\x90\x80\x40\x80\x0101234567890123456789012345678901234567890123456789012345678901230123456789012345678901234567890123456789012345678901234567890123",
    ),
    ("of a value with 20", b"\x90\x80\x40\x03A\x20B"),
    ("of a value with 1F", b"\x90\x80\x40\x03A\x1FB"),
    ("of a value with 00", b"\x90\x80\x40\x03A\x00B"),
    ("of a value with 7E", b"\x90\x80\x40\x03A\x7EB"),
    ("of a value with 7F", b"\x90\x80\x40\x03A\x7FB"),
    ("of a value with 80", b"\x90\x80\x40\x03A\x80B"),
    ("of a value with FF", b"\x90\x80\x40\x03A\xFFB"),
    ("of a value with 5B", b"\x90\x80\x40\x03A\x5BB"),
    ("of a value with 5C, a backslash", b"\x90\x80\x40\x03A\x5CB"),
    ("of a value with 5D", b"\x90\x80\x40\x03A\x5DB"),
    (
        "of a value with a backslash at its end",
        b"\x90\x80\x40\x03AB\x5C",
    ),
];

// The order of tags, and the first bytes of a list of two entries.
const TWO_ENTRIES: [(&str, &[u8]); 19] = [
    ("of rising tags", b"\x90\x80\x40\x01A\x91\x80\x40\x01B"),
    ("of equal tags", b"\x90\x80\x40\x01A\x90\x80\x40\x01B"),
    ("of falling tags", b"\x91\x80\x40\x01A\x90\x80\x40\x01B"),
    (
        "of a fault in its last entry",
        b"\x90\x80\x40\x01A\x91\x80\x40\x01\x7F",
    ),
    ("cut at 1", b"\x90"),
    ("cut at 2", b"\x90\x80"),
    ("cut at 3", b"\x90\x80\x40"),
    ("cut at 4", b"\x90\x80\x40\x05"),
    ("cut at 5", b"\x90\x80\x40\x05S"),
    ("cut at 6", b"\x90\x80\x40\x05SU"),
    ("cut at 7", b"\x90\x80\x40\x05SUB"),
    ("cut at 8", b"\x90\x80\x40\x05SUBJ"),
    ("cut at 9", b"\x90\x80\x40\x05SUBJ7"),
    ("cut at 10", b"\x90\x80\x40\x05SUBJ7\x94"),
    ("cut at 11", b"\x90\x80\x40\x05SUBJ7\x94\x80"),
    ("cut at 12", b"\x90\x80\x40\x05SUBJ7\x94\x80\x40"),
    ("cut at 13", b"\x90\x80\x40\x05SUBJ7\x94\x80\x40\x02"),
    ("cut at 14", b"\x90\x80\x40\x05SUBJ7\x94\x80\x40\x02A"),
    ("cut at 15", b"\x90\x80\x40\x05SUBJ7\x94\x80\x40\x02AB"),
];

pub fn all(rt: &impl Print) -> io::Result<()> {
    cases(rt, &LISTS)?;
    cases(rt, &TWO_ENTRIES)?;
    for n in [255, 256, 257] {
        many(rt, n)?;
    }
    Ok(())
}

fn cases(rt: &impl Print, lists: &[(&str, &[u8])]) -> io::Result<()> {
    for (name, list) in lists {
        print!(rt; "list {name}")?;
        report::judged(rt, !lists::list_ok(list), Refusal::BadList)?;
    }
    Ok(())
}

// The most entries that `many` takes.
const MOST: usize = 257;

// `n` entries of rising tags, from 128 on, each with the value "A".
fn many(rt: &impl Print, n: usize) -> io::Result<()> {
    if MOST < n {
        return Ok(());
    }
    let mut list = [[0, 0, 1, b'A']; MOST];
    for (i, entry) in list.iter_mut().enumerate() {
        entry[0] = 128 + (i % 128) as u8;
        entry[1] = 1 + (i / 128) as u8;
    }
    print!(rt; "list of {n} entries")?;
    let fault = !lists::list_ok(list[..n].as_flattened());
    report::judged(rt, fault, Refusal::BadList)
}

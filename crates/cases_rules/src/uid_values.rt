// Values of UIDs, judged, and new UIDs.
use crate::report;
use refusals::Refusal;
use std::io;

const VALUES: [(&str, &str); 22] = [
    ("none", ""),
    ("one of one character and a zero byte", "1\0"),
    ("one of three characters and a zero byte", "1.2\0"),
    ("one of four characters", "1.23"),
    ("one of three characters and nothing", "1.2"),
    ("one of three characters and a space", "1.2 "),
    ("one of four characters and two zero bytes", "1.23\0\0"),
    ("one of four characters and two spaces", "1.23  "),
    ("one of three characters and three zero bytes", "1.2\0\0\0"),
    ("two zero bytes", "\0\0"),
    ("two, and a zero byte", "1.2\\1.3\0"),
    ("two, equal", "1.2\\1.2\0"),
    (
        "two, the first of 64 characters and the other of one",
        "1.2.840.113619.2.55.3.604688119.971.1263887123.450.1234567890.12\\1",
    ),
    (
        "two, the first of 65 characters and the other of two",
        "1.2.840.113619.2.55.3.604688119.971.1263887123.450.1234567890.123\\10",
    ),
    ("two, the other with a leading zero", "1.2\\1.03"),
    ("two, a zero byte after each", "1.2\0\\1.30\0"),
    ("two, with a space before the other", "1.2\\ 1.3"),
    ("a backslash in front", "\\1.2"),
    ("a backslash at the end", "1.2\\"),
    ("a backslash and a zero byte at the end", "1.23\\\0"),
    ("two backslashes between", "1.2\\\\1.3"),
    ("two backslashes alone", "\\\\"),
];

pub fn all(rt: &impl Print) -> io::Result<()> {
    for (name, value) in VALUES {
        print!(rt; "uids {name}")?;
        let fault = uid::uids_fault(value.as_bytes());
        report::judged(rt, fault, Refusal::BadUids)?;
    }
    for n in [999, 1000, 1001] {
        many(rt, n)?;
    }
    for n in [1, 9, 10, 99, 100, 1000, 1024] {
        written(rt, b"1.9", n)?;
    }
    written(rt, b"0", 1)?;
    written(
        rt,
        b"1.2.840.113619.2.55.3.604688119.971.1263887123.450.12345678",
        1024,
    )
}

// The most UIDs that `many` takes.
const MOST: usize = 1001;

// `n` UIDs "1": their length is odd, so a zero byte stands last.
fn many(rt: &impl Print, n: usize) -> io::Result<()> {
    if n < 1 || MOST < n {
        return Ok(());
    }
    let mut uids = [*b"1\\"; MOST];
    uids[n - 1] = *b"1\0";
    print!(rt; "uids of {n}")?;
    let fault = uid::uids_fault(uids[..n].as_flattened());
    report::judged(rt, fault, Refusal::BadUids)
}

// A new UID: at most 64 characters for a root of at most 59 and a number of at most four digits.
fn written(rt: &impl Print, root: &[u8], n: usize) -> io::Result<()> {
    if uid::LONGEST_ROOT < root.len() || 9999 < n {
        return Ok(());
    }
    let mut out = [0u8; uid::LONGEST_UID];
    let to = uid::put_uid(root, n, &mut out, 0);
    print!(rt; "new uid {n}: ")?;
    if let Some(new_uid) = out.get(..to) {
        report::quoted(rt, new_uid)?;
    }
    println!(rt; " of {to}")
}

// The UID rule, at its edges.
use crate::report;
use refusals::Refusal;
use std::io;

const UIDS: [&str; 25] = [
    "0",
    "00",
    "01",
    "1",
    "10",
    "1.02",
    "1.00",
    "1.0.2",
    "0.0",
    "1..2",
    ".1",
    "1.",
    ".",
    "",
    "1.2a",
    "-1",
    "1,2",
    "1.2/3",
    "1.2:3",
    "1.2 ",
    "\x201.2",
    "1.2\\3",
    "1.2.840.113619.2.55.3.604688119.971.1263887123.450.1234567890.12",
    "1.2.840.113619.2.55.3.604688119.971.1263887123.450.1234567890.123",
    "1.2.840.113619.2.55.3.604688119.971.1263887123.450.1234567890.02",
];

const ROOTS: [&str; 7] = [
    "1",
    "1.9",
    "1.9.",
    "1.09",
    "",
    "1.2.840.113619.2.55.3.604688119.971.1263887123.450.12345678",
    "1.2.840.113619.2.55.3.604688119.971.1263887123.450.123456789",
];

pub fn all(rt: &impl Print) -> io::Result<()> {
    for uid in UIDS {
        print!(rt; "uid \"{uid}\" of {}", uid.len())?;
        let fault = !uid::is_uid(uid.as_bytes());
        report::judged(rt, fault, Refusal::BadUids)?;
    }
    for root in ROOTS {
        print!(rt; "root \"{root}\" of {}", root.len())?;
        report::judged(rt, !uid::is_root(root.as_bytes()), Refusal::BadRoot)?;
    }
    Ok(())
}

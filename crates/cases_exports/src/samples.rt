// The samples that are short enough to be written out.
use crate::report;
use crate::report::{Given, PLAIN};
use std::io;

pub fn names(rt: &impl Print) -> io::Result<()> {
    let doe = b"\x10\0\x10\0PN\x08\0Doe^Jane";
    report::run(rt, "empty input", b"", PLAIN)?;
    report::run(rt, "Doe^Jane", doe, PLAIN)?;
    report::run(rt, "Doe^Jane, room 148", doe, Given { room: 148, ..PLAIN })?;
    report::run(rt, "Doe^Jane, room 147", doe, Given { room: 147, ..PLAIN })?;
    let study = b"\x90\x80\x40\x05SUBJ7";
    report::run(rt, "Doe^Jane, SUBJ7", doe, Given { study, ..PLAIN })
}

pub fn uids(rt: &impl Print) -> io::Result<()> {
    report::run(
        rt,
        "equal UIDs",
        b"\x20\0\x0D\0UI\x06\x001.2.3\0\x20\0\x0E\0UI\x06\x001.2.3\0",
        PLAIN,
    )?;
    report::run(
        rt,
        "different UIDs",
        b"\x20\0\x0D\0UI\x06\x001.2.3\0\x20\0\x0E\0UI\x06\x001.2.4\0",
        PLAIN,
    )
}

fn date(rt: &impl Print, name: &str, lent: &[u8], shift: i64) -> io::Result<()> {
    let moved = Given {
        options: 2,
        shift,
        ..PLAIN
    };
    report::run(rt, name, lent, moved)
}

pub fn dates(rt: &impl Print) -> io::Result<()> {
    date(rt, "20200301 by -1", b"\x08\0\x20\0DA\x08\x0020200301", -1)?;
    date(rt, "20190301 by -1", b"\x08\0\x20\0DA\x08\x0020190301", -1)?;
    date(rt, "20240131 by 30", b"\x08\0\x20\0DA\x08\x0020240131", 30)?;
    date(rt, "00010101 by -1", b"\x08\0\x20\0DA\x08\x0000010101", -1)
}

pub fn roots(rt: &impl Print) -> io::Result<()> {
    let root = b"1.111111111111111111111111111111111111111111111111111111111";
    report::run(rt, "root of 59", b"", Given { root, ..PLAIN })?;
    let root = b"1.1111111111111111111111111111111111111111111111111111111111";
    report::run(rt, "root of 60", b"", Given { root, ..PLAIN })
}

pub fn groups(rt: &impl Print) -> io::Result<()> {
    let ethnic = b"\x10\0\x60\x21SH\x04\0ABCD";
    let patients = Given {
        options: 4,
        ..PLAIN
    };
    report::run(rt, "private", b"\x09\0\x10\0LO\x04\0ACME", PLAIN)?;
    report::run(rt, "Ethnic Group, option 2", ethnic, patients)?;
    report::run(rt, "Ethnic Group", ethnic, PLAIN)
}

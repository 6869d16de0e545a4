// The samples that are put together: items one in the other, and a value of many UIDs.
use crate::report;
use crate::report::Given;
use std::io;

const SIZE: usize = 2048;

const LONG: Given<'static> = Given {
    room: report::ROOM,
    ..report::PLAIN
};

// `n` sequences (0008,1199), which have no row and are walked into, one in the other, each with one item.
pub fn deep(rt: &impl Print, name: &str, n: usize) -> io::Result<()> {
    if 9 < n {
        return Ok(());
    }
    let mut lent = [0u8; SIZE];
    let (openings, closings) = lent[..36 * n].split_at_mut(20 * n);
    for opening in openings.as_chunks_mut().0 {
        *opening = *b"\x08\0\x99\x11SQ\0\0\xFF\xFF\xFF\xFF\xFE\xFF\0\xE0\xFF\xFF\xFF\xFF";
    }
    for closing in closings.as_chunks_mut().0 {
        *closing = *b"\xFE\xFF\x0D\xE0\0\0\0\0\xFE\xFF\xDD\xE0\0\0\0\0";
    }
    report::run(rt, name, &lent[..36 * n], LONG)
}

// The Study Instance UID with `n` times the UID 1: its length has two bytes, and a zero byte stands at the end.
pub fn many(rt: &impl Print, name: &str, n: u16) -> io::Result<()> {
    if 1001 < n {
        return Ok(());
    }
    let mut lent = [0u8; SIZE];
    let len = 2 * n;
    let to = 8 + len as usize;
    lent[..6].copy_from_slice(b"\x20\0\x0D\0UI");
    lent[6..8].copy_from_slice(&len.to_le_bytes());
    for uid in lent[8..to].as_chunks_mut().0 {
        *uid = *b"1\\";
    }
    lent[to - 1] = 0;
    report::run(rt, name, &lent[..to], LONG)
}

// Values of DA and DT elements, moved: what is well made, and what is refused with 12.
use crate::report;
use refusals::Refusal;
use std::io;

#[derive(Clone, Copy, Debug, PartialEq, Eq)]
enum Vr {
    DA,
    DT,
}

const DA_BACK: [&str; 18] = [
    "20200301",
    "20200301\\20200101 ",
    "20200301\\20200101\\20190301",
    "",
    "20200101-20200201 ",
    "2020030 ",
    "2020.03.01",
    "202003011200",
    "20200301\\ ",
    "20200301\\20200302\\",
    "\\20200301 ",
    "20200301\\\\20200302",
    "20200301  ",
    "\x20 ",
    "2020O301",
    "2020/3/1",
    "202003:1",
    "00010101",
];

const DT_BACK: [&str; 15] = [
    "20200301",
    "20200301120000.000000+0100",
    "2020030112",
    "20200301 12:00 noon ",
    "20200301\\20200101 ",
    "20200101-20200201 ",
    "",
    "2020",
    "202003",
    "2020030 ",
    "20200301\\ ",
    "20200301\\2020 ",
    "\\20200301 ",
    "\x20 ",
    "00010101000000",
];

const DA_AHEAD: [&str; 5] = [
    "20231231",
    "20230229",
    "99991231",
    "20200301\\20200302\\20200230",
    "20200301\\99991231 ",
];

const ROOM: usize = 64;

pub fn all(rt: &impl Print) -> io::Result<()> {
    cases(rt, Vr::DA, -1, &DA_BACK)?;
    print!(rt; "DA a date, a backslash, a date and a zero byte: ")?;
    answer(rt, Vr::DA, -1, b"20200301\\20200101\0")?;
    cases(rt, Vr::DT, -1, &DT_BACK)?;
    cases(rt, Vr::DA, 0, &["20200301", "20230229", "00000101"])?;
    cases(rt, Vr::DT, 0, &["20200301120000", "20230229120000"])?;
    cases(rt, Vr::DA, 1, &DA_AHEAD)?;
    cases(
        rt,
        Vr::DT,
        1,
        &["20200301120000\\20191231235959 ", "99991231235959"],
    )
}

fn cases(rt: &impl Print, vr: Vr, days: i32, values: &[&str]) -> io::Result<()> {
    for value in values {
        print!(rt; "{vr:?} \"{value}\" by {days}: ")?;
        answer(rt, vr, days, value.as_bytes())?;
    }
    Ok(())
}

fn answer(rt: &impl Print, vr: Vr, days: i32, value: &[u8]) -> io::Result<()> {
    let da = vr == Vr::DA;
    let to = value.len();
    if ROOM < to {
        return Ok(());
    }
    if calendar::date_fault(da, value, days) {
        return println!(rt; "{}", Refusal::BadDates.number());
    }
    let mut out = [0u8; ROOM];
    calendar::put_shifted(da, value, days, &mut out, 0);
    report::quoted(rt, &out[..to])?;
    println!(rt)
}

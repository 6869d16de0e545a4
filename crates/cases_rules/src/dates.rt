// Dates moved by days. The answers are those of another proleptic Gregorian calendar; among them are known day counts: 10,957 days from
// 1970 to 2000, 24,855 to the last day of 32-bit time, 7,168 of 1,024 weeks of GPS, 51,544 for the modified Julian day of 2000, 36,526 for the
// serial day of spreadsheets, 134,774 from 1601 to 1970, 146,097 in 400 years, and 3,652,059 days in the years 0001 to 9999.
use calendar::Date;
use refusals::Refusal;
use std::io;

// A date, as its eight digits, and the days that it is moved by.
const MOVES: [(u32, i32); 67] = [
    // Leap days.
    (20200301, -1),
    (20190301, -1),
    (20240131, 30),
    (19000228, 1),
    (19000301, -1),
    (20000228, 1),
    (20000301, -1),
    (21000228, 1),
    // Ends of years.
    (19991231, 1),
    (20000101, -1),
    (00010101, -1),
    (00010101, 0),
    (00010102, -1),
    (99991231, 1),
    (99991230, 1),
    (99991231, 0),
    // The longest shifts, there and back.
    (00010101, 36500),
    (01001208, -36500),
    (99991231, -36500),
    (99000124, 36500),
    (99000125, 36500),
    (16000101, -1),
    (16000229, 36500),
    // Known counts of days.
    (19700101, 10957),
    (20000101, -10957),
    (19691231, 20000),
    (19700101, 24855),
    (19800106, 7168),
    (18991230, 36526),
    (18581117, 51544),
    (16010101, 134774),
    (16000301, 146097),
    // Leap years.
    (15821015, -1),
    (00010101, 3652058),
    (00010101, 3652059),
    (99991231, -3652058),
    (99991231, -3652059),
    (20240229, 365),
    (20240229, 366),
    (20240229, 1461),
    (20240229, -1),
    (20231231, 366),
    // Ends of months, and early and late years.
    (20240430, 1),
    (20240731, 1),
    (20240801, -1),
    (20240831, 1),
    (20241201, -1),
    (01000228, 1),
    (04000228, 1),
    (00040228, 1),
    (19000101, 36500),
    (20000101, -36500),
    // No day of the calendar.
    (20230228, 1),
    (20000229, 0),
    (20230229, 0),
    (19000229, 0),
    (20240230, 0),
    (20230431, 0),
    (20230132, 0),
    (20230100, 0),
    // No month and no year of the calendar, and the longest shifts of all.
    (20230001, 0),
    (20231301, 0),
    (00000101, 0),
    (00001231, 1),
    (100000101, -1),
    (20200301, 2147483647),
    (20200301, -2147483648),
];

pub fn all(rt: &impl Print) -> io::Result<()> {
    for (digits, days) in MOVES {
        case(rt, digits, days)?;
    }
    Ok(())
}

// A date in eight digits; a year past 9999 has more.
fn shown(rt: &impl Print, date: Date) -> io::Result<()> {
    print!(rt; "{:04}{:02}{:02}", date.year, date.month, date.day)
}

fn case(rt: &impl Print, digits: u32, days: i32) -> io::Result<()> {
    let date = Date {
        year: digits / 10000,
        month: digits / 100 % 100,
        day: digits % 100,
    };
    shown(rt, date)?;
    print!(rt; " by {days}: ")?;
    match date.shifted(days) {
        Some(moved) => shown(rt, moved)?,
        None => print!(rt; "{}", Refusal::BadDates.number())?,
    }
    println!(rt)
}

// Option number and shift, judged: refusal 1.
use crate::report;
use refusals::Refusal;
use std::io;

const SETTINGS: [(u64, i64); 24] = [
    // Numbers; 63 has both date options.
    (0, 0),
    (63, 0),
    (62, 0),
    (61, 0),
    (60, 0),
    (64, 0),
    (66, 1),
    (18446744073709551615, 0),
    (3, 0),
    (7, 1),
    // Shifts.
    (2, 0),
    (2, 36500),
    (2, -36500),
    (2, 36501),
    (2, -36501),
    (62, 1),
    (62, -1),
    (2, 9223372036854775807),
    (2, -9223372036854775808),
    (0, 1),
    (0, -1),
    (1, 1),
    (60, 1),
    (0, -9223372036854775808),
];

pub fn all(rt: &impl Print) -> io::Result<()> {
    for (number, shift) in SETTINGS {
        print!(rt; "number {number}, shift {shift}")?;
        let fault = options::settings_fault(number, shift);
        report::judged(rt, fault, Refusal::BadSettings)?;
    }
    Ok(())
}

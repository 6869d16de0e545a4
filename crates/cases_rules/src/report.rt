// What cases print alike: bytes in quotes, and answers.
use refusals::Refusal;
use std::io;

// Bytes as they are: not each is text.
pub fn quoted(rt: &impl Print, s: &[u8]) -> io::Result<()> {
    rt.write_all(b"\"")?;
    rt.write_all(s)?;
    rt.write_all(b"\"")
}

// The refusal's number where there is a fault.
pub fn judged(rt: &impl Print, fault: bool, refusal: Refusal) -> io::Result<()> {
    if fault {
        println!(rt; ": {}", refusal.number())
    } else {
        println!(rt; ": fine")
    }
}

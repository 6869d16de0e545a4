// The ledger: how many slots it has, and the numbers that UIDs get in it.
use ledger::Slot;
use refusals::Refusal;
use std::io;

pub fn all(rt: &impl Print) -> io::Result<()> {
    counts(rt)?;
    first_appearance(rt)?;
    in_use(rt)?;
    garbage(rt)?;
    cases(rt, "63 bytes", &mut [0u8; 63], 0, &["1.2.3"])
}

fn counts(rt: &impl Print) -> io::Result<()> {
    let lent = [0u8; 65600];
    for n in [0, 63, 64, 127, 128, 65535, 65536, 65600] {
        println!(rt; "slots of a ledger of {n}: {}", ledger::slots(&lent[..n]))?;
    }
    Ok(())
}

// Asks for the slots of UIDs, one after the other, in a ledger that a name tells.
fn cases(
    rt: &impl Print,
    name: &str,
    lent: &mut [u8],
    used: usize,
    uids: &[&str],
) -> io::Result<()> {
    let mut count = used;
    for uid in uids {
        print!(rt; "{name}, {uid}: ")?;
        count = ask(rt, uid.as_bytes(), lent, count)?;
        println!(rt)?;
    }
    Ok(())
}

// Asks for a UID's slot; the new count in use.
fn ask(rt: &impl Print, uid: &[u8], lent: &mut [u8], used: usize) -> io::Result<usize> {
    if ledger::SLOT_SIZE < uid.len() || ledger::slots(lent) < used {
        return Ok(used);
    }
    match ledger::slot_of(uid, lent, used) {
        None => {
            print!(rt; "{}", Refusal::NoSlot.number())?;
            Ok(used)
        }
        Some(Slot { number, used }) => {
            print!(rt; "{number} of {used}")?;
            Ok(used)
        }
    }
}

// By first appearance, until no slot is free; two of 64 characters differ in the last.
fn first_appearance(rt: &impl Print) -> io::Result<()> {
    cases(
        rt,
        "three free slots",
        &mut [0u8; 192],
        0,
        &[
            "1.2.3",
            "1.2.4",
            "1.2.3",
            "1.2.840.113619.2.55.3.604688119.971.1263887123.450.1234567890.12",
            "1.2.840.113619.2.55.3.604688119.971.1263887123.450.1234567890.13",
            "1.2.840.113619.2.55.3.604688119.971.1263887123.450.1234567890.12",
            "1.2.4",
        ],
    )
}

// The first of equal slots; what stands past those in use is not found; one that begins like another is not that one.
fn in_use(rt: &impl Print) -> io::Result<()> {
    let mut lent = [0u8; 192];
    lent[..5].copy_from_slice(b"1.2.3");
    lent[64..69].copy_from_slice(b"1.2.3");
    cases(
        rt,
        "1.2.3 twice in use",
        &mut lent,
        2,
        &["1.2.3", "1.2.9", "1.2.4", "1.2.9"],
    )?;
    cases(
        rt,
        "the first slot in use",
        &mut lent,
        1,
        &["1.2.9", "1.2", "1.2.34", "1.2.3"],
    )
}

// A slot with garbage behind the UID is not found, and stays.
fn garbage(rt: &impl Print) -> io::Result<()> {
    let mut lent = [0u8; 192];
    lent[..7].copy_from_slice(b"1.2.3\0x");
    cases(
        rt,
        "1.2.3 and garbage in use",
        &mut lent,
        1,
        &["1.2.3", "1.2.3"],
    )
}

// One run, and what it prints.
use refusals::Fault;
use std::io;
use write_state::Progress;

// The most room that an output has, and the most of its bytes that are printed.
pub const ROOM: usize = 8192;

const SHOWN: usize = 300;

// What a run is given beside its data set. Its site list is empty, and so is its ledger, of two slots.
#[derive(Clone, Copy)]
pub struct Given<'a> {
    pub options: u64,
    pub shift: i64,
    pub root: &'a [u8],
    pub study: &'a [u8],
    pub room: usize,
}

// No option, an empty study list, and room for a short output.
pub const PLAIN: Given<'static> = Given {
    options: 0,
    shift: 0,
    root: b"1.9",
    study: b"",
    room: 300,
};

// The report; the length written.
fn outcome(rt: &impl Print, outcome: Result<Progress, Fault>) -> io::Result<usize> {
    match outcome {
        Err(fault) => {
            println!(rt; "{} at {}", fault.refusal.number(), fault.offset)?;
            Ok(0)
        }
        Ok(t) => {
            println!(rt;
                "{} bytes, in use {}, kept {}, replaced {}, renamed {}, removed {}",
                t.pos, t.used, t.kept, t.replaced, t.renamed, t.removed
            )?;
            Ok(t.pos)
        }
    }
}

// The bytes lent as the room: those up to a place, as far as they are printed, and whether zeros follow.
fn bytes(rt: &impl Print, out: &[u8], to: usize) -> io::Result<()> {
    let (written, rest) = out.split_at(to.min(out.len()));
    for byte in written.iter().take(SHOWN) {
        print!(rt; "{byte:02X} ")?;
    }
    if rest.iter().all(|byte| *byte == 0) {
        println!(rt; "and zeros")
    } else {
        println!(rt; "and not zeros")
    }
}

// A run, on an output that is not zero beforehand.
pub fn run(rt: &impl Print, name: &str, lent: &[u8], given: Given) -> io::Result<()> {
    let mut ledger = [0u8; 128];
    let mut room = [85u8; ROOM];
    let out = &mut room[..given.room.min(ROOM)];
    let handed = station::deidentify(
        lent,
        given.options,
        given.shift,
        given.root,
        given.study,
        b"",
        &mut ledger,
        0,
        out,
    );
    print!(rt; "{name}: ")?;
    let to = outcome(rt, handed)?;
    bytes(rt, out, to)
}

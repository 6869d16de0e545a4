// The shape of a data set: heads of elements, items and end marks, and the walk that finds the first fault (refusals 6 to 10).
// Elements contain sequences, sequences contain items, items contain elements: three walkers call each other in that cycle. What
// stands side by side is passed over in a loop, so the stack grows with the depth alone, and a value is never looked into. The loops of
// the walks, here and in the crates above, are no iterators: where the next head stands is known only once what the last one holds was
// walked.
#![tactic(auto)]

ghost use Rattle.std.specs.Prelude.{◌≡◌, None, Ok, ℕ, ◌+◌, ◌≤◌, ◌<◌, length};
ghost use Rattle.basis.specs.Bytes.{le2, le4};
ghost use Rattle.layout.specs.Limits.{deepest};
ghost use Rattle.layout.specs.Source.{explicitly};
ghost use Rattle.layout.specs.Heads.{tag_at, length_fault, unless, value_head, sequence_head, long_head, vr_head, tag_head, element_head, item_body, item_at, item_head};
ghost use Rattle.layout.specs.Read.{read, shape_of};
ghost use Rattle.layout.specs.Walks.{ended, stop_of, located, Inside, Within, Lies, deeper, Walked, WalkedItems};

use refusals::{Fault, Refusal};
use vr::Kind;

// How many items may nest.
pub const DEEPEST: u8 = 8;

// How many bytes a data set may have.
pub const LONGEST: usize = 268435456;

// An item's tag, the end marks of an item and of a sequence, and the length of what ends with such a mark.
pub const ITEM: u64 = 0xFFFE_E000;

pub const ITEM_END: u64 = 0xFFFE_E00D;

pub const SEQUENCE_END: u64 = 0xFFFE_E0DD;

pub const UNDEFINED: usize = 0xFFFF_FFFF;

// The first tag that an element may have, and the first after it that none may.
const FIRST_TAG: u64 = 0x0008_0000;

const NO_TAG: u64 = 0xFFFE_0000;

// Elements that stand side by side, or items: where they begin, where they have to stop, whether an end mark closes them before that, and
// how many more items may nest in them. A walk takes it as one thing, and reads it but does not change it, so what else a walk has to know
// of its container will be a field here, and no parameter of the walks.
#[derive(Clone, Copy)]
pub struct Container {
    pub from: usize,
    pub end: usize,
    pub unstated: bool,
    pub depth: u8,
}

// What stands where an element may.
#[derive(Clone, Copy, Debug, PartialEq, Eq)]
pub enum Head {
    // the end of the container: the place past it
    End(usize),
    // an element with a value: where the value begins, and the place past it
    Plain {
        tag: u64,
        vr: u64,
        body: usize,
        past: usize,
    },
    // a sequence: where its items begin, where they have to stop, whether an end mark closes it
    Seq {
        tag: u64,
        body: usize,
        stop: usize,
        unstated: bool,
    },
}

// What stands where an item may.
#[derive(Clone, Copy, Debug, PartialEq, Eq)]
pub enum Spot {
    // the end of the sequence: the place past it
    Over(usize),
    // an item: where its elements begin, where they have to stop, whether an end mark closes it
    Item {
        body: usize,
        stop: usize,
        unstated: bool,
    },
}

pub fn u16_at(s: &[u8], at: usize) -> u64
    requires { at + 2 ≤ length s.now }
    ensures { (result ≡ le2 s.now at) × (result < 65536) }
{
    u64::from(u16::from_le_bytes([s[at], s[at + 1]]))
}

pub fn u32_at(s: &[u8], at: usize) -> u64
    requires { at + 4 ≤ length s.now }
    ensures { (result ≡ le4 s.now at) × (result < 4294967296) }
{
    u64::from(u32::from_le_bytes([s[at], s[at + 1], s[at + 2], s[at + 3]]))
}

pub fn tag_at(s: &[u8], at: usize) -> u64
    requires { at + 4 ≤ length s.now }
    ensures { (result ≡ tag_at s.now at) × (result < 4294967296) }
{
    u16_at(s, at) * 65536 + u16_at(s, at + 2)
}

// Heads take the whole data set and places in it, and no slices of it: what they find is told in its places, so each asks that they lie in it.
// A tag is any number of four bytes, and what reads on from one asks that it is; a type for it would stand in every contract above.

// A stated length, with `left` bytes to the container's end: it may not be odd, and then not pass the end.
#[tactic(auto, unfolding(crate::specs::Heads::length_fault))]
fn check_length(n: usize, left: usize) -> Result<(), Refusal>
    ensures { result ≡ unless (length_fault n left) tt }
{
    if n % 2 != 0 {
        return Err(Refusal::BadLength);
    }
    if left < n {
        return Err(Refusal::CutShort);
    }
    Ok(())
}

// An element with a value of `n` bytes at `body`.
#[tactic(auto, unfolding(crate::specs::Heads::value_head, crate::specs::Heads::length_fault))]
fn value_head(tag: u64, vr: u64, body: usize, end: usize, n: usize) -> Result<Head, Refusal>
    requires { (body ≤ end) × (tag < 4294967296) }
    ensures value { result ≡ value_head tag vr body end n }
    ensures inside { (at : ℕ) → at + 8 ≤ body → Inside at end result }
{
    check_length(n, end - body)?;
    Ok(Head::Plain {
        tag,
        vr,
        body,
        past: body + n,
    })
}

// Where what a sequence or an item holds has to stop, and whether an end mark closes it: it begins at `body`, and `n` is the length that
// was read.
#[tactic(auto, unfolding(crate::specs::Heads::length_fault))]
fn stop_of(body: usize, end: usize, n: usize) -> Result<(usize, bool), Refusal>
    requires { body ≤ end }
    ensures { result ≡ stop_of body end n }
{
    if n == UNDEFINED {
        return Ok((end, true));
    }
    check_length(n, end - body)?;
    Ok((body + n, false))
}

// A sequence whose items begin at `body`.
#[tactic(auto, unfolding(crate::specs::Heads::sequence_head, crate::specs::Heads::length_fault))]
fn sequence_head(tag: u64, body: usize, end: usize, n: usize) -> Result<Head, Refusal>
    requires { (body ≤ end) × (tag < 4294967296) }
    ensures value { result ≡ sequence_head tag body end n }
    ensures inside { (at : ℕ) → at + 12 ≤ body → Inside at end result }
{
    let (stop, unstated) = stop_of(body, end, n)?;
    Ok(Head::Seq {
        tag,
        body,
        stop,
        unstated,
    })
}

// An element with a header of 12 bytes: a sequence, or a value.
#[tactic(auto, unfolding(crate::specs::Heads::long_head))]
fn long_head(
    s: &[u8],
    at: usize,
    end: usize,
    tag: u64,
    vr: u64,
    items: bool,
) -> Result<Head, Refusal>
    requires { (at + 8 ≤ end) × (end ≤ length s.now) × (tag < 4294967296) }
    ensures value { result ≡ long_head s.now at end tag vr items }
    ensures inside { Inside at end result }
{
    if end - at < 12 {
        return Err(Refusal::CutShort);
    }
    if u16_at(s, at + 6) != 0 {
        return Err(Refusal::BadVr);
    }
    let n = u32_at(s, at + 8) as usize;
    if items {
        return sequence_head(tag, at + 12, end, n);
    }
    value_head(tag, vr, at + 12, end, n)
}

// The rest of an element's head, from its VR on.
#[tactic(auto, unfolding(crate::specs::Heads::vr_head))]
fn vr_head(s: &[u8], at: usize, end: usize, tag: u64) -> Result<Head, Refusal>
    requires { (at + 8 ≤ end) × (end ≤ length s.now) × (tag < 4294967296) }
    ensures value { result ≡ vr_head s.now at end tag (le2 s.now (at + 4)) }
    ensures inside { Inside at end result }
{
    let vr = u16_at(s, at + 4);
    match vr::kind_of(vr).ok_or(Refusal::BadVr)? {
        Kind::Short => value_head(tag, vr, at + 8, end, u16_at(s, at + 6) as usize),
        Kind::Long => long_head(s, at, end, tag, vr, false),
        Kind::Sequence => long_head(s, at, end, tag, vr, true),
    }
}

// An element's head, from its tag on. It stays a call of its own, and `element_head` is none: so the walks test for the end where they stand,
// and only what follows it is handed back in memory.
#[inline(never)]
#[tactic(auto, unfolding(crate::specs::Heads::tag_head, crate::specs::Heads::allowed))]
fn tag_head(s: &[u8], at: usize, end: usize, tag: u64, low: u64) -> Result<Head, Refusal>
    requires { (at + 8 ≤ end) × (end ≤ length s.now) × (tag < 4294967296) }
    ensures value { result ≡ tag_head (explicitly s.now) at end tag low }
    ensures inside { Inside at end result }
{
    if tag < low || !(FIRST_TAG..NO_TAG).contains(&tag) {
        return Err(Refusal::BadTag);
    }
    vr_head(s, at, end, tag)
}

// Whether a container ends at `at`: the place past it, if it does. It ends where it is full, or, where its length is not stated, at its end
// mark before that; where it does not end, it has room for a header.
fn ended(
    s: &[u8],
    at: usize,
    end: usize,
    unstated: bool,
    mark: u64,
) -> Result<Option<usize>, Refusal>
    requires { (at ≤ end) × (end ≤ length s.now) }
    ensures value { result ≡ ended s.now at end unstated mark }
    ensures room { result ≡ Ok None → at + 8 ≤ end }
{
    if end - at < 8 {
        if at == end && !unstated {
            return Ok(Some(at));
        }
        return Err(Refusal::CutShort);
    }
    if unstated && tag_at(s, at) == mark {
        if u32_at(s, at + 4) != 0 {
            return Err(Refusal::BadLength);
        }
        return Ok(Some(at + 8));
    }
    Ok(None)
}

// What stands at `at` in a container of elements that ends at `end`, or, where its length is not stated, at its end mark before that.
// The next tag has to be `low` at least.
#[inline(always)]
#[tactic(auto, unfolding(crate::specs::Heads::element_head))]
pub fn element_head(
    s: &[u8],
    at: usize,
    end: usize,
    unstated: bool,
    low: u64,
) -> Result<Head, Refusal>
    requires { (at ≤ end) × (end ≤ length s.now) }
    ensures value { result ≡ element_head (explicitly s.now) at end unstated low }
    ensures inside { Inside at end result }
{
    if let Some(past) = ended(s, at, end, unstated, ITEM_END)? {
        return Ok(Head::End(past));
    }
    tag_head(s, at, end, tag_at(s, at), low)
}

// An item whose elements begin at `body`.
#[tactic(auto, unfolding(crate::specs::Heads::item_body, crate::specs::Heads::length_fault))]
fn item_body(body: usize, end: usize, n: usize) -> Result<Spot, Refusal>
    requires { body ≤ end }
    ensures value { result ≡ item_body body end n }
    ensures within { (at depth : ℕ) → at + 8 ≤ body → 0 < depth → Within at end depth result }
{
    let (stop, unstated) = stop_of(body, end, n)?;
    Ok(Spot::Item {
        body,
        stop,
        unstated,
    })
}

// Where the mark that ends a sequence does not stand: an item, with `depth` more items allowed to nest.
#[tactic(auto, unfolding(crate::specs::Heads::item_at))]
fn item_at(s: &[u8], at: usize, end: usize, tag: u64, depth: u8) -> Result<Spot, Refusal>
    requires { (at + 8 ≤ end) × (end ≤ length s.now) }
    ensures value { result ≡ item_at s.now at end tag depth }
    ensures within { Within at end depth result }
{
    if tag != ITEM {
        return Err(Refusal::BadTag);
    }
    if depth == 0 {
        return Err(Refusal::TooDeep);
    }
    item_body(at + 8, end, u32_at(s, at + 4) as usize)
}

// What stands at `at` in a sequence that ends at `end`, or, where its length is not stated, at its end mark before that.
#[tactic(auto, unfolding(crate::specs::Heads::item_head))]
pub fn item_head(
    s: &[u8],
    at: usize,
    end: usize,
    unstated: bool,
    depth: u8,
) -> Result<Spot, Refusal>
    requires { (at ≤ end) × (end ≤ length s.now) }
    ensures value { result ≡ item_head s.now at end unstated depth }
    ensures within { Within at end depth result }
{
    if let Some(past) = ended(s, at, end, unstated, SEQUENCE_END)? {
        return Ok(Spot::Over(past));
    }
    item_at(s, at, end, tag_at(s, at), depth)
}

// What was found at a place, or the fault there.
pub fn located<T: Copy>(found: Result<T, Refusal>, at: usize) -> Result<T, Fault>
    ensures { result ≡ located found at }
{
    found.map_err(|refusal| Fault {
        refusal,
        offset: at,
    })
}

// The elements of a container: the place past them, or the first fault. Written out where it is called, so that an item takes one call.
#[inline(always)]
#[cycle(elements_item_items_sequence)]
fn elements(s: &[u8], c: Container) -> Result<usize, Fault>
    requires { Lies c s.now }
    ensures { Walked (explicitly s.now) c result }
{
    let mut at = c.from;
    let mut low: u64 = 0;
    loop {
        let head = located(element_head(s, at, c.end, c.unstated, low), at)?;
        let (next, past) = match head {
            Head::End(past) => return Ok(past),
            Head::Plain { tag, past, .. } => (tag + 1, past),
            Head::Seq {
                tag,
                body,
                stop,
                unstated,
            } => {
                let held = Container {
                    from: body,
                    end: stop,
                    unstated,
                    ..c
                };
                (tag + 1, sequence(s, held)?)
            }
        };
        at = past;
        low = next;
    }
}

// The items of a sequence: the place past them, or the first fault. One without items is most often met where there are many, and ends here.
#[inline(always)]
#[cycle(elements_item_items_sequence)]
pub fn sequence(s: &[u8], c: Container) -> Result<usize, Fault>
    requires { Lies c s.now }
    ensures { WalkedItems (explicitly s.now) c result }
{
    let spot = located(item_head(s, c.from, c.end, c.unstated, c.depth), c.from)?;
    match spot {
        Spot::Over(past) => Ok(past),
        Spot::Item { .. } => items(s, c),
    }
}

// The same of one that has some.
#[cycle(elements_item_items_sequence)]
fn items(s: &[u8], c: Container) -> Result<usize, Fault>
    requires { Lies c s.now }
    ensures { WalkedItems (explicitly s.now) c result }
{
    let mut at = c.from;
    loop {
        let spot = located(item_head(s, at, c.end, c.unstated, c.depth), at)?;
        match spot {
            Spot::Over(past) => return Ok(past),
            Spot::Item {
                body,
                stop,
                unstated,
            } => {
                let held = Container {
                    from: body,
                    end: stop,
                    unstated,
                    ..c
                };
                at = item(s, held)?;
            }
        }
    }
}

// The elements of one item of a sequence in which `c.depth` more items may nest: inside it, one fewer.
#[cycle(elements_item_items_sequence)]
fn item(s: &[u8], c: Container) -> Result<usize, Fault>
    requires lies { Lies c s.now }
    requires deep { 0 < c.depth }
    ensures { Walked (explicitly s.now) (deeper c) result }
{
    elements(
        s,
        Container {
            depth: c.depth - 1,
            ..c
        },
    )
}

// The shape of a data set: the place past its elements, or the first fault.
#[tactic(auto, unfolding(crate::specs::Read::read))]
pub fn shape_of(s: &[u8]) -> Result<usize, Fault>
    ensures { result ≡ shape_of (read deepest (explicitly s.now)) }
{
    elements(
        s,
        Container {
            from: 0,
            end: s.len(),
            unstated: false,
            depth: DEEPEST,
        },
    )
}

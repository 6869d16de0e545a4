// Replacement lists: their rule, and the lookup over the study's and the site's.
#![tactic(auto)]

ghost use Rattle.std.specs.Prelude.{◌≡◌};
ghost use Rattle.basis.specs.Choice.{every};
ghost use Rattle.lists.specs.Number.{number_at};
ghost use Rattle.lists.specs.Lists.{most_tag, entry_at, printable, list_ok};
ghost use Rattle.lists.specs.Lookup.{entry_of, asked, bytes_or, Shown};

// The largest tag, the most entries of a list, the most bytes of a value.
const MOST_TAG: u64 = 0xFFFFFFFF;

const MOST_ENTRIES: u64 = 256;

const MOST_VALUE: usize = 64;

// An entry that was read: its tag, and the places between which its value stands. Places, since the next entry begins where it ends.
#[derive(Clone, Copy)]
pub struct Entry {
    pub tag: u64,
    pub from: usize,
    pub to: usize,
}

// The tag at a place, and the place past it. Each further group is worth 128 times the one before it; once one is worth more than the
// largest tag, no number that goes on is small enough, so at most five groups are read.
fn tag_at(s: &[u8], at: usize) -> Option<(u64, usize)>
    ensures { result ≡ number_at 0 most_tag s.now at }
{
    let first = u64::from(*s.get(at)?);
    if first < 128 {
        return Some((first, at + 1));
    }
    let mut sum = first % 128;
    let mut unit: u64 = 128;
    for i in at + 1..s.len() {
        let b = u64::from(s[i]);
        if b < 128 {
            let whole = sum + unit * b;
            return (b != 0 && whole <= MOST_TAG).then_some((whole, i + 1));
        }
        sum += unit * (b % 128);
        unit *= 128;
        if MOST_TAG < unit {
            return None;
        }
    }
    None
}

// The entry at a place. A length of at most 64 is one group, so the byte itself is the length.
fn entry_at(s: &[u8], at: usize) -> Option<Entry>
    ensures { result ≡ entry_at s.now at }
{
    let (tag, place) = tag_at(s, at)?;
    let size = usize::from(*s.get(place)?);
    let from = place + 1;
    if size == 0 || MOST_VALUE < size || s.len() - from < size {
        return None;
    }
    Some(Entry {
        tag,
        from,
        to: from + size,
    })
}

// A character that a value may hold.
fn is_printable(b: u8) -> bool
    ensures { result ≡ printable b }
{
    (0x20..=0x7E).contains(&b) & (b != 0x5C)
}

// Whether a value holds only such characters. Every byte is looked at, with no early way out: so it compiles to vector code.
fn all_printable(value: &[u8]) -> bool
    ensures { result ≡ every printable value.now }
{
    let mut all = true;
    for b in value {
        all &= is_printable(*b);
    }
    all
}

// Whether a list keeps its rule.
pub fn list_ok(s: &[u8]) -> bool
    ensures { result ≡ list_ok s.now }
{
    let mut at: usize = 0;
    let mut low: u64 = 0;
    for _ in 0..MOST_ENTRIES {
        if s.len() <= at {
            return true;
        }
        let Some(e) = entry_at(s, at) else {
            return false;
        };
        if e.tag < low || !all_printable(&s[e.from..e.to]) {
            return false;
        }
        at = e.to;
        low = e.tag + 1;
    }
    s.len() <= at
}

// The entry for a tag. Tags rise, so the search ends at the first that is not below the one asked for.
fn entry_of(s: &[u8], tag: u64) -> Option<Entry>
    ensures { result ≡ entry_of s.now tag }
{
    let mut at: usize = 0;
    for _ in 0..MOST_ENTRIES {
        let e = entry_at(s, at)?;
        if tag <= e.tag {
            return (e.tag == tag).then_some(e);
        }
        at = e.to;
    }
    None
}

// The value for a tag, as the very part of the study's list, else of the site's; else an empty part, which stands for none: the contract
// says of which list it is a part, and what is written of an emptied element is that part, empty or not.
pub fn lookup<'a>(study: &'a [u8], site: &'a [u8], tag: u64) -> &'a [u8]
    ensures shown { Shown (entry_of study.now tag) (entry_of site.now tag) result study.entry site.entry }
    ensures bytes { result.now ≡ bytes_or (asked study.now site.now tag) }
{
    if let Some(here) = entry_of(study, tag) {
        return &study[here.from..here.to];
    }
    if let Some(there) = entry_of(site, tag) {
        return &site[there.from..there.to];
    }
    &site[..0]
}

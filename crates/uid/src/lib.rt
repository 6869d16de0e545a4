#![tactic(auto)]

ghost use Rattle.std.specs.Prelude.{◌≡◌, ℕ, ◌+◌, ◌-◌, ◌≤◌, ◌<◌, ◌^◌, List, length, not, position};
ghost use Rattle.basis.specs.Parts.{IsPart};
ghost use Rattle.basis.specs.Text.{is_digit};
ghost use Rattle.buffer.specs.Buffer.{laid, Puts};
ghost use Rattle.uid.specs.Uid.{uid_upto, is_uid, is_root};
ghost use Rattle.uid.specs.Value.{trimmed, uids_fault};
ghost use Rattle.uid.specs.NewUid.{decimal, new_uid};
ghost use Rattle.uid.specs.Scan.{lead, uid_span};

// The most characters of a UID, the most of a root, and the most UIDs of a value.
pub const LONGEST_UID: usize = 64;

pub const LONGEST_ROOT: usize = 59;

pub const MOST_UIDS: usize = 1000;

const DOT: u8 = b'.';

const DIGIT_0: u8 = b'0';

// The place of the first byte that is no digit.
fn find_non_digit(v: &[u8]) -> Option<usize>
    ensures { result ≡ position (λ x. not (is_digit x)) v.now }
{
    v.iter().position(|x| !x.is_ascii_digit())
}

// How many bytes at the front of `v` are a component; 0 where none are, as `Scan.lead` has it. A zero is a whole one, so whatever follows it
// but a dot is found to be wrong by the caller.
fn component_len(v: &[u8]) -> usize
    ensures { result ≡ lead v.now }
{
    if v.starts_with(b"0") {
        return 1;
    }
    find_non_digit(v).unwrap_or(v.len())
}

// How long the first piece of `v` is, if it is made of components with dots between them; else 0, which is the length of no UID, as
// `Scan.uid_span` has it. One loop over the bytes: pieces that are split off first would be looked at again for their components.
fn uid_len(v: &[u8]) -> usize
    ensures { result ≡ uid_span v.now }
{
    let mut i = 0;
    loop {
        let n = component_len(&v[i..]);
        if n == 0 {
            return 0;
        }
        i += n;
        if i == v.len() || v[i] == basis::BACKSLASH {
            return i;
        }
        if v[i] != DOT {
            return 0;
        }
        i += 1;
    }
}

// Are these bytes a UID of at most `longest` characters? Too many are not looked at.
fn is_uid_upto(longest: usize, v: &[u8]) -> bool
    ensures { result ≡ uid_upto longest v.now }
{
    if v.is_empty() || longest < v.len() {
        return false;
    }
    uid_len(v) == v.len()
}

// Is this a UID?
pub fn is_uid(uid: &[u8]) -> bool
    ensures { result ≡ is_uid uid.now }
{
    is_uid_upto(LONGEST_UID, uid)
}

// Is this a root? (Refusal 2 where it is not.)
pub fn is_root(root: &[u8]) -> bool
    ensures { result ≡ is_root root.now }
{
    is_uid_upto(LONGEST_ROOT, root)
}

// A value without the zero byte at its end: that part of it, in its place.
pub fn trimmed(value: &[u8]) -> &[u8]
    ensures bytes { result.now ≡ trimmed value.now }
    ensures place { IsPart result value.entry 0 (length result.now) }
{
    if value.ends_with(&[0]) {
        &value[..value.len() - 1]
    } else {
        value
    }
}

// Does a value break the rule for UIDs? (Refusal 11 where it does.) Each byte is looked at once.
pub fn uids_fault(value: &[u8]) -> bool
    ensures { result ≡ uids_fault value.now }
{
    if value.is_empty() {
        return false;
    }
    if value.len() % 2 != 0 {
        return true;
    }
    let mut rest = trimmed(value);
    for _ in 0..MOST_UIDS {
        let n = uid_len(rest);
        if n == 0 || LONGEST_UID < n {
            return true;
        }
        if n == rest.len() {
            return false;
        }
        rest = &rest[n + 1..];
    }
    true
}

// A number in decimal at `pos`; the place past it. It calls itself once for each digit but the last. No `write!`: that makes a text first, and
// each byte of it is then written once more.
pub fn put_decimal(n: usize, out: &mut [u8], pos: usize) -> usize
    requires { pos + length (decimal n) < 2 ^ 64 }
    ensures { Puts (decimal n) out.old pos out.new result }
{
    let p = match n / 10 {
        0 => pos,
        tens => put_decimal(tens, out, pos),
    };
    buffer::put(out, p, DIGIT_0 + (n % 10) as u8);
    p + 1
}

// A new UID at `pos`: the root, a dot and the number; the place past it.
pub fn put_uid(root: &[u8], n: usize, out: &mut [u8], pos: usize) -> usize
    requires { pos + length (new_uid root.now n) < 2 ^ 64 }
    ensures { Puts (new_uid root.now n) out.old pos out.new result }
{
    let p = buffer::copy_block(root, out, pos);
    buffer::put(out, p, DOT);
    put_decimal(n, out, p + 1)
}

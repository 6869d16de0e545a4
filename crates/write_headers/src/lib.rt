// Headers and marks as the station writes them, at a place of a lent buffer: clipped at its end, while the place counts on.
#![tactic(auto)]

ghost use Rattle.std.specs.Prelude.{◌≡◌, ◌+◌, ◌<◌, ◌^◌, length};
ghost use Rattle.basis.specs.Bytes.{low2, low4};
ghost use Rattle.buffer.specs.Buffer.{laid, Puts};
ghost use Rattle.layout.specs.Write.{tag_bytes, mark, short_header, long_header, header};

use vr::Kind;

// The two lowest bytes of `n`, the lowest first.
fn low2(n: u64) -> [u8; 2]
    ensures { result ≡ low2 n }
{
    ((n % 0x1_0000) as u16).to_le_bytes()
}

// The four lowest bytes of `n`, the lowest first.
fn low4(n: u64) -> [u8; 4]
    ensures { result ≡ low4 n }
{
    ((n % 0x1_0000_0000) as u32).to_le_bytes()
}

// A tag: its group, and then its element.
fn tag_bytes(tag: u64) -> [u8; 4]
    ensures { result ≡ tag_bytes tag }
{
    let [g0, g1] = low2(tag / 0x1_0000);
    let [e0, e1] = low2(tag);
    [g0, g1, e0, e1]
}

// A header of 8 bytes, with a length of two.
fn short_header(tag: u64, vr: u64, n: usize) -> [u8; 8]
    ensures { result ≡ short_header tag vr n }
{
    let [t0, t1, t2, t3] = tag_bytes(tag);
    let [v0, v1] = low2(vr);
    let [n0, n1] = low2(n as u64);
    [t0, t1, t2, t3, v0, v1, n0, n1]
}

// A header of 12 bytes, with two zero bytes and a length of four.
fn long_header(tag: u64, vr: u64, n: usize) -> [u8; 12]
    ensures { result ≡ long_header tag vr n }
{
    let [t0, t1, t2, t3] = tag_bytes(tag);
    let [v0, v1] = low2(vr);
    let [n0, n1, n2, n3] = low4(n as u64);
    [t0, t1, t2, t3, v0, v1, 0, 0, n0, n1, n2, n3]
}

// An item's tag or an end mark, with a length of four.
#[tactic(auto, unfolding(layout::specs::Write::mark))]
fn mark(tag: u64, n: usize) -> [u8; 8]
    ensures { result ≡ mark tag n }
{
    let [t0, t1, t2, t3] = tag_bytes(tag);
    let [n0, n1, n2, n3] = low4(n as u64);
    [t0, t1, t2, t3, n0, n1, n2, n3]
}

// Where there is room for all of the header, as nearly always, its bytes go straight to their places; the array that is cut is another
// one, since an array of which a part is copied has to lie in memory.
fn put_short(tag: u64, vr: u64, n: usize, out: &mut [u8], pos: usize) -> usize
    requires { pos + 12 < 2 ^ 64 }
    ensures { (result ≡ pos + 8) × (out.new ≡ laid out.old pos (short_header tag vr n)) }
{
    if pos + 8 <= out.len() {
        buffer::copy(&short_header(tag, vr, n), out, pos);
        return pos + 8;
    }
    buffer::copy_block(&short_header(tag, vr, n), out, pos)
}

fn put_long(tag: u64, vr: u64, n: usize, out: &mut [u8], pos: usize) -> usize
    requires { pos + 12 < 2 ^ 64 }
    ensures { (result ≡ pos + 12) × (out.new ≡ laid out.old pos (long_header tag vr n)) }
{
    buffer::copy_block(&long_header(tag, vr, n), out, pos)
}

// The header of an element with a value of `n` bytes; the place past it.
#[tactic(auto, unfolding(layout::specs::Write::header))]
pub fn put_header(tag: u64, vr: u64, n: usize, out: &mut [u8], pos: usize) -> usize
    requires { pos + 12 < 2 ^ 64 }
    ensures { Puts (header tag vr n) out.old pos out.new result }
{
    match vr::kind_of(vr) {
        Some(Kind::Long | Kind::Sequence) => put_long(tag, vr, n, out, pos),
        _ => put_short(tag, vr, n, out, pos),
    }
}

// An item's tag or an end mark, with its length; the place past it.
pub fn put_mark(tag: u64, n: usize, out: &mut [u8], pos: usize) -> usize
    requires { pos + 8 < 2 ^ 64 }
    ensures { (result ≡ pos + 8) × (out.new ≡ laid out.old pos (mark tag n)) }
{
    buffer::copy_block(&mark(tag, n), out, pos)
}

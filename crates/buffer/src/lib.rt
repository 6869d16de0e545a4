// Clipped writing into a lent buffer. The buffer and the place in it are two parameters wherever something is written, and no struct: a
// contract says what the buffer holds afterwards, and of one behind a struct's field it could say so only of each field.
#![tactic(auto)]

ghost use Rattle.std.specs.Prelude.{◌≡◌, ℕ, ◌+◌, ◌-◌, ◌*◌, ◌≤◌, ◌<◌, ◌^◌, List, [], ◌∷◌, length};
ghost use Rattle.buffer.specs.Buffer.{laid, cleared, Puts};

// One byte at `pos`, where there is room for it.
pub fn put(out: &mut [u8], pos: usize, x: u8)
    ensures { out.new ≡ laid out.old pos (x ∷ []) }
{
    if pos < out.len() {
        out[pos] = x;
    }
}

// All of `bytes` at `pos`, where there is room for them. A loop, which compiles to C's memcpy: std's `copy_from_slice` would ask C for
// memmove as well, and nothing but memcpy and memset is to be trusted.
pub fn copy(bytes: &[u8], out: &mut [u8], pos: usize)
    requires { pos + length bytes.now ≤ length out.old }
    ensures { out.new ≡ laid out.old pos bytes.now }
{
    for i in 0..bytes.len() {
        out[pos + i] = bytes[i];
    }
}

// As much of `bytes` as there is room for at `pos`; the place past all of them. Where there is room for all, as nearly always, they are
// copied as they come: of a mark or a header the compiler then knows how many they are, and writes them in one go.
pub fn copy_block(bytes: &[u8], out: &mut [u8], pos: usize) -> usize
    requires { pos + length bytes.now < 2 ^ 64 }
    ensures { Puts bytes.now out.old pos out.new result }
{
    if pos < out.len() {
        let room = out.len() - pos;
        if bytes.len() <= room {
            copy(bytes, out, pos);
        } else {
            copy(&bytes[..room], out, pos);
        }
    }
    pos + bytes.len()
}

// Zeros from `pos` to the end.
pub fn zero_from(out: &mut [u8], pos: usize)
    ensures { out.new ≡ cleared out.old pos }
{
    if pos < out.len() {
        out[pos..].fill(0);
    }
}

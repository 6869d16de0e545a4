// The words that the definitions of the crates above are made of (specs/), and the search for the end of a piece of a value.
#![tactic(auto)]

ghost use Rattle.std.specs.Prelude.{◌≡◌, ◌≤◌, ◌==◌, length, position};
ghost use Rattle.basis.specs.Pieces.{piece_end};

// The byte between two pieces of a value.
pub const BACKSLASH: u8 = b'\\';

// The place of the first backslash.
fn find_backslash(v: &[u8]) -> Option<usize>
    ensures { result ≡ position (λ x. x == BACKSLASH) v.now }
{
    v.iter().position(|&x| x == BACKSLASH)
}

// Where the piece that begins at `a` ends: at a backslash, or at `stop`. Places and no slice, since the documents name it so.
pub fn piece_end(s: &[u8], a: usize, stop: usize) -> usize
    requires { (a ≤ stop) × (stop ≤ length s.now) }
    ensures { result ≡ piece_end s.now a stop }
{
    let rest = &s[a..stop];
    a + find_backslash(rest).unwrap_or(rest.len())
}

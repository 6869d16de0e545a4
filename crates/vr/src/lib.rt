// What document 01 says of each of the 34 VRs. A VR is the number that its two letters spell, lowest byte first. It is no enum: what is asked
// of a VR here, in `treatment` and over the C interface has an answer for every number.
#![tactic(auto)]

ghost use Rattle.std.specs.Prelude.{◌≡◌, ◌<◌, length};
ghost use Rattle.vr.specs.Vr.{all_vrs, kind_of, served_by_lists, dummy_of, in_room};
ghost use Rattle.vr.specs.Kinds.{KindsAfter};

pub const AE: u64 = 0x4541;

pub const AS: u64 = 0x5341;

pub const AT: u64 = 0x5441;

pub const CS: u64 = 0x5343;

pub const DA: u64 = 0x4144;

pub const DS: u64 = 0x5344;

pub const DT: u64 = 0x5444;

pub const FD: u64 = 0x4446;

pub const FL: u64 = 0x4C46;

pub const IS: u64 = 0x5349;

pub const LO: u64 = 0x4F4C;

pub const LT: u64 = 0x544C;

pub const OB: u64 = 0x424F;

pub const OD: u64 = 0x444F;

pub const OF: u64 = 0x464F;

pub const OL: u64 = 0x4C4F;

pub const OV: u64 = 0x564F;

pub const OW: u64 = 0x574F;

pub const PN: u64 = 0x4E50;

pub const SH: u64 = 0x4853;

pub const SL: u64 = 0x4C53;

pub const SQ: u64 = 0x5153;

pub const SS: u64 = 0x5353;

pub const ST: u64 = 0x5453;

pub const SV: u64 = 0x5653;

pub const TM: u64 = 0x4D54;

pub const UC: u64 = 0x4355;

pub const UI: u64 = 0x4955;

pub const UL: u64 = 0x4C55;

pub const UN: u64 = 0x4E55;

pub const UR: u64 = 0x5255;

pub const US: u64 = 0x5355;

pub const UT: u64 = 0x5455;

pub const UV: u64 = 0x5655;

// The longest dummy, DT's.
pub const ROOM: usize = 14;

// How an element's header goes on after its VR.
#[derive(Clone, Copy, Debug, PartialEq, Eq)]
pub enum Kind {
    // a length of two bytes
    Short,
    // two zero bytes and a length of four
    Long,
    // as Long, and the value is items
    Sequence,
}

// All of them, in document 01's order.
pub fn vrs() -> [u64; 34]
    ensures { result ≡ all_vrs }
{
    [
        AE, AS, AT, CS, DA, DS, DT, FD, FL, IS, LO, LT, OB, OD, OF, OL, OV, OW, PN, SH, SL, SQ, SS,
        ST, SV, TM, UC, UI, UL, UN, UR, US, UT, UV,
    ]
}

// The kinds of the VRs with this first letter, two bits for each second letter, counted from 64: 1 Short, 2 Long, 3 Sequence, 0 no VR.
fn kinds_after(first: u64) -> u64
    requires { first < 256 }
    ensures { KindsAfter first result }
{
    match first {
        // AE, AS, AT
        0x41 => 0x0140_0000_0400,
        // CS
        0x43 => 0x0040_0000_0000,
        // DA, DS, DT
        0x44 => 0x0140_0000_0004,
        // FD, FL
        0x46 => 0x0100_0100,
        // IS
        0x49 => 0x0040_0000_0000,
        // LO, LT
        0x4C => 0x0100_4000_0000,
        // OB, OD, OF, OL, OV, OW
        0x4F => 0xA000_0200_2220,
        // PN
        0x50 => 0x1000_0000,
        // SH, SL, SQ, SS, ST, SV
        0x53 => 0x214C_0101_0000,
        // TM
        0x54 => 0x0400_0000,
        // UC, UI, UL, UN, UR, US, UT, UV
        0x55 => 0x2260_2104_0080,
        _ => 0,
    }
}

// The plain way is a `match` over the 34. This is asked of each element three times and more: a number that holds the kinds of all VRs with one
// first letter is short enough to be written out wherever it is asked, and leaves little to be guessed.
pub fn kind_of(vr: u64) -> Option<Kind>
    ensures { result ≡ kind_of vr }
{
    let second = vr / 256;
    if !(64..96).contains(&second) {
        return None;
    }
    let kinds = kinds_after(vr % 256);
    match (kinds >> (2 * (second - 64))) % 4 {
        1 => Some(Kind::Short),
        2 => Some(Kind::Long),
        3 => Some(Kind::Sequence),
        _ => None,
    }
}

#[tactic(auto, unfolding(crate::specs::Vr::served_by_lists, basis::specs::Choice::among))]
pub fn served_by_lists(vr: u64) -> bool
    ensures { result ≡ served_by_lists vr }
{
    matches!(
        vr,
        AE | AS | CS | DA | DS | DT | IS | LO | LT | PN | SH | ST | TM | UC | UR | UT
    )
}

// A dummy: `len` bytes, and zeros after them.
#[derive(Clone, Copy, Debug, PartialEq, Eq)]
pub struct Dummy {
    pub bytes: [u8; ROOM],
    pub len: usize,
}

// What D writes where no list has a value; the value is padded where it is written.
#[tactic(auto, unfolding(crate::specs::Vr::dummy_of, basis::specs::Choice::among))]
pub fn dummy_of(vr: u64) -> Dummy
    ensures { (result.bytes ≡ in_room (dummy_of vr)) × (result.len ≡ length (dummy_of vr)) }
{
    match vr {
        AE | CS | LO | LT | PN | SH | ST | UC | UR | UT => Dummy {
            bytes: *b"ANON\0\0\0\0\0\0\0\0\0\0",
            len: 4,
        },
        AS => Dummy {
            bytes: *b"000Y\0\0\0\0\0\0\0\0\0\0",
            len: 4,
        },
        DA => Dummy {
            bytes: *b"19000101\0\0\0\0\0\0",
            len: 8,
        },
        DT => Dummy {
            bytes: *b"19000101000000",
            len: 14,
        },
        TM => Dummy {
            bytes: *b"000000\0\0\0\0\0\0\0\0",
            len: 6,
        },
        DS | IS => Dummy {
            bytes: *b"0\0\0\0\0\0\0\0\0\0\0\0\0\0",
            len: 1,
        },
        OB | OW | UN | US | SS => Dummy {
            bytes: [0; ROOM],
            len: 2,
        },
        AT | FL | OF | OL | SL | UL => Dummy {
            bytes: [0; ROOM],
            len: 4,
        },
        FD | OD | OV | SV | UV => Dummy {
            bytes: [0; ROOM],
            len: 8,
        },
        _ => Dummy {
            bytes: [0; ROOM],
            len: 0,
        },
    }
}

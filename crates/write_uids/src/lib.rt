// A UI element of the output with its UIDs renamed, written whole at a place of a lent buffer, each UID found in the lent ledger or added
// to it. What does not fit is left out, while the place counts on past the buffer's end.
#![tactic(auto)]

ghost use Rattle.std.specs.Prelude.{◌+◌, ◌*◌, ◌≤◌, ◌<◌, ◌^◌, length};
ghost use Rattle.uid.specs.Uid.{longest_root};
ghost use Rattle.ledger.specs.Slots.{slots_of};
ghost use Rattle.write_uids.specs.Renamed.{RenamedValue};
ghost use Rattle.write_uids.specs.Steps.{SlotFound, Texted, Finished};

use ledger::Slot;

// The header of a UI element has this many bytes.
const UI_HEADER: usize = 8;

// The slot of a UID. A text that is too long for a slot has none: a value that has such a UID is refused before anything is written.
fn slot_of(uid: &[u8], ledger: &mut [u8], used: usize) -> Option<Slot>
    requires { used ≤ slots_of ledger.old }
    ensures { SlotFound uid.now ledger.old ledger.new used result }
{
    if ledger::SLOT_SIZE < uid.len() {
        return None;
    }
    ledger::slot_of(uid, ledger, used)
}

// The new UIDs of a value that has some, with backslashes between them: the output's next place, and the new count of slots in use;
// `None` where a UID has no slot. They are not found by `split`, since where a piece ends is the promise of `basis::piece_end`.
fn put_uids(
    uids: &[u8],
    root: &[u8],
    ledger: &mut [u8],
    used: usize,
    out: &mut [u8],
    pos: usize,
) -> Option<(usize, usize)>
    requires { (length root.now ≤ longest_root) × (used ≤ slots_of ledger.old) × (pos + 66 * (length uids.now + 1) < 2 ^ 63) }
    ensures { Texted uids.now root.now ledger.old ledger.new used out.old out.new pos result }
{
    let mut from = 0;
    let mut place = pos;
    let mut count = used;
    loop {
        let end = basis::piece_end(uids, from, uids.len());
        let slot = slot_of(&uids[from..end], ledger, count)?;
        let past = uid::put_uid(root, slot.number, out, place);
        if end == uids.len() {
            return Some((past, slot.used));
        }
        buffer::put(out, past, basis::BACKSLASH);
        place = past + 1;
        count = slot.used;
        from = end + 1;
    }
}

// The zero byte behind a text of odd length that ends at `end`, and the header in front of it, which begins at `pos`. The header comes
// last, so that the length needn't be known beforehand.
fn finish(tag: u64, out: &mut [u8], pos: usize, end: usize) -> usize
    requires { (pos + 8 ≤ end) × (end + 12 < 2 ^ 64) }
    ensures { Finished out.old out.new tag pos end result }
{
    let text = end - (pos + UI_HEADER);
    let pad = text % 2;
    if pad == 1 {
        buffer::put(out, end, 0);
    }
    write_headers::put_header(tag, vr::UI, text + pad, out, pos);
    end + pad
}

// A UI element with each UID of its value renamed (U, and D on a UI): the output's next place, and the new count of slots in use; `None`
// where no slot was free for a UID.
pub fn put_renamed(
    tag: u64,
    value: &[u8],
    root: &[u8],
    ledger: &mut [u8],
    used: usize,
    out: &mut [u8],
    pos: usize,
) -> Option<(usize, usize)>
    requires { (length root.now ≤ longest_root) × (used ≤ slots_of ledger.old) × (pos + 66 * (length value.now + 1) + 9 < 2 ^ 63) }
    ensures { RenamedValue tag value.now root.now ledger.old ledger.new used out.old out.new pos result }
{
    if value.is_empty() {
        let past = write_headers::put_header(tag, vr::UI, 0, out, pos);
        return Some((past, used));
    }
    let uids = uid::trimmed(value);
    let (end, count) = put_uids(uids, root, ledger, used, out, pos + UI_HEADER)?;
    Some((finish(tag, out, pos, end), count))
}

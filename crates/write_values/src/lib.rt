// One element of the output, written whole at a place of a lent buffer: header and value. What does not fit is left out, while the
// place counts on past the buffer's end.
#![tactic(auto)]

ghost use Rattle.std.specs.Prelude.{◌≡◌, ◌+◌, ◌<◌, ◌^◌, eqb, length};
ghost use Rattle.buffer.specs.Buffer.{laid, Puts};
ghost use Rattle.vr.specs.Names.{DA, SQ};
ghost use Rattle.layout.specs.Tree.{value, items, nil, none as no_item, item};
ghost use Rattle.calendar.specs.Values.{shifted_text};
ghost use Rattle.kept.specs.Fillers.{spaced, listed, or, emptied_as, dummied_as};
ghost use Rattle.write_values.specs.Element.{element_bytes, with_lists};

const SPACE: u8 = b' ';

// An element with the value that came in (K).
#[tactic(auto, using(crate::proofs::ElementLaws::value_laws))]
pub fn put_same(tag: u64, vr: u64, bytes: &[u8], out: &mut [u8], pos: usize) -> usize
    requires { pos + length bytes.now + 12 < 2 ^ 64 }
    ensures { Puts (element_bytes tag vr (value bytes.now)) out.old pos out.new result }
{
    let body = write_headers::put_header(tag, vr, bytes.len(), out, pos);
    buffer::copy_block(bytes, out, body)
}

// A DA or DT element with its dates moved. A date that can't be moved stays: a value that has one is refused before anything is written.
#[tactic(auto, using(crate::proofs::ElementLaws::dates_laws))]
pub fn put_dates(tag: u64, vr: u64, bytes: &[u8], days: i32, out: &mut [u8], pos: usize) -> usize
    requires { pos + length bytes.now + 12 < 2 ^ 64 }
    ensures { Puts (element_bytes tag vr (value (shifted_text (eqb vr DA) days bytes.now))) out.old pos out.new result }
{
    let dates = write_headers::put_header(tag, vr, bytes.len(), out, pos);
    calendar::put_shifted(vr == vr::DA, bytes, days, out, dates)
}

// An element with a text as its value, and a space behind it where the length would be odd.
#[tactic(auto, using(crate::proofs::ElementLaws::text_laws))]
pub fn put_text(tag: u64, vr: u64, text: &[u8], out: &mut [u8], pos: usize) -> usize
    requires { pos + length text.now + 13 < 2 ^ 64 }
    ensures { Puts (element_bytes tag vr (value (spaced text.now))) out.old pos out.new result }
{
    let even = text.len() + text.len() % 2;
    let body = write_headers::put_header(tag, vr, even, out, pos);
    let end = buffer::copy_block(text, out, body);
    if text.len() < even {
        buffer::put(out, end, SPACE);
    }
    body + even
}

// An emptied element (Z): with a list's value where there is one, else without any. The two lists come by themselves, not in a
// `SettingTexts`: no other setting is of use here, and the contract says so (`with_lists`).
#[tactic(auto, using(crate::proofs::FillerLaws::emptied_laws))]
pub fn put_emptied<'a>(
    study: &'a [u8],
    site: &'a [u8],
    tag: u64,
    vr: u64,
    out: &mut [u8],
    pos: usize,
) -> usize
    requires { pos + 80 < 2 ^ 64 }
    ensures { Puts (element_bytes tag vr (emptied_as (with_lists study.now site.now) tag vr)) out.old pos out.new result }
{
    if vr::served_by_lists(vr) {
        let listed = lists::lookup(study, site, tag);
        return put_text(tag, vr, listed, out, pos);
    }
    write_headers::put_header(tag, vr, 0, out, pos)
}

// What D writes of a VR other than SQ, before padding: a list's value where there is one, else the dummy.
#[tactic(auto, using(crate::proofs::FillerLaws::found_laws), unfolding(kept::specs::Fillers::listed))]
fn dummied_value<'a>(
    study: &'a [u8],
    site: &'a [u8],
    tag: u64,
    vr: u64,
    dummy: &'a [u8],
) -> &'a [u8]
    ensures { result.now ≡ or (listed (with_lists study.now site.now) tag vr) dummy.now }
{
    if vr::served_by_lists(vr) {
        let found = lists::lookup(study, site, tag);
        if !found.is_empty() {
            return found;
        }
    }
    dummy
}

// A sequence with one empty item.
#[tactic(auto, using(crate::proofs::ElementLaws::value_laws))]
fn put_blank_sequence(tag: u64, out: &mut [u8], pos: usize) -> usize
    requires { pos + 80 < 2 ^ 64 }
    ensures { Puts (element_bytes tag SQ (items (item nil no_item))) out.old pos out.new result }
{
    let items = write_headers::put_header(tag, vr::SQ, layout::UNDEFINED, out, pos);
    let inside = write_headers::put_mark(layout::ITEM, layout::UNDEFINED, out, items);
    let after = write_headers::put_mark(layout::ITEM_END, 0, out, inside);
    write_headers::put_mark(layout::SEQUENCE_END, 0, out, after)
}

// A dummied element (D): a sequence with one empty item; another with a list's value where there is one, else with the dummy.
#[tactic(auto, using(crate::proofs::FillerLaws::dummied_laws))]
pub fn put_dummied<'a>(
    study: &'a [u8],
    site: &'a [u8],
    tag: u64,
    vr: u64,
    out: &mut [u8],
    pos: usize,
) -> usize
    requires { pos + 80 < 2 ^ 64 }
    ensures { Puts (element_bytes tag vr (dummied_as (with_lists study.now site.now) tag vr)) out.old pos out.new result }
{
    if vr == vr::SQ {
        return put_blank_sequence(tag, out, pos);
    }
    let dummy = vr::dummy_of(vr);
    let value = dummied_value(study, site, tag, vr, &dummy.bytes[..dummy.len]);
    put_text(tag, vr, value, out, pos)
}

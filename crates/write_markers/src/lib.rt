// The three elements that the top level gains, written where a walk over that level comes past their tags.
#![tactic(auto)]

ghost use Rattle.std.specs.Prelude.{◌≡◌, [], ◌+◌, ◌-◌, ◌≤◌, ◌<◌, ◌^◌, length};
ghost use Rattle.buffer.specs.Buffer.{laid, Puts};
ghost use Rattle.vr.specs.Names.{SQ};
ghost use Rattle.layout.specs.Tree.{nil, items};
ghost use Rattle.layout.specs.Write.{put_field, bytes_of};
ghost use Rattle.options.specs.Options.{chosen};
ghost use Rattle.kept.specs.Markers.{code_item, option_items, codes};
ghost use Rattle.table.specs.Rules.{deidentification_codes_tag};
ghost use Rattle.write_markers.specs.Gains.{all_markers, due, gaining, gained};
ghost use Rattle.write_markers.specs.Parts.{item_bytes, items_bytes};

use options::Opt;
use treatment::Level;

// The tags of what stands in a code's item.
const VALUE: u64 = 0x0008_0100;

const SCHEME: u64 = 0x0008_0102;

const MEANING: u64 = 0x0008_0104;

// The item of a code: of the profile itself, or of an option.
#[tactic(auto, using(crate::proofs::PutLaws::item_laws))]
fn put_code(code: &[u8], meaning: &[u8], out: &mut [u8], pos: usize) -> usize
    requires { (length code.now ≤ 6) × (length meaning.now ≤ 64) × (pos + 150 < 2 ^ 64) }
    ensures { Puts (item_bytes (code_item code.now meaning.now)) out.old pos out.new result }
{
    let value = write_headers::put_mark(layout::ITEM, layout::UNDEFINED, out, pos);
    let scheme = write_values::put_text(VALUE, vr::SH, code, out, value);
    let words = write_values::put_text(SCHEME, vr::SH, b"DCM", out, scheme);
    let end = write_values::put_text(MEANING, vr::LO, meaning, out, words);
    write_headers::put_mark(layout::ITEM_END, 0, out, end)
}

// The items of all options that the option number has, by rising code.
#[tactic(auto, using(crate::proofs::PutLaws::options_laws))]
fn put_options(options: u64, out: &mut [u8], pos: usize) -> usize
    requires { pos + 850 < 2 ^ 64 }
    ensures { Puts (items_bytes (option_items (chosen options))) out.old pos out.new result }
{
    let mut p = pos;
    for bit in 0..Opt::COUNT {
        if let Some(opt) = Opt::at(options, bit) {
            p = put_code(&opt.code(), opt.meaning(), out, p);
        }
    }
    p
}

// (0012,0064): an item for the profile and one for each option.
#[tactic(auto, using(crate::proofs::PutLaws::codes_laws))]
fn put_codes(options: u64, out: &mut [u8], pos: usize) -> usize
    requires { pos + 1000 < 2 ^ 64 }
    ensures { Puts (put_field deidentification_codes_tag SQ (items (codes options)) []) out.old pos out.new result }
{
    let profile = write_headers::put_header(
        table::DEIDENTIFICATION_CODES,
        vr::SQ,
        layout::UNDEFINED,
        out,
        pos,
    );
    let chosen = put_code(&Opt::basic_code(), Opt::basic_meaning(), out, profile);
    let end = put_options(options, out, chosen);
    write_headers::put_mark(layout::SEQUENCE_END, 0, out, end)
}

// Whether a tag lies from `low` up to `high`, high not included.
fn is_due(tag: u64, low: u64, high: u64) -> bool
    ensures { result ≡ due low high tag }
{
    (low..high).contains(&tag)
}

// Those of the three that are due, one after the other.
#[tactic(auto, using(crate::proofs::PutLaws::due_laws))]
fn put_due(options: u64, low: u64, high: u64, out: &mut [u8], pos: usize) -> usize
    requires { pos + all_markers < 2 ^ 64 }
    ensures { Puts (bytes_of (gaining options low high nil)) out.old pos out.new result }
{
    let mut p = pos;
    if is_due(table::PATIENT_IDENTITY_REMOVED, low, high) {
        p = write_values::put_text(table::PATIENT_IDENTITY_REMOVED, vr::CS, b"YES", out, p);
    }
    if is_due(table::DEIDENTIFICATION_CODES, low, high) {
        p = put_codes(options, out, p);
    }
    if is_due(table::LONGITUDINAL_TIME, low, high) {
        let word = options::date_word(options);
        p = write_values::put_text(table::LONGITUDINAL_TIME, vr::CS, word, out, p);
    }
    p
}

// What the top level gains between two tags; the place past it. It is called for each element, and most often nothing is due:
// the tests for that come first.
#[tactic(auto, using(crate::proofs::PutLaws::gained_laws), unfolding(crate::specs::Gains::gained_if))]
pub fn put_gained(
    level: Level,
    options: u64,
    low: u64,
    high: u64,
    out: &mut [u8],
    pos: usize,
) -> usize
    requires { pos + all_markers < 2 ^ 64 }
    ensures { Puts (gained level options low high) out.old pos out.new result }
{
    if !treatment::is_top(level) {
        return pos;
    }
    if table::LONGITUDINAL_TIME < low || high <= table::PATIENT_IDENTITY_REMOVED {
        return pos;
    }
    if table::DEIDENTIFICATION_CODES < low && high <= table::LONGITUDINAL_TIME {
        return pos;
    }
    put_due(options, low, high, out, pos)
}

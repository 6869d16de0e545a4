// The walk that writes: over the elements of the top level and of the items that are walked into, it writes the output, finds and adds
// UIDs in the ledger, and counts. Elements contain sequences, sequences items, items elements: those walkers call each other in a cycle,
// and what stands side by side is passed over in a loop. The output is clipped at its end while the place counts on, so that whether there
// was room is decided once, afterwards. Data set, ledger, output and progress stand apart in each function: a contract says what each of the
// lent ones holds afterwards.
#![tactic(auto)]

ghost use Rattle.std.specs.Prelude.{◌≡◌, ◌+◌, ◌-◌, ◌*◌, ◌≤◌, ◌<◌, length};
ghost use Rattle.buffer.specs.Buffer.{laid};
ghost use Rattle.layout.specs.Limits.{longest};
ghost use Rattle.layout.specs.Source.{explicitly};
ghost use Rattle.layout.specs.Walks.{Lies, deeper};
ghost use Rattle.table.specs.Rows.{table};
ghost use Rattle.uid.specs.Uid.{longest_root};
ghost use Rattle.ledger.specs.Slots.{slots_of};
ghost use Rattle.treatment.specs.Settings.{settings_in};
ghost use Rattle.write_markers.specs.Gains.{all_markers, gained};
ghost use Rattle.write_state.specs.Bounds.{per_byte, one_element, marked_element, one_mark, one_item, farthest};
ghost use Rattle.write_state.specs.Steps.{at_place};
ghost use Rattle.write_state.specs.Wrote.{Ready, Countable, Wrote, ElementsPass, SequencePass, WalkedPass, ShutPass, ItemsPass, ItemPass, PlainPass, Gaining};
ghost use Rattle.write_walk.specs.Whole.{Whole};

use layout::{Container, Head, Spot};
use treatment::{Fate, Level, Rules, SettingNumbers, SettingTexts};
use write_state::{Element, Progress, Standing};

// No tag is as large.
const PAST_ALL_TAGS: u64 = 0x1_0000_0000;

// What a level gains from the tag `low` up to `high`.
fn gain(level: Level, options: u64, low: u64, high: u64, out: &mut [u8], t: Progress) -> Progress
    requires { t.pos + all_markers < farthest }
    ensures { (result ≡ at_place t (t.pos + length (gained level options low high))) × (out.new ≡ laid out.old t.pos (gained level options low high)) }
{
    let pos = write_markers::put_gained(level, options, low, high, out, t.pos);
    t.at_place(pos)
}

// The same before an element. In an item nothing is gained, and most elements stand in items: the test alone is written out where it is asked.
fn gain_before(
    level: Level,
    options: u64,
    low: u64,
    high: u64,
    out: &mut [u8],
    t: Progress,
) -> Progress
    requires { t.pos + all_markers < farthest }
    ensures { (result ≡ at_place t (t.pos + length (gained level options low high))) × (out.new ≡ laid out.old t.pos (gained level options low high)) }
{
    if treatment::is_top(level) {
        return gain(level, options, low, high, out, t);
    }
    t
}

// An element with a value, where `at` tells.
fn plain<'a>(
    rules: Rules<'a>,
    texts: SettingTexts<'a>,
    at: Standing,
    e: Element,
    s: &[u8],
    ledger: &mut [u8],
    out: &mut [u8],
    start: Progress,
) -> Option<(usize, Progress)>
    requires tag { e.tag < 4294967296 }
    requires rises { e.body ≤ e.past }
    requires in_s { e.past ≤ length s.now }
    requires ready { Ready texts.root.now ledger.old start (e.past - e.body) marked_element }
    requires countable { Countable start 1 }
    ensures { Wrote (Gaining (settings_in rules.entry.numbers texts.entry) at.level at.low e.tag (PlainPass (settings_in rules.entry.numbers texts.entry) at.level e.tag e.vr s.now e.body e.past)) e.body e.past marked_element 1 out.old out.new ledger.old ledger.new start result }
{
    let level = at.level;
    let t = gain_before(level, rules.numbers.options, at.low, e.tag + 1, out, start);
    let fate = rules.fate_of(level, e.tag, e.vr);
    write_element::act(fate, rules.numbers, texts, e, s, ledger, out, t)
}

// A sequence that is not walked into: what stands in it is passed over.
fn shut<'a>(
    fate: Fate,
    n: SettingNumbers,
    texts: SettingTexts<'a>,
    tag: u64,
    s: &[u8],
    c: Container,
    ledger: &mut [u8],
    out: &mut [u8],
    t: Progress,
) -> Option<(usize, Progress)>
    requires lies { Lies c s.now }
    requires ready { Ready texts.root.now ledger.old t (c.end - c.from) one_element }
    requires countable { Countable t 1 }
    ensures { Wrote (ShutPass (settings_in n texts.entry) (explicitly s.now) c fate tag) c.from c.end one_element 1 out.old out.new ledger.old ledger.new t result }
{
    let past = layout::sequence(s, c).ok()?;
    let e = Element {
        tag,
        vr: vr::SQ,
        body: c.from,
        past,
    };
    write_element::act(fate, n, texts, e, s, ledger, out, t)
}

// The elements of a container.
#[cycle(elements_item_items_sequence_walked)]
fn elements<'a>(
    rules: Rules<'a>,
    texts: SettingTexts<'a>,
    s: &[u8],
    c: Container,
    level: Level,
    ledger: &mut [u8],
    out: &mut [u8],
    start: Progress,
) -> Option<(usize, Progress)>
    requires lies { Lies c s.now }
    requires ready { Ready texts.root.now ledger.old start (c.end - c.from) all_markers }
    requires countable { Countable start (c.end - c.from) }
    ensures { Wrote (ElementsPass (settings_in rules.entry.numbers texts.entry) (explicitly s.now) c level 0) c.from c.end all_markers 0 out.old out.new ledger.old ledger.new start result }
{
    let mut at = c.from;
    let mut low: u64 = 0;
    let mut t = start;
    loop {
        let head = layout::element_head(s, at, c.end, c.unstated, low).ok()?;
        match head {
            Head::End(past) => {
                let u = gain(level, rules.numbers.options, low, PAST_ALL_TAGS, out, t);
                return Some((past, u));
            }
            Head::Plain {
                tag,
                vr,
                body,
                past,
            } => {
                let stand = Standing { level, low };
                let e = Element {
                    tag,
                    vr,
                    body,
                    past,
                };
                let (next, u) = plain(rules, texts, stand, e, s, ledger, out, t)?;
                t = u;
                at = next;
                low = tag + 1;
            }
            Head::Seq {
                tag,
                body,
                stop,
                unstated,
            } => {
                let stand = Standing { level, low };
                let held = Container {
                    from: body,
                    end: stop,
                    unstated,
                    ..c
                };
                let (next, u) = sequence(rules, texts, stand, tag, s, held, ledger, out, t)?;
                t = u;
                at = next;
                low = tag + 1;
            }
        }
    }
}

// A sequence, where `at` tells; c holds its items.
#[cycle(elements_item_items_sequence_walked)]
fn sequence<'a>(
    rules: Rules<'a>,
    texts: SettingTexts<'a>,
    at: Standing,
    tag: u64,
    s: &[u8],
    c: Container,
    ledger: &mut [u8],
    out: &mut [u8],
    start: Progress,
) -> Option<(usize, Progress)>
    requires tag { tag < 4294967296 }
    requires lies { Lies c s.now }
    requires ready { Ready texts.root.now ledger.old start (c.end - c.from) marked_element }
    requires countable { Countable start (c.end - c.from + 1) }
    ensures { Wrote (Gaining (settings_in rules.entry.numbers texts.entry) at.level at.low tag (SequencePass (settings_in rules.entry.numbers texts.entry) (explicitly s.now) c at.level tag)) c.from c.end marked_element 1 out.old out.new ledger.old ledger.new start result }
{
    let level = at.level;
    let t = gain(level, rules.numbers.options, at.low, tag + 1, out, start);
    let fate = rules.fate_of(level, tag, vr::SQ);
    if treatment::walks_into(fate) {
        return walked(rules, texts, tag, s, c, level, ledger, out, t);
    }
    shut(fate, rules.numbers, texts, tag, s, c, ledger, out, t)
}

// A sequence of this level that is walked into. One without items has length 0; one with some has an end mark.
#[cycle(elements_item_items_sequence_walked)]
fn walked<'a>(
    rules: Rules<'a>,
    texts: SettingTexts<'a>,
    tag: u64,
    s: &[u8],
    c: Container,
    level: Level,
    ledger: &mut [u8],
    out: &mut [u8],
    t: Progress,
) -> Option<(usize, Progress)>
    requires lies { Lies c s.now }
    requires ready { Ready texts.root.now ledger.old t (c.end - c.from) one_element }
    requires countable { Countable t (c.end - c.from + 1) }
    ensures { Wrote (WalkedPass (settings_in rules.entry.numbers texts.entry) (explicitly s.now) c level tag) c.from c.end one_element 1 out.old out.new ledger.old ledger.new t result }
{
    let spot = layout::item_head(s, c.from, c.end, c.unstated, c.depth).ok()?;
    match spot {
        Spot::Over(past) => {
            let pos = write_headers::put_header(tag, vr::SQ, 0, out, t.pos);
            Some((past, t.one_kept(pos)))
        }
        Spot::Item { .. } => {
            let pos = write_headers::put_header(tag, vr::SQ, layout::UNDEFINED, out, t.pos);
            let u = t.one_kept(pos);
            let lower = treatment::below(Fate::Walked, level);
            items(rules, texts, s, c, lower, ledger, out, u)
        }
    }
}

// The items of a sequence that is walked into, their elements on the level given, and the mark that ends it.
#[cycle(elements_item_items_sequence_walked)]
fn items<'a>(
    rules: Rules<'a>,
    texts: SettingTexts<'a>,
    s: &[u8],
    c: Container,
    level: Level,
    ledger: &mut [u8],
    out: &mut [u8],
    start: Progress,
) -> Option<(usize, Progress)>
    requires lies { Lies c s.now }
    requires ready { Ready texts.root.now ledger.old start (c.end - c.from) one_mark }
    requires countable { Countable start (c.end - c.from) }
    ensures { Wrote (ItemsPass (settings_in rules.entry.numbers texts.entry) (explicitly s.now) c level) c.from c.end one_mark 0 out.old out.new ledger.old ledger.new start result }
{
    let mut at = c.from;
    let mut t = start;
    loop {
        let spot = layout::item_head(s, at, c.end, c.unstated, c.depth).ok()?;
        match spot {
            Spot::Over(past) => {
                let pos = write_headers::put_mark(layout::SEQUENCE_END, 0, out, t.pos);
                let u = t.at_place(pos);
                return Some((past, u));
            }
            Spot::Item {
                body,
                stop,
                unstated,
            } => {
                let held = Container {
                    from: body,
                    end: stop,
                    unstated,
                    ..c
                };
                let (next, u) = item(rules, texts, s, held, level, ledger, out, t)?;
                t = u;
                at = next;
            }
        }
    }
}

// One item, with its tag and its end mark, of a sequence in which `c.depth` more items may nest: inside it, one fewer.
#[cycle(elements_item_items_sequence_walked)]
fn item<'a>(
    rules: Rules<'a>,
    texts: SettingTexts<'a>,
    s: &[u8],
    c: Container,
    level: Level,
    ledger: &mut [u8],
    out: &mut [u8],
    start: Progress,
) -> Option<(usize, Progress)>
    requires deep { 0 < c.depth }
    requires lies { Lies c s.now }
    requires ready { Ready texts.root.now ledger.old start (c.end - c.from) one_item }
    requires countable { Countable start (c.end - c.from) }
    ensures { Wrote (ItemPass (settings_in rules.entry.numbers texts.entry) (explicitly s.now) (deeper c) level) c.from c.end one_item 0 out.old out.new ledger.old ledger.new start result }
{
    let pos = write_headers::put_mark(layout::ITEM, layout::UNDEFINED, out, start.pos);
    let t = start.at_place(pos);
    let held = Container {
        depth: c.depth - 1,
        ..c
    };
    let (past, u) = elements(rules, texts, s, held, level, ledger, out, t)?;
    let after = write_headers::put_mark(layout::ITEM_END, 0, out, u.pos);
    let v = u.at_place(after);
    Some((past, v))
}

// The whole data set: what is written of it, from the place `pos` of `out` on. The caller lends the table that `table::rows` makes.
pub fn write<'a>(
    rows: &'a [u64],
    n: SettingNumbers,
    texts: SettingTexts<'a>,
    s: &[u8],
    ledger: &mut [u8],
    used: usize,
    out: &mut [u8],
    pos: usize,
) -> Option<(usize, Progress)>
    requires { (rows.now ≡ table) × (length s.now ≤ longest) × (length texts.root.now ≤ longest_root) × (used ≤ slots_of ledger.old) × (pos ≤ longest) }
    ensures { Whole (settings_in n texts.entry) (explicitly s.now) ledger.old ledger.new used out.old out.new pos result }
{
    let rules = Rules { rows, numbers: n };
    let start = Progress {
        pos,
        used,
        kept: 0,
        replaced: 0,
        renamed: 0,
        removed: 0,
    };
    let whole = Container {
        from: 0,
        end: s.len(),
        unstated: false,
        depth: layout::DEEPEST,
    };
    elements(rules, texts, s, whole, Level::Top, ledger, out, start)
}

// The first fault among the values, front to back: document 01, refusals 11 and 12. Nothing inside what is removed, emptied or dummied is
// judged.
// The walk goes as the shape walk does: elements contain sequences, sequences contain items, items contain elements, and what stands side
// by side is passed over in a loop. It is meant for data sets whose shape is judged already: of one with a fault of shape the contracts say
// nothing but that the walk ends.
#![tactic(auto)]

ghost use Rattle.std.specs.Prelude.{◌≡◌, ◌≤◌, length};
ghost use Rattle.layout.specs.Source.{explicitly};
ghost use Rattle.layout.specs.Walks.{Lies};
ghost use Rattle.table.specs.Rows.{table};
ghost use Rattle.judge_values.specs.Judged.{ValueJudged, ElementJudged, ElementsJudged, SequenceJudged, ItemsJudged, WholeJudged};

use layout::{Container, Head, Spot};
use refusals::{Fault, Refusal};
use treatment::{Fate, Level, Rules, SettingNumbers};

// The value of an element with this fate: it is refused, or not.
fn check_value(n: SettingNumbers, fate: Fate, vr: u64, value: &[u8]) -> Result<(), Refusal>
    ensures { ValueJudged n fate vr value.now result }
{
    match fate {
        Fate::Renamed => {
            if uid::uids_fault(value) {
                return Err(Refusal::BadUids);
            }
            Ok(())
        }
        Fate::Shifted => {
            if calendar::date_fault(vr == vr::DA, value, n.days) {
                return Err(Refusal::BadDates);
            }
            Ok(())
        }
        Fate::Wrong => Err(Refusal::BadUids),
        Fate::Removed | Fate::Kept | Fate::Walked | Fate::Emptied | Fate::Dummied => Ok(()),
    }
}

// The same of the element that has the value.
fn check_element(
    rules: Rules<'_>,
    level: Level,
    tag: u64,
    vr: u64,
    value: &[u8],
) -> Result<(), Refusal>
    ensures { ElementJudged rules.entry.numbers level tag vr value.now result }
{
    check_value(rules.numbers, rules.fate_of(level, tag, vr), vr, value)
}

// The elements of a container: the place past them, or the first fault.
#[cycle(elements_items_sequence)]
fn elements(rules: Rules<'_>, s: &[u8], c: Container, level: Level) -> Result<usize, Fault>
    requires { Lies c s.now }
    ensures { ElementsJudged rules.entry.numbers (explicitly s.now) c level result }
{
    let mut at = c.from;
    let mut low: u64 = 0;
    loop {
        let head = layout::located(layout::element_head(s, at, c.end, c.unstated, low), at)?;
        let (tag, past) = match head {
            Head::End(past) => return Ok(past),
            Head::Plain {
                tag,
                vr,
                body,
                past,
            } => {
                layout::located(check_element(rules, level, tag, vr, &s[body..past]), at)?;
                (tag, past)
            }
            Head::Seq {
                tag,
                body,
                stop,
                unstated,
            } => {
                let held = Container {
                    from: body,
                    end: stop,
                    unstated,
                    ..c
                };
                (tag, sequence(rules, s, held, level, tag)?)
            }
        };
        at = past;
        low = tag + 1;
    }
}

// The sequence `tag` of this level: its items are judged where it is walked into, else they are passed over.
#[cycle(elements_items_sequence)]
fn sequence(
    rules: Rules<'_>,
    s: &[u8],
    c: Container,
    level: Level,
    tag: u64,
) -> Result<usize, Fault>
    requires { Lies c s.now }
    ensures { SequenceJudged rules.entry.numbers (explicitly s.now) c level tag result }
{
    let fate = rules.fate_of(level, tag, vr::SQ);
    if treatment::walks_into(fate) {
        let inner = treatment::below(fate, level);
        return items(rules, s, c, inner);
    }
    layout::sequence(s, c)
}

// The items of a sequence; `level` is that of what stands in them.
#[cycle(elements_items_sequence)]
fn items(rules: Rules<'_>, s: &[u8], c: Container, level: Level) -> Result<usize, Fault>
    requires { Lies c s.now }
    ensures { ItemsJudged rules.entry.numbers (explicitly s.now) c level result }
{
    let mut at = c.from;
    loop {
        let spot = layout::located(layout::item_head(s, at, c.end, c.unstated, c.depth), at)?;
        match spot {
            Spot::Over(past) => return Ok(past),
            Spot::Item {
                body,
                stop,
                unstated,
            } => {
                let held = Container {
                    from: body,
                    end: stop,
                    unstated,
                    depth: c.depth - 1,
                };
                at = elements(rules, s, held, level)?;
            }
        }
    }
}

// The first fault among the values of a data set that has its shape, or the place past the data set. The caller lends the table that
// `table::rows` makes.
pub fn first_fault(rows: &[u64], n: SettingNumbers, s: &[u8]) -> Result<usize, Fault>
    requires { rows.now ≡ table }
    ensures { WholeJudged n (explicitly s.now) result }
{
    let rules = Rules { rows, numbers: n };
    let whole = Container {
        from: 0,
        end: s.len(),
        unstated: false,
        depth: layout::DEEPEST,
    };
    elements(rules, s, whole, Level::Top)
}

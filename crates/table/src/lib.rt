// Which action an element gets: document 01, the section of that name. The caller makes the table once, by `rows`, and lends it to all that
// asks it: a constant is stored anew, row by row, wherever it is named.
#![tactic(auto)]

ghost use Rattle.std.specs.Prelude.{◌≡◌};
ghost use Rattle.basis.specs.Choice.{among};
ghost use Rattle.table.specs.Rows.{table};
ghost use Rattle.table.specs.Table.{row_of};
ghost use Rattle.table.specs.Rules.{curve, overlay, reserved, ruled};
ghost use Rattle.table.specs.Override.{option_count, stronger, overriding, cleans_dates};
ghost use Rattle.table.specs.Action.{action_for, on_row, action_of};

mod e1_1;

// What is done with an element. `letter_for` of specs/Action.antt gives document 01's letter for each.
#[derive(Clone, Copy, Debug, PartialEq, Eq)]
pub enum Action {
    // X
    Remove,
    // K
    Keep,
    // Z
    Empty,
    // D
    Dummy,
    // U
    Rename,
    // C
    Clean,
    // C in Modified Dates' column
    CleanDates,
}

// The letters as digits of a row. What is no other letter is K. They stay numbers, as in specs/Table.antt: an enum would be no plainer, since
// each function here would need a second word that ties its letters to the row's digits.
const NO_LETTER: u64 = 0x0;

const X: u64 = 0x1;

const Z: u64 = 0x2;

const U: u64 = 0x3;

const C: u64 = 0xC;

const D: u64 = 0xD;

// What a row is divided by to bring a digit, the basic action or the tag to its lowest place.
const DIGIT: u64 = 16;

const BASIC: u64 = 0x1000_0000;

const TAG: u64 = 0x1_0000_0000;

// What a tag is divided by to bring its group to the lowest place. The rest is its element.
const GROUP: u64 = 65536;

// The four tags that are taken off the top level, by their names in PS3.6; three of them are written there anew.
pub const PATIENT_IDENTITY_REMOVED: u64 = 0x0012_0062;

pub const DEIDENTIFICATION_METHOD: u64 = 0x0012_0063;

pub const DEIDENTIFICATION_CODES: u64 = 0x0012_0064;

pub const LONGITUDINAL_TIME: u64 = 0x0028_0303;

const OPTION_COUNT: u64 = 6;

// The whole table, to be made once and lent. It is lent as a slice: a struct for the rows and the fact that they are the table would be one
// more type in contracts that the documents name, and each caller would have to make it.
pub fn rows() -> [u64; e1_1::COUNT]
    ensures { result ≡ table }
{
    e1_1::ROWS
}

// The row of a tag, if there is one. The plain search would take the first row with the tag; the rows rise by tag, so the row in the
// middle tells which half of those that are left, from `low` up to `high`, can still have it. It ends at the row, which std's search by halves
// does not: each element asks twice.
pub fn row_of(rows: &[u64], tag: u64) -> Option<u64>
    requires { rows.now ≡ table }
    ensures { result ≡ row_of tag }
{
    let mut low = 0;
    let mut high = rows.len();
    while low < high {
        let middle = (low + high) / 2;
        let row = rows[middle];
        let there = row / TAG;
        if there == tag {
            return Some(row);
        }
        if there < tag {
            low = middle + 1;
        } else {
            high = middle;
        }
    }
    None
}

fn is_curve(tag: u64) -> bool
    ensures { result ≡ curve tag }
{
    let group = tag / GROUP;
    group / 256 == 0x50 && group % 2 == 0
}

#[tactic(auto, unfolding(basis::specs::Choice::among))]
fn is_overlay(tag: u64) -> bool
    ensures { result ≡ overlay tag }
{
    let group = tag / GROUP;
    let element = tag % GROUP;
    group / 256 == 0x60 && group % 2 == 0 && (element == 0x3000 || element == 0x4000)
}

// By `||`, here and in `is_overlay`: `matches!` was tried, and its proof named each goal by a tag's number.
#[tactic(auto, unfolding(basis::specs::Choice::among))]
fn is_reserved(tag: u64) -> bool
    ensures { result ≡ among tag reserved }
{
    tag == PATIENT_IDENTITY_REMOVED
        || tag == DEIDENTIFICATION_METHOD
        || tag == DEIDENTIFICATION_CODES
        || tag == LONGITUDINAL_TIME
}

// Whether one of the rules that come before the rows speaks of the tag.
#[tactic(auto, unfolding(crate::specs::Rules::ruled))]
fn is_ruled(top: bool, tag: u64) -> bool
    ensures { result ≡ ruled top tag }
{
    is_curve(tag)
        || tag / GROUP % 2 == 1
        || is_overlay(tag)
        || tag % GROUP == 0
        || (top && is_reserved(tag))
}

#[tactic(auto, unfolding(crate::specs::Action::action_for))]
fn action_for(letter: u64) -> Action
    ensures { result ≡ action_for letter }
{
    match letter {
        X => Action::Remove,
        Z => Action::Empty,
        D => Action::Dummy,
        U => Action::Rename,
        C => Action::Clean,
        _ => Action::Keep,
    }
}

// Of two letters that chosen options give: a C stays, else the later letter counts.
fn stronger_of(letter: u64, next: u64) -> u64
    ensures { result ≡ stronger letter next }
{
    if letter == C {
        return C;
    }
    if next == NO_LETTER {
        return letter;
    }
    next
}

// What the chosen options give together on a row. The lowest bit of what is left of the option number and the lowest digit of what is left
// of the row belong to the same option.
fn overriding_letter(options: u64, row: u64) -> u64
    ensures { result ≡ overriding options row option_count }
{
    let mut letter = NO_LETTER;
    let mut left = options;
    let mut letters = row;
    for _ in 0..OPTION_COUNT {
        if left % 2 == 1 {
            letter = stronger_of(letter, letters % DIGIT);
        }
        left /= 2;
        letters /= DIGIT;
    }
    letter
}

// Whether Modified Dates, the option of bit 1, is chosen and has C on the row.
fn cleans_dates(options: u64, row: u64) -> bool
    ensures { result ≡ cleans_dates options row }
{
    options / 2 % 2 == 1 && row / DIGIT % DIGIT == C
}

// The action that a row orders.
#[tactic(auto, unfolding(crate::specs::Action::on_row))]
fn on_row(options: u64, row: u64) -> Action
    ensures { result ≡ on_row options row }
{
    if cleans_dates(options, row) {
        return Action::CleanDates;
    }
    let letter = overriding_letter(options, row);
    if letter == NO_LETTER {
        return action_for(row / BASIC % DIGIT);
    }
    action_for(letter)
}

// The action of an element with that tag, at the top level or, where `top` is false, in an item.
#[tactic(auto, unfolding(crate::specs::Action::action_of))]
pub fn action_of(rows: &[u64], options: u64, top: bool, tag: u64) -> Action
    requires { rows.now ≡ table }
    ensures { result ≡ action_of options top tag }
{
    if is_ruled(top, tag) {
        return Action::Remove;
    }
    match row_of(rows, tag) {
        Some(row) => on_row(options, row),
        None => Action::Keep,
    }
}

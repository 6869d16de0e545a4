// What happens to an element: document 01, "What each action writes". It follows from the settings and the element's level, tag and VR.
#![tactic(auto)]

ghost use Rattle.std.specs.Prelude.{◌≡◌};
ghost use Rattle.table.specs.Rows.{table};
ghost use Rattle.treatment.specs.Fates.{is_top, as_d, by_action, fate_of, walks_into, below as below_of};

use table::Action;

// The settings that are numbers: the option number, and the date shift in days. They go down through every walk unchanged.
#[derive(Clone, Copy)]
pub struct SettingNumbers {
    pub options: u64,
    pub days: i32,
}

// The settings that are texts, as they are lent: the root of new UIDs, and the study's replacement list and the site's. They too go down
// unchanged. They are no part of `Rules` or of `SettingNumbers`: what judges values takes those, and no texts.
#[derive(Clone, Copy)]
pub struct SettingTexts<'a> {
    pub root: &'a [u8],
    pub study: &'a [u8],
    pub site: &'a [u8],
}

// What decides on an element, wherever it stands: the table, and the settings that are numbers.
#[derive(Clone, Copy)]
pub struct Rules<'a> {
    pub rows: &'a [u64],
    pub numbers: SettingNumbers,
    // the rows are the table
    ghost whole: { rows.now ≡ table },
}

impl<'a> Rules<'a> {
    // The fate of an element.
    pub fn fate_of(self, level: Level, tag: u64, vr: u64) -> Fate
        ensures { result ≡ fate_of self.entry.numbers.options level tag vr }
    {
        fate_of(self.rows, self.numbers.options, level, tag, vr)
    }
}

// Where an element stands.
#[derive(Clone, Copy, Debug, PartialEq, Eq)]
pub enum Level {
    // on the top level of the data set
    Top,
    // in an item of a sequence that is walked into
    Inner,
    // in an item of a sequence that is treated as D: nothing reaches it before request No. 3
    Under,
}

// What happens to an element.
#[derive(Clone, Copy, Debug, PartialEq, Eq)]
pub enum Fate {
    // it is left out
    Removed,
    // it stays as it is
    Kept,
    // it is a sequence that is walked into
    Walked,
    // its value is replaced, by Z or by D
    Emptied,
    Dummied,
    // its UIDs are renamed
    Renamed,
    // its dates are shifted
    Shifted,
    // it is to be renamed, and can't be: refusal 11
    Wrong,
}

// Whether a level is the top one.
pub fn is_top(level: Level) -> bool
    ensures { result ≡ is_top level }
{
    level == Level::Top
}

// Whether a sequence of this fate is walked into.
pub fn walks_into(fate: Fate) -> bool
    ensures { result ≡ walks_into fate }
{
    fate == Fate::Walked
}

// The level of what stands in the items of a sequence of this fate.
pub fn below(fate: Fate, level: Level) -> Level
    ensures { result ≡ below_of fate level }
{
    match level {
        Level::Top | Level::Inner => Level::Inner,
        Level::Under => Level::Under,
    }
}

// D: a UI is treated as U.
fn as_dummy(vr: u64) -> Fate
    ensures { result ≡ as_d vr }
{
    match vr {
        vr::UI => Fate::Renamed,
        _ => Fate::Dummied,
    }
}

// K: a sequence is walked into.
fn as_kept(vr: u64) -> Fate
    ensures { result ≡ by_action Action.Keep vr }
{
    match vr {
        vr::SQ => Fate::Walked,
        _ => Fate::Kept,
    }
}

// U: what is neither a UI nor a sequence is refused.
fn as_renamed(vr: u64) -> Fate
    ensures { result ≡ by_action Action.Rename vr }
{
    match vr {
        vr::UI => Fate::Renamed,
        vr::SQ => Fate::Walked,
        _ => Fate::Wrong,
    }
}

// C: a sequence is walked into, all else is treated as D.
fn as_clean(vr: u64) -> Fate
    ensures { result ≡ by_action Action.Clean vr }
{
    match vr {
        vr::SQ => Fate::Walked,
        _ => as_dummy(vr),
    }
}

// C in Modified Dates' column: the same, but dates are shifted and a time stays as it is.
#[tactic(auto, unfolding(basis::specs::Choice::among))]
fn as_clean_dates(vr: u64) -> Fate
    ensures { result ≡ by_action Action.CleanDates vr }
{
    match vr {
        vr::SQ => Fate::Walked,
        vr::DA | vr::DT => Fate::Shifted,
        vr::TM => Fate::Kept,
        _ => as_dummy(vr),
    }
}

// The fate that an action gives an element of this VR.
fn by_action(action: Action, vr: u64) -> Fate
    ensures { result ≡ by_action action vr }
{
    match action {
        Action::Remove => Fate::Removed,
        Action::Keep => as_kept(vr),
        Action::Empty => Fate::Emptied,
        Action::Dummy => as_dummy(vr),
        Action::Rename => as_renamed(vr),
        Action::Clean => as_clean(vr),
        Action::CleanDates => as_clean_dates(vr),
    }
}

// The fate of an element under the option number. The caller lends the table that `table::rows` makes.
#[tactic(auto, unfolding(crate::specs::Fates::fate_of))]
pub fn fate_of(rows: &[u64], options: u64, level: Level, tag: u64, vr: u64) -> Fate
    requires { rows.now ≡ table }
    ensures { result ≡ fate_of options level tag vr }
{
    by_action(table::action_of(rows, options, is_top(level), tag), vr)
}

// A date by value, moved by a signed number of days, and the values of DA and DT elements, whose dates are moved so.
#![tactic(auto)]

ghost use Rattle.std.specs.Prelude.{◌≡◌, ◌+◌, ◌≤◌, ◌<◌, ◌^◌, ◌%◌, true, length, IfSome};
ghost use Rattle.basis.specs.Choice.{is_none};
ghost use Rattle.basis.specs.Text.{digit0};
ghost use Rattle.buffer.specs.Buffer.{laid};
ghost use Rattle.calendar.specs.Spans.{before, InSpan};
ghost use Rattle.calendar.specs.Dates.{first_year, last_year, leap, year_len, month_len, day_number, date_of, real, later, moved};
ghost use Rattle.calendar.specs.Text.{date_length, two_digits, date_at, date_text, right_length, moved_date, shifted_piece};
ghost use Rattle.calendar.specs.Values.{dates_end, shifted_text, shifted_value};

use basis::BACKSLASH;

// The years that a date may have.
const FIRST_YEAR: u32 = 1;

const LAST_YEAR: u32 = 9999;

// How many characters a date has.
const DATE_LENGTH: usize = 8;

#[derive(Clone, Copy, Debug, PartialEq, Eq)]
pub struct Date {
    pub year: u32,
    pub month: u32,
    pub day: u32,
}

// Each fourth year, but of the full hundreds only each fourth.
#[tactic(auto, unfolding(crate::specs::Dates::leap))]
fn is_leap(y: u32) -> bool
    ensures { result ≡ leap y }
{
    y % 400 == 0 || y % 100 != 0 && y % 4 == 0
}

// The days of the month m of the year y: none where there is no such month.
#[tactic(auto, unfolding(crate::specs::Dates::month_len))]
fn month_len(y: u32, m: u32) -> u32
    ensures { result ≡ month_len y m }
{
    match m {
        2 if is_leap(y) => 29,
        2 => 28,
        4 | 6 | 9 | 11 => 30,
        1..=12 => 31,
        _ => 0,
    }
}

// The days before the year y: the leap years among the years 0 to y - 1 are the fourth ones without the hundreds, and the four hundreds.
fn before_year(y: u32) -> u32
    requires { y ≤ last_year + 1 }
    ensures { result ≡ before year_len y }
{
    365 * y + (y + 3) / 4 + (y + 399) / 400 - (y + 99) / 100
}

// The days of the year y before its month m, or before its end for the month 13: from March on 153 days for each five months.
fn before_month(y: u32, m: u32) -> u32
    requires { (1 ≤ m) × (m ≤ 13) }
    ensures { result ≡ before (month_len y) m }
{
    if m < 3 {
        return 31 * (m - 1);
    }
    (153 * m - 162) / 5 + u32::from(is_leap(y))
}

// The year that has the day n: as if each fourth year were a leap year, and then on from there, mostly by no year and at most by one.
// Two loops, here and in `month_of`: a search from a guess is no plainer as an iterator, nor as one function that takes guess and days.
fn year_of(n: u32) -> u32
    requires { (before year_len first_year < n) × (n ≤ before year_len (last_year + 1)) }
    ensures { InSpan year_len n result }
{
    let mut y = (4 * n - 7) / 1461;
    while before_year(y + 1) < n {
        y += 1;
    }
    y
}

// The month that has the day n of the year y: as if each had 31 days, and then on from there, at most by one.
fn month_of(y: u32, n: u32) -> u32
    requires { (1 ≤ n) × (n ≤ year_len y) }
    ensures { InSpan (month_len y) n result }
{
    let mut m = (n - 1) / 31 + 1;
    while before_month(y, m + 1) < n {
        m += 1;
    }
    m
}

// The date of the day n, which is in the years.
fn date_of(n: u32) -> Date
    requires { (before year_len first_year < n) × (n ≤ before year_len (last_year + 1)) }
    ensures { result ≡ date_of n }
{
    let y = year_of(n);
    let i = n - before_year(y);
    let m = month_of(y, i);
    Date {
        year: y,
        month: m,
        day: i - before_month(y, m),
    }
}

// The day `days` days after the day n, or 0, which is no day in the years, where there are not so many before it: so `Dates.later` has it.
fn later_day(n: u32, days: i32) -> u32
    requires { n < 2 ^ 31 }
    ensures { result ≡ later n days }
{
    n.saturating_add_signed(days)
}

impl Date {
    // Whether this is a day of the calendar, in the years.
    #[tactic(auto, unfolding(crate::specs::Dates::real))]
    fn is_real(self) -> bool
        ensures { result ≡ real self }
    {
        (FIRST_YEAR..=LAST_YEAR).contains(&self.year)
            && (1..=month_len(self.year, self.month)).contains(&self.day)
    }

    // This day, which is real, as a number: the days up to it from the year 0 on.
    fn number(self) -> u32
        requires { real self ≡ true }
        ensures { result ≡ day_number self }
    {
        before_year(self.year) + before_month(self.year, self.month) + self.day
    }

    // The date `days` days later, or none where this is no real day or where that leaves the years.
    pub fn shifted(self, days: i32) -> Option<Date>
        ensures { result ≡ moved self days }
    {
        if !self.is_real() {
            return None;
        }
        let n = later_day(self.number(), days);
        if n <= before_year(FIRST_YEAR) || before_year(LAST_YEAR + 1) < n {
            return None;
        }
        Some(date_of(n))
    }
}

// The number that the characters x and y spell.
#[tactic(auto, unfolding(crate::specs::Text::two_digits))]
fn two_digits(x: u8, y: u8) -> Option<u32>
    ensures { result ≡ two_digits x y }
{
    if x.is_ascii_digit() && y.is_ascii_digit() {
        Some(10 * u32::from(x - b'0') + u32::from(y - b'0'))
    } else {
        None
    }
}

// The date that the first eight characters of `text` spell, real or not.
#[tactic(auto, unfolding(crate::specs::Text::date_at))]
fn date_at(text: &[u8]) -> Option<Date>
    requires { date_length ≤ length text.now }
    ensures { result ≡ date_at text.now 0 }
{
    let century = two_digits(text[0], text[1])?;
    let year = two_digits(text[2], text[3])?;
    let month = two_digits(text[4], text[5])?;
    let day = two_digits(text[6], text[7])?;
    Some(Date {
        year: 100 * century + year,
        month,
        day,
    })
}

// A date is the whole of a piece in a DA value, and its front in a DT value.
// `da` stays a flag, here and below: `Text.right_length`, `Values.shifted_value` and the promises take one.
fn right_length(da: bool, n: usize) -> bool
    ensures { result ≡ right_length da n }
{
    if da {
        n == DATE_LENGTH
    } else {
        DATE_LENGTH <= n
    }
}

// The date of a piece, moved.
#[tactic(auto, unfolding(crate::specs::Text::moved_date))]
fn moved_date(da: bool, piece: &[u8], days: i32) -> Option<Date>
    ensures date { result ≡ moved_date da days piece.now }
    ensures room { IfSome result (λ _. date_length ≤ length piece.now) }
{
    if !right_length(da, piece.len()) {
        return None;
    }
    date_at(piece)?.shifted(days)
}

// Where the dates of a value end: before the space that pads a DA value, or at its end.
#[tactic(auto, unfolding(crate::specs::Values::dates_end, crate::specs::Values::padded))]
fn dates_end(da: bool, value: &[u8]) -> usize
    ensures end { result ≡ dates_end da value.now }
    ensures within { result ≤ length value.now }
{
    if da && value.len() % 2 == 0 && value.ends_with(b" ") {
        value.len() - 1
    } else {
        value.len()
    }
}

// Whether a DA or DT value is refused with 12. No `split`, here and in `put_shifted`: the promise of where a piece ends is `basis::piece_end`'s.
pub fn date_fault(da: bool, value: &[u8], days: i32) -> bool
    ensures { result ≡ is_none (shifted_value da days value.now) }
{
    if value.is_empty() {
        return false;
    }
    let stop = dates_end(da, value);
    let mut from = 0;
    loop {
        let end = basis::piece_end(value, from, stop);
        if moved_date(da, &value[from..end], days).is_none() {
            return true;
        }
        if end == stop {
            return false;
        }
        from = end + 1;
    }
}

// The last digit of n.
fn digit(n: u32) -> u8
    ensures { result ≡ digit0 + n % 10 }
{
    b'0' + (n % 10) as u8
}

// The date `d` in eight digits. No `write!`: that goes through a text and a Result, and gives a year past 9999 more than four digits.
fn put_date(d: Date, out: &mut [u8], pos: usize)
    requires { pos + date_length < 2 ^ 64 }
    ensures { out.new ≡ laid out.old pos (date_text d) }
{
    let text = [
        digit(d.year / 1000),
        digit(d.year / 100),
        digit(d.year / 10),
        digit(d.year),
        digit(d.month / 10),
        digit(d.month),
        digit(d.day / 10),
        digit(d.day),
    ];
    buffer::copy_block(&text, out, pos);
}

// A piece with its date moved, at `pos`; the place past it. A date that can't be moved stays: a value that has one is refused with 12
// before anything is written.
fn put_piece(da: bool, piece: &[u8], days: i32, out: &mut [u8], pos: usize) -> usize
    requires { pos + length piece.now < 2 ^ 64 }
    ensures { (result ≡ pos + length piece.now) × (out.new ≡ laid out.old pos (shifted_piece da days piece.now)) }
{
    let Some(date) = moved_date(da, piece, days) else {
        return buffer::copy_block(piece, out, pos);
    };
    put_date(date, out, pos);
    buffer::copy_block(&piece[DATE_LENGTH..], out, pos + DATE_LENGTH)
}

// A DA or DT value with its dates moved, at `pos`, as far as there is room; the place past all of it.
pub fn put_shifted(da: bool, value: &[u8], days: i32, out: &mut [u8], pos: usize) -> usize
    requires { pos + length value.now < 2 ^ 64 }
    ensures { (result ≡ pos + length value.now) × (out.new ≡ laid out.old pos (shifted_text da days value.now)) }
{
    let stop = dates_end(da, value);
    let mut from = 0;
    let mut at = pos;
    loop {
        let end = basis::piece_end(value, from, stop);
        let past = put_piece(da, &value[from..end], days, out, at);
        if end == stop {
            return buffer::copy_block(&value[stop..], out, past);
        }
        buffer::put(out, past, BACKSLASH);
        at = past + 1;
        from = end + 1;
    }
}

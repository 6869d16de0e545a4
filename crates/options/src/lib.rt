// The options as a type with associated constants for their code values and meanings, and constructors from the option number;
// and the judgement of the settings.
#![tactic(auto)]

ghost use Rattle.std.specs.Prelude.{◌≡◌, ◌+◌, ◌≤◌, ◌<◌, ◌^◌, nat_abs, length};
ghost use Rattle.buffer.specs.Buffer.{laid, Puts};
ghost use Rattle.options.specs.Options.{code_of, meaning_of, basic_code, basic_meaning, is_chosen, opt_at};
ghost use Rattle.options.specs.Settings.{most_shift, settings_fault, date_word};

// The largest option number; the most days of a shift, either way.
const MOST_NUMBER: u64 = 63;

const MOST_SHIFT: u64 = 36_500;

// The options by their bits in the option number.
#[derive(Clone, Copy, Debug, PartialEq, Eq)]
pub enum Opt {
    FullDates = 0,
    ModifiedDates = 1,
    PatientCharacteristics = 2,
    DeviceIdentity = 3,
    RetainUids = 4,
    InstitutionIdentity = 5,
}

impl Opt {
    // All of them, by rising bit.
    pub const ALL: [Opt; 6] = [
        Opt::FullDates,
        Opt::ModifiedDates,
        Opt::PatientCharacteristics,
        Opt::DeviceIdentity,
        Opt::RetainUids,
        Opt::InstitutionIdentity,
    ];

    // How many bits there are.
    pub const COUNT: u64 = Opt::ALL.len() as u64;

    // Code values and meanings: of the basic profile itself, then of each option. Document 01, Language forms in the code, asks for
    // associated constants, and so each has one.
    pub const BASIC_CODE: [u8; 6] = *b"113100";

    pub const BASIC_MEANING: &'static [u8] = b"Basic Application Confidentiality Profile";

    pub const FULL_DATES_CODE: [u8; 6] = *b"113106";

    pub const FULL_DATES_MEANING: &'static [u8] =
        b"Retain Longitudinal Temporal Information Full Dates Option";

    pub const MODIFIED_DATES_CODE: [u8; 6] = *b"113107";

    pub const MODIFIED_DATES_MEANING: &'static [u8] =
        b"Retain Longitudinal Temporal Information Modified Dates Option";

    pub const PATIENT_CHARACTERISTICS_CODE: [u8; 6] = *b"113108";

    pub const PATIENT_CHARACTERISTICS_MEANING: &'static [u8] =
        b"Retain Patient Characteristics Option";

    pub const DEVICE_IDENTITY_CODE: [u8; 6] = *b"113109";

    pub const DEVICE_IDENTITY_MEANING: &'static [u8] = b"Retain Device Identity Option";

    pub const RETAIN_UIDS_CODE: [u8; 6] = *b"113110";

    pub const RETAIN_UIDS_MEANING: &'static [u8] = b"Retain UIDs Option";

    pub const INSTITUTION_IDENTITY_CODE: [u8; 6] = *b"113112";

    pub const INSTITUTION_IDENTITY_MEANING: &'static [u8] = b"Retain Institution Identity Option";

    // Whether the option number has the option's bit.
    pub fn is_in(self, number: u64) -> bool
        ensures { result ≡ is_chosen number self }
    {
        (number >> self as u64) % 2 == 1
    }

    // The option of a bit, where the option number has it.
    #[tactic(auto, unfolding(crate::specs::Options::opt_at))]
    pub fn at(number: u64, bit: u64) -> Option<Opt>
        ensures { result ≡ opt_at number bit }
    {
        let opt = *Opt::ALL.get(bit as usize)?;
        opt.is_in(number).then_some(opt)
    }

    // The code value.
    pub fn code(self) -> [u8; 6]
        ensures { result ≡ code_of self }
    {
        match self {
            Opt::FullDates => Opt::FULL_DATES_CODE,
            Opt::ModifiedDates => Opt::MODIFIED_DATES_CODE,
            Opt::PatientCharacteristics => Opt::PATIENT_CHARACTERISTICS_CODE,
            Opt::DeviceIdentity => Opt::DEVICE_IDENTITY_CODE,
            Opt::RetainUids => Opt::RETAIN_UIDS_CODE,
            Opt::InstitutionIdentity => Opt::INSTITUTION_IDENTITY_CODE,
        }
    }

    // The meaning.
    pub fn meaning(self) -> &'static [u8]
        ensures { result.now ≡ meaning_of self }
    {
        match self {
            Opt::FullDates => Opt::FULL_DATES_MEANING,
            Opt::ModifiedDates => Opt::MODIFIED_DATES_MEANING,
            Opt::PatientCharacteristics => Opt::PATIENT_CHARACTERISTICS_MEANING,
            Opt::DeviceIdentity => Opt::DEVICE_IDENTITY_MEANING,
            Opt::RetainUids => Opt::RETAIN_UIDS_MEANING,
            Opt::InstitutionIdentity => Opt::INSTITUTION_IDENTITY_MEANING,
        }
    }

    // Writes the meaning at a place of out, as far as there is room; the place past it. This one, the profile's and that of the word for
    // dates stay beside the functions that give the texts, since the documents name them.
    pub fn put_meaning(self, out: &mut [u8], pos: usize) -> usize
        requires { pos + length (meaning_of self) < 2 ^ 64 }
        ensures { Puts (meaning_of self) out.old pos out.new result }
    {
        buffer::copy_block(self.meaning(), out, pos)
    }

    // The basic profile's own code value and meaning.
    pub fn basic_code() -> [u8; 6]
        ensures { result ≡ basic_code }
    {
        Opt::BASIC_CODE
    }

    pub fn basic_meaning() -> &'static [u8]
        ensures { result.now ≡ basic_meaning }
    {
        Opt::BASIC_MEANING
    }

    pub fn put_basic_meaning(out: &mut [u8], pos: usize) -> usize
        requires { pos + length basic_meaning < 2 ^ 64 }
        ensures { Puts basic_meaning out.old pos out.new result }
    {
        buffer::copy_block(Opt::basic_meaning(), out, pos)
    }
}

// The word for what became of dates.
#[tactic(auto, unfolding(crate::specs::Settings::date_word))]
pub fn date_word(number: u64) -> &'static [u8]
    ensures { result.now ≡ date_word number }
{
    if Opt::FullDates.is_in(number) {
        b"UNMODIFIED"
    } else if Opt::ModifiedDates.is_in(number) {
        b"MODIFIED"
    } else {
        b"REMOVED"
    }
}

// That word at a place of out.
pub fn put_date_word(number: u64, out: &mut [u8], pos: usize) -> usize
    requires { pos + length (date_word number) < 2 ^ 64 }
    ensures { Puts (date_word number) out.old pos out.new result }
{
    buffer::copy_block(date_word(number), out, pos)
}

// Whether option number and shift are refused (No. 1).
#[tactic(auto, unfolding(crate::specs::Settings::settings_fault))]
pub fn settings_fault(number: u64, shift: i64) -> bool
    ensures { result ≡ settings_fault number shift }
{
    let days = shift.unsigned_abs();
    let full = Opt::FullDates.is_in(number);
    let modified = Opt::ModifiedDates.is_in(number);
    MOST_NUMBER < number || (full && modified) || MOST_SHIFT < days || (days != 0 && !modified)
}

// A shift that was not refused, as the calendar takes it.
pub fn days_of(shift: i64) -> i32
    requires { nat_abs shift ≤ most_shift }
    ensures { result ≡ shift }
{
    shift as i32
}

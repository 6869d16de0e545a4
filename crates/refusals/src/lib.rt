// The refusals of document 01, "When the station says no": the one place in the source where they stand, each under its condition and with its
// number. `specs/Refusals.antt` has the same list for definitions.
#![tactic(auto)]

ghost use Rattle.std.specs.Prelude.{◌≡◌};
ghost use Rattle.refusals.specs.Refusals.{number, as_fault};

#[derive(Clone, Copy, Debug, PartialEq, Eq)]
pub enum Refusal {
    // The settings may not be asked for: a number with a bit of no option, both date options, a shift out of its range, or a shift without
    // Modified Dates.
    BadSettings = 1,
    // The root is not a UID, or too long a one to be followed by a number.
    BadRoot = 2,
    // More slots are said to be in use than the ledger has.
    BadCount = 3,
    // A replacement list breaks the rule of lists.
    BadList = 4,
    // The data set is longer than a data set may be.
    TooLong = 5,
    // The data set, or the container, ends before a header, a value, an item or an end mark is whole.
    CutShort = 6,
    // A tag that may not stand here: not allowed, not above the one before it, or neither an item's nor an end mark's where one has to stand.
    BadTag = 7,
    // A VR that is none of the 34, or two bytes after a VR that should be zero and are not.
    BadVr = 8,
    // A length that is odd, or undefined where it may not be, or an end mark with a length.
    BadLength = 9,
    // An item inside as many items as may nest.
    TooDeep = 10,
    // An element that is to be renamed is neither UI nor SQ, or its value breaks the rule of UIDs.
    BadUids = 11,
    // A date that is to be shifted is malformed, is no day of the calendar, or leaves the years.
    BadDates = 12,
    // More new UIDs than slots that are free.
    NoSlot = 13,
    // The output is longer than the buffer lent for it.
    NoRoom = 14,
}

// A refusal, and the offset at which its condition holds.
#[derive(Clone, Copy, Debug, PartialEq, Eq)]
pub struct Fault {
    pub refusal: Refusal,
    pub offset: usize,
}

impl Refusal {
    // The number by which document 01 names it.
    pub fn number(self) -> u8
        ensures { result ≡ number self }
    {
        self as u8
    }

    // The fault that is a refusal by the whole input: its offset is 0.
    pub fn as_fault(self) -> Fault
        ensures { result ≡ as_fault self }
    {
        Fault {
            refusal: self,
            offset: 0,
        }
    }
}

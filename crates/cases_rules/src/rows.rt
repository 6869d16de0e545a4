// The action of tags, by the rows that were read off the page of document 002, and by the rules before them.
ghost use Rattle.std.specs.Prelude.{◌≡◌};
ghost use Rattle.table.specs.Rows.{table};

use std::io;
use table::Action;

// By name, as the page has them, and at least one from each sheet of it; also the first and the last row by tag, and the three tags that
// are printed twice (A16).
const ROWS: [(u64, &str); 53] = [
    (0x0008_002A, "Acquisition DateTime"),
    (0x0000_1000, "Affected SOP Instance UID"),
    (0x0010_2110, "Allergies"),
    (0x300C_0127, "Beam Hold Transition DateTime"),
    (0x0018_1203, "Calibration DateTime"),
    (0x0012_0060, "Clinical Trial Coordinating Center Name"),
    (0x0012_0071, "Clinical Trial Series ID"),
    (0x0012_0030, "Clinical Trial Site ID"),
    (0x0008_0023, "Content Date"),
    (0xFFFC_FFFC, "Data Set Trailing Padding"),
    (0x0018_700C, "Date of Last Detector Calibration"),
    (0x2100_0140, "Destination AE"),
    (0x0018_1002, "Device UID"),
    (0x0400_0100, "Digital Signature UID"),
    (0x300A_0013, "Dose Reference UID"),
    (0x0010_2160, "Ethnic Group"),
    (0x0018_9623, "Functional Sync Pulse"),
    (0x0016_0070, "GPS Version ID"),
    (0x0008_0081, "Institution Address"),
    (0x0008_0082, "Institution Code Sequence"),
    (0x4008_010B, "Interpretation Text"),
    (0x2200_0002, "Label Text"),
    (0x0018_100B, "Manufacturer's Device Class UID"),
    (0x0008_1000, "Network ID"),
    (0x0008_1072, "Operator Identification Sequence"),
    (0x0010_0030, "Patient's Birth Date"),
    (0x0010_2203, "Patient's Sex Neutered"),
    (0x0038_0500, "Patient State"),
    (0x0040_0241, "Performed Station AE Title"),
    (0x0040_A123, "Person Name"),
    (0x0040_0012, "Pre-Medication"),
    (0x0018_1030, "Protocol Name"),
    (0x0074_1234, "Receiving AE"),
    (0x0008_1140, "Referenced Image Sequence"),
    (0x0008_1120, "Referenced Patient Sequence"),
    (0x0008_1111, "Referenced Performed Procedure Step Sequence"),
    (0x0008_1110, "Referenced Study Sequence"),
    (0x3006_00C2, "Related Frame of Reference UID"),
    (0x300E_0005, "Review Time"),
    (0x300A_0006, "RT Plan Date"),
    (0x0040_0011, "Scheduled Procedure Step Location"),
    (0x0040_0001, "Scheduled Station AE Title"),
    (0x0032_1021, "Scheduled Study Location AE Title"),
    (0x0072_005E, "Selector AE Value"),
    (0x0072_005F, "Selector AS Value"),
    (0x0008_2112, "Source Image Sequence"),
    (0x0400_0564, "Source of Previous Values"),
    (0x0008_1010, "Station Name"),
    (0x0020_0200, "Synchronization Frame of Reference UID"),
    (0x0008_0201, "Timezone Offset From UTC"),
    (0x300A_00B2, "Treatment Machine Name"),
    (0x0040_A124, "UID"),
    (0x0018_9371, "X-Ray Detector ID"),
];

// The repeating lines at the ends of their groups, private groups, element 0000, what is written anew, and tags without a row.
const RULES: [(u64, &str); 21] = [
    (0x5000_0005, "Curve Data, first group"),
    (0x50FE_3000, "Curve Data, last group"),
    (0x5100_0005, "past the curves"),
    (0x6000_3000, "Overlay Data, first group"),
    (0x60FE_3000, "Overlay Data, last group"),
    (0x6002_4000, "Overlay Comments"),
    (0x6000_0010, "Overlay Rows"),
    (0x6100_3000, "past the overlays"),
    (0x0009_0010, "private"),
    (0x5001_0005, "private, among the curves"),
    (0x6001_0010, "private, among the overlays"),
    (0xFFFD_0010, "private, the last"),
    (0x0008_0000, "element 0000"),
    (0x7FE0_0000, "element 0000"),
    (0x0012_0062, "Patient Identity Removed"),
    (0x0012_0063, "De-identification Method"),
    (0x0012_0064, "De-identification Method Code Sequence"),
    (0x0028_0303, "Longitudinal Temporal Information Modified"),
    (0x0008_0060, "Modality"),
    (0x7FE0_0010, "Pixel Data"),
    (0xFFFC_FFFD, "past the last row"),
];

pub fn all(rt: &impl Print) -> io::Result<()> {
    println!(rt;
        "tag and name: no option | each option alone, bits 0 to 5 | all but Modified Dates, all but Full Dates | no option, in an item"
    )?;
    let rows = table::rows();
    for (tag, name) in ROWS {
        case(rt, &rows, tag, name)?;
    }
    for (tag, name) in RULES {
        case(rt, &rows, tag, name)?;
    }
    Ok(())
}

// By no option, by each alone, by all but one date option, and in an item.
fn case(rt: &impl Print, rows: &[u64], tag: u64, name: &str) -> io::Result<()>
    requires { rows.now ≡ table }
{
    print!(rt; "({:04X},{:04X}) {name}:", tag >> 16, tag & 0xFFFF)?;
    action(rt, rows, 0, true, tag)?;
    print!(rt; " |")?;
    for options in [1, 2, 4, 8, 16, 32] {
        action(rt, rows, options, true, tag)?;
    }
    print!(rt; " |")?;
    action(rt, rows, 61, true, tag)?;
    action(rt, rows, 62, true, tag)?;
    print!(rt; " |")?;
    action(rt, rows, 0, false, tag)?;
    println!(rt)
}

fn action(rt: &impl Print, rows: &[u64], options: u64, top: bool, tag: u64) -> io::Result<()>
    requires { rows.now ≡ table }
{
    let action = table::action_of(rows, options, top, tag);
    print!(rt; " {}", letter(action))
}

// Document 01's letter for an action; of a C, whether it stands in Modified Dates' column.
fn letter(action: Action) -> &'static str {
    match action {
        Action::Remove => "X",
        Action::Keep => "K",
        Action::Empty => "Z",
        Action::Dummy => "D",
        Action::Rename => "U",
        Action::Clean => "C",
        Action::CleanDates => "C(dates)",
    }
}

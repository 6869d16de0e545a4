// The lookup over the study's list and the site's.
use crate::report;
use std::io;

const STUDY: &[u8] = b"\x90\x80\x40\x06STUDY1\x94\x80\x40\x06STUDY2";

const SITE: &[u8] = b"\x90\x80\x40\x05SITE1\xA0\x80\x40\x05SITE2";

// The study's list has (0010,0010) and (0010,0014), the site's (0010,0010) and (0010,0020): tags in both, in the study's, in the site's;
// in neither: below all, between, above all. Then an empty list before another, and after it.
pub fn all(rt: &impl Print) -> io::Result<()> {
    case(rt, STUDY, SITE, 0x0010_0010)?;
    case(rt, STUDY, SITE, 0x0010_0014)?;
    case(rt, STUDY, SITE, 0x0010_0020)?;
    case(rt, STUDY, SITE, 0x0008_0018)?;
    case(rt, STUDY, SITE, 0x0010_0012)?;
    case(rt, STUDY, SITE, 0x7FE0_0010)?;
    case(rt, b"", b"\x90\x80\x40\x05SITE1", 0x0010_0010)?;
    case(rt, b"\x90\x80\x40\x06STUDY1", b"", 0x0010_0010)
}

fn case<'a>(rt: &impl Print, study: &'a [u8], site: &'a [u8], tag: u64) -> io::Result<()> {
    print!(rt; "lookup of tag {tag:08x}: ")?;
    report::quoted(rt, lists::lookup(study, site, tag))?;
    println!(rt)
}

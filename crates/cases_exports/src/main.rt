// The sample exports of document 01, run through the station. A line says its case and then the report; a second line has the
// output's bytes. What they must say stands in `stdout`, written from document 01 beforehand.
#![tactic(auto)]

mod built;
mod report;
mod samples;

use std::io;

fn main(rt: HostRuntime) -> io::Result<()> {
    samples::names(&rt)?;
    samples::uids(&rt)?;
    samples::dates(&rt)?;
    samples::roots(&rt)?;
    samples::groups(&rt)?;
    built::deep(&rt, "eight items deep", 8)?;
    built::deep(&rt, "nine items deep", 9)?;
    built::many(&rt, "1,000 UIDs", 1000)?;
    built::many(&rt, "1,001 UIDs", 1001)
}

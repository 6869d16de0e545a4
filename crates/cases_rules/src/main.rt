// Cases of document 01's rules outside the shape: dates, UIDs, the ledger, lists, options and the action table. A line says its case and
// then the answer; what it must say stands in `stdout`, written beforehand: the dates by another calendar and by known day counts,
// the options from document 001, the table's letters from the page of document 002, all else from document 01 and the readings.
#![tactic(auto)]

mod choices;
mod date_values;
mod dates;
mod entries;
mod lookups;
mod report;
mod rows;
mod settings;
mod slots;
mod uid_values;
mod uids;

use std::io;

fn main(rt: HostRuntime) -> io::Result<()> {
    dates::all(&rt)?;
    date_values::all(&rt)?;
    uids::all(&rt)?;
    uid_values::all(&rt)?;
    slots::all(&rt)?;
    entries::all(&rt)?;
    lookups::all(&rt)?;
    choices::all(&rt)?;
    settings::all(&rt)?;
    rows::all(&rt)
}

// Shape cases: each refusal 6 to 10 at each of its places, in stated and in undefined containers, the limits of depth, and long
// levels. A case's name is its damage; what it must print stands in `stdout`, written from document 01 and the readings.
#![tactic(auto)]

mod elements;
mod items;
mod pieces;
mod report;
mod wholes;

use std::io;

fn main(rt: HostRuntime) -> io::Result<()> {
    wholes::well_made(&rt)?;
    elements::all(&rt)?;
    items::all(&rt)?;
    wholes::at_the_limits(&rt)?;
    wholes::long(&rt)
}

// The staples of document 01 through the exported calls: what goes over the wire, what comes back, and whether that is right.
#![tactic(auto)]

mod case;
mod long;
mod messages;
mod rising;
mod show;
mod table;
mod target;

use script_lines::output::Output;
use std::io;

fn main(rt: HostRuntime) -> io::Result<()> {
    let mut out = Output::new(io::writer(&rt));
    table::show_table(&mut out)?;
    rising::show_signs(&mut out)?;
    long::show_lengths(&mut out)?;
    out.flush()
}

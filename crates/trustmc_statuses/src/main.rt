//! How `trustmc` ends, status by status: its exit status, and its text. Each run is concluded as the program concludes
//! its own, so that what it says on standard error must not stand in this table.
#![tactic(auto)]

use mc_top::{Status, conclude};
use std::io;

const STATUSES: [Status; 7] = [
    Status::Ended,
    Status::BadWords,
    Status::NoMemory,
    Status::ReadFault,
    Status::WriteFault,
    Status::TooMuch,
    Status::EndedInside,
];

fn main(rt: HostRuntime) -> io::Result<()> {
    for status in STATUSES {
        let code = conclude(&rt, status);
        let text = status.text().unwrap_or("no text");
        println!(rt; "{status:?}: {code:?}: {text}")?;
    }
    Ok(())
}

// Tells where in the hall cells and codes lie: reads a file from standard input and prints a report.

#![tactic(auto)]

mod line;
mod report;
#[cfg(test)]
mod tests;

use report::{MOST_BYTES, report as report_on};
use std::io;
use std::io::Read;

fn main(rt: HostRuntime) -> io::Result<()> {
    let heap = rt.alloc();
    let mut file = Vec::new(heap);
    // one byte more than a file may have, so that a longer one is seen
    rt.stdin()
        .take(MOST_BYTES as u64 + 1)
        .read_to_end(&mut file)?;
    let text = report_on(heap, file.as_slice())?;
    rt.print(text.as_str())
}

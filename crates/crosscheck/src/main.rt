// Compares the planner with a second, independent implementation, on a few known cases and on networks drawn from seeds, and the
// reading of sheets with a second reader; prints what was compared and every difference.
#![tactic(auto)]

mod cases;
mod comparing;
mod draws;
mod report;
mod runs;
mod second;
mod sheets;
mod tasks;

use crate::cases::print_cases;
use crate::comparing::compare_network;
use crate::report::Report;
use crate::sheets::compare_sheets;
use std::io;

const NETWORKS: u32 = 5_000;

fn main(rt: HostRuntime) -> io::Result<()> {
    let mut report = Report::new(rt.alloc());
    print_cases(&rt, &mut report)?;
    for seed in 0..NETWORKS {
        compare_network(rt.alloc(), seed, &mut report)?;
    }
    report.print(&rt)?;
    compare_sheets(&rt)
}

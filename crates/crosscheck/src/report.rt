// What was compared: how many of each kind, and every difference.
ghost use Rattle.std.specs.Prelude.{◌≡◌, ◌+◌, ◌-◌, ◌^◌, min, OnOk};
ghost use Rattle.crosscheck.specs.Counts.{counted, dearer_by, noted, Nothing, SameCounts};

use crate::second::delay_of;
use crate::tasks::*;
use network::legs::Leg;
use network::refusals::Stop;
use search::record::*;
use std::alloc::{AllocError, Global};
use std::io;

// A difference, and the seed of the network in which it showed.
#[derive(Clone, Copy, PartialEq, Debug)]
pub struct Finding {
    pub seed: u32,
    pub what: Difference,
}

// How many searches came to what.
#[derive(Clone, Copy, Default)]
pub struct Standings {
    found: usize,
    exhausted: usize,
    out_of_labels: usize,
    out_of_entries: usize,
    open: usize,
}

// How many searches ran with each queue.
#[derive(Clone, Copy, Default)]
pub struct ByQueue {
    pub heap: usize,
    pub row: usize,
}

// How many routes are dearer for the limit than the cheapest walk; how many legs lead from a site to itself, take no time or
// have a handover delay; and how many pairs of legs have the same ends.
#[derive(Clone, Copy, Default)]
pub struct Shapes {
    dearer: usize,
    loops: usize,
    instant: usize,
    handovers: usize,
    parallel: usize,
}

// How many networks, tables of reach, searches and pairs of searches were compared, of what kinds, and what differed.
#[derive(Drop)]
pub struct Report {
    pub networks: usize,
    pub tables: usize,
    pub searches: usize,
    pub pairs: usize,
    pub by_queue: ByQueue,
    pub standings: Standings,
    pub shapes: Shapes,
    pub findings: Vec<Finding>,
}

// Counts so many more.
pub(crate) fn count(tally: &mut usize, more: usize)
    ensures { tally.new ≡ min (tally.old + more) (2 ^ 64 - 1) }
{
    *tally = tally.saturating_add(more);
}

impl Standings {
    pub(crate) fn add(&mut self, standing: Standing)
        ensures { self.new ≡ counted self.old standing }
    {
        match standing {
            Standing::Found(_) => count(&mut self.found, 1),
            Standing::Exhausted => count(&mut self.exhausted, 1),
            Standing::Stopped(Stop::LabelsUsed) => count(&mut self.out_of_labels, 1),
            Standing::Stopped(Stop::QueueFull) => count(&mut self.out_of_entries, 1),
            Standing::Open => count(&mut self.open, 1),
            Standing::Fresh | Standing::Stopped(Stop::Outside) => {}
        }
    }

    fn print(&self, rt: &impl Print) -> io::Result<()> {
        print_kind(rt, "found", self.found)?;
        print_kind(rt, "none", self.exhausted)?;
        print_kind(rt, "stopped for labels", self.out_of_labels)?;
        print_kind(rt, "stopped for entries", self.out_of_entries)?;
        print_kind(rt, "open", self.open)
    }
}

impl ByQueue {
    fn print(&self, rt: &impl Print) -> io::Result<()> {
        print_kind(rt, "searches with a heap", self.heap)?;
        print_kind(rt, "searches with a row", self.row)
    }
}

impl Shapes {
    pub(crate) fn add_route(&mut self, cost: u64, without_limit: u64)
        ensures { self.new ≡ dearer_by cost without_limit self.old }
    {
        if cost > without_limit {
            count(&mut self.dearer, 1);
        }
    }

    pub(crate) fn add_legs(&mut self, legs: &[Leg]) {
        let loops = legs.iter().filter(|leg| leg.tail == leg.head);
        let instant = legs.iter().filter(|leg| delay_of(leg) == 0);
        let handovers = legs.iter().filter(|leg| leg.medium > 0);
        count(&mut self.loops, loops.count());
        count(&mut self.instant, instant.count());
        count(&mut self.handovers, handovers.count());
        for (i, leg) in legs.iter().enumerate() {
            let same_ends = |other: &&Leg| (other.tail, other.head) == (leg.tail, leg.head);
            count(
                &mut self.parallel,
                legs[..i].iter().filter(same_ends).count(),
            );
        }
    }

    fn print(&self, rt: &impl Print) -> io::Result<()> {
        print_kind(rt, "dearer for the limit", self.dearer)?;
        print_kind(rt, "legs from a site to itself", self.loops)?;
        print_kind(rt, "legs that take no time", self.instant)?;
        print_kind(rt, "legs with a handover delay", self.handovers)?;
        print_kind(rt, "pairs of parallel legs", self.parallel)
    }
}

// How often a kind was met.
fn print_kind(rt: &impl Print, kind: &str, count: usize) -> io::Result<()> {
    println!(rt; "{kind},{count}")
}

impl Report {
    pub(crate) fn new(heap: Global) -> Report
        ensures { Nothing result }
    {
        Report {
            networks: 0,
            tables: 0,
            searches: 0,
            pairs: 0,
            by_queue: ByQueue::default(),
            standings: Standings::default(),
            shapes: Shapes::default(),
            findings: Vec::new(heap),
        }
    }

    // Notes a difference, if there is one.
    pub(crate) fn note(
        &mut self,
        seed: u32,
        checked: Result<(), Difference>,
    ) -> Result<(), AllocError>
        ensures noted { OnOk result (self.new.findings.items ≡ noted self.old.findings.items seed checked) }
        ensures counts { SameCounts self.old self.new }
    {
        if let Err(what) = checked {
            self.findings.push(Finding { seed, what })?;
        }
        Ok(())
    }

    // Prints what was compared, how often each kind was met, and every difference.
    pub(crate) fn print(&self, rt: &impl Print) -> io::Result<()> {
        let Report {
            networks,
            tables,
            searches,
            pairs,
            ..
        } = self;
        println!(rt; "networks,{networks}\nreach,{tables}\nsearches,{searches}\nqueues,{pairs}")?;
        self.by_queue.print(rt)?;
        self.standings.print(rt)?;
        self.shapes.print(rt)?;
        print_findings(rt, &self.findings)
    }
}

// Each difference with its seed, and their number.
fn print_findings(rt: &impl Print, findings: &[Finding]) -> io::Result<()> {
    for Finding { seed, what } in findings {
        println!(rt; "difference,{seed},{what:?}")?;
    }
    let count = findings.len();
    println!(rt; "differences,{count}")
}

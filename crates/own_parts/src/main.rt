// A tariff and an estimate of one's own in the planner and the search, on network A of docs/FIGURES.md. docs/EXTENDING.md goes
// through it.
#![tactic(auto)]

mod estimate;
mod searching;
mod tariff;

use crate::searching::*;
use figures::network_a::{legs_a, network_a};
use network::plans::Plan;
use network::refusals::{Place, Refusal};
use planner::desk::Desk;
use planner::tally::Tally;
use promise::calls::*;
use queues::heap::Heap;
use search::record::*;
use std::io;
use worksheet::records::*;

// How many label records and entries a search has; far more than these need.
const ROOM: usize = 64;

// Plans a route from 0 to 3 within 9 microseconds by fee and grade, and prints it.
fn print_plan(rt: &(impl Print + AllocGlobal)) -> io::Result<()> {
    let network = network_a();
    let table = legs_a();
    let plan = Plan {
        broker: 7,
        start: 0,
        goal: 3,
        limit: 9,
    };
    let mut desk = Desk::new(rt.alloc(), 4, ROOM)?;
    let verdict = serve_graded(plan, &network, &table, &mut desk, &mut Tally::new());
    let legs = desk.route(rt.alloc(), &network, &table)?;
    match verdict {
        Ok(verdict) => print_route(rt, "from 0 to 3", verdict, &legs),
        Err(why) => print_refusal(rt, "from 0 to 3", &why),
    }
}

// What was found, with its legs.
fn print_route(rt: &impl Print, name: &str, verdict: Verdict, legs: &[u16]) -> io::Result<()> {
    let Verdict { standing, steps } = verdict;
    let Standing::Found(Mark { cost, delay }) = standing else {
        return println!(rt; "{name}: none in {steps} steps");
    };
    println!(rt; "{name}: cost {cost}, delay {delay}, legs {legs:?}, in {steps} steps")
}

// Why an open was refused, and at which leg.
fn print_refusal(rt: &impl Print, name: &str, why: &Refusal) -> io::Result<()> {
    let number = why.number();
    match why.place() {
        Some(Place::Leg(leg)) => println!(rt; "{name}: refused by {number}, at leg {leg}"),
        _ => println!(rt; "{name}: refused by {number}"),
    }
}

// What a call was answered: a refused open, or a route that was traced.
fn print_event(rt: &impl Print, name: &str, event: &Event) -> io::Result<()> {
    match &event.answer {
        Answer::Opened(Err(why)) => print_refusal(rt, name, why),
        Answer::Traced(Ok(legs)) => print_route(rt, name, event.after, legs),
        _ => Ok(()),
    }
}

// Searches from 0 to 1 within 9 microseconds outside a region, and prints what it comes to.
fn print_search(rt: &(impl Print + AllocGlobal), name: &str, region: &[u16]) -> io::Result<()> {
    let heap = rt.alloc();
    let query = Query {
        start: 0,
        goal: 1,
        limit: 9,
    };
    let buffer = vec![in heap; 0; ROOM]?;
    let requests = vec![in heap;
        Request::Open(query),
        Request::Advance(50),
        Request::Trace(buffer),
    ]?;
    let mut labels = vec![in heap; Label::default(); ROOM]?;
    let mut least = [0; 4];
    let mut queue = Heap::new(heap, ROOM)?;
    let mut events = Vec::new(heap);
    search_outside(
        requests,
        &network_a(),
        &legs_a(),
        region,
        &mut labels,
        &mut least,
        &mut queue,
        &mut events,
    )?;
    for event in &events {
        print_event(rt, name, event)?;
    }
    Ok(())
}

fn main(rt: HostRuntime) -> io::Result<()> {
    print_plan(&rt)?;
    print_search(&rt, "from 0 to 1, nothing cut off", &[])?;
    print_search(&rt, "from 0 to 1, sites 2 and 3 cut off", &[2, 3])?;
    print_search(&rt, "from 0 to 1, site 2 cut off", &[2])?;
    print_search(&rt, "from 0 to 1, site 1 cut off", &[1])
}

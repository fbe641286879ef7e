// Known cases, each of which tells a wrong reading of the problem from the right one.
ghost use Rattle.std.specs.Prelude.{OnOk};
ghost use Rattle.crosscheck.specs.Tellings.{Told};

use crate::draws::Question;
use crate::report::Report;
use crate::runs::*;
use crate::second::Rate;
use crate::tasks::Task;
use figures::network_a::{leg, legs_a, network_a};
use network::estimates::*;
use network::legs::*;
use network::tariffs::*;
use queues::heap::Heap;
use search::record::*;
use std::alloc::{AllocError, Global};
use std::io;
use worksheet::records::*;

// Network A: routes from 0 to 3 by 1 (fee 4, delay 9), by 2 (fee 5, delay 3) and straight (fee 9, delay 1).
pub(crate) fn four_sites(heap: Global, limit: u32) -> Result<Question, AllocError> {
    Ok(Question {
        network: network_a(),
        legs: Vec::from_array(heap, legs_a())?,
        query: Query {
            start: 0,
            goal: 3,
            limit,
        },
    })
}

// Two legs from 0 to 1, one cheaper and one sooner, and one from 1 to 2: by the cheaper a route takes 5.
fn cheaper_or_sooner(heap: Global) -> Result<Question, AllocError> {
    let legs = vec![in heap; leg(0, 1, 1, 0, 3), leg(0, 1, 3, 0, 1), leg(1, 2, 1, 0, 2)]?;
    Ok(Question {
        network: Network { sites: 3, legs: 3 },
        legs,
        query: Query {
            start: 0,
            goal: 2,
            limit: 4,
        },
    })
}

// What a case's search came to.
fn print_route(rt: &impl Print, name: &str, outcome: &Outcome) -> io::Result<()> {
    let Standing::Found(Mark { cost, delay }) = outcome.verdict.standing else {
        return println!(rt; "case,{name},not found");
    };
    let route = &outcome.route;
    println!(rt; "case,{name},cost {cost},delay {delay},legs {route:?}")
}

// Notes where a case's search differs from the second implementation, and prints the route.
fn print_case(
    rt: &impl Print,
    name: &str,
    task: &Task,
    means: Means,
    outcome: &Outcome,
    report: &mut Report,
) -> io::Result<()>
    ensures told { OnOk result (Told task.now means outcome.now report.old.findings.items report.new.findings.items) }
{
    report.note(task.seed, task.check(means, outcome))?;
    print_route(rt, name, outcome)
}

// Plans a case by total fee with the blank estimate, and compares what that comes to.
fn run_case(
    rt: &(impl Print + AllocGlobal),
    name: &str,
    question: &Question,
    report: &mut Report,
) -> io::Result<()> {
    let means = question.enough();
    let heap = rt.alloc();
    let mut queue = Heap::new(heap, means.entries)?;
    let outcome = run(heap, question, means, &mut queue, &TotalFee, &Blank)?;
    let task = Task::new(heap, 0, question, Rate::Fees)?;
    print_case(rt, name, &task, means, &outcome, report)
}

// All cases. Were the delay counted from after the first leg, the first would take legs 0 and 1; with one label for each site,
// the second would find none; ended when a label at the goal is written, the third would take leg 4.
pub(crate) fn print_cases(rt: &(impl Print + AllocGlobal), report: &mut Report) -> io::Result<()> {
    let heap = rt.alloc();
    run_case(
        rt,
        "the first leg's delay counts",
        &four_sites(heap, 8)?,
        report,
    )?;
    run_case(
        rt,
        "a site has several labels",
        &cheaper_or_sooner(heap)?,
        report,
    )?;
    run_case(
        rt,
        "a label at the goal waits",
        &four_sites(heap, 9)?,
        report,
    )
}

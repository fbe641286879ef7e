// The comparisons of one network.
ghost use Rattle.std.specs.Prelude.{◌≡◌, OnOk};
ghost use Rattle.crosscheck.specs.Counts.{counted, noted, one_more, with_heap, with_row, SameCounts};
ghost use Rattle.crosscheck.specs.declared.report.ByQueue.{ByQueue};
ghost use Rattle.crosscheck.specs.Tellings.{Told, PairTold, TablesTold};

use crate::draws::*;
use crate::report::*;
use crate::runs::*;
use crate::second::*;
use crate::tasks::*;
use network::estimates::*;
use network::tariffs::*;
use queue::interface::Queue;
use queues::heap::Heap;
use queues::row::Row;
use reach::tables::reach;
use search::record::*;
use std::alloc::{AllocError, Global};

// What one network's searches are given: just enough; few label records; a small queue; and few steps, in several advances.
fn drawn_means(draws: &mut Draws, question: &Question) -> [Means; 4] {
    let enough = question.enough();
    [
        enough,
        Means {
            labels: usize::from(draws.up_to(4)) + 1,
            ..enough
        },
        Means {
            entries: usize::from(draws.up_to(2)) + 1,
            ..enough
        },
        Means {
            advances: draws.up_to(3) + 1,
            allowance: u32::from(draws.up_to(2)) + 1,
            ..enough
        },
    ]
}

// A queue that is counted by its type.
trait Tallied: Queue {
    ghost tallied: { ByQueue → ByQueue };

    fn tally(by_queue: &mut ByQueue)
        ensures { by_queue.new ≡ tallied by_queue.old };
}

impl Tallied for Heap {
    ghost tallied = { with_heap };

    fn tally(by_queue: &mut ByQueue) {
        count(&mut by_queue.heap, 1)
    }
}

impl Tallied for Row {
    ghost tallied = { with_row };

    fn tally(by_queue: &mut ByQueue) {
        count(&mut by_queue.row, 1)
    }
}

// The comparisons of a task, which a report counts.
#[derive(Drop)]
struct Comparison<'a> {
    heap: Global,
    task: Task<'a>,
    report: &'a mut Report,
}

impl Comparison<'_> {
    // Notes a difference, if there is one.
    fn note(&mut self, checked: Result<(), Difference>) -> Result<(), AllocError>
        ensures noted { OnOk result (self.new.report.now.findings.items ≡ noted self.old.report.now.findings.items self.old.task.seed checked) }
        ensures counts { SameCounts self.old.report.now self.new.report.now }
        ensures same_task { self.new.task ≡ self.old.task }
    {
        self.report.note(self.task.seed, checked)
    }

    // Compares what a search came to.
    fn search(&mut self, means: Means, outcome: &Outcome) -> Result<(), AllocError>
        ensures told { OnOk result (Told self.old.task means outcome.now self.old.report.now.findings.items self.new.report.now.findings.items) }
        ensures counted { OnOk result (self.new.report.now.searches ≡ one_more self.old.report.now.searches) }
        ensures by_standing { OnOk result (self.new.report.now.standings ≡ counted self.old.report.now.standings outcome.now.verdict.standing) }
        ensures same_pairs { self.new.report.now.pairs ≡ self.old.report.now.pairs }
        ensures same_queues { self.new.report.now.by_queue ≡ self.old.report.now.by_queue }
        ensures same_task { self.new.task ≡ self.old.task }
    {
        let task = self.task;
        count(&mut self.report.searches, 1);
        self.report.standings.add(outcome.verdict.standing);
        self.note(task.check(means, outcome))
    }

    // Compares what a search came to with the one queue and with the other.
    fn queues(&mut self, means: Means, one: &Outcome, other: &Outcome) -> Result<(), AllocError>
        ensures told { OnOk result (PairTold self.old.task means one.now other.now self.old.report.now.findings.items self.new.report.now.findings.items) }
        ensures counted { OnOk result (self.new.report.now.pairs ≡ one_more self.old.report.now.pairs) }
        ensures same_queues { self.new.report.now.by_queue ≡ self.old.report.now.by_queue }
        ensures same_task { self.new.task ≡ self.old.task }
    {
        self.search(means, one)?;
        self.search(means, other)?;
        let agree = one.verdict == other.verdict && one.route == other.route;
        count(&mut self.report.pairs, 1);
        self.note(ensure(agree, Difference::Queues))
    }

    // Runs a search with a queue, which is counted.
    fn run_with<Q: Tallied, T: Tariff, E: Estimate>(
        &mut self,
        means: Means,
        queue: &mut Q,
        tariff: &T,
        estimate: &E,
    ) -> Result<Outcome, AllocError>
        ensures tallied { self.new.report.now.by_queue ≡ Q.tallied self.old.report.now.by_queue }
    {
        Q::tally(&mut self.report.by_queue);
        run(
            self.heap,
            self.task.question,
            means,
            queue,
            tariff,
            estimate,
        )
    }

    // Compares the search by one means with each queue: a binary heap, and a sorted row.
    fn pair<T: Tariff, E: Estimate>(
        &mut self,
        means: Means,
        tariff: &T,
        estimate: &E,
    ) -> Result<(), AllocError>
        ensures each_queue { OnOk result (self.new.report.now.by_queue ≡ with_row (with_heap self.old.report.now.by_queue)) }
    {
        let mut binary = Heap::new(self.heap, means.entries)?;
        let mut sorted = Row::new(self.heap, means.entries)?;
        let one = self.run_with(means, &mut binary, tariff, estimate)?;
        let other = self.run_with(means, &mut sorted, tariff, estimate)?;
        self.queues(means, &one, &other)
    }

    // Compares the searches with one estimate, by each means.
    fn searches<T: Tariff, E: Estimate>(
        &mut self,
        means: &[Means],
        tariff: &T,
        estimate: &E,
    ) -> Result<(), AllocError> {
        for means in means {
            self.pair(*means, tariff, estimate)?;
        }
        Ok(())
    }

    // Notes whether the route is dearer for the limit.
    fn route(&mut self, nearest: &Nearest) {
        let start = usize::from(self.task.question.query.start);
        if let (Some(route), Some(cost)) = (self.task.cheapest, nearest.costs.get(start)) {
            self.report.shapes.add_route(route.cost, *cost);
        }
    }

    // Compares reach's tables.
    fn tables(&mut self, nearest: &Nearest, tables: &Reached) -> Result<(), AllocError>
        ensures told { OnOk result (TablesTold self.old.task nearest.now tables.now self.old.report.now.findings.items self.new.report.now.findings.items) }
        ensures counted { OnOk result (self.new.report.now.tables ≡ one_more self.old.report.now.tables) }
    {
        count(&mut self.report.tables, 1);
        self.note(nearest.check(tables))
    }

    // Compares reach's tables and all searches under one tariff, which is the task's rate.
    fn tariff<T: Tariff>(&mut self, means: &[Means], tariff: &T) -> Result<(), AllocError> {
        let question = self.task.question;
        let goal = question.query.goal;
        let mut costs = vec![in self.heap; 1; question.sites()]?;
        let mut delays = vec![in self.heap; 1; question.sites()]?;
        let _ = reach(
            &question.network,
            &question.legs,
            tariff,
            goal,
            &mut costs,
            &mut delays,
        );
        let reached = Reached {
            costs: &costs,
            delays: &delays,
        };
        let nearest = self.task.nearest(self.heap)?;
        self.route(&nearest);
        self.tables(&nearest, &reached)?;
        self.searches(means, tariff, &Blank)?;
        self.searches(means, tariff, &reached)
    }
}

// Compares everything for the network of a seed.
pub(crate) fn compare_network(
    heap: Global,
    seed: u32,
    report: &mut Report,
) -> Result<(), AllocError> {
    let mut draws = Draws::new(seed);
    let question = draws.question(heap)?;
    let means = drawn_means(&mut draws, &question);
    let mut by_fees = Comparison {
        heap,
        task: Task::new(heap, seed, &question, Rate::Fees)?,
        report,
    };
    by_fees.tariff(&means, &TotalFee)?;
    let mut by_grades = Comparison {
        heap,
        task: Task::new(heap, seed, &question, Rate::Grades)?,
        report,
    };
    by_grades.tariff(&means, &WorstGrade)?;
    count(&mut report.networks, 1);
    report.shapes.add_legs(&question.legs);
    Ok(())
}

#[cfg(test)]
mod tests {
    use super::*;
    use crate::cases::four_sites;
    use std::test::Fail;

    // A finding in the network of seed 7.
    fn finding(what: Difference) -> Finding {
        Finding { seed: 7, what }
    }

    // Reach's tables for network A and site 3 are told apart from tables with one record changed, and from longer ones.
    #[test]
    fn changed_record(rt: HostRuntime) -> Result<(), Fail> {
        let heap = rt.alloc();
        let question = four_sites(heap, 9)?;
        let mut report = Report::new(heap);
        let task = Task::new(heap, 7, &question, Rate::Fees)?;
        let nearest = task.nearest(heap)?;
        let mut comparison = Comparison {
            heap,
            task,
            report: &mut report,
        };
        let right = Reached {
            costs: &[4, 2, 1, 0],
            delays: &[1, 5, 2, 0],
        };
        let cost = [4, 2, 2, 0];
        let delay = [0, 5, 2, 0];
        let longer = [1, 5, 2, 0, 0];
        comparison.tables(&nearest, &right)?;
        comparison.tables(
            &nearest,
            &Reached {
                costs: &cost,
                ..right
            },
        )?;
        comparison.tables(
            &nearest,
            &Reached {
                delays: &delay,
                ..right
            },
        )?;
        comparison.tables(
            &nearest,
            &Reached {
                delays: &longer,
                ..right
            },
        )?;
        let findings = [finding(Difference::Reach); 3];
        assert!(rt; &*report.findings == findings.as_slice());
        Ok(())
    }

    // Compares what a search came to with what a task should come to.
    fn compare(
        heap: Global,
        task: Task,
        means: Means,
        outcome: &Outcome,
        report: &mut Report,
    ) -> Result<(), AllocError> {
        let mut comparison = Comparison { heap, task, report };
        comparison.search(means, outcome)
    }

    // A search is told apart from another cheapest route, and from a route that is not its own.
    #[test]
    fn wrong_cheapest_and_foreign_route(rt: HostRuntime) -> Result<(), Fail> {
        let heap = rt.alloc();
        let question = four_sites(heap, 9)?;
        let means = question.enough();
        let mut report = Report::new(heap);
        let task = Task::new(heap, 7, &question, Rate::Fees)?;
        let mut queue = Heap::new(heap, means.entries)?;
        let mut outcome = run(heap, &question, means, &mut queue, &TotalFee, &Blank)?;
        let cheaper = Task {
            cheapest: Some(Figures { cost: 3, delay: 9 }),
            ..task
        };
        let cut_off = Task {
            cheapest: None,
            ..task
        };
        compare(heap, task, means, &outcome, &mut report)?;
        compare(heap, cheaper, means, &outcome, &mut report)?;
        compare(heap, cut_off, means, &outcome, &mut report)?;
        outcome.route = vec![in heap; 2, 3]?;
        compare(heap, task, means, &outcome, &mut report)?;
        let findings = [
            finding(Difference::Figures),
            finding(Difference::Invented),
            finding(Difference::Route),
        ];
        assert!(rt; &*report.findings == findings.as_slice());
        Ok(())
    }
}

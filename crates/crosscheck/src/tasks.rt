// What a search for a question should come to, and where it differs.
ghost use Rattle.std.specs.Prelude.{◌≡◌, true, if◌then◌else◌, Ok, Err, OkIff, OnOk};
ghost use Rattle.crosscheck.specs.Agreement.{figures_of, Agrees, MayStop, RouteAgrees, TablesAgree};

use crate::draws::Question;
use crate::runs::*;
use crate::second::*;
use network::estimates::Reached;
use network::refusals::Stop;
use search::record::*;
use std::alloc::{AllocError, Global};
use worksheet::records::*;

// What reach writes for a site that is cut off.
const CUT_OFF: Figures = Figures {
    cost: u64::MAX,
    delay: u32::MAX as u64,
};

// What differed.
#[derive(Clone, Copy, PartialEq, Debug)]
pub enum Difference {
    // The search was refused.
    Refused,
    // A route was found where there is none.
    Invented,
    // No route was found where there is one.
    Missed,
    // The route has another cost or delay than the cheapest.
    Figures,
    // The traced legs are no walk from start to goal with these figures.
    Route,
    // The search was stopped in room that is enough, or outside its tables.
    Stopped,
    // The search is open after steps that are enough, or before it made the steps that were allowed.
    Open,
    // The steps are not those that the advances answered, or are more than were allowed.
    Steps,
    // The two queues led to another verdict or route.
    Queues,
    // A record of reach is not the least over all walks.
    Reach,
}

// Fails by the difference, unless all is as it should be.
pub(crate) fn ensure(agrees: bool, difference: Difference) -> Result<(), Difference>
    ensures { result ≡ (if agrees then Ok tt else Err difference) }
{
    if agrees { Ok(()) } else { Err(difference) }
}

impl From<Mark> for Figures {
    fn from(mark: Mark) -> Figures
        ensures { result ≡ figures_of mark }
    {
        Figures {
            cost: mark.cost,
            delay: u64::from(mark.delay),
        }
    }
}

// A question, its network under a rate, the seed that they were drawn from, and what its cheapest route comes to by the second
// implementation.
#[derive(Clone, Copy)]
pub struct Task<'a> {
    pub seed: u32,
    pub question: &'a Question,
    pub graph: Graph<'a>,
    pub cheapest: Option<Figures>,
}

// What reach should write of each site: what its walks to the goal cost and, by itself, take at the least.
#[derive(Drop)]
pub struct Nearest {
    pub costs: Vec<u64>,
    pub delays: Vec<u32>,
}

impl Nearest {
    // Fails unless reach's records are these, every one.
    pub(crate) fn check(&self, tables: &Reached) -> Result<(), Difference>
        ensures { OkIff result (TablesAgree self.now tables.now) tt }
    {
        let agree = *self.costs == *tables.costs && *self.delays == *tables.delays;
        ensure(agree, Difference::Reach)
    }
}

impl<'a> Task<'a> {
    pub(crate) fn new(
        heap: Global,
        seed: u32,
        question: &'a Question,
        rate: Rate,
    ) -> Result<Task<'a>, AllocError> {
        let Query { start, goal, limit } = question.query;
        let graph = Graph {
            sites: question.network.sites,
            legs: &question.legs,
            rate,
        };
        let cheapest = graph.cheapest_within(heap, start, goal, limit)?;
        Ok(Task {
            seed,
            question,
            graph,
            cheapest,
        })
    }

    // What reach should write, whatever the limit.
    pub(crate) fn nearest(&self, heap: Global) -> Result<Nearest, AllocError> {
        let goal = self.question.query.goal;
        let mut costs = Vec::new(heap);
        let mut delays = Vec::new(heap);
        for site in 0..self.graph.sites {
            let least = self.graph.nearest(heap, site, goal)?.unwrap_or(CUT_OFF);
            costs.push(least.cost)?;
            delays.push(u32::try_from(least.delay).unwrap_or(u32::MAX))?;
        }
        Ok(Nearest { costs, delays })
    }

    // Fails by the first difference in a route that was found.
    fn check_route(&self, mark: Mark, route: &[u16]) -> Result<(), Difference>
        ensures { OnOk result (RouteAgrees self.now mark route.now) }
    {
        let cheapest = self.cheapest.ok_or(Difference::Invented)?;
        let found = Figures::from(mark);
        ensure(found == cheapest, Difference::Figures)?;
        let Query { start, goal, .. } = self.question.query;
        let walk = self.graph.walk_figures(route, start, goal);
        ensure(walk == Some(found), Difference::Route)
    }

    // Room that is not enough is a reason to stop.
    fn may_stop(&self, means: Means, why: Stop) -> bool
        ensures { result ≡ true → MayStop self.now.question.now means why }
    {
        match why {
            Stop::Outside => false,
            Stop::LabelsUsed => means.labels < self.question.enough_room(),
            Stop::QueueFull => means.entries < self.question.enough_room(),
        }
    }

    // Fails by the first difference in what a search came to.
    pub(crate) fn check(&self, means: Means, outcome: &Outcome) -> Result<(), Difference>
        ensures { OnOk result (Agrees self.now means outcome.now) }
    {
        let steps = outcome.verdict.steps;
        let allowed = means.allowed();
        ensure(
            outcome.answered == steps && steps <= allowed,
            Difference::Steps,
        )?;
        match outcome.verdict.standing {
            Standing::Fresh => Err(Difference::Refused),
            Standing::Found(mark) => self.check_route(mark, &outcome.route),
            Standing::Exhausted => ensure(self.cheapest.is_none(), Difference::Missed),
            Standing::Stopped(why) => ensure(self.may_stop(means, why), Difference::Stopped),
            Standing::Open => ensure(
                steps == allowed && allowed < self.question.enough_steps(),
                Difference::Open,
            ),
        }
    }
}

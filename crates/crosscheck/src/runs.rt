// The planner, run on a question with given means.
ghost use Rattle.std.specs.Prelude.{◌≡◌, ◌-◌, ◌^◌, min};
ghost use Rattle.crosscheck.specs.Agreement.{allowed, enough_room, enough_steps};

use crate::draws::Question;
use network::estimates::Estimate;
use network::tariffs::Tariff;
use queue::interface::Queue;
use search::record::*;
use std::alloc::{AllocError, Global};
use worksheet::records::*;

// What a search is given: label records, the queue's capacity, and so many advances with the same allowance.
#[derive(Clone, Copy)]
pub struct Means {
    pub labels: usize,
    pub entries: usize,
    pub advances: u16,
    pub allowance: u32,
}

// What a search came to, how many steps its advances answered, and the legs of its route.
#[derive(Drop)]
pub struct Outcome {
    pub verdict: Verdict,
    pub answered: u64,
    pub route: Vec<u16>,
}

impl Question {
    pub(crate) fn sites(&self) -> usize
        ensures { result ≡ self.now.network.sites }
    {
        usize::from(self.network.sites)
    }

    // With so many label records and entries a search is never stopped.
    pub(crate) fn enough_room(&self) -> usize
        ensures { result ≡ enough_room self.now }
    {
        1 + usize::from(self.network.legs) * (self.query.limit as usize + 1)
    }

    // With so many steps allowed a search has ended.
    pub(crate) fn enough_steps(&self) -> u64
        ensures { result ≡ enough_steps self.now }
    {
        2 + u64::from(self.network.legs) * (u64::from(self.query.limit) + 1)
    }

    // Just the room and the steps that are enough.
    pub(crate) fn enough(&self) -> Means
        ensures { result ≡ record { labels = enough_room self.now; entries = enough_room self.now; advances = 1; allowance = min (enough_steps self.now) (2 ^ 32 - 1) } }
    {
        let room = self.enough_room();
        Means {
            labels: room,
            entries: room,
            advances: 1,
            allowance: u32::try_from(self.enough_steps()).unwrap_or(u32::MAX),
        }
    }
}

impl Means {
    // The steps allowed in all.
    pub(crate) fn allowed(&self) -> u64
        ensures { result ≡ allowed self.now }
    {
        u64::from(self.advances) * u64::from(self.allowance)
    }
}

// Opens a search for the question, advances it as the means allow, and answers how many steps the advances answered.
fn advanced<Q: Queue, T: Tariff, E: Estimate>(
    search: &mut Search,
    question: &Question,
    means: Means,
    labels: &mut [Label],
    least: &mut [u32],
    queue: &mut Q,
    tariff: &T,
    estimate: &E,
) -> u64 {
    let network = &question.network;
    let table = &question.legs;
    let query = question.query;
    let _ = search.open(
        query, network, table, labels, least, queue, tariff, estimate,
    );
    let allowance = means.allowance;
    let mut answered = 0u64;
    for _ in 0..means.advances {
        let made = search.advance(
            allowance, network, table, labels, least, queue, tariff, estimate,
        );
        answered = answered.saturating_add(u64::from(made.unwrap_or(0)));
    }
    answered
}

// What a search for the question comes to, on records that hold something else before.
pub(crate) fn run<Q: Queue, T: Tariff, E: Estimate>(
    heap: Global,
    question: &Question,
    means: Means,
    queue: &mut Q,
    tariff: &T,
    estimate: &E,
) -> Result<Outcome, AllocError> {
    let used = Label {
        mark: Mark { cost: 1, delay: 1 },
        site: 9,
        from: None,
    };
    let mut labels = vec![in heap; used; means.labels]?;
    let mut least = vec![in heap; 0; question.sites()]?;
    let mut route = vec![in heap; 0; means.labels]?;
    let mut search = Search::new();
    let answered = advanced(
        &mut search,
        question,
        means,
        &mut labels,
        &mut least,
        queue,
        tariff,
        estimate,
    );
    let traced = search.trace(&question.network, &question.legs, &labels, &mut route);
    route.truncate(traced.unwrap_or(0));
    Ok(Outcome {
        verdict: search.verdict(),
        answered,
        route,
    })
}

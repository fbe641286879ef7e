// A desk: all that serving a plan writes to, but the tally.
ghost use Rattle.std.specs.Prelude.{◌≡◌, length, IfOk};
ghost use Rattle.search.specs.Record.{fresh};
ghost use Rattle.planner.specs.Serves.{ground, Serves};
ghost use Rattle.planner.specs.Fulfils.{Fulfils};

use crate::serving::serve;
use crate::tally::Tally;
use network::legs::*;
use network::limits::MOST_LABELS;
use network::plans::Plan;
use network::refusals::Refusal;
use network::tariffs::Tariff;
use queues::heap::Heap;
use search::record::*;
use std::alloc::{AllocError, Global};
use worksheet::records::*;

// Tables for so many sites, label records, a queue for as many entries, and the record of the search.
#[derive(Drop)]
pub struct Desk {
    costs: Vec<u64>,
    delays: Vec<u32>,
    least: Vec<u32>,
    labels: Vec<Label>,
    queue: Heap,
    search: Search,
    pub ghost all_delays: { length delays.items ≡ length costs.items },
    pub ghost all_least: { length least.items ≡ length costs.items },
    pub ghost entries: { length labels.items ≡ queue.most },
}

// More label records than a search takes; it refuses any such number alike.
const TOO_MANY: usize = MOST_LABELS + 1;

impl Desk {
    ghost use Rattle.planner.specs.Desks.{desk_of, granted, GrantedIsEnough, made, room, sites, search_at, legs_at};

    // A desk at which nothing was done: tables for so many sites, so many label records, but no more than one beyond what a search
    // takes, and room for as many entries. It is made where it stays: a desk that is handed on is a large record to copy.
    #[inline(always)]
    pub fn new(heap: Global, sites: usize, labels: usize) -> Result<Desk, AllocError>
        ensures room { IfOk result (λ d. room d ≡ granted labels) }
        ensures search { IfOk result (λ d. search_at d ≡ fresh) }
        ensures made { IfOk result (λ d. (t : Tally) → desk_of d t ≡ made sites (granted labels) t) }
        ensures granted_is_enough { GrantedIsEnough labels }
    {
        let labels = labels.min(TOO_MANY);
        Ok(Desk {
            costs: Vec::from_elem(heap, 0, sites)?,
            delays: Vec::from_elem(heap, 0, sites)?,
            least: Vec::from_elem(heap, 0, sites)?,
            labels: Vec::from_elem(heap, Label::default(), labels)?,
            queue: Heap::new(heap, labels)?,
            search: Search::new(),
        })
    }

    // Serves a plan, with this tally beside the desk.
    pub fn serve<T: Tariff>(
        &mut self,
        plan: Plan,
        network: &Network,
        table: &[Leg],
        tariff: &T,
        tally: &mut Tally,
    ) -> Result<Verdict, Refusal>
        ensures serves { Serves (ground network.now table.now (T.terms tariff.now) (room self.old)) plan (desk_of self.old tally.old) result (desk_of self.new tally.new) }
        ensures fulfils { IfOk result (λ v. Fulfils (ground network.now table.now (T.terms tariff.now) (room self.old)) plan (desk_of self.old tally.old) v (desk_of self.new tally.new)) }
        ensures same_room { room self.new ≡ room self.old }
        ensures same_sites { sites self.new ≡ sites self.old }
    {
        serve(
            plan,
            network,
            table,
            tariff,
            &mut self.costs,
            &mut self.delays,
            &mut self.labels,
            &mut self.least,
            &mut self.queue,
            &mut self.search,
            tally,
        )
    }

    // The legs of the found route; there are none, and no memory is taken, where nothing is found.
    pub fn route(
        &self,
        heap: Global,
        network: &Network,
        table: &[Leg],
    ) -> Result<Vec<u16>, AllocError>
        ensures { IfOk result (λ legs. legs.items ≡ legs_at network.now table.now self.now) }
    {
        let Phase::Found(found, _) = self.search.phase else {
            return Ok(Vec::new(heap));
        };
        // The chain to a label has no more legs than labels stand before it.
        let most = found.min(self.labels.len());
        let mut legs = vec![in heap; 0; most]?;
        let traced = self.search.trace(network, table, &self.labels, &mut legs);
        legs.truncate(traced.unwrap_or(0));
        Ok(legs)
    }
}

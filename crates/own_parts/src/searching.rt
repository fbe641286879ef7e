// The planner and the search with the parts of this crate: the contracts are those of `Desk::serve` and `conduct`, with what these
// parts mean in the place of any tariff and any estimate.
ghost use Rattle.std.specs.Prelude.{◌≡◌, reverse, vec_capacity, IfOk};
ghost use Rattle.planner.specs.Desks.{desk_of, room};
ghost use Rattle.planner.specs.Fulfils.{Fulfils};
ghost use Rattle.planner.specs.Serves.{ground, Serves};
ghost use Rattle.promise.specs.Conduct.{Leaves, Makes};
ghost use Rattle.promise.specs.Promise.{Promise};
ghost use Rattle.search.specs.Calls.{setting};
ghost use Rattle.own_parts.specs.Parts.{fee_and_grade, outside_at};

use crate::estimate::Outside;
use crate::tariff::FeeAndGrade;
use network::legs::*;
use network::plans::Plan;
use network::refusals::Refusal;
use planner::desk::Desk;
use planner::tally::Tally;
use promise::calls::*;
use promise::conduct::conduct;
use queue::interface::Queue;
use search::record::Verdict;
use std::alloc::AllocError;
use worksheet::records::Label;

// Serves a plan by fee and grade.
pub fn serve_graded(
    plan: Plan,
    network: &Network,
    table: &[Leg],
    desk: &mut Desk,
    tally: &mut Tally,
) -> Result<Verdict, Refusal>
    ensures serves { Serves (ground network.now table.now fee_and_grade (room desk.old)) plan (desk_of desk.old tally.old) result (desk_of desk.new tally.new) }
    ensures fulfils { IfOk result (λ v. Fulfils (ground network.now table.now fee_and_grade (room desk.old)) plan (desk_of desk.old tally.old) v (desk_of desk.new tally.new)) }
    ensures same_room { room desk.new ≡ room desk.old }
{
    desk.serve(plan, network, table, &FeeAndGrade, tally)
}

// Makes calls on a search by fee and grade that keeps out of a region.
pub fn search_outside<Q: Queue>(
    requests: Vec<Request>,
    network: &Network,
    table: &[Leg],
    region: &[u16],
    labels: &mut [Label],
    least: &mut [u32],
    queue: &mut Q,
    events: &mut Vec<Event>,
) -> Result<(), AllocError>
    ensures promised { Promise (setting network.now table.now fee_and_grade (outside_at region.now) labels.old least.old (Q.room queue.old)) (reverse events.new.items) }
    ensures leaves { Leaves (setting network.now table.now fee_and_grade (outside_at region.now) labels.old least.old (Q.room queue.old)) labels.old least.old (Q.bag queue.old) (reverse events.new.items) labels.new least.new (Q.bag queue.new) }
    ensures makes { Makes (vec_capacity events.old) requests.items result events.new.items }
    ensures same_room { Q.room queue.new ≡ Q.room queue.old }
{
    let estimate = Outside { region };
    conduct(
        requests,
        network,
        table,
        labels,
        least,
        queue,
        &FeeAndGrade,
        &estimate,
        events,
    )
}

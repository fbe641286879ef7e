// One plan, from its question to its verdict.
ghost use Rattle.std.specs.Prelude.{◌≡◌, IfOk};
ghost use Rattle.search.specs.Calls.{worksheet};
ghost use Rattle.planner.specs.Serves.{desk, ground, Serves};
ghost use Rattle.planner.specs.Fulfils.{Fulfils};

use crate::tally::Tally;
use network::estimates::Reached;
use network::legs::*;
use network::plans::Plan;
use network::refusals::Refusal;
use network::tariffs::Tariff;
use queue::interface::Queue;
use reach::tables::reach;
use search::record::*;
use worksheet::records::*;

// Serves a plan: writes the least costs and delays to its goal, opens the search for it with them as the estimate, makes the
// steps that the tally has left for its broker, or fewer, takes those made off the tally, and answers the verdict. The first
// refusal is passed on, and takes nothing off.
pub fn serve<Q: Queue, T: Tariff>(
    plan: Plan,
    network: &Network,
    table: &[Leg],
    tariff: &T,
    costs: &mut [u64],
    delays: &mut [u32],
    labels: &mut [Label],
    least: &mut [u32],
    queue: &mut Q,
    search: &mut Search,
    tally: &mut Tally,
) -> Result<Verdict, Refusal>
    ensures serves { Serves (ground network.now table.now (T.terms tariff.now) (Q.room queue.old)) plan (desk costs.old delays.old (worksheet search.old labels.old least.old (Q.bag queue.old)) tally.old) result (desk costs.new delays.new (worksheet search.new labels.new least.new (Q.bag queue.new)) tally.new) }
    ensures fulfils { IfOk result (λ v. Fulfils (ground network.now table.now (T.terms tariff.now) (Q.room queue.old)) plan (desk costs.old delays.old (worksheet search.old labels.old least.old (Q.bag queue.old)) tally.old) v (desk costs.new delays.new (worksheet search.new labels.new least.new (Q.bag queue.new)) tally.new)) }
    ensures same_room { Q.room queue.new ≡ Q.room queue.old }
{
    reach(network, table, tariff, plan.goal, costs, delays)?;
    let estimate = Reached { costs, delays };
    search.open(
        Query::from(plan),
        network,
        table,
        labels,
        least,
        queue,
        tariff,
        &estimate,
    )?;
    let left = tally.left(plan.broker);
    let made = search.advance(
        left, network, table, labels, least, queue, tariff, &estimate,
    )?;
    tally.take(plan.broker, made);
    Ok(search.verdict())
}

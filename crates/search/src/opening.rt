// The opening of a search: what a question, a network and a worksheet are tested for, and how a search starts.
ghost use Rattle.std.specs.Prelude.{◌≡◌, ◌^◌, ◌<◌, ◌≤◌, true, [], ◌++◌, length, drop, replicate, IfNone, MatchResult, OnOk};
ghost use Rattle.network.specs.Checks.{legs_of, first_failing, answer_by};
ghost use Rattle.network.specs.Estimates.{leg_keeps_rules};
ghost use Rattle.network.specs.Walks.{graph};
ghost use Rattle.worksheet.specs.Problem.{problem};
ghost use Rattle.worksheet.specs.Steps.{opened};
ghost use Rattle.search.specs.Calls.{setting, setting_of, worksheet, outcome, ends_fit, tables_fit, is_reached, open_refusal, opening, CostFits, HeadCostsFit, CostsFit};
ghost use Rattle.search.specs.Numbers.{NoneApplies, RefusedBy};

use crate::lent::Lent;
use crate::record::{Action, Search};
use network::estimates::{Bound, Estimate};
use network::legs::*;
use network::limits::{MOST_LABELS, MOST_LIMIT};
use network::refusals::Refusal;
use network::tariffs::Tariff;
use queue::interface::Queue;
use worksheet::records::*;

// Start and goal are sites of the network.
fn ends_fit(network: &Network, query: Query) -> bool
    ensures { result ≡ ends_fit network.now query }
{
    query.start < network.sites && query.goal < network.sites
}

// There are 1 to 65,536 label records, the queue has room, and every site has a least-delay record.
fn tables_fit(sites: u16, labels: usize, records: usize, capacity: usize) -> bool
    ensures { result ≡ tables_fit sites labels records capacity }
{
    (1..=MOST_LABELS).contains(&labels) && 1 <= capacity && usize::from(sites) <= records
}

// The estimate at the goal is 0 and 0.
fn is_reached<E: Estimate>(estimate: &E, goal: u16) -> bool
    ensures { result ≡ is_reached (E.at estimate.now goal) }
{
    estimate.at(goal) == Some(Bound::default())
}

// The estimates at the two ends of a leg keep the rules.
fn keeps_rules<T: Tariff, E: Estimate>(leg: &Leg, tariff: &T, estimate: &E) -> bool
    ensures value { result ≡ leg_keeps_rules (graph (T.terms tariff.now) []) (E.at estimate.now) leg.now }
    ensures cost_fits { CostFits (E.at estimate.now) leg.now.head }
{
    estimate.at(leg.head).is_none_or(|head| {
        estimate.at(leg.tail).is_some_and(|tail| {
            tail.cost <= tariff.join(tariff.price(leg.fee, leg.grade), head.cost)
                && u64::from(tail.delay) <= leg.delay() + u64::from(head.delay)
        })
    })
}

// The number of the first leg at which the estimate breaks a rule.
fn first_unlawful<T: Tariff, E: Estimate>(legs: &[Leg], tariff: &T, estimate: &E) -> Option<u16>
    requires { length legs.now < 2 ^ 16 }
    ensures value { result ≡ first_failing (leg_keeps_rules (graph (T.terms tariff.now) []) (E.at estimate.now)) 0 legs.now }
    ensures costs_fit { IfNone result (HeadCostsFit (E.at estimate.now) legs.now) }
{
    legs.iter()
        .position(|leg| !keeps_rules(leg, tariff, estimate))
        .map(|i| i as u16)
}

// Refuses an open by the first test that fails.
#[tactic(auto, using(network::proofs::Checking::test_by_test), unfolding(crate::specs::Calls::open_refusal))]
fn check<Q: Queue, T: Tariff, E: Estimate>(
    query: Query,
    lent: &Lent<T, E>,
    labels: &[Label],
    least: &[u32],
    queue: &Q,
) -> Result<(), Refusal>
    ensures value { result ≡ answer_by (open_refusal (setting_of T.terms E.at lent.now labels.now least.now (Q.room queue.now)) query) }
    ensures costs_fit { OnOk result (HeadCostsFit (E.at lent.now.estimate.now) (legs_of lent.now.network.now lent.now.table.now)) }
{
    if query.limit > MOST_LIMIT {
        return Err(Refusal::Size);
    }
    let network = lent.network;
    network.check(lent.table)?;
    if !ends_fit(network, query) {
        return Err(Refusal::Site);
    }
    if !tables_fit(network.sites, labels.len(), least.len(), queue.capacity()) {
        return Err(Refusal::Room);
    }
    if !is_reached(lent.estimate, query.goal) {
        return Err(Refusal::GoalEstimate);
    }
    let legs = network.legs_in(lent.table);
    if let Some(leg) = first_unlawful(legs, lent.tariff, lent.estimate) {
        return Err(Refusal::LegEstimate(leg));
    }
    Ok(())
}

impl Search {
    // Starts the search for an accepted question: with no entry and no step, every site's least delay one more than the
    // limit, and the empty walk as label 0, unless the start is cut off or too far.
    fn start<Q: Queue, T: Tariff, E: Estimate>(
        &mut self,
        query: Query,
        lent: &Lent<T, E>,
        labels: &mut [Label],
        least: &mut [u32],
        queue: &mut Q,
    )
        requires limit_fits { query.limit ≤ 1000000 }
        requires tables_fit { tables_fit lent.now.network.now.sites (length labels.old) (length least.old) (Q.room queue.old) ≡ true }
        ensures after { worksheet self.new labels.new least.new (Q.bag queue.new) ≡ record { query = query; state = opened (problem (setting_of T.terms E.at lent.now labels.old least.old (Q.room queue.old)) query) (worksheet self.old labels.old least.old (Q.bag queue.old)).state } }
        ensures same_room { Q.room queue.new ≡ Q.room queue.old }
        ensures cost_fits { CostFits (E.at lent.now.estimate.now) query.start }
    {
        queue.clear();
        *self = Search {
            query,
            phase: Phase::Open,
            ..Search::new()
        };
        least[..usize::from(lent.network.sites)].fill(query.limit + 1);
        let start = lent.estimate.at(query.start);
        let Some(bound) = start.filter(|bound| bound.delay <= query.limit) else {
            return;
        };
        let label = Label {
            site: query.start,
            ..Label::default()
        };
        let due = Due {
            label,
            estimate: lent.tariff.join(0, bound.cost),
        };
        if let Err(why) = self.add(due, labels, queue) {
            self.phase = Phase::Stopped(why);
        }
    }

    // Opens the search for a question, unless one of the refusals from 8 to 12 applies, which changes nothing.
    #[tactic(auto, using(crate::proofs::Numbering::of_open), unfolding(crate::specs::Calls::open_refusal))]
    pub fn open<Q: Queue, T: Tariff, E: Estimate>(
        &mut self,
        query: Query,
        network: &Network,
        table: &[Leg],
        labels: &mut [Label],
        least: &mut [u32],
        queue: &mut Q,
        tariff: &T,
        estimate: &E,
    ) -> Result<(), Refusal>
        ensures answered { outcome result (worksheet self.new labels.new least.new (Q.bag queue.new)) ≡ opening (setting network.now table.now (T.terms tariff.now) (E.at estimate.now) labels.old least.old (Q.room queue.old)) query (worksheet self.old labels.old least.old (Q.bag queue.old)) }
        ensures same_room { Q.room queue.new ≡ Q.room queue.old }
        ensures refused_by_number { MatchResult result
            (λ _. NoneApplies (setting network.now table.now (T.terms tariff.now) (E.at estimate.now) labels.old least.old (Q.room queue.old)) query)
            (λ why. RefusedBy (setting network.now table.now (T.terms tariff.now) (E.at estimate.now) labels.old least.old (Q.room queue.old)) query why) }
        ensures estimates_fit { OnOk result (CostsFit (problem (setting network.now table.now (T.terms tariff.now) (E.at estimate.now) labels.old least.old (Q.room queue.old)) query)) }
    {
        self.admit(Action::Open)?;
        let lent = Lent {
            network,
            table,
            tariff,
            estimate,
        };
        check(query, &lent, labels, least, queue)?;
        self.start(query, &lent, labels, least, queue);
        Ok(())
    }
}

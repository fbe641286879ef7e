// Reach: the least cost to a goal and, by itself, the least delay, from every site and over all walks.
//
//           2,4         2,5
//     0 ─────────► 1 ─────────► 3
//     │                        ▲ ▲
//     │     4,1         1,2    │ │
//     ├─────────► 2 ───────────┘ │
//     │            9,1           │
//     └──────────────────────────┘
//
// A leg of this network shows its fee and its delay. To site 3, under the total fee, the costs of sites 0 to 3 are
// 4, 2, 1, 0 and the delays 1, 5, 2, 0: the cheapest walk from site 0 goes by way of site 1, the soonest takes the one leg.
//
// It asks for a network of 1 to 1,024 sites and at most 4,096 legs, all of them in the leg table and in range, for a goal
// that is a site, and for two tables with a record for every site; else it refuses, and changes nothing. Any lawful tariff
// will do: joining need not be addition, nor commute.
//
// It starts with the goal alone, at 0 and 0, and passes over the legs until a pass changes nothing. A leg whose head is
// reached lowers the records of its tail: the cost to the leg's price joined on the left of the head's cost, the delay to
// the leg's delay plus the head's. A pass takes as many steps as there are legs. As no walk gets cheaper or sooner by
// entering a site twice, there are at most as many passes as sites; that they end is proved, their number is not. It needs
// no memory but the two tables.
ghost use Rattle.std.specs.Prelude.{◌≡◌, ℕ, ◌<◌, ◌≤◌, true, ◌&&◌, [], length, MatchResult, OnOk, ◌==◌, slice_index, slice_index_or};
ghost use Rattle.network.specs.Legs.{leg_in_range};
ghost use Rattle.network.specs.Checks.{answer_by, legs_of};
ghost use Rattle.network.specs.Walks.{Graph, graph, no_leg};
ghost use Rattle.network.specs.Estimates.{tables_at, LawfulTowards};
ghost use Rattle.reach.specs.Reaches.{reach_refusal, Nearest, Written, Between};
ghost use Rattle.reach.specs.Passes.{lowered_by, lowers_by, relaxed, relaxes, passed, changes};

use network::estimates::Bound;
use network::legs::*;
use network::refusals::Refusal;
use network::tariffs::Tariff;

// Refuses a reach by its network and leg table, then by a goal that is no site, then by a table too short.
#[tactic(auto, using(network::proofs::Checking::test_by_test))]
fn check(
    network: &Network,
    table: &[Leg],
    goal: u16,
    costs: usize,
    delays: usize,
) -> Result<(), Refusal>
    ensures { result ≡ answer_by (reach_refusal network.now table.now goal costs delays) }
{
    network.check(table)?;
    if goal >= network.sites {
        return Err(Refusal::Site);
    }
    let sites = usize::from(network.sites);
    if costs < sites || delays < sites {
        return Err(Refusal::Room);
    }
    Ok(())
}

// Lowers the record of a site, if the new one is less, and answers whether it did.
fn lower<N: Copy + Ord>(records: &mut [N], site: usize, value: N) -> bool
    requires { site < length records.old }
    ensures value { result ≡ lowers_by N.cmp records.old site value }
    ensures after { records.new ≡ lowered_by N.cmp records.old site value }
{
    if value < records[site] {
        records[site] = value;
        return true;
    }
    false
}

// Lowers the records of the leg's tail by way of its head, where a walk from the head has been met, and answers whether
// either fell.
fn relax<T: Tariff>(leg: &Leg, tariff: &T, costs: &mut [u64], delays: &mut [u32]) -> bool
    requires equal_length { length delays.old ≡ length costs.old }
    requires ends_are_sites { (leg.now.tail < length costs.old) × (leg.now.head < length costs.old) }
    ensures value { result ≡ relaxes (graph (T.terms tariff.now) []) leg.now (record { costs = costs.old; delays = delays.old }) }
    ensures after { record { costs = costs.new; delays = delays.new } ≡ relaxed (graph (T.terms tariff.now) []) leg.now (record { costs = costs.old; delays = delays.old }) }
{
    let tail = usize::from(leg.tail);
    let head = usize::from(leg.head);
    let onward = delays[head];
    if onward == u32::MAX {
        return false;
    }
    let price = tariff.price(leg.fee, leg.grade);
    let cost = tariff.join(price, costs[head]);
    let delay = leg.delay() + u64::from(onward);
    // A delay that is not below the largest number lowers no record.
    let sooner = delay < u64::from(u32::MAX) && lower(delays, tail, delay as u32);
    let cheaper = lower(costs, tail, cost);
    sooner || cheaper
}

// One pass: relaxes each leg in turn, and answers whether a record fell.
#[tactic(auto, using(crate::proofs::Passing::one_by_one))]
fn pass<T: Tariff>(legs: &[Leg], tariff: &T, costs: &mut [u64], delays: &mut [u32]) -> bool
    requires equal_length { length delays.old ≡ length costs.old }
    requires legs_in_range { (j : ℕ) → j < length legs.now → leg_in_range (length costs.old) (slice_index_or legs.now j no_leg) ≡ true }
    ensures value { result ≡ changes (graph (T.terms tariff.now) legs.now) legs.now (record { costs = costs.old; delays = delays.old }) }
    ensures after { record { costs = costs.new; delays = delays.new } ≡ passed (graph (T.terms tariff.now) legs.now) legs.now (record { costs = costs.old; delays = delays.old }) }
{
    let mut changed = false;
    for leg in legs {
        if relax(leg, tariff, costs, delays) {
            changed = true;
        }
    }
    changed
}

// Writes the least cost and the least delay of each site: only the goal is reached at first, and passes follow until one
// changes nothing.
fn settle<T: Tariff>(legs: &[Leg], tariff: &T, goal: u16, costs: &mut [u64], delays: &mut [u32])
    requires equal_length { length delays.old ≡ length costs.old }
    requires few_sites { length costs.old ≤ 1024 }
    requires goal_is_site { goal < length costs.old }
    requires legs_in_range { (j : ℕ) → j < length legs.now → leg_in_range (length costs.old) (slice_index_or legs.now j no_leg) ≡ true }
    ensures { (u : ℕ) → u < length costs.old → Nearest (graph (T.terms tariff.now) legs.now) u goal (slice_index costs.new u) (slice_index delays.new u) }
{
    costs.fill(u64::MAX);
    delays.fill(u32::MAX);
    costs[goal as usize] = 0;
    delays[goal as usize] = 0;
    'passes: while pass(legs, tariff, costs, delays) {}
}

// Writes, for each site, the least cost and, by itself, the least delay of all walks to the goal, or the largest numbers
// where there is none; the records beyond the sites stay. Read as an estimate, what it has written is that least cost and
// least delay of each site, or none where there is no walk, and it is lawful towards the goal. Refused, it changes nothing.
// It is compiled by itself, so that its passes over the legs have the registers for themselves.
#[inline(never)]
pub fn reach<T: Tariff>(
    network: &Network,
    table: &[Leg],
    tariff: &T,
    goal: u16,
    costs: &mut [u64],
    delays: &mut [u32],
) -> Result<(), Refusal>
    ensures answer { result ≡ answer_by (reach_refusal network.now table.now goal (length costs.old) (length delays.old)) }
    ensures tables { MatchResult result
        (λ _. Written (graph (T.terms tariff.now) (legs_of network.now table.now)) network.now.sites goal costs.old delays.old costs.new delays.new)
        (λ _. (costs.new ≡ costs.old) × (delays.new ≡ delays.old)) }
    ensures estimate_is_least { OnOk result ((u : ℕ) → u < network.now.sites → Between (graph (T.terms tariff.now) (legs_of network.now table.now)) u goal (tables_at costs.new delays.new u)) }
    ensures estimate_is_lawful { OnOk result (LawfulTowards (graph (T.terms tariff.now) (legs_of network.now table.now)) (tables_at costs.new delays.new) goal) }
{
    check(network, table, goal, costs.len(), delays.len())?;
    let legs = network.legs_in(table);
    let sites = network.sites as usize;
    settle(
        legs,
        tariff,
        goal,
        &mut costs[..sites],
        &mut delays[..sites],
    );
    Ok(())
}

// Whether two pairs of records are the same: they are, where both are nearest.
pub fn same_records(a: Bound, b: Bound) -> bool
    ensures value { result ≡ (a.cost == b.cost && a.delay == b.delay) }
    ensures nearest_is_unique { (g : Graph) (u goal : ℕ) → Nearest g u goal a.cost a.delay → Nearest g u goal b.cost b.delay → result ≡ true }
{
    a == b
}

#[cfg(test)]
mod tests {
    use super::*;
    use network::tariffs::{TotalFee, WorstGrade};
    use std::test::Fail;

    fn leg(tail: u16, head: u16, fee: u32, grade: u8, stated: u32, medium: u8) -> Leg {
        Leg {
            tail,
            head,
            fee,
            grade,
            stated,
            medium,
        }
    }

    // The network that is drawn above. The record beyond the sites stays.
    #[test]
    fn drawn_network(rt: HostRuntime) -> Result<(), Fail> {
        let network = Network { sites: 4, legs: 5 };
        let table = [
            leg(0, 1, 2, 3, 4, 0),
            leg(1, 3, 2, 1, 5, 0),
            leg(0, 2, 4, 2, 1, 0),
            leg(2, 3, 1, 2, 2, 0),
            leg(0, 3, 9, 1, 1, 0),
        ];
        let mut costs = [7; 5];
        let mut delays = [8; 5];
        reach(&network, &table, &TotalFee, 3, &mut costs, &mut delays)?;
        assert_eq!(rt; costs, [4, 2, 1, 0, 7]);
        assert_eq!(rt; delays, [1, 5, 2, 0, 8]);
        reach(&network, &table, &WorstGrade, 3, &mut costs, &mut delays)?;
        assert_eq!(rt; costs, [1, 1, 2, 0, 7]);
        assert_eq!(rt; delays, [1, 5, 2, 0, 8]);
        Ok(())
    }

    // Parallel legs, one cheaper and one sooner; a leg from the goal to itself; a leg that is free and takes no time; and
    // site 3, from which no walk leads to the goal.
    #[test]
    fn parallel_legs_and_a_site_cut_off(rt: HostRuntime) -> Result<(), Fail> {
        let network = Network { sites: 4, legs: 5 };
        let table = [
            leg(2, 0, 0, 0, 0, 0),
            leg(0, 1, 5, 4, 7, 0),
            leg(0, 1, 3, 6, 2, 3),
            leg(1, 1, 1, 1, 1, 1),
            leg(1, 3, 1, 1, 1, 1),
        ];
        let mut costs = [7; 4];
        let mut delays = [8; 4];
        reach(&network, &table, &TotalFee, 1, &mut costs, &mut delays)?;
        assert_eq!(rt; costs, [3, 0, 3, u64::MAX]);
        assert_eq!(rt; delays, [7, 0, 7, u32::MAX]);
        reach(&network, &table, &WorstGrade, 1, &mut costs, &mut delays)?;
        assert_eq!(rt; costs, [4, 0, 4, u64::MAX]);
        assert_eq!(rt; delays, [7, 0, 7, u32::MAX]);
        Ok(())
    }

    // The first refusal that applies, and the tables as they were.
    #[test]
    fn refusals(rt: HostRuntime) {
        let table = [leg(0, 1, 1, 1, 1, 0), leg(1, 2, 1, 1, 1, 8)];
        let mut costs = [7; 2];
        let mut delays = [8; 2];
        let none = Network { sites: 0, legs: 0 };
        assert_eq!(rt;
            reach(&none, &table, &TotalFee, 0, &mut costs, &mut delays),
            Err(Refusal::Size)
        );
        let long = Network { sites: 2, legs: 3 };
        assert_eq!(rt;
            reach(&long, &table, &TotalFee, 2, &mut costs, &mut delays),
            Err(Refusal::Size)
        );
        let broken = Network { sites: 3, legs: 2 };
        assert_eq!(rt;
            reach(&broken, &table, &TotalFee, 3, &mut costs, &mut delays),
            Err(Refusal::LegRange(1))
        );
        let fine = Network { sites: 3, legs: 1 };
        assert_eq!(rt;
            reach(&fine, &table, &TotalFee, 3, &mut costs, &mut delays),
            Err(Refusal::Site)
        );
        assert_eq!(rt;
            reach(&fine, &table, &TotalFee, 2, &mut costs, &mut delays),
            Err(Refusal::Room)
        );
        assert_eq!(rt; costs, [7, 7]);
        assert_eq!(rt; delays, [8, 8]);
    }
}

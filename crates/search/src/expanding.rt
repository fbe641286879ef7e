// The expansion of a label: each leg from its site is tried.
ghost use Rattle.std.specs.Prelude.{◌≡◌, ◌≤◌, ◌<◌, ◌+◌, ◌^◌, ◌==◌, true, [], length};
ghost use Rattle.std.specs.List.{list_all, list_any};
ghost use Rattle.network.specs.Checks.{legs_of};
ghost use Rattle.network.specs.Walks.{graph};
ghost use Rattle.worksheet.specs.Steps.{due_of, added, expand as expand_of, is_open, leg_inside};
ghost use Rattle.search.specs.Calls.{setting_of, worksheet, problem_of};
ghost use Rattle.search.specs.Parts.{with_state, in_phase_by};

use crate::lent::Lent;
use crate::record::Search;
use network::estimates::Estimate;
use network::legs::*;
use network::refusals::Stop;
use network::tariffs::Tariff;
use queue::entry::Entry;
use queue::interface::Queue;
use worksheet::records::*;

// A label that was taken, with its number.
#[derive(Clone, Copy)]
pub(crate) struct Taken {
    pub number: usize,
    pub label: Label,
}

// Legs are asked in groups of this size whether one of them leaves a site: so many comparisons in a row, with no loop.
const GROUP: usize = 16;

// Whether a leg of the group leaves the site.
fn leaves(group: &[Leg; GROUP], site: u16) -> bool
    ensures { result ≡ list_any (λ leg. leg.tail == site) group.now }
{
    group.iter().any(|leg| leg.tail == site)
}

impl Search {
    // The label that leg `number` leads to from the label that was taken, unless the leg is skipped: it does not leave the
    // label's site, its head is cut off, the limit would be exceeded, or the new label is dominated.
    fn due<T: Tariff, E: Estimate>(
        &self,
        from: Taken,
        number: u16,
        leg: &Leg,
        lent: &Lent<T, E>,
        least: &[u32],
    ) -> Option<Due>
        requires { leg_inside (length least.now) from.label.site leg.now ≡ true }
        ensures { result ≡ due_of (graph (T.terms lent.now.tariff.now) []) (E.at lent.now.estimate.now) self.now.query.limit least.now from.number from.label number leg.now }
    {
        if leg.tail != from.label.site {
            return None;
        }
        let bound = lent.estimate.at(leg.head)?;
        let delay = u64::from(from.label.mark.delay) + leg.delay();
        if delay + u64::from(bound.delay) > u64::from(self.query.limit) {
            return None;
        }
        if delay >= u64::from(least[usize::from(leg.head)]) {
            return None;
        }
        let price = lent.tariff.price(leg.fee, leg.grade);
        let cost = lent.tariff.join(from.label.mark.cost, price);
        let label = Label {
            mark: Mark {
                cost,
                delay: delay as u32,
            },
            site: leg.head,
            from: Some(Origin {
                parent: from.number,
                leg: number,
            }),
        };
        Some(Due {
            label,
            estimate: lent.tariff.join(cost, bound.cost),
        })
    }

    // Writes a label that is due and puts its entry. Where one of the two has no room, it answers why the search stops.
    pub(crate) fn add<Q: Queue>(
        &mut self,
        due: Due,
        labels: &mut [Label],
        queue: &mut Q,
    ) -> Result<(), Stop>
        ensures after { in_phase_by (λ _. self.old.phase) result (worksheet self.new labels.new [] (Q.bag queue.new)) ≡ with_state (worksheet self.old labels.old [] (Q.bag queue.old)) (added (Q.room queue.old) due (worksheet self.old labels.old [] (Q.bag queue.old)).state) }
        ensures same_phase { self.new.phase ≡ self.old.phase }
        ensures same_room { Q.room queue.new ≡ Q.room queue.old }
    {
        if self.count >= labels.len() {
            return Err(Stop::LabelsUsed);
        }
        let entry = Entry {
            estimate: due.estimate,
            cost: due.label.mark.cost,
            delay: due.label.mark.delay,
            label: self.count,
        };
        queue.put(entry).map_err(|_| Stop::QueueFull)?;
        labels[self.count] = due.label;
        self.count += 1;
        Ok(())
    }

    // Tries each of these legs, whose numbers begin at `first`, in order, until there is no room for a label that is due: it
    // answers why the search stops.
    #[tactic(auto, using(crate::proofs::Trying::leg_by_leg))]
    fn try_each<Q: Queue, T: Tariff, E: Estimate>(
        &mut self,
        from: Taken,
        first: usize,
        legs: &[Leg],
        lent: &Lent<T, E>,
        labels: &mut [Label],
        least: &[u32],
        queue: &mut Q,
    ) -> Result<(), Stop>
        requires going { is_open self.old.phase ≡ true }
        requires few { first + length legs.now < 2 ^ 16 }
        requires inside { list_all (leg_inside (length least.now) from.label.site) legs.now ≡ true }
        ensures after { in_phase_by (λ _. self.old.phase) result (worksheet self.new labels.new least.now (Q.bag queue.new)) ≡ with_state (worksheet self.old labels.old least.now (Q.bag queue.old)) (expand_of (problem_of (setting_of T.terms E.at lent.now labels.old least.now (Q.room queue.old)) (worksheet self.old labels.old least.now (Q.bag queue.old))) from.number from.label first legs.now (worksheet self.old labels.old least.now (Q.bag queue.old)).state) }
        ensures same_phase { self.new.phase ≡ self.old.phase }
        ensures same_room { Q.room queue.new ≡ Q.room queue.old }
    {
        for (i, leg) in legs.iter().enumerate() {
            if let Some(due) = self.due(from, (first + i) as u16, leg, lent, least) {
                self.add(due, labels, queue)?;
            }
        }
        Ok(())
    }

    // Tries each leg from the label's site in order, until there is no room for a label that is due: it answers why the
    // search stops. A group of legs that all leave other sites, as most do, is passed over.
    #[tactic(auto, using(crate::proofs::Trying::group_by_group))]
    pub(crate) fn expand<Q: Queue, T: Tariff, E: Estimate>(
        &mut self,
        from: Taken,
        lent: &Lent<T, E>,
        labels: &mut [Label],
        least: &[u32],
        queue: &mut Q,
    ) -> Result<(), Stop>
        requires going { is_open self.old.phase ≡ true }
        requires inside { list_all (leg_inside (length least.now) from.label.site) (legs_of lent.now.network.now lent.now.table.now) ≡ true }
        ensures after { in_phase_by (λ _. self.old.phase) result (worksheet self.new labels.new least.now (Q.bag queue.new)) ≡ with_state (worksheet self.old labels.old least.now (Q.bag queue.old)) (expand_of (problem_of (setting_of T.terms E.at lent.now labels.old least.now (Q.room queue.old)) (worksheet self.old labels.old least.now (Q.bag queue.old))) from.number from.label 0 (legs_of lent.now.network.now lent.now.table.now) (worksheet self.old labels.old least.now (Q.bag queue.old)).state) }
        ensures same_phase { self.new.phase ≡ self.old.phase }
        ensures same_room { Q.room queue.new ≡ Q.room queue.old }
    {
        let (groups, rest) = lent.network.legs_in(lent.table).as_chunks::<GROUP>();
        for (i, group) in groups.iter().enumerate() {
            if leaves(group, from.label.site) {
                self.try_each(from, i * GROUP, group, lent, labels, least, queue)?;
            }
        }
        self.try_each(from, groups.len() * GROUP, rest, lent, labels, least, queue)
    }
}

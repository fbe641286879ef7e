// One step of a search: a label is taken, and dropped, found to end at the goal, or expanded.
ghost use Rattle.std.specs.Prelude.{◌≡◌, true, length};
ghost use Rattle.worksheet.specs.Steps.{step as step_of, step_from, is_open};
ghost use Rattle.search.specs.Calls.{setting_of, worksheet, problem_of};
ghost use Rattle.search.specs.Parts.{all_inside, with_state, in_phase_by};

use crate::expanding::Taken;
use crate::lent::Lent;
use crate::record::Search;
use network::estimates::Estimate;
use network::legs::*;
use network::refusals::Stop;
use network::tariffs::Tariff;
use queue::interface::Queue;
use worksheet::records::*;

impl Search {
    // Makes one step, which counts whether it takes a label or not. `sound` says whether all legs are inside.
    pub(crate) fn step<Q: Queue, T: Tariff, E: Estimate>(
        &mut self,
        sound: bool,
        lent: &Lent<T, E>,
        labels: &mut [Label],
        least: &mut [u32],
        queue: &mut Q,
    )
        requires going { is_open self.old.phase ≡ true }
        requires asked { sound ≡ all_inside (length least.old) lent.now.network.now lent.now.table.now }
        ensures after { worksheet self.new labels.new least.new (Q.bag queue.new) ≡ with_state (worksheet self.old labels.old least.old (Q.bag queue.old)) (step_of (problem_of (setting_of T.terms E.at lent.now labels.old least.old (Q.room queue.old)) (worksheet self.old labels.old least.old (Q.bag queue.old))) (worksheet self.old labels.old least.old (Q.bag queue.old)).state) }
        ensures same_room { Q.room queue.new ≡ Q.room queue.old }
    {
        self.steps = self.steps.saturating_add(1);
        self.phase = self
            .take_up(sound, lent, labels, least, queue)
            .unwrap_or_else(Phase::Stopped);
    }

    // Takes a label, and drops it, finds that it ends at the goal, or expands it. It answers the phase after that, or why the
    // search stops.
    fn take_up<Q: Queue, T: Tariff, E: Estimate>(
        &mut self,
        sound: bool,
        lent: &Lent<T, E>,
        labels: &mut [Label],
        least: &mut [u32],
        queue: &mut Q,
    ) -> Result<Phase, Stop>
        requires going { is_open self.old.phase ≡ true }
        requires asked { sound ≡ all_inside (length least.old) lent.now.network.now lent.now.table.now }
        ensures after { in_phase_by (λ phase. phase) result (worksheet self.new labels.new least.new (Q.bag queue.new)) ≡ with_state (worksheet self.old labels.old least.old (Q.bag queue.old)) (step_from (problem_of (setting_of T.terms E.at lent.now labels.old least.old (Q.room queue.old)) (worksheet self.old labels.old least.old (Q.bag queue.old))) (Q.bag queue.old) (worksheet self.old labels.old least.old (Q.bag queue.old)).state) }
        ensures same_phase { self.new.phase ≡ self.old.phase }
        ensures same_room { Q.room queue.new ≡ Q.room queue.old }
    {
        let Some(first) = queue.take() else {
            return Ok(Phase::Exhausted);
        };
        let from = self
            .label_inside(first.label, sound, lent, labels, least.len())
            .ok_or(Stop::Outside)?;
        if from.mark.delay >= least[usize::from(from.site)] {
            return Ok(Phase::Open);
        }
        least[usize::from(from.site)] = from.mark.delay;
        if from.site == self.query.goal {
            return Ok(Phase::Found(first.label, from.mark));
        }
        let taken = Taken {
            number: first.label,
            label: from,
        };
        self.expand(taken, lent, labels, least, queue)?;
        Ok(Phase::Open)
    }
}

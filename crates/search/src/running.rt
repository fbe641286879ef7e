// Runs of steps.
ghost use Rattle.std.specs.Prelude.{◌≡◌};
ghost use Rattle.search.specs.Calls.{setting, worksheet, outcome, advancing};

use crate::inside::all_inside;
use crate::lent::Lent;
use crate::record::{Action, Search};
use network::estimates::Estimate;
use network::legs::*;
use network::refusals::Refusal;
use network::tariffs::Tariff;
use queue::interface::Queue;
use worksheet::records::*;

impl Search {
    // Makes steps until `allowance` of them are made or the search is no longer open, and answers how many were made. It
    // is refused in a phase other than open, which changes nothing.
    #[tactic(auto, using(crate::proofs::Runs::step_by_step))]
    pub fn advance<Q: Queue, T: Tariff, E: Estimate>(
        &mut self,
        allowance: u32,
        network: &Network,
        table: &[Leg],
        labels: &mut [Label],
        least: &mut [u32],
        queue: &mut Q,
        tariff: &T,
        estimate: &E,
    ) -> Result<u32, Refusal>
        ensures answered { outcome result (worksheet self.new labels.new least.new (Q.bag queue.new)) ≡ advancing (setting network.now table.now (T.terms tariff.now) (E.at estimate.now) labels.old least.old (Q.room queue.old)) allowance (worksheet self.old labels.old least.old (Q.bag queue.old)) }
        ensures same_room { Q.room queue.new ≡ Q.room queue.old }
    {
        self.admit(Action::Advance)?;
        let sound = all_inside(network, table, least.len());
        let lent = Lent {
            network,
            table,
            tariff,
            estimate,
        };
        let mut made = 0;
        let steps = loop {
            if made == allowance || !self.is_open() {
                break made;
            }
            self.step(sound, &lent, labels, least, queue);
            made += 1;
        };
        Ok(steps)
    }
}

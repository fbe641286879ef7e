// The legs of a found walk, read off the labels from the goal back to the start.
ghost use Rattle.std.specs.Prelude.{◌≡◌, ◌≤◌, length, Some};
ghost use Rattle.search.specs.Calls.{origin_at, traced, tracing};
ghost use Rattle.search.specs.Parts.{chain_of, chain_length as length_of, laid};

use crate::record::{Action, Search};
use network::legs::*;
use network::refusals::Refusal;
use worksheet::records::*;

// The chain to the label `found`, over these labels and the first `legs` legs.
#[derive(Drop)]
struct Chain<'a> {
    labels: &'a [Label],
    legs: usize,
    found: usize,
}

impl Chain<'_> {
    // The origin of label `i`, unless it is absent or leads outside the labels or the legs.
    fn origin(&self, i: usize) -> Option<Origin>
        ensures { result ≡ origin_at self.now.legs (length self.now.labels.now) self.now.labels.now i }
    {
        let origin = self.labels.get(i)?.from?;
        (origin.parent < i && usize::from(origin.leg) < self.legs).then_some(origin)
    }

    // The number of its legs, unless it leads outside.
    fn length(&self) -> Option<usize>
        ensures { result ≡ length_of (chain_of self.now) }
    {
        self.labels.first()?;
        let mut at = self.found;
        let mut count = 0;
        while at != 0 {
            at = self.origin(at)?.parent;
            count += 1;
        }
        Some(count)
    }

    // Writes its `count` leg numbers, the last first.
    fn write(&self, count: usize, buffer: &mut [u16])
        requires long { Some count ≡ length_of (chain_of self.now) }
        requires fits { count ≤ length buffer.old }
        ensures { buffer.new ≡ laid (chain_of self.now) buffer.old }
    {
        let mut at = self.found;
        let mut place = count;
        while let Some(origin) = self.origin(at) {
            place -= 1;
            buffer[place] = origin.leg;
            at = origin.parent;
        }
    }
}

impl Search {
    // Writes the leg numbers of the found walk, first to last, at the buffer's start and answers how many there are. It is
    // refused where nothing was found, where a number of the labels' chain leads outside its table, or where the buffer is
    // too short; then the buffer stays as it was.
    #[tactic(auto, using(crate::proofs::Traces::front_chains))]
    pub fn trace(
        &self,
        network: &Network,
        table: &[Leg],
        labels: &[Label],
        buffer: &mut [u16],
    ) -> Result<usize, Refusal>
        ensures { traced result buffer.new ≡ tracing network.now table.now self.now labels.now buffer.old }
    {
        self.admit(Action::Trace)?;
        // No other phase admits a trace.
        let Phase::Found(found, _) = self.phase else {
            unreachable!()
        };
        let chain = Chain {
            labels: self.recorded(labels),
            legs: network.legs_in(table).len(),
            found,
        };
        let count = chain.length().ok_or(Refusal::Outside)?;
        if count > buffer.len() {
            return Err(Refusal::BufferShort);
        }
        chain.write(count, buffer);
        Ok(count)
    }
}

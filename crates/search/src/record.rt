// The search record, and what it tells.
ghost use Rattle.std.specs.Prelude.{◌≡◌, take};
ghost use Rattle.search.specs.Record.{fresh, is_open_in, admission, standing_of, verdict_of};

use network::refusals::{Refusal, Stop};
use worksheet::records::*;

// What a search is asked, how far it has come, how many labels it has written, and how many steps it has made since it was
// opened.
#[derive(Clone, Copy, PartialEq, Eq, Default, Debug)]
pub struct Search {
    pub query: Query,
    pub phase: Phase,
    pub count: usize,
    pub steps: u64,
}

// What a search has come to: what was found, or why it stopped, stands with its phase.
#[derive(Clone, Copy, PartialEq, Eq, Debug)]
pub enum Standing {
    Fresh,
    Open,
    Found(Mark),
    Exhausted,
    Stopped(Stop),
}

// What a search has come to, and in how many steps.
#[derive(Clone, Copy, PartialEq, Eq, Debug)]
pub struct Verdict {
    pub standing: Standing,
    pub steps: u64,
}

// The calls that a phase admits or refuses.
#[derive(Clone, Copy)]
pub(crate) enum Action {
    Open,
    Advance,
    Trace,
}

// A phase, without the number of the label that was found.
impl From<Phase> for Standing {
    ghost from_gives = { λ phase standing. standing ≡ standing_of phase };

    fn from(phase: Phase) -> Standing {
        match phase {
            Phase::Fresh => Standing::Fresh,
            Phase::Open => Standing::Open,
            Phase::Found(_, mark) => Standing::Found(mark),
            Phase::Exhausted => Standing::Exhausted,
            Phase::Stopped(why) => Standing::Stopped(why),
        }
    }
}

impl Search {
    // A search record as it is made.
    pub fn new() -> Search
        ensures { result ≡ fresh }
    {
        Search::default()
    }

    // The labels that are written and have a record.
    pub(crate) fn recorded<'a>(&self, labels: &'a [Label]) -> &'a [Label]
        ensures { result.now ≡ take self.now.count labels.now }
    {
        &labels[..self.count.min(labels.len())]
    }

    // Whether the phase admits a call: every phase an open, an open search an advance, a found label a trace.
    pub(crate) fn admit(&self, action: Action) -> Result<(), Refusal>
        ensures { result ≡ admission self.now.phase action }
    {
        match (self.phase, action) {
            (_, Action::Open) => Ok(()),
            (Phase::Open, Action::Advance) => Ok(()),
            (_, Action::Advance) => Err(Refusal::NotOpen),
            (Phase::Found(_, _), Action::Trace) => Ok(()),
            (_, Action::Trace) => Err(Refusal::NotFound),
        }
    }

    // Whether steps can be made.
    pub(crate) fn is_open(&self) -> bool
        ensures { result ≡ is_open_in self.now }
    {
        matches!(self.phase, Phase::Open)
    }

    // What the search has come to. It is never refused.
    pub fn verdict(&self) -> Verdict
        ensures { result ≡ verdict_of self.now }
    {
        Verdict {
            standing: self.phase.into(),
            steps: self.steps,
        }
    }
}

// The plain records of a search.
ghost use Rattle.std.specs.Prelude.{◌≡◌};
ghost use Rattle.worksheet.specs.Problem.{asked};

use network::plans::Plan;
use network::refusals::Stop;

// What is asked: a walk from `start` to `goal` that takes at most `limit` microseconds.
#[derive(Clone, Copy, PartialEq, Eq, Default, Debug)]
pub struct Query {
    pub start: u16,
    pub goal: u16,
    pub limit: u32,
}

// The question that a plan puts.
impl From<Plan> for Query {
    ghost from_gives = { λ plan query. query ≡ asked plan };

    fn from(plan: Plan) -> Query {
        Query {
            start: plan.start,
            goal: plan.goal,
            limit: plan.limit,
        }
    }
}

// What a walk comes to.
#[derive(Clone, Copy, PartialEq, Eq, Default, Debug)]
pub struct Mark {
    pub cost: u64,
    pub delay: u32,
}

// Where a label comes from: the label before it, and the leg between the two.
#[derive(Clone, Copy, PartialEq, Eq, Debug)]
pub struct Origin {
    pub parent: usize,
    pub leg: u16,
}

// A walk from the start, by its end: the site, what it comes to, and the label and leg before it. Label 0 is the empty
// walk, which has no origin.
#[derive(Clone, Copy, PartialEq, Eq, Default, Debug)]
pub struct Label {
    pub mark: Mark,
    pub site: u16,
    pub from: Option<Origin>,
}

// A label that is due to be written, with its estimated cost.
#[derive(Clone, Copy)]
pub struct Due {
    pub label: Label,
    pub estimate: u64,
}

// How far a search has come. `Found` has the label at the goal and what its walk comes to.
#[derive(Clone, Copy, PartialEq, Eq, Default, Debug)]
pub enum Phase {
    #[default]
    Fresh,
    Open,
    Found(usize, Mark),
    Exhausted,
    Stopped(Stop),
}

// The steps that the plans of a sheet may still take.
ghost use Rattle.std.specs.Prelude.{◌≡◌};
ghost use Rattle.planner.specs.Tallies.{allowing, left_for, reduced, whole};

// How many steps the searches for the plans of a sheet may make, all together.
const BUDGET: u32 = 50_000;

// What is left of them. It is asked and reduced for a broker, by the broker's number; all brokers draw on one record.
#[derive(Clone, Copy, PartialEq, Eq, Debug)]
pub struct Tally {
    steps: u32,
}

impl Tally {
    // The tally at the start of a sheet.
    pub fn new() -> Tally
        ensures { result ≡ whole }
    {
        Tally { steps: BUDGET }
    }

    // A tally with so many steps left.
    pub fn of(steps: u32) -> Tally
        ensures { result ≡ allowing steps }
    {
        Tally { steps }
    }

    // What is left for a broker.
    pub fn left(&self, _broker: u16) -> u32
        ensures { result ≡ left_for self.now _broker }
    {
        self.steps
    }

    // Takes steps off what is left for a broker; nothing is left where there are too few.
    pub fn take(&mut self, broker: u16, steps: u32)
        ensures { self.new ≡ reduced self.old broker steps }
    {
        *self = Tally::of(self.left(broker).saturating_sub(steps));
    }
}

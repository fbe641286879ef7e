// What a broker asks for.
ghost use Rattle.std.specs.Prelude.{◌≡◌};
ghost use Rattle.network.specs.Plans.{plan_in_range};

use crate::limits::*;

// A route from `start` to `goal` that takes at most `limit` microseconds, for a broker by its number.
#[derive(Clone, Copy, PartialEq, Eq, Debug)]
pub struct Plan {
    pub broker: u16,
    pub start: u16,
    pub goal: u16,
    pub limit: u32,
}

impl Plan {
    // Each field is in its range, the two sites being below `sites`.
    pub fn is_in_range(&self, sites: u16) -> bool
        ensures { result ≡ plan_in_range sites self.now }
    {
        self.broker <= LAST_BROKER
            && self.start < sites
            && self.goal < sites
            && self.limit <= MOST_LIMIT
    }
}

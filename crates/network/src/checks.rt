// The tests of a network and its leg table that come before any work on them.
ghost use Rattle.std.specs.Prelude.{◌≡◌, ◌^◌, ◌<◌, length, None};
ghost use Rattle.network.specs.Legs.{leg_in_range};
ghost use Rattle.network.specs.Checks.{answer_by, first_failing, network_refusal, sizes_fit};

use crate::legs::*;
use crate::limits::*;
use crate::refusals::Refusal;

// The number of the first leg with a field outside its range.
fn first_out_of_range(legs: &[Leg], sites: u16) -> Option<u16>
    requires { length legs.now < 2 ^ 16 }
    ensures { result ≡ first_failing (leg_in_range sites) 0 legs.now }
{
    legs.iter()
        .position(|leg| !leg.is_in_range(sites))
        .map(|i| i as u16)
}

impl Network {
    fn sizes_fit(&self, table: usize) -> bool
        ensures { result ≡ sizes_fit self.now table }
    {
        (1..=MOST_SITES).contains(&self.sites)
            && self.legs <= MOST_LEGS
            && usize::from(self.legs) <= table
    }

    // Why the network with its leg table is refused, if it is: its sizes, or the first of its legs with a field outside its range.
    pub fn refusal(&self, table: &[Leg]) -> Option<Refusal>
        ensures { result ≡ network_refusal self.now table.now None }
    {
        if !self.sizes_fit(table.len()) {
            return Some(Refusal::Size);
        }
        first_out_of_range(self.legs_in(table), self.sites).map(Refusal::LegRange)
    }

    // The same as an error.
    pub fn check(&self, table: &[Leg]) -> Result<(), Refusal>
        ensures { result ≡ answer_by (network_refusal self.now table.now None) }
    {
        self.refusal(table).map_or(Ok(()), Err)
    }
}

// Networks and questions drawn from a seed: the same seed gives the same ones.
ghost use Rattle.std.specs.Prelude.{◌≤◌};

use network::legs::*;
use std::alloc::{AllocError, Global};
use worksheet::records::Query;

// A linear congruential generator of 64 bits, of which the upper half is used.
#[derive(Clone, Copy)]
pub struct Draws {
    state: u64,
}

// A network with its legs, and what is asked of it.
#[derive(Drop)]
pub struct Question {
    pub network: Network,
    pub legs: Vec<Leg>,
    pub query: Query,
}

impl Draws {
    pub(crate) fn new(seed: u32) -> Draws {
        Draws {
            state: u64::from(seed),
        }
    }

    // The next number, from 0 to `most`.
    pub(crate) fn up_to(&mut self, most: u16) -> u16
        ensures { result ≤ most }
    {
        self.state = self
            .state
            .wrapping_mul(6_364_136_223_846_793_005)
            .wrapping_add(1_442_695_040_888_963_407);
        let upper = self.state >> 32;
        (upper % (u64::from(most) + 1)) as u16
    }

    // One of the sites 0 to `last`; the site `other` is drawn once more, so that it is rare.
    fn site(&mut self, last: u16, other: u16) -> u16
        ensures { result ≤ last }
    {
        let site = self.up_to(last);
        if site == other {
            return self.up_to(last);
        }
        site
    }

    // A leg of a network with the sites 0 to `last`. Fees, grades and delays are small, so that ties and zeros are common. Most
    // legs have a delay that falls with the fee, so that limits matter, and a quarter have a medium of any kind.
    fn leg(&mut self, last: u16) -> Leg {
        let tail = self.up_to(last);
        let head = self.site(last, tail);
        let fee = self.up_to(9);
        let (grade, stated) = if self.up_to(3) == 0 {
            (self.up_to(9), self.up_to(9))
        } else {
            (fee, 9 - fee)
        };
        let medium = if self.up_to(3) == 0 { self.up_to(7) } else { 0 };
        Leg {
            tail,
            head,
            fee: u32::from(fee),
            grade: grade as u8,
            stated: u32::from(stated),
            medium: medium as u8,
        }
    }

    // A network of 1 to 6 sites and 0 to 16 legs, and a question with a limit from 0 to 30.
    pub(crate) fn question(&mut self, heap: Global) -> Result<Question, AllocError> {
        let last = self.up_to(5);
        let count = self.up_to(8) + self.up_to(8);
        let legs = (0..count).map(|_| self.leg(last)).collect(heap)?;
        let network = Network {
            sites: last + 1,
            legs: count,
        };
        let start = self.up_to(last);
        let goal = self.site(last, start);
        let most = if self.up_to(2) == 0 { 30 } else { 15 };
        let query = Query {
            start,
            goal,
            limit: u32::from(self.up_to(most)),
        };
        Ok(Question {
            network,
            legs,
            query,
        })
    }
}

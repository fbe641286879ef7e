// Legs and the network that they make.
ghost use Rattle.std.specs.Prelude.{◌≡◌, ◌^◌, ◌<◌, ◌≤◌, length};
ghost use Rattle.network.specs.Legs.{handover as handover_of, leg_delay, leg_in_range};
ghost use Rattle.network.specs.Checks.{legs_of};

use crate::limits::*;

// The extra delay of handing over to the equipment of each medium, in microseconds.
const HANDOVERS: [u32; 8] = [0, 5, 12, 20, 35, 60, 90, 150];

// One circuit that a carrier offers, from the site `tail` to the site `head`. A higher grade is worse. `stated` is the
// delay that the carrier states, in microseconds.
#[derive(Clone, Copy, PartialEq, Eq, Default, Debug)]
pub struct Leg {
    pub tail: u16,
    pub head: u16,
    pub fee: u32,
    pub stated: u32,
    pub grade: u8,
    pub medium: u8,
}

// How many sites and legs there are; both are numbered from 0. The legs stand in a table beside it.
#[derive(Clone, Copy, PartialEq, Eq, Default, Debug)]
pub struct Network {
    pub sites: u16,
    pub legs: u16,
}

// The handover delay of a medium; 0 for a number that is no medium.
fn handover(medium: u8) -> u32
    ensures value { result ≡ handover_of medium }
    ensures bound { result ≤ 150 }
{
    HANDOVERS.get(usize::from(medium)).copied().unwrap_or(0)
}

impl Leg {
    // The leg's delay in microseconds: what is stated, and the handover delay of its medium.
    pub fn delay(&self) -> u64
        ensures value { result ≡ leg_delay self.now }
        ensures bound { result < 2 ^ 33 }
    {
        u64::from(self.stated) + u64::from(handover(self.medium))
    }

    // Each field is in its range, the two sites being below `sites`.
    pub fn is_in_range(&self, sites: u16) -> bool
        ensures { result ≡ leg_in_range sites self.now }
    {
        self.tail < sites
            && self.head < sites
            && self.fee <= MOST_FEE
            && self.grade <= WORST_GRADE
            && self.stated <= MOST_DELAY
            && self.medium <= LAST_MEDIUM
    }
}

impl Network {
    // The network's legs: the front of their table, and all of it where it is too short.
    pub fn legs_in<'a>(&self, table: &'a [Leg]) -> &'a [Leg]
        ensures legs { result.now ≡ legs_of self.now table.now }
        ensures few { length result.now < 2 ^ 16 }
    {
        &table[..usize::from(self.legs).min(table.len())]
    }
}

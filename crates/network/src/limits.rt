// The greatest numbers that a network, a leg, a plan and a search may have. There is at least one site.

// How many sites and how many legs a network has at the most.
pub const MOST_SITES: u16 = 1_024;

pub const MOST_LEGS: u16 = 4_096;

// The greatest fee of a leg.
pub const MOST_FEE: u32 = 1_000_000;

// The worst grade of a leg.
pub const WORST_GRADE: u8 = 255;

// The greatest delay that a carrier states, in microseconds.
pub const MOST_DELAY: u32 = 100_000;

// The last of the media, which are numbered from 0.
pub const LAST_MEDIUM: u8 = 7;

// The greatest number of a broker.
pub const LAST_BROKER: u16 = 999;

// The greatest limit of a plan, in microseconds.
pub const MOST_LIMIT: u32 = 1_000_000;

// How many label records a search has at the most.
pub const MOST_LABELS: usize = 65_536;

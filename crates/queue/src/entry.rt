// What a queue holds: a label of the search that is still to be taken up, by its number, with what it
// is ranked by.
//
// Entries are ranked by estimated cost, then cost, then delay, then label number, and the least comes
// first. No two labels of a search have one number, so no two of its entries are equal. A comparison looks
// at no more fields than it takes to tell two entries apart.
ghost use Rattle.std.specs.Prelude.{◌≡◌};
ghost use Rattle.queue.specs.Order.{before};

#[derive(Clone, Copy, PartialEq, Eq, PartialOrd, Ord, Debug)]
pub struct Entry {
    // A lower bound on the cost of a whole route through the label.
    pub estimate: u64,
    // The label's cost and delay so far.
    pub cost: u64,
    pub delay: u32,
    // The label's number.
    pub label: usize,
}

// A queue refused an entry, since it holds its capacity.
#[derive(Clone, Copy, PartialEq, Eq, Debug)]
pub struct Full;

impl Entry {
    // Whether the entry is handed out strictly before another.
    pub fn precedes(&self, other: &Entry) -> bool
        ensures { result ≡ before self.now other.now }
    {
        self < other
    }
}

// The second implementation: what a route comes to, found without labels, estimates or queues.
//
// The cheapest walk within a limit is read off a table with a cell for each site and each delay up to the limit, the least
// cost of all walks from the start that end there and take exactly that long; legs are followed from every cell until no
// cell falls. What a site's walks to a goal cost and take at the least is read off a list of all walks that enter no site twice.
// Of the planner's code neither uses more than the plain records of legs.
ghost use Rattle.std.specs.Prelude.{◌≡◌, ◌+◌, ◌-◌, ◌^◌, ◌≤◌, min, IfSome};
ghost use Rattle.network.specs.Legs.{handover as handover_of, leg_delay};
ghost use Rattle.crosscheck.specs.Agreement.{priced, WalkWith};
ghost use Rattle.crosscheck.specs.Rates.{terms_of};

use network::legs::Leg;
use std::alloc::{AllocError, Global};

// The handover delay of each medium, in microseconds.
const HANDOVERS: [u64; 8] = [0, 5, 12, 20, 35, 60, 90, 150];

// How a walk is priced: by its fees in all, or by its worst grade.
#[derive(Clone, Copy)]
pub enum Rate {
    Fees,
    Grades,
}

// The legs of a network, how many sites it has, and how its walks are priced.
#[derive(Clone, Copy)]
pub struct Graph<'a> {
    pub sites: u16,
    pub legs: &'a [Leg],
    pub rate: Rate,
}

// What a walk comes to: the empty walk costs nothing and takes no time.
#[derive(Clone, Copy, PartialEq, Eq, Default)]
pub struct Figures {
    pub cost: u64,
    pub delay: u64,
}

// A walk that enters no site twice, by its end: the sites that it has entered, as bits, and what it comes to.
#[derive(Clone, Copy)]
struct Walk {
    site: u16,
    entered: u64,
    figures: Figures,
}

impl Rate {
    pub(crate) fn price(&self, leg: &Leg) -> u64
        ensures { result ≡ (terms_of self.now).price leg.now.fee leg.now.grade }
    {
        match self {
            Rate::Fees => u64::from(leg.fee),
            Rate::Grades => u64::from(leg.grade),
        }
    }

    pub(crate) fn join(&self, a: u64, b: u64) -> u64
        ensures { result ≡ (terms_of self.now).join a b }
    {
        match self {
            Rate::Fees => a.saturating_add(b),
            Rate::Grades => a.max(b),
        }
    }

    // What a walk comes to that goes on by a leg.
    pub(crate) fn onward(&self, figures: Figures, leg: &Leg) -> Figures
        ensures cost { result.cost ≡ (terms_of self.now).join figures.cost ((terms_of self.now).price leg.now.fee leg.now.grade) }
        ensures delay { result.delay ≡ min (figures.delay + leg_delay leg.now) (2 ^ 64 - 1) }
    {
        Figures {
            cost: self.join(figures.cost, self.price(leg)),
            delay: figures.delay.saturating_add(delay_of(leg)),
        }
    }
}

// The handover delay of a medium; 0 for a number that is no medium.
fn handover(medium: u8) -> u64
    ensures value { result ≡ handover_of medium }
    ensures bound { result ≤ 150 }
{
    HANDOVERS.get(usize::from(medium)).copied().unwrap_or(0)
}

// The leg's delay: what is stated, and the handover delay of its medium.
#[tactic(auto, unfolding(network::specs::Legs::leg_delay))]
pub(crate) fn delay_of(leg: &Leg) -> u64
    ensures { result ≡ leg_delay leg.now }
{
    u64::from(leg.stated) + handover(leg.medium)
}

// The least cost of the walks from the start to each site that take exactly each delay up to the limit, in a row for each
// site; none where there is no such walk.
#[derive(Drop)]
struct Table {
    limit: u32,
    rows: Vec<Vec<Option<u64>>>,
}

impl Table {
    // A table without walks.
    fn new(heap: Global, sites: u16, limit: u32) -> Result<Table, AllocError> {
        let row = |_| vec![in heap; None; limit as usize + 1];
        let rows = (0..sites).map(row).try_collect(heap)?;
        Ok(Table { limit, rows })
    }

    // The cost that stands for a site and a delay.
    fn cost(&self, site: u16, delay: u64) -> Option<u64> {
        *self.rows.get(usize::from(site))?.get(delay as usize)?
    }

    // Lowers the cell of a site to what a walk comes to, if that costs less, and answers whether it did.
    fn lower(&mut self, site: u16, walk: Figures) -> bool {
        let row = self.rows.get_mut(usize::from(site));
        let Some(cell) = row.and_then(|row| row.get_mut(walk.delay as usize)) else {
            return false;
        };
        let falls = cell.is_none_or(|known| walk.cost < known);
        if falls {
            *cell = Some(walk.cost);
        }
        falls
    }

    // Follows a leg from every cell of its tail, and answers whether a cell fell.
    fn follow(&mut self, leg: &Leg, rate: Rate) -> bool {
        let mut fell = false;
        for delay in 0..=u64::from(self.limit) {
            if let Some(cost) = self.cost(leg.tail, delay) {
                fell |= self.lower(leg.head, rate.onward(Figures { cost, delay }, leg));
            }
        }
        fell
    }

    // Follows every leg, and answers whether a cell fell.
    fn follow_all(&mut self, graph: &Graph) -> bool {
        let mut fell = false;
        for leg in graph.legs {
            fell |= self.follow(leg, graph.rate);
        }
        fell
    }

    // What the cheapest walk to a site comes to, and of those the one that takes least.
    fn cheapest(&self, site: u16) -> Option<Figures> {
        (0..=u64::from(self.limit))
            .filter_map(|delay| self.cost(site, delay).map(|cost| Figures { cost, delay }))
            .min_by_key(|walk| walk.cost)
    }
}

impl Walk {
    // The walk goes on by a leg, unless the leg starts elsewhere or its head was entered before.
    fn by(&self, leg: &Leg, rate: Rate) -> Option<Walk> {
        let entered = self.entered | bit(leg.head);
        if leg.tail != self.site || entered == self.entered {
            return None;
        }
        Some(Walk {
            site: leg.head,
            entered,
            figures: rate.onward(self.figures, leg),
        })
    }
}

// The bit of a site; there are at most 64.
fn bit(site: u16) -> u64 {
    1 << (site % 64)
}

// The least cost and, by itself, the least delay of two walks.
fn least(a: Figures, b: Figures) -> Figures {
    Figures {
        cost: a.cost.min(b.cost),
        delay: a.delay.min(b.delay),
    }
}

impl<'a> Graph<'a> {
    // What the cheapest walk from a start to a goal within a limit comes to, and of those the one that takes least; none where
    // there is no such walk. A walk that costs least for its end and delay needs to come to no site twice at one delay, so as
    // many rounds as there are cells are enough.
    pub(crate) fn cheapest_within(
        &self,
        heap: Global,
        start: u16,
        goal: u16,
        limit: u32,
    ) -> Result<Option<Figures>, AllocError> {
        let mut table = Table::new(heap, self.sites, limit)?;
        let _ = table.lower(start, Figures::default());
        for _ in 0..u64::from(self.sites) * (u64::from(limit) + 1) {
            if !table.follow_all(self) {
                break;
            }
        }
        Ok(table.cheapest(goal))
    }

    // All walks that are one of these and a leg more.
    fn longer(&self, heap: Global, walks: &[Walk]) -> Result<Vec<Walk>, AllocError> {
        let Graph { legs, rate, .. } = *self;
        walks
            .iter()
            .flat_map(|walk| legs.iter().filter_map(move |leg| walk.by(leg, rate)))
            .collect(heap)
    }

    // The least cost and, by itself, the least delay of all walks from a site to a goal; none where there is none. No walk gets
    // cheaper or sooner by entering a site twice, and one that does not has fewer legs than there are sites.
    pub(crate) fn nearest(
        &self,
        heap: Global,
        site: u16,
        goal: u16,
    ) -> Result<Option<Figures>, AllocError> {
        let empty = Walk {
            site,
            entered: bit(site),
            figures: Figures::default(),
        };
        let mut walks = vec![in heap; empty]?;
        let mut nearest = None;
        for _ in 0..self.sites {
            let at_goal = walks.iter().filter(|walk| walk.site == goal);
            let figures = at_goal.map(|walk| walk.figures);
            nearest = nearest.into_iter().chain(figures).reduce(least);
            walks = self.longer(heap, &walks)?;
        }
        Ok(nearest)
    }

    // What the legs with these numbers come to; none where they are no walk from the start to the goal.
    pub(crate) fn walk_figures(&self, numbers: &[u16], start: u16, goal: u16) -> Option<Figures>
        ensures { IfSome result (WalkWith (priced self.now) start goal numbers.now) }
    {
        let mut site = start;
        let mut figures = Figures::default();
        for number in numbers {
            let leg = self.legs.get(usize::from(*number))?;
            if leg.tail != site {
                return None;
            }
            site = leg.head;
            figures = self.rate.onward(figures, leg);
        }
        (site == goal).then_some(figures)
    }
}

// What an estimate is, and two of them. An engineer plugs in another by an impl of `Estimate`.
ghost use Rattle.std.specs.Prelude.{◌≡◌, ℕ, Option};
ghost use Rattle.network.specs.declared.estimates.Bound.{Bound};
ghost use Rattle.network.specs.Estimates.{blank_at, tables_at};

// What is left to pay and to wait from a site to the goal, at the least.
#[derive(Clone, Copy, PartialEq, Eq, Default, Debug)]
pub struct Bound {
    pub cost: u64,
    pub delay: u32,
}

// Bounds what is left from each site to a goal, or says that the site is cut off from it. What it means is `at`; a
// question is answered by that meaning and changes nothing.
pub trait Estimate {
    ghost at: { Self → ℕ → Option Bound };

    fn at(&self, site: u16) -> Option<Bound>
        ensures { result ≡ at self.now site };
}

// Bounds nothing: 0 and 0 at every site.
#[derive(Clone, Copy, Debug)]
pub struct Blank;

impl Estimate for Blank {
    ghost at = { λ _. blank_at };

    fn at(&self, _site: u16) -> Option<Bound> {
        Some(Bound::default())
    }
}

// Reads two tables, by site: costs, and delays. The delay 4,294,967,295 marks a site that is cut off, and so is a site
// beyond either table.
#[derive(Clone, Copy)]
pub struct Reached<'a> {
    pub costs: &'a [u64],
    pub delays: &'a [u32],
}

impl<'a> Estimate for Reached<'a> {
    ghost at = { λ e. tables_at e.costs.now e.delays.now };

    fn at(&self, site: u16) -> Option<Bound> {
        let cost = *self.costs.get(usize::from(site))?;
        let delay = *self.delays.get(usize::from(site))?;
        (delay != u32::MAX).then_some(Bound { cost, delay })
    }
}

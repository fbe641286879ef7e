// An estimate of one's own: a region that is known to lead nowhere.
ghost use Rattle.std.specs.Prelude.{◌≡◌};
ghost use Rattle.own_parts.specs.Parts.{is_among, outside_at, EnclosedRegionIsLawful};

use network::estimates::{Bound, Estimate};

// Cuts off the sites of a region, and bounds nothing elsewhere. It is lawful where no leg leads out of the region and the goal is
// not in it.
#[derive(Clone, Copy)]
pub struct Outside<'a> {
    pub region: &'a [u16],
}

impl Outside<'_> {
    fn cuts_off(&self, site: u16) -> bool
        ensures { result ≡ is_among self.now.region.now site }
    {
        self.region.iter().any(|s| *s == site)
    }
}

impl<'a> Estimate for Outside<'a> {
    ghost at = { λ e. outside_at e.region.now };

    fn at(&self, site: u16) -> Option<Bound> {
        (!self.cuts_off(site)).then_some(Bound::default())
    }
}

// What is proved of it, as the contract of a function that does nothing.
#[tactic(auto, using(crate::proofs::Enclosing::enclosed_region_is_lawful))]
pub fn enclosed_region_is_lawful() -> u8
    ensures { EnclosedRegionIsLawful }
{
    0
}

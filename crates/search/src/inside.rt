// Whether a number that a step uses leads outside its table.
ghost use Rattle.std.specs.Prelude.{◌≡◌};
ghost use Rattle.network.specs.Checks.{legs_of};
ghost use Rattle.worksheet.specs.Problem.{is_whole};
ghost use Rattle.worksheet.specs.Steps.{leads_inside, leg_inside, label_inside};
ghost use Rattle.search.specs.Parts.{all_inside};

use crate::lent::Lent;
use crate::record::Search;
use network::legs::*;
use network::limits::LAST_MEDIUM;
use worksheet::records::*;

// The leg has a medium and leads to one of the sites that have a least-delay record.
fn leads_inside(leg: &Leg, records: usize) -> bool
    ensures { result ≡ leads_inside records leg.now }
{
    usize::from(leg.head) < records && leg.medium <= LAST_MEDIUM
}

// The same, if it leaves the site.
fn leg_inside(leg: &Leg, site: u16, records: usize) -> bool
    ensures { result ≡ leg_inside records site leg.now }
{
    leg.tail != site || leads_inside(leg, records)
}

// The leg table holds all legs, and each of them is inside. Where this is so, no step needs to ask about the legs of its site.
pub(crate) fn all_inside(network: &Network, table: &[Leg], records: usize) -> bool
    ensures { result ≡ all_inside records network.now table.now }
{
    let Some(legs) = table.get(..usize::from(network.legs)) else {
        return false;
    };
    legs.iter().all(|leg| leads_inside(leg, records))
}

impl Search {
    // Label `i`, unless a number that a step with it uses leads outside its table. `sound` says whether all legs are inside,
    // so that one answer serves all steps of a call.
    pub(crate) fn label_inside<T, E>(
        &self,
        i: usize,
        sound: bool,
        lent: &Lent<T, E>,
        labels: &[Label],
        records: usize,
    ) -> Option<Label>
        requires { sound ≡ all_inside records lent.now.network.now lent.now.table.now }
        ensures { result ≡ label_inside records (is_whole lent.now.network.now lent.now.table.now) (legs_of lent.now.network.now lent.now.table.now) self.now.count labels.now i }
    {
        let label = *self.recorded(labels).get(i)?;
        let legs = lent.table.get(..usize::from(lent.network.legs))?;
        if usize::from(label.site) >= records {
            return None;
        }
        (sound || legs.iter().all(|leg| leg_inside(leg, label.site, records))).then_some(label)
    }
}

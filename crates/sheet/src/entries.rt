// What a line of each kind states, by its fields: their number is tested first, then the form of each, then the range of each.
ghost use Rattle.std.specs.Prelude.{◌≡◌, Some};
ghost use Rattle.sheet.specs.Text.{fields};
ghost use Rattle.sheet.specs.Entries.{leg_of, plan_of, sites_of, refused_by, entry_by, leg_entry, plan_entry, network_entry};
ghost use Rattle.sheet.specs.Numbers.{numbers_of};

use crate::text::*;
use network::legs::Leg;
use network::limits::MOST_SITES;
use network::plans::Plan;
use network::refusals::Refusal;

impl Fault {
    // The refusal of the line that has it.
    fn at(self, line: u64) -> Refusal
        ensures { result ≡ refused_by line self }
    {
        match self {
            Fault::Count => Refusal::FieldCount(line),
            Fault::Form => Refusal::FieldForm(line),
        }
    }
}

fn ranged_sites(values: [u64; 1]) -> Option<u16>
    ensures { result ≡ sites_of values }
{
    let [sites] = values;
    let sites = u16::try_from(sites).ok()?;
    (1..=MOST_SITES).contains(&sites).then_some(sites)
}

fn ranged_leg(values: [u64; 6], sites: u16) -> Option<Leg>
    ensures { result ≡ leg_of sites values }
{
    let [tail, head, fee, grade, stated, medium] = values;
    let leg = Leg {
        tail: u16::try_from(tail).ok()?,
        head: u16::try_from(head).ok()?,
        fee: u32::try_from(fee).ok()?,
        grade: u8::try_from(grade).ok()?,
        stated: u32::try_from(stated).ok()?,
        medium: u8::try_from(medium).ok()?,
    };
    leg.is_in_range(sites).then_some(leg)
}

fn ranged_plan(values: [u64; 4], sites: u16) -> Option<Plan>
    ensures { result ≡ plan_of sites values }
{
    let [broker, start, goal, limit] = values;
    let plan = Plan {
        broker: u16::try_from(broker).ok()?,
        start: u16::try_from(start).ok()?,
        goal: u16::try_from(goal).ok()?,
        limit: u32::try_from(limit).ok()?,
    };
    plan.is_in_range(sites).then_some(plan)
}

// What follows a line's word, with the line's number.
#[derive(Clone, Copy)]
pub(crate) struct Entry<'a> {
    pub rest: &'a [u8],
    pub line: u64,
}

impl Entry<'_> {
    // Its `N` numbers.
    fn numbers<const N: usize>(self) -> Result<[u64; N], Refusal>
        ensures { result ≡ entry_by self.entry.line Some (numbers_of N (fields self.entry.rest.now)) }
    {
        numbers(self.rest).map_err(|fault| fault.at(self.line))
    }

    // The number of sites that a network line states.
    pub(crate) fn sites(self) -> Result<u16, Refusal>
        ensures { result ≡ network_entry self.entry.line (fields self.entry.rest.now) }
    {
        ranged_sites(self.numbers()?).ok_or(Refusal::FieldRange(self.line))
    }

    // The leg that a leg line states.
    pub(crate) fn leg(self, sites: u16) -> Result<Leg, Refusal>
        ensures { result ≡ leg_entry sites self.entry.line (fields self.entry.rest.now) }
    {
        ranged_leg(self.numbers()?, sites).ok_or(Refusal::FieldRange(self.line))
    }

    // The plan that a plan line states.
    pub(crate) fn plan(self, sites: u16) -> Result<Plan, Refusal>
        ensures { result ≡ plan_entry sites self.entry.line (fields self.entry.rest.now) }
    {
        ranged_plan(self.numbers()?, sites).ok_or(Refusal::FieldRange(self.line))
    }
}

// A whole sheet, checked.
ghost use Rattle.std.specs.Prelude.{◌≡◌};
ghost use Rattle.sheet.specs.Check.{checked};
ghost use Rattle.embed.specs.Records.{check_record};

use network::legs::*;
use network::limits::MOST_LEGS;
use sheet::check::check_sheet;

// There is room for as many legs as a network may have.
pub(crate) const LEGS: usize = MOST_LEGS as usize;

// What checking a sheet comes to. The number is 0 for a sound sheet, which has so many sites, legs and plans; otherwise it
// is the number of the first refusal, and the line is the one at fault.
#[repr(C)]
#[derive(Clone, Copy, PartialEq, Eq, Default, Debug)]
pub struct SheetCheck {
    pub plans: u64,
    pub line: u64,
    pub sites: u16,
    pub legs: u16,
    pub number: u8,
}

// Checks a sheet from its first line to its last, with a table for 4,096 legs.
#[unsafe(no_mangle)]
pub extern "C" fn deqibur_check_sheet(sheet: &[u8]) -> SheetCheck
    ensures { result ≡ check_record (checked 4096 sheet.now) }
{
    let mut table = [Leg::default(); LEGS];
    match check_sheet(sheet, &mut table) {
        Ok(summary) => SheetCheck {
            plans: summary.plans,
            sites: summary.network.sites,
            legs: summary.network.legs,
            ..SheetCheck::default()
        },
        Err(why) => SheetCheck {
            line: why.line().unwrap_or(0),
            number: why.number(),
            ..SheetCheck::default()
        },
    }
}

// A whole sheet, checked.
ghost use Rattle.std.specs.Prelude.{◌≡◌, length};
ghost use Rattle.sheet.specs.Text.{lines};
ghost use Rattle.sheet.specs.Sheets.{loaded_from};
ghost use Rattle.sheet.specs.Calls.{fronted, rows_left};
ghost use Rattle.sheet.specs.Check.{checked, plans_from};

use crate::reader::Reader;
use network::legs::*;
use network::refusals::Refusal;

// What a sound sheet has: its network, and how many plans.
#[derive(Clone, Copy, PartialEq, Eq, Debug)]
pub struct Summary {
    pub network: Network,
    pub plans: u64,
}

impl Reader<'_> {
    // Reads all the plans that are left, and answers how many there are.
    fn count_plans(&mut self, network: &Network) -> Result<u64, Refusal>
        ensures { result ≡ plans_from self.old.loaded network.now.sites self.old.line 0 (rows_left self.old) }
    {
        let mut plans: u64 = 0;
        while self.next(network)?.is_some() {
            plans = plans.saturating_add(1);
        }
        Ok(plans)
    }
}

// Reads a sheet from its first line to its last, its legs into the front of the table, and answers what it has, or its
// first refusal.
pub fn check_sheet(sheet: &[u8], table: &mut [Leg]) -> Result<Summary, Refusal>
    ensures answer { result ≡ checked (length table.old) sheet.now }
    ensures legs { table.new ≡ fronted (loaded_from (length table.old) (lines sheet.now)).legs table.old }
{
    let mut reader = Reader::new(sheet);
    let mut network = Network::default();
    reader.load(&mut network, table)?;
    let plans = reader.count_plans(&network)?;
    Ok(Summary { network, plans })
}

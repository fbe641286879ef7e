// A sheet, and the text that answers its plans.
ghost use Rattle.std.specs.Prelude.{◌≡◌, ℕ, true, List, ◌++◌, take, IfOk, OnOk};
ghost use Rattle.network.specs.Tariffs.{total_fee};
ghost use Rattle.planner.specs.Serves.{ground};
ghost use Rattle.planner.specs.Desks.{desk_of, room};
ghost use Rattle.planner.specs.Tallies.{whole};
ghost use Rattle.sheet.specs.Calls.{moved, next_of};
ghost use Rattle.report.specs.Reports.{NextServed, PlansTold, SheetTold, Reports, batch_room};

use crate::lines::{Refused, push_end, push_plan};
use network::legs::*;
use network::plans::Plan;
use network::refusals::Refusal;
use network::tariffs::TotalFee;
use planner::desk::Desk;
use planner::tally::Tally;
use search::record::Verdict;
use sheet::reader::Reader;
use std::alloc::{AllocError, Global};

// The room that a sheet is planned with: tables for so many sites and for so many legs, and so many label records, with a queue for
// as many entries.
#[derive(Clone, Copy, PartialEq, Eq, Debug)]
pub struct Room {
    pub sites: usize,
    pub legs: usize,
    pub labels: usize,
}

// Reads the next plan and serves it at the desk by the total fee, or tells that none is left.
fn serve_next(
    reader: &mut Reader<'_>,
    network: &Network,
    table: &[Leg],
    desk: &mut Desk,
    tally: &mut Tally,
) -> Result<Option<(Plan, Verdict)>, Refusal>
    ensures served { NextServed (ground network.now table.now total_fee (room desk.old)) (next_of network.now.sites reader.old) (desk_of desk.old tally.old) result (desk_of desk.new tally.new) }
    ensures reader { OnOk result (reader.new ≡ moved reader.old (next_of network.now.sites reader.old).at (next_of network.now.sites reader.old).line) }
    ensures same_room { room desk.new ≡ room desk.old }
{
    let Some(plan) = reader.next(network)? else {
        return Ok(None);
    };
    let verdict = desk.serve(plan, network, table, &TotalFee, tally)?;
    Ok(Some((plan, verdict)))
}

// Serves the plans that are left and adds a line for each, until none is left or one is refused; answers the refusal.
#[tactic(auto, using(sheet::proofs::Moving::less_is_left))]
fn tell_plans(
    heap: Global,
    reader: &mut Reader<'_>,
    network: &Network,
    table: &[Leg],
    desk: &mut Desk,
    tally: &mut Tally,
    text: &mut Vec<u8>,
) -> Result<Option<Refused>, AllocError>
    requires loaded { reader.old.loaded ≡ true }
    ensures { IfOk result (λ end. (more : List ℕ) × (text.new.items ≡ text.old.items ++ more) × PlansTold (ground network.now table.now total_fee (room desk.old)) reader.old.sheet.now reader.old.place reader.old.line (desk_of desk.old tally.old) more end) }
{
    'plans: loop {
        let line = reader.line();
        match serve_next(reader, network, table, desk, tally) {
            Ok(Some((plan, verdict))) => {
                let legs = desk.route(heap, network, table)?;
                push_plan(text, plan, verdict, &legs)?;
            }
            Ok(None) => return Ok(None),
            Err(why) => return Ok(Some(Refused { why, line })),
        }
    }
}

// The plans of a sheet, served from its tally.
fn tell_sheet(
    heap: Global,
    sheet: &[u8],
    room: Room,
    mut tally: Tally,
    text: &mut Vec<u8>,
) -> Result<Option<Refused>, AllocError>
    ensures { IfOk result (λ end. (more : List ℕ) × (text.new.items ≡ text.old.items ++ more) × SheetTold room sheet.now tally more end) }
{
    let mut table = Vec::from_elem(heap, Leg::default(), room.legs)?;
    let mut network = Network::default();
    let mut reader = Reader::new(sheet);
    if let Err(why) = reader.load(&mut network, &mut table) {
        let line = reader.line();
        return Ok(Some(Refused { why, line }));
    }
    let mut desk = Desk::new(heap, room.sites, room.labels)?;
    tell_plans(
        heap,
        &mut reader,
        &network,
        &table,
        &mut desk,
        &mut tally,
        text,
    )
}

// The text that answers a sheet, and the refusal that ended it, if one did.
#[derive(Drop)]
pub struct Report {
    pub text: Vec<u8>,
    pub refused: Option<Refused>,
}

// Answers the plans of a sheet one after another from one tally, with this room: the header, a line for each plan, and a last line
// where something is refused.
pub fn plan_within(
    heap: Global,
    sheet: &[u8],
    room: Room,
    tally: Tally,
) -> Result<Report, AllocError>
    ensures { IfOk result (λ x. Reports room sheet.now tally x.text.items x.refused) }
{
    let mut text = Vec::from_slice(heap, b"result,broker,steps,cost,delay,legs\n")?;
    let refused = tell_sheet(heap, sheet, room, tally, &mut text)?;
    push_end(&mut text, refused)?;
    Ok(Report { text, refused })
}

// How many bytes of its input the batch program reads as the sheet.
pub const SHEET: usize = 16_384;

// The room of the batch program.
pub const BATCH: Room = Room {
    sites: 64,
    legs: 256,
    labels: 1_024,
};

// Answers the plans of the sheet that the first bytes of the input are, from a whole tally, with the room of the batch program.
pub fn plan_sheet(heap: Global, input: &[u8]) -> Result<Report, AllocError>
    ensures { IfOk result (λ x. Reports batch_room (take 16384 input.now) whole x.text.items x.refused) }
{
    let sheet = &input[..input.len().min(SHEET)];
    plan_within(heap, sheet, BATCH, Tally::new())
}

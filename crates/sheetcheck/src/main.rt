// Checks a sheet: reads all of standard input, and writes what the sheet has, or its first refusal with the line at fault.
// Of a sound sheet it then tells, plan by plan, the least that a route can cost and take.
#![tactic(auto)]

ghost use Rattle.std.specs.Prelude.{◌≡◌, ℕ, ◌<◌, List, Some, IfSome, IfOk, OnOk, string_bytes};
ghost use Rattle.std.specs.Io.KnownBytes.{Appends};
ghost use Rattle.network.specs.Checks.{legs_of};
ghost use Rattle.network.specs.Estimates.{tables_at};
ghost use Rattle.network.specs.Tariffs.{total_fee};
ghost use Rattle.network.specs.Walks.{graph};
ghost use Rattle.reach.specs.Reaches.{Between};
ghost use Rattle.sheet.specs.Check.{checked};
ghost use Rattle.sheetcheck.specs.Lines.{line_at_fault, plan_line, top_lines, Tells};

use network::estimates::*;
use network::legs::*;
use network::limits::MOST_LEGS;
use network::plans::Plan;
use network::refusals::Refusal;
use network::tariffs::TotalFee;
use reach::tables::reach;
use sheet::check::{Summary, check_sheet};
use sheet::reader::Reader;
use std::alloc::{AllocError, Global};
use std::collections::BTreeMap;
use std::collections::btree_map::Entry;
use std::fmt::{self, Write};
use std::io::{self, Read};

// The line that a refusal carries; 0 where it carries none.
fn line_at_fault(refusal: &Refusal) -> u64
    ensures { result ≡ line_at_fault refusal.now }
{
    refusal.line().unwrap_or(0)
}

// What is wrong, for whoever typed the sheet.
fn advice(refusal: &Refusal) -> &'static str {
    match refusal {
        Refusal::TableFull(_) => "there is one leg too many; a sheet has room for 4096",
        _ => sheet::advice::advice(refusal),
    }
}

// The header and the answer, each as a line of text.
#[derive(Clone, Copy)]
struct TopLines<'a> {
    answer: &'a Result<Summary, Refusal>,
}

impl fmt::Display for TopLines<'_> {
    ghost output = { λ t. Some (top_lines t.answer.now) };

    fn fmt<W: fmt::Write>(&self, f: &mut fmt::Formatter<W>) -> fmt::Result {
        writeln!(f, "sheet,sites,legs,plans")?;
        match self.answer {
            Ok(Summary { network, plans }) => {
                let Network { sites, legs } = network;
                writeln!(f, "ok,{sites},{legs},{plans}")
            }
            Err(refusal) => {
                let number = refusal.number();
                let line = line_at_fault(refusal);
                writeln!(f, "refuse,{number},{line}")
            }
        }
    }
}

// What a plan's route will cost and take at the least, as one line of text.
#[derive(Clone, Copy)]
struct PlanLine {
    plan: Plan,
    least: Option<Bound>,
}

impl fmt::Display for PlanLine {
    ghost output = { λ l. Some (plan_line l.plan l.least) };

    fn fmt<W: fmt::Write>(&self, f: &mut fmt::Formatter<W>) -> fmt::Result {
        let Plan {
            broker,
            start,
            goal,
            limit,
        } = self.plan;
        match self.least {
            Some(Bound { cost, delay }) => {
                writeln!(f, "bounds,{broker},{start},{goal},{limit},{cost},{delay}")
            }
            None => writeln!(f, "unreachable,{broker},{start},{goal},{limit}"),
        }
    }
}

// The least cost and the least delay to one goal, by site.
#[derive(Drop)]
struct Tables {
    costs: Vec<u64>,
    delays: Vec<u32>,
}

impl Tables {
    // The tables towards a goal; none where the network, its legs or the goal are refused.
    fn towards(
        heap: Global,
        network: &Network,
        table: &[Leg],
        goal: u16,
    ) -> Result<Option<Tables>, AllocError>
        ensures { IfOk result (λ o. IfSome o (λ t. (u : ℕ) → u < network.now.sites → Between (graph total_fee (legs_of network.now table.now)) u goal (tables_at t.costs.items t.delays.items u))) }
    {
        let sites = usize::from(network.sites);
        let mut costs = vec![in heap; u64::MAX; sites]?;
        let mut delays = vec![in heap; u32::MAX; sites]?;
        let reached = reach(network, table, &TotalFee, goal, &mut costs, &mut delays);
        Ok(reached.ok().map(|()| Tables { costs, delays }))
    }
}

// As an estimate: what a walk from a site costs and takes at the least; none where there is no walk.
impl Estimate for Tables {
    ghost at = { λ t. tables_at t.costs.items t.delays.items };

    fn at(&self, site: u16) -> Option<Bound> {
        let estimate = Reached {
            costs: &self.costs,
            delays: &self.delays,
        };
        estimate.at(site)
    }
}

// The lines of all plans of a sound sheet. The tables towards a goal are made once.
#[tactic(auto, using(sheet::proofs::Moving::less_is_left))]
fn plan_lines(heap: Global, sheet: &[u8], table: &mut [Leg]) -> Result<String, AllocError> {
    let mut text = String::new(heap);
    let mut network = Network::default();
    let mut reader = Reader::new(sheet);
    if reader.load(&mut network, table).is_err() {
        return Ok(text);
    }
    let mut known = BTreeMap::new(heap);
    'plans: while let Ok(Some(plan)) = reader.next(&network) {
        let tables = match known.entry(plan.goal)? {
            Entry::Occupied(entry) => entry.into_mut(),
            Entry::Vacant(entry) => {
                let Some(tables) = Tables::towards(heap, &network, table, plan.goal)? else {
                    break;
                };
                entry.insert(tables)
            }
        };
        let least = tables.at(plan.start);
        let line = PlanLine { plan, least };
        write!(text, "{line}")?;
    }
    Ok(text)
}

// What is written of a sheet: the text, and the answer that it tells.
#[derive(Drop)]
struct Findings {
    text: String,
    answer: Result<Summary, Refusal>,
}

// Checks a sheet with room for 4,096 legs, and tells what it has or its first refusal; of a sound sheet the lines of its
// plans follow.
fn report(heap: Global, sheet: &[u8]) -> Result<Findings, AllocError>
    ensures answer { IfOk result (λ t. t.answer ≡ checked 4096 sheet.now) }
    ensures text { IfOk result (λ t. Tells t.answer (string_bytes t.text)) }
{
    let mut table = vec![in heap; Leg::default(); usize::from(MOST_LEGS)]?;
    let answer = check_sheet(sheet, &mut table);
    let top = TopLines { answer: &answer };
    let mut text = top.to_string(heap)?;
    if answer.is_ok() {
        text.push_str(plan_lines(heap, sheet, &mut table)?.as_str())?;
    }
    Ok(Findings { text, answer })
}

// Reads all of the input as a sheet, and writes what it has, or its first refusal.
fn run<R: Read + Drop, W: io::Write>(
    rt: &(impl Eprint + AllocGlobal),
    mut input: R,
    output: &mut W,
) -> io::Result<()>
    ensures { OnOk result (IfSome (R.remaining input) (λ bytes. (text : List ℕ) × Tells (checked 4096 bytes) text × Appends (W.contents output.old) (W.contents output.new) text)) }
{
    let heap = rt.alloc();
    let mut sheet = Vec::new(heap);
    input.read_to_end(&mut sheet)?;
    let report = report(heap, &sheet)?;
    output.write_all(report.text.as_bytes())?;
    if let Err(refusal) = report.answer {
        let line = line_at_fault(&refusal);
        let advice = advice(&refusal);
        let _ = eprintln!(rt; "line {line}: {advice}");
    }
    Ok(())
}

fn main(rt: HostRuntime) -> io::Result<()> {
    run(&rt, rt.stdin(), &mut io::writer(&rt))
}

// One plan over the network of a sheet.
ghost use Rattle.std.specs.Prelude.{◌≡◌, ℕ, List, [], IfOk, OnErr};
ghost use Rattle.network.specs.Tariffs.{total_fee};
ghost use Rattle.planner.specs.Serves.{ground, Serves};
ghost use Rattle.planner.specs.Fulfils.{Fulfils};
ghost use Rattle.planner.specs.Desks.{desk_of, room, sites};
ghost use Rattle.planner.specs.Tallies.{allowing};
ghost use Rattle.embed.specs.Answers.{plan_of, memory_short, refusal_record, verdict_record};
ghost use Rattle.embed.specs.Buffers.{laid};
ghost use Rattle.embed.specs.Requests.{Told, PlanAnswered, Answers};

use crate::checking::LEGS;
use crate::laying::lay;
use network::legs::*;
use network::limits::MOST_SITES;
use network::plans::Plan;
use network::refusals::Refusal;
use network::tariffs::TotalFee;
use planner::desk::Desk;
use planner::tally::Tally;
use search::record::*;
use sheet::reader::Reader;
use std::alloc::{AllocError, Global};
use worksheet::records::*;

// What is asked of the planner, and the room for it: a route from `start` to `goal` that takes at most `limit`
// microseconds, with so many label records, a queue for as many entries, and at most so many steps.
#[repr(C)]
#[derive(Clone, Copy, PartialEq, Eq, Debug)]
pub struct Request {
    pub labels: usize,
    pub limit: u32,
    pub steps: u32,
    pub start: u16,
    pub goal: u16,
}

// What a plan comes to, by its outcome: 1 for a route with its cost, its delay and the number of its legs, 2 for none, 3 for a search
// that is still open, 4 for one that was stopped, by this number, 5 for a refusal, by this number, with the line of the sheet if one
// is at fault, and 6 where memory is short. What does not apply is 0.
#[repr(C)]
#[derive(Clone, Copy, PartialEq, Eq, Default, Debug)]
pub struct Answer {
    pub steps: u64,
    pub cost: u64,
    pub line: u64,
    pub legs: usize,
    pub delay: u32,
    pub outcome: u8,
    pub number: u8,
}

// The outcomes, each with its number in an answer.
enum Outcome {
    Route = 1,
    None = 2,
    Open = 3,
    Stopped = 4,
    Refused = 5,
    MemoryShort = 6,
}

// The plan that a request puts, for broker 0.
impl From<Request> for Plan {
    ghost from_gives = { λ request plan. plan ≡ plan_of request };

    fn from(request: Request) -> Plan {
        Plan {
            broker: 0,
            start: request.start,
            goal: request.goal,
            limit: request.limit,
        }
    }
}

impl From<Refusal> for Answer {
    ghost from_gives = { λ why answer. answer ≡ refusal_record why };

    fn from(why: Refusal) -> Answer {
        Answer {
            line: why.line().unwrap_or(0),
            outcome: Outcome::Refused as u8,
            number: why.number(),
            ..Answer::default()
        }
    }
}

// Of a route, its legs are not counted yet.
impl From<Verdict> for Answer {
    ghost from_gives = { λ verdict answer. answer ≡ verdict_record verdict 0 };

    fn from(verdict: Verdict) -> Answer {
        let told = Answer {
            steps: verdict.steps,
            ..Answer::default()
        };
        match verdict.standing {
            Standing::Exhausted => Answer {
                outcome: Outcome::None as u8,
                ..told
            },
            Standing::Found(Mark { cost, delay }) => Answer {
                cost,
                delay,
                outcome: Outcome::Route as u8,
                ..told
            },
            Standing::Fresh | Standing::Open => Answer {
                outcome: Outcome::Open as u8,
                ..told
            },
            Standing::Stopped(why) => Answer {
                outcome: Outcome::Stopped as u8,
                number: why.number(),
                ..told
            },
        }
    }
}

impl From<AllocError> for Answer {
    ghost from_gives = { λ _ answer. answer ≡ memory_short };

    fn from(_: AllocError) -> Answer {
        Answer {
            outcome: Outcome::MemoryShort as u8,
            ..Answer::default()
        }
    }
}

// The desk has tables for as many sites as a network may have.
const SITES: usize = MOST_SITES as usize;

// Serves a request at a desk by the total fee, from a tally of its steps.
fn serve_at(
    desk: &mut Desk,
    request: Request,
    network: &Network,
    table: &[Leg],
) -> Result<Verdict, Refusal>
    ensures served { (left : Tally) × Serves (ground network.now table.now total_fee (room desk.old)) (plan_of request) (desk_of desk.old (allowing request.steps)) result (desk_of desk.new left) × IfOk result (λ v. Fulfils (ground network.now table.now total_fee (room desk.old)) (plan_of request) (desk_of desk.old (allowing request.steps)) v (desk_of desk.new left)) }
    ensures same_room { room desk.new ≡ room desk.old }
    ensures same_sites { sites desk.new ≡ sites desk.old }
{
    let mut tally = Tally::of(request.steps);
    desk.serve(request.into(), network, table, &TotalFee, &mut tally)
}

// Serves a request at a desk, and puts the legs of the route that is found into a buffer, if it is long enough.
fn answer_at(
    heap: Global,
    desk: &mut Desk,
    request: Request,
    network: &Network,
    table: &[Leg],
    legs: &mut [u16],
) -> Result<Answer, AllocError>
    ensures told { IfOk result (λ answer. (route : List ℕ) × Told (ground network.now table.now total_fee (room desk.old)) (plan_of request) (desk_of desk.old (allowing request.steps)) answer route × (legs.new ≡ laid route legs.old)) }
    ensures kept { OnErr result (legs.new ≡ legs.old) }
{
    let verdict = match serve_at(desk, request, network, table) {
        Ok(verdict) => verdict,
        Err(why) => return Ok(why.into()),
    };
    let answer = Answer::from(verdict);
    let Standing::Found(_) = verdict.standing else {
        return Ok(answer);
    };
    let route = desk.route(heap, network, table)?;
    lay(&route, legs);
    Ok(Answer {
        legs: route.len(),
        ..answer
    })
}

// Serves a request so many times for nothing, and then once for its answer, all at one desk.
fn serve_times(
    heap: Global,
    request: Request,
    again: u32,
    network: &Network,
    table: &[Leg],
    legs: &mut [u16],
) -> Result<Answer, AllocError>
    ensures told { IfOk result (λ answer. PlanAnswered network.now table.now request legs.old legs.new answer) }
    ensures kept { OnErr result (legs.new ≡ legs.old) }
{
    let mut desk = Desk::new(heap, SITES, request.labels)?;
    'servings: for _ in 0..again {
        let _ = serve_at(&mut desk, request, network, table);
    }
    answer_at(heap, &mut desk, request, network, table, legs)
}

// Loads the network of a sheet, with room for 4,096 legs, and serves a request over it so many times for nothing, and then once.
fn serve_sheet(heap: Global, sheet: &[u8], request: Request, again: u32, legs: &mut [u16]) -> Answer
    ensures { Answers sheet.now request legs.old legs.new result }
{
    let mut table = [Leg::default(); LEGS];
    let mut network = Network::default();
    let mut reader = Reader::new(sheet);
    if let Err(why) = reader.load(&mut network, &mut table) {
        return why.into();
    }
    serve_times(heap, request, again, &network, &table, legs).unwrap_or_else(Answer::from)
}

// Loads the network of a sheet, serves a request over it by the total fee, and puts the legs of the route that is found into a
// buffer, if it is long enough.
#[unsafe(no_mangle)]
pub extern "C" fn deqibur_serve(
    heap: Global,
    sheet: &[u8],
    request: &Request,
    legs: &mut [u16],
) -> Answer
    ensures { Answers sheet.now request.now legs.old legs.new result }
{
    serve_sheet(heap, sheet, *request, 0, legs)
}

// The same with no buffer, and before it so many times for nothing, all in the same tables, which serves to measure its speed.
#[unsafe(no_mangle)]
pub extern "C" fn deqibur_serve_again(
    heap: Global,
    sheet: &[u8],
    request: &Request,
    again: u32,
) -> Answer
    ensures { Answers sheet.now request.now [] [] result }
{
    serve_sheet(heap, sheet, *request, again, &mut [])
}

// Any list of calls on a worksheet, and what each was answered.
ghost use Rattle.std.specs.Prelude.{◌≡◌, reverse, vec_len, vec_capacity};
ghost use Rattle.search.specs.Calls.{setting, worksheet};
ghost use Rattle.promise.specs.Conduct.{Does, Leaves, Makes, TracedInto};
ghost use Rattle.promise.specs.Promise.{Promise};
ghost use Rattle.promise.specs.Requests.{call_of};

use crate::calls::*;
use network::estimates::Estimate;
use network::legs::*;
use network::refusals::Refusal;
use network::tariffs::Tariff;
use queue::interface::Queue;
use search::record::Search;
use std::alloc::AllocError;
use worksheet::records::*;

// Traces into a buffer, and answers what was written there.
fn trace_into(
    mut buffer: Vec<u16>,
    search: &Search,
    network: &Network,
    table: &[Leg],
    labels: &[Label],
) -> Result<Vec<u16>, Refusal>
    ensures { TracedInto network.now table.now search.now labels.now (vec_len buffer) result }
{
    let count = search.trace(network, table, labels, &mut buffer)?;
    buffer.truncate(count);
    Ok(buffer)
}

// Makes one call.
fn answer<Q: Queue, T: Tariff, E: Estimate>(
    request: Request,
    search: &mut Search,
    network: &Network,
    table: &[Leg],
    labels: &mut [Label],
    least: &mut [u32],
    queue: &mut Q,
    tariff: &T,
    estimate: &E,
) -> Answer
    ensures does { Does (setting network.now table.now (T.terms tariff.now) (E.at estimate.now) labels.old least.old (Q.room queue.old)) (worksheet search.old labels.old least.old (Q.bag queue.old)) (call_of request) result (worksheet search.new labels.new least.new (Q.bag queue.new)) }
    ensures same_room { Q.room queue.new ≡ Q.room queue.old }
{
    match request {
        Request::Open(query) => Answer::Opened(search.open(
            query, network, table, labels, least, queue, tariff, estimate,
        )),
        Request::Advance(steps) => Answer::Advanced(search.advance(
            steps, network, table, labels, least, queue, tariff, estimate,
        )),
        Request::Verdict => Answer::Told(search.verdict()),
        Request::Trace(buffer) => {
            Answer::Traced(trace_into(buffer, search, network, table, labels))
        }
    }
}

// Makes the calls that are asked for, in their order, on a fresh search record, and leaves an event for each. Events that are in
// the vector that it is lent already are dropped. It asks for memory only before the first call, where that vector has too little
// capacity for the events.
#[tactic(auto, using(crate::proofs::Conducting::call_by_call))]
pub fn conduct<Q: Queue, T: Tariff, E: Estimate>(
    requests: Vec<Request>,
    network: &Network,
    table: &[Leg],
    labels: &mut [Label],
    least: &mut [u32],
    queue: &mut Q,
    tariff: &T,
    estimate: &E,
    events: &mut Vec<Event>,
) -> Result<(), AllocError>
    ensures promised { Promise (setting network.now table.now (T.terms tariff.now) (E.at estimate.now) labels.old least.old (Q.room queue.old)) (reverse events.new.items) }
    ensures leaves { Leaves (setting network.now table.now (T.terms tariff.now) (E.at estimate.now) labels.old least.old (Q.room queue.old)) labels.old least.old (Q.bag queue.old) (reverse events.new.items) labels.new least.new (Q.bag queue.new) }
    ensures makes { Makes (vec_capacity events.old) requests.items result events.new.items }
    ensures same_room { Q.room queue.new ≡ Q.room queue.old }
{
    let mut search = Search::new();
    events.clear();
    events.reserve(requests.len())?;
    for request in requests {
        let call = request.call();
        let answer = answer(
            request,
            &mut search,
            network,
            table,
            labels,
            least,
            queue,
            tariff,
            estimate,
        );
        let after = search.verdict();
        events.push_reserved(Event {
            call,
            answer,
            after,
        });
    }
    Ok(())
}

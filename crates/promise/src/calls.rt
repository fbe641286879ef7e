// Calls on a worksheet, what they are answered, and the verdict after each.
ghost use Rattle.std.specs.Prelude.{◌≡◌};
ghost use Rattle.promise.specs.Requests.{call_of};

use network::refusals::Refusal;
use search::record::Verdict;
use worksheet::records::Query;

// A call: open for a question, advance by so many steps, verdict, or trace into a buffer of so many records.
#[derive(Clone, Copy, PartialEq, Eq, Debug)]
pub enum Call {
    Open(Query),
    Advance(u32),
    Verdict,
    Trace(usize),
}

// A call that is asked for; a trace comes with its buffer.
#[derive(Drop)]
pub enum Request {
    Open(Query),
    Advance(u32),
    Verdict,
    Trace(Vec<u16>),
}

// What a call is answered: that the search is open, how many steps were made, the verdict, or the legs of the route.
#[derive(Drop)]
pub enum Answer {
    Opened(Result<(), Refusal>),
    Advanced(Result<u32, Refusal>),
    Told(Verdict),
    Traced(Result<Vec<u16>, Refusal>),
}

// A call, its answer, and the verdict after it.
#[derive(Drop)]
pub struct Event {
    pub call: Call,
    pub answer: Answer,
    pub after: Verdict,
}

impl Request {
    // The call that is asked for.
    pub fn call(&self) -> Call
        ensures { result ≡ call_of self.now }
    {
        match self {
            Request::Open(query) => Call::Open(*query),
            Request::Advance(steps) => Call::Advance(*steps),
            Request::Verdict => Call::Verdict,
            Request::Trace(buffer) => Call::Trace(buffer.len()),
        }
    }
}

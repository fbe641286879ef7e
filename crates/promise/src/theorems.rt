// What is proved of every list of calls, each theorem as the contract of a function that does nothing.
ghost use Rattle.promise.specs.Conduct.{CallsKeepThePromise, StopsAreDeserved};

// Whatever calls are made on a worksheet whose search record was made fresh, their history keeps the promise.
#[tactic(auto, using(crate::proofs::Promised::calls_keep_the_promise))]
pub fn calls_keep_the_promise() -> u8
    ensures { CallsKeepThePromise }
{
    0
}

// Whatever calls are made on it, a search that they leave stopped has used up its label records or its queue.
#[tactic(auto, using(crate::proofs::Promised::stops_are_deserved))]
pub fn stops_are_deserved() -> u8
    ensures { StopsAreDeserved }
{
    0
}

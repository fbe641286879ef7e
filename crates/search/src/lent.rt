// What a call is lent to read only.
use network::legs::*;

// The network with its leg table, a tariff and an estimate. No call alters them.
#[derive(Drop)]
pub(crate) struct Lent<'a, T, E> {
    pub network: &'a Network,
    pub table: &'a [Leg],
    pub tariff: &'a T,
    pub estimate: &'a E,
}

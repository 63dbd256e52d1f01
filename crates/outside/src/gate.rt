// Gates.
use std::marker::Sync;

/// Where the crew passes a gate, outside any turn. A work's places carry the number of its statement.
#[derive(Clone, Copy, Debug, PartialEq, Eq)]
pub enum GatePlace {
    BeforeWork(u64),
    AfterWork(u64),
    AfterSubmit,
    AfterRead,
}

/// Something that may hold a thread up at a place. Threads share one gate.
pub trait Gate: Sync {
    fn pass(&self, place: GatePlace);
}

/// The gate that holds nothing up.
#[derive(Clone, Copy, Debug, PartialEq, Eq)]
pub struct OpenGate;

impl Gate for OpenGate {
    fn pass(&self, _: GatePlace) {}
}

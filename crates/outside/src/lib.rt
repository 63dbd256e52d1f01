//! What the program reads from, writes to and is held up by: shelves, sinks and gates.
//!
//! It stands on `vtl_values` for names alone. A clause of a shelf or a sink speaks of its `view`: what it holds, where
//! that is told, and a count of faults that never falls. A fault is answered only where that count rose. Shelves and
//! sinks in memory tell their content; the real ones tell nothing of it and are the trusted edge of the program.
#![tactic(auto)]

pub mod gate;
pub mod memory;
pub mod real;
pub mod shelf;
pub mod sink;

pub use gate::{Gate, GatePlace, OpenGate};
pub use memory::{MemoryShelf, MemorySink, SureSink};
pub use real::{FolderShelf, StdoutSink};
pub use shelf::{Shelf, ShelfStop};
pub use sink::{Sink, SinkStop, put};

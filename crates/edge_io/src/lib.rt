//! Where bytes come in and go out: sources, sinks, and lines of bytes.
//!
//! In one sentence: the lines that `LineReader` hands out are the first lines of the bytes that it took,
//! in whatever pieces these came. `IsCut` in specs/Cutting.antt states this, and `Answers` there what
//! each call of `next_line` does to it; `lines_of` in specs/Line.antt states which lines bytes have.
//! Below stands `py_base`, for its `List` and for its words on faults with a cause.
#![tactic(auto)]

pub mod cutter;
pub mod gate;
pub mod line;
pub mod memory;
pub mod reader;
pub mod sink;
pub mod source;
pub mod standard;

pub use cutter::Cutter;
pub use gate::{Gate, OpenGate};
pub use line::{LINE_LIMIT, Line};
pub use memory::{MemorySink, MemorySource};
pub use reader::{LineFault, LineReader};
pub use sink::{Sink, put_all};
pub use source::{Failed, Source};
pub use standard::{StdSink, StdSource};

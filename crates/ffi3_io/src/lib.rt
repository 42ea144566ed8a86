//! Where bytes come from and where they go: sources and sinks that count their faults.
#![tactic(auto)]

mod adapter;
mod due;
mod mem_sink;
mod mem_source;
mod sink;
mod source;
mod sure_sink;
mod sure_source;

pub use adapter::{ReadSource, WriteSink};
pub use ffi3_io_spec::{IoError, NoMemory};
pub use mem_sink::MemSink;
pub use mem_source::MemSource;
pub use sink::{Sink, write_all, write_line};
pub use source::{Source, read_all};
pub use sure_sink::SureSink;
pub use sure_source::SureSource;

/// A read or a write that failed. The source or sink has counted it.
#[derive(Clone, Copy, Debug, PartialEq, Eq, Drop)]
pub struct Failed;

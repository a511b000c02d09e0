//! The outside of the tool: a tree of files, a sink of bytes, a keeper of a journal, a meter of
//! steps, and what workers tell. Tree, sink and keeper are traits, each with one in memory for tests
//! and a real one, which is trusted to reach the files and the standard output.
#![tactic(auto)]

mod beside;
mod gate;
mod host;
mod host_keeper;
mod known;
mod listing;
mod mem_keeper;
mod mem_sink;
mod mem_tree;
mod outside;
mod replacing;
mod script;
mod standing;
mod steps;

pub use gate::{Gate, NoJournal, OpenGate, Recorder};
pub use host::{HostSink, HostTree};
pub use host_keeper::HostKeeper;
pub use mem_keeper::MemKeeper;
pub use mem_sink::MemSink;
pub use mem_tree::MemTree;
pub use outside::{EdgeFault, Keeper, Sink, Tree};
pub use steps::{Meter, MeterPart};

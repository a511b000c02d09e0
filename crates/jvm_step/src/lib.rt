//! One step of the machine (JVMS 2.11): the next call of a test's script where no frame runs, else
//! one instruction.
#![tactic(auto)]

mod calling;
mod entering;
mod executing;
mod machine;
mod making;
mod script;
mod stepping;
mod tables;

pub use jvm_lines::{
    CatchRow, Effect, Layouts, Lookups, MethodCode, MethodMarks, Natives, Need, Slots, Turn,
    act_beyond, find_handler, is_marked, marks_of, name_at, need_for, note_line, op_at,
    store_reference,
};
pub use machine::{Machine, StateEnd, Step};
pub use script::call_next;
pub use stepping::step;
pub use tables::Tables;

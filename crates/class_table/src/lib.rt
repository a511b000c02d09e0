//! The classes of a program by name and by number, and what a run has consulted of them.
#![tactic(auto)]

mod consulted;
mod fault;
mod flaws;
mod least;
mod numbering;
mod program;
mod scripted;
mod supers;
mod tasks;
mod verdict;

pub use class_link::{
    ClassBody, ClassInfo, EditedFile, Entry, FieldConstant, FieldRef, FrameShape, Instruction,
    LibBody, LibClass, LibField, LibMethod, LineTable, LinkedBody, LinkedClass, LinkedCode,
    LinkedField, LinkedLine, LinkedMethod, LinkedRow, Loaded, MethodRef, Shared, StatedFrame,
    Switch, VType,
};
pub use consulted::Consulted;
pub use fault::TableFault;
pub use program::Program;
pub use program_rules::{CallKind, Comparison, Conversion, Element, Operation, ShiftKind};
pub use scripted::{Call, Test};

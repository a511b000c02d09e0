//! The classes of the library: the table of the definitions, and the same in code.
#![tactic(auto)]

mod assertion_codes;
mod building;
mod exception_rows;
mod groups;
mod interface_rows;
mod lang_codes;
mod lang_rows;
mod laws;
mod list_codes;
mod map_codes;
mod rows;
mod util_rows;

pub use assertion_codes::ASSERT_UNEQUAL_OBJECTS;
pub use groups::classes;
pub use laws::{
    classes_have_supers, names_differ, numbers_are_places, written_calls_are_found,
    written_methods_are_typed,
};
pub use list_codes::LIST_REMOVE;
pub use map_codes::{FIND_ENTRY, MAP_PUT};
pub use rows::{CodeRow, ConstRow, FrameRow, InsnRow};

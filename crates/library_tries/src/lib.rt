//! Runs of the library's written methods, worked by hand.
#![tactic(auto)]

mod assertions;
mod lists;
mod maps;
mod objects;
mod sets;
mod walks;

pub use assertions::{assertions_of_4, assertions_of_5};
pub use lists::{index_of, list_contains, list_equals, list_removes};
pub use maps::{find, map_contains, map_gets, map_puts, map_removes};
pub use objects::{hashes_are_given, objects_are_compared, texts_are_given};
pub use sets::{set_adds, set_contains, set_removes};
pub use walks::{collections_are_walked, collections_throw};

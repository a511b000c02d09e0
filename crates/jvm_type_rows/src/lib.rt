//! Whether an object is of a class, an interface or an array type, and the rows that ask it.
#![tactic(auto)]

mod casting;
mod descriptors;
mod instance;
mod storing;
mod texts;
mod within;

pub use casting::{check_cast, is_instance, test_instance, truth};
pub use descriptors::name_at;
pub use instance::is_kind_within;
pub use storing::store_reference;
pub use texts::without_first;

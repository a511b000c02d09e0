//! Rows of the machine over a frame and the heap: numbers, references, objects (JVMS 6.5).
#![tactic(auto)]

mod alone;
mod arrays;
mod constants;
mod effect;
mod elements;
mod ending;
mod fields;
mod instances;
mod kinds;
mod made;
mod monitors;
mod stack;
mod statics;
mod storing;
mod switching;

pub use alone::act_alone;
pub use arrays::{array_length, make_array, make_primitive_array};
pub use constants::{load_class, load_text};
pub use effect::Effect;
pub use elements::{Sought, find_element, load_element};
pub use ending::throw;
pub use fields::{get_field, put_field};
pub use instances::make_instance;
pub use kinds::narrow_to;
pub use made::{push_made, put_within, without_room};
pub use monitors::{enter_monitor, exit_monitor, throw_object};
pub use stack::{int_at, of_kind_at, reference_at};
pub use statics::{get_static, put_static};
pub use storing::{store_element, store_in};
pub use switching::{switch_by_keys, switch_by_table};

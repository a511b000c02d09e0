//! What a machine has beside its frames, as one value: heap, statics, how far classes have come,
//! objects that are made once, monitors, what was used, and the script.
#![tactic(auto)]

mod begun;
mod classes;
mod made;
mod monitors;
mod objects;
mod script;
mod statics;
mod values;
mod world;

pub use begun::is_begun;
pub use classes::MachineClasses;
pub use made::Made;
pub use monitors::Monitors;
pub use script::Script;
pub use statics::Statics;
pub use values::default_value;
pub use world::World;

//! The rows of instructions that name a class or a field (JVMS 6.5).
#![tactic(auto)]

mod access;
mod casts;
mod classes;
mod fields;
mod instances;
mod layouts;
mod resolving;
mod sites;
mod slots;
mod statics;
mod turning;

pub use access::Access;
pub use casts::{check_cast, test_instance};
pub use classes::{Purpose, use_class};
pub use fields::{access_field, access_known};
pub use instances::make_object;
pub use layouts::Layouts;
pub use resolving::{resolve_class, resolve_field};
pub use sites::ObjectField;
pub use slots::Slots;
pub use statics::access_static;
pub use turning::turn_of;

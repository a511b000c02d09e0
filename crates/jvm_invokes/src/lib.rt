//! The instructions that call a method (JVMS 6.5): what a reference resolves to, and the call.
#![tactic(auto)]

mod calling;
mod heads;
mod invoked;
pub mod laws;
mod ready;
mod resolving;
mod statics;

pub use calling::{call_found, code_of, enter_code, throw_without};
pub use heads::{Body, Head, flags_at, head_at};
pub use invoked::Invoked;
pub use ready::is_ready;
pub use resolving::{resolve, throw};
pub use statics::invoke_static;

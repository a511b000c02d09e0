//! The native methods of `java/lang` and of `java/util/Optional`.
#![tactic(auto)]

mod boxes;
mod builder;
mod naming;
mod natives;
mod number;
mod object;
mod optional;
mod order;
mod parts;
mod text;
mod text_natives;
mod throwable;

pub use natives::lang_deed;
pub use object::dotted;
pub use text_natives::{builder_deed, text_deed};

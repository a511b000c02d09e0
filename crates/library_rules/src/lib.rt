//! What the native methods of the library mean: between what a program says and the code.
//!
//! The definitions are in `specs/`. The names of the native methods, and the numbers by which the
//! table of the library has them, stand here.
#![tactic(auto)]

mod native;

pub use native::{
    AssertionNative, BoxNative, BuilderNative, EntryNative, IteratorNative, LangNative, ListNative,
    NATIVES, Native, NumberNative, ObjectNative, OptionalNative, OrderNative, TextNative,
    ThrowableNative, UtilNative,
};

//! What a command does where nothing fails.

ghost use Rattle.std.specs.Prelude.{◌≡◌};
ghost use Rattle.mutest_engine.specs.Ends.{product_name};

use class_model::Bytes;

/// A file that a command may replace.
#[derive(Clone, Copy)]
pub enum Product {
    Report,
    /// The records of a run.
    History,
    /// A class file that was assembled.
    Assembled,
}

impl Product {
    /// As a fault of writing names it.
    pub fn name(self) -> &'static str
        ensures { result.now ≡ product_name self }
    {
        match self {
            Product::Report => "report",
            Product::History => "history",
            Product::Assembled => "assembled",
        }
    }
}

/// A file that is replaced: which it is, its path, and what it holds then.
#[derive(Drop)]
pub struct Write<'a> {
    pub product: Product,
    pub path: &'a str,
    pub bytes: Bytes,
}

/// The files that a command replaces, in order, and then the text that it puts.
#[derive(Drop)]
pub struct Answer<'a> {
    pub writes: Vec<Write<'a>>,
    pub text: Bytes,
}

//! What an edit makes anew.

use class_model::{Code, Const, Seq};

/// The parts of a class that an edit makes anew: the code of its method, and the entries that stand
/// behind those of the pool.
#[derive(Drop)]
pub struct Parts {
    pub code: Code,
    pub added: Seq<Const>,
}

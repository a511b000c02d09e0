ghost use Rattle.std.specs.Prelude.{◌≡◌, ◌<◌, ◌+◌, ◌^◌};

use crate::rule::{ClaimRule, Sizes, View};
use atomic_table::Table;
use class_model::Seq;
use std::alloc::Global;

/// Stands for no place in a word. Every place is below it.
pub const NO_PLACE: u64 = 65535;

/// The words, with the rule that they and the seats keep.
pub type Words = Table<u8, View, Sizes, ClaimRule, Global>;

/// The shared words of the claims: the number that is drawn next, and the least detected place of
/// each mutant. Its three steps wait for nobody, loop nowhere and take no memory.
#[derive(Drop)]
pub struct ClaimTable {
    pub(crate) alloc: Global,
    pub(crate) table: Words,
    pub(crate) mutants: u64,
    pub(crate) cells: u64,
    pub ghost cells_are: { cells ≡ table.shared.key.cells },
    pub ghost mutants_are: { mutants ≡ table.shared.key.mutants },
    pub ghost words_are: { table.shared.table_id.words ≡ table.shared.key.mutants + 1 },
    pub ghost no_slots: { table.shared.table_id.slots ≡ 0 },
    pub ghost few: { mutants < 2 ^ 32 },
    pub ghost some: { 0 < table.shared.key.workers },
}

/// What the words say once all workers have ended. A least place of 65,535 stands for none.
#[derive(Drop)]
pub struct ClaimEnd {
    pub next: u64,
    pub least: Seq<u64>,
}

//! Laws of all cells.

ghost use Rattle.test_select.specs.Cells.{CellsAscend};

/// Law: cells stand by mutant and then by test, so each stands once.
pub fn cells_ascend()
    ensures { CellsAscend }
{}

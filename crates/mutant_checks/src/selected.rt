//! Which tests reach a line, and the cells.

ghost use Rattle.std.specs.Prelude.{◌≡◌, ◌<◌, ◌≤◌, ◌^◌, length, IfOk, IfErr};
ghost use Rattle.line_coverage.specs.Coverage.{reaches};
ghost use Rattle.test_select.specs.Cells.{IsRefusal, cells, most_cells};

use class_model::{ClassId, Seq};
use line_coverage::Coverage;
use std::alloc::Global;
use test_select::{Cell, MutantPlace, SelectFault};

/// `Coverage::reaches`.
pub fn reaches(cover: &Coverage, class: ClassId, line: u16, test: usize) -> bool
    ensures { result ≡ reaches cover.now class.0 line test }
{
    cover.reaches(class, line, test)
}

/// `cells`.
pub fn cells(
    alloc: Global,
    mutants: &[MutantPlace],
    viable: &[bool],
    cover: &Coverage,
) -> Result<Seq<Cell>, SelectFault>
    requires viable { length viable.now ≡ length mutants.now }
    requires mutants { length mutants.now < 2 ^ 32 }
    requires tests { cover.now.tests < 2 ^ 32 }
    ensures cells { IfOk result (λ all. all ≡ cells mutants.now viable.now cover.now) }
    ensures few { IfOk result (λ all. length all ≤ most_cells) }
    ensures many { IfErr result (IsRefusal (cells mutants.now viable.now cover.now)) }
{
    match test_select::cells(alloc, mutants, viable, cover) {
        Ok(all) => Ok(all),
        Err(fault) => Err(fault),
    }
}

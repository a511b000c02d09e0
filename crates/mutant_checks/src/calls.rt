ghost use Rattle.std.specs.Prelude.{◌≡◌, IfOk};
ghost use Rattle.class_writer.specs.Writing.{HasClassForm};
ghost use Rattle.mutant_apply.specs.Edited.{applied, edited_parts};
ghost use Rattle.mutant_apply.specs.Fitting.{Fits};

use class_model::{Bytes, Class, Edit, Memory};
use mutant_apply::Parts;
use std::alloc::Global;

/// `mutant_apply::apply`.
pub fn apply(alloc: Global, class: &Class, edit: &Edit) -> Result<Option<(Class, Bytes)>, Memory>
    requires form { HasClassForm class.now }
    requires fits { Fits class.now edit.now }
    ensures { IfOk result (λ made. made ≡ applied class.now edit.now) }
{
    let made = mutant_apply::apply(alloc, class, edit)?;
    Ok(made)
}

/// `mutant_apply::edited_parts`.
pub fn edited_parts(class: &Class, edit: &Edit) -> Result<Option<Parts>, Memory>
    requires form { HasClassForm class.now }
    requires fits { Fits class.now edit.now }
    ensures { IfOk result (λ parts. parts ≡ edited_parts edit.now class.now) }
{
    let parts = mutant_apply::edited_parts(class, edit)?;
    Ok(parts)
}

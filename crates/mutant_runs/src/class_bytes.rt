//! The bytes of a class file, kept while mutants of one class follow one another.

ghost use Rattle.std.specs.Prelude.{◌≡◌, IfOk, Ok};
ghost use Rattle.class_reader.specs.Spells.{IsClass};
ghost use Rattle.class_writer.specs.Writing.{HasClassForm, layout};
ghost use Rattle.mutant_runs.specs.Files.{HasBytes, IsRightFor};

use class_model::{Bytes, Class, ClassId, LayoutFault, Memory};
use class_writer::{what_is_spelled_is_written, write_class};
use mutant_apply::Places;
use std::alloc::Global;

/// The bytes of the class file of a class, and the places in them of what edits make anew.
#[derive(Drop)]
pub struct ClassBytes {
    pub id: ClassId,
    pub bytes: Bytes,
    pub places: Places,
}

// The class file of a class that has a spelling: it passes no bound.
fn bytes_written(alloc: Global, class: &Class) -> Result<Bytes, Memory>
    requires form { HasClassForm class.now }
    requires spelled { IsClass class.now }
    ensures { IfOk result (λ bytes. layout class.now ≡ Ok bytes) }
{
    what_is_spelled_is_written();
    match write_class(alloc, class) {
        Ok(bytes) => Ok(bytes),
        Err(LayoutFault::Memory) => Err(Memory),
        Err(LayoutFault::TooLarge { what: _ }) => unreachable!(),
    }
}

// Writes a class file and finds the places in it.
fn written(alloc: Global, id: ClassId, class: &Class) -> Result<ClassBytes, Memory>
    requires form { HasClassForm class.now }
    requires spelled { IsClass class.now }
    ensures of { IfOk result (λ known. known.id ≡ id) }
    ensures bytes { IfOk result (λ known. HasBytes class.now known) }
{
    let bytes = bytes_written(alloc, class)?;
    let Ok(places) = Places::new(alloc, class) else {
        return Err(Memory);
    };
    Ok(ClassBytes { id, bytes, places })
}

/// What is kept, where it is of this class; else its class file is written.
pub fn bytes_of(
    alloc: Global,
    id: ClassId,
    class: &Class,
    kept: Option<ClassBytes>,
) -> Result<ClassBytes, Memory>
    requires form { HasClassForm class.now }
    requires spelled { IsClass class.now }
    requires kept { IsRightFor id.0 class.now kept }
    ensures of { IfOk result (λ known. known.id ≡ id) }
    ensures bytes { IfOk result (λ known. HasBytes class.now known) }
{
    match kept {
        Some(known) if known.id == id => Ok(known),
        _ => written(alloc, id, class),
    }
}

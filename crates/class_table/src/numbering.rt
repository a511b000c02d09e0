//! The classes of a program with what they mean, and their numbers by their names.

ghost use Rattle.std.specs.Prelude.{◌≡◌, ◌<◌, ◌^◌, All, map, length, IfOk, OnOk};
ghost use Rattle.std.specs.Arc.{arc_value};
ghost use Rattle.class_link.specs.Info.{IsInfo, body_name};
ghost use Rattle.class_table.specs.Table.{bodies_of};
ghost use Rattle.class_link.specs.declared.loaded.ClassBody.TheVariants.{File, Library};
ghost use Rattle.class_table.specs.Adding.{shared, AreClassesOf, AddsClasses, KeepsMeant};
ghost use Rattle.class_table.specs.Numbers.{IsNumbering, AddsNumber};

use class_link::{ClassBody, ClassInfo, LibClass, Loaded, Shared};
use class_model::{Memory, Name};
use std::alloc::Global;
use std::collections::BTreeMap;
use std::sync::Arc;

// A class with what it means, shared.
fn info(alloc: Global, body: ClassBody) -> Result<Arc<ClassInfo, Global>, Memory>
    ensures body { IfOk result (λ i. (arc_value i).body ≡ body) }
    ensures name { IfOk result (λ i. (arc_value i).name ≡ body_name body) }
    ensures info { IfOk result (λ i. IsInfo (arc_value i)) }
{
    let info = ClassInfo::new(alloc, body)?;
    let _linked = info.linked();
    Ok(Arc::new(alloc, info)?)
}

fn file_info(alloc: Global, loaded: Loaded) -> Result<Arc<ClassInfo, Global>, Memory>
    ensures body { IfOk result (λ i. (arc_value i).body ≡ File loaded) }
    ensures name { IfOk result (λ i. (arc_value i).name ≡ body_name (File loaded)) }
    ensures info { IfOk result (λ i. IsInfo (arc_value i)) }
{
    let loaded = Shared::new(alloc, loaded)?;
    info(alloc, ClassBody::File(loaded))
}

#[tactic(auto, using(crate::proofs::Meant::meant_more))]
fn add_files(
    alloc: Global,
    infos: &mut Vec<Arc<ClassInfo, Global>>,
    classes: Vec<Loaded>,
) -> Result<(), Memory>
    ensures meant { OnOk result (KeepsMeant infos.old.items infos.new.items) }
    ensures classes { OnOk result
        (AddsClasses infos.old.items (map File classes.items) infos.new.items) }
{
    for loaded in classes {
        infos.push(file_info(alloc, loaded)?)?;
    }
    Ok(())
}

#[tactic(auto, using(crate::proofs::Meant::meant_more))]
fn add_library(
    alloc: Global,
    infos: &mut Vec<Arc<ClassInfo, Global>>,
    library: Vec<LibClass>,
) -> Result<(), Memory>
    ensures meant { OnOk result (KeepsMeant infos.old.items infos.new.items) }
    ensures classes { OnOk result
        (AddsClasses infos.old.items (map Library library.items) infos.new.items) }
{
    for class in library {
        infos.push(info(alloc, ClassBody::Library(class))?)?;
    }
    Ok(())
}

/// The classes of a program with what they mean, in the order of their numbers.
pub fn infos(
    alloc: Global,
    classes: Vec<Loaded>,
    library: Vec<LibClass>,
) -> Result<Vec<Arc<ClassInfo, Global>>, Memory>
    ensures classes { IfOk result (λ is.
        AreClassesOf is.items (bodies_of classes.items library.items)) }
    ensures meant { IfOk result (λ is. All IsInfo (shared is.items)) }
{
    let mut infos = Vec::new(alloc);
    add_files(alloc, &mut infos, classes)?;
    add_library(alloc, &mut infos, library)?;
    Ok(infos)
}

// Gives a number to a name, unless it has one.
fn add_name(numbers: &mut BTreeMap<Name, u32>, name: &Name, number: u32) -> Result<(), Memory>
    ensures { OnOk result (AddsNumber name.now number numbers.old numbers.new) }
{
    if numbers.contains_key(name) {
        return Ok(());
    }
    numbers.insert(name.copy()?, number)?;
    Ok(())
}

/// The numbers of the classes by their names, shared: of two classes of one name the first. Where
/// there are 2^32 classes or more, memory runs out.
pub fn numbers(
    alloc: Global,
    infos: &[Arc<ClassInfo, Global>],
) -> Result<Arc<BTreeMap<Name, u32>, Global>, Memory>
    ensures few { OnOk result (length infos.now < 2 ^ 32) }
    ensures numbers { IfOk result (λ m. IsNumbering (arc_value m) (shared infos.now)) }
{
    if infos.len() > u32::MAX as usize {
        return Err(Memory);
    }
    let mut numbers = BTreeMap::new(alloc);
    for (i, info) in infos.iter().enumerate() {
        add_name(&mut numbers, info.name(), i as u32)?;
    }
    Ok(Arc::new(alloc, numbers)?)
}

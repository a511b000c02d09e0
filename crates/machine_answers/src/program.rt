//! The program of the class files below a folder and of the library.

ghost use Rattle.std.specs.Prelude.{IfOk};
ghost use Rattle.class_table.specs.Faults.{HasRightKinds};
ghost use Rattle.class_table.specs.Table.{look};

use class_model::{Bytes, Seq, SharedBytes};
use class_reader::read_class;
use class_table::{LibClass, Loaded, Program, TableFault};
use lib_table::classes;
use mt_edge::{HostTree, Tree};
use std::alloc::Global;

fn loaded(alloc: Global, bytes: Bytes) -> anyhow::Result<Loaded> {
    let class = read_class(alloc, bytes.as_slice())?;
    let bytes = SharedBytes::new(alloc, bytes)?;
    Ok(Loaded { bytes, class })
}

// Reads one class file more.
fn read_one<T: Tree>(
    alloc: Global,
    tree: &mut T,
    path: &str,
    files: &mut Seq<Loaded>,
) -> anyhow::Result<()> {
    let Some(bytes) = tree.read(path)? else {
        anyhow::bail!("no class file");
    };
    files.push(loaded(alloc, bytes)?)?;
    Ok(())
}

fn files_below<T: Tree>(
    alloc: Global,
    tree: &mut T,
    folder: &str,
    files: &mut Seq<Loaded>,
) -> anyhow::Result<()> {
    for path in tree.list(folder)? {
        if path.as_str().ends_with(".class") {
            read_one(alloc, tree, path.as_str(), files)?;
        }
    }
    Ok(())
}

// The class files of these names in a folder, which a `+` parts.
fn files_named<T: Tree>(
    alloc: Global,
    tree: &mut T,
    folder: &str,
    names: &str,
    files: &mut Seq<Loaded>,
) -> anyhow::Result<()> {
    for name in names.split('+') {
        let path = format!(in alloc; "{folder}/{name}.class")?;
        read_one(alloc, tree, path.as_str(), files)?;
    }
    Ok(())
}

// The program of these classes.
fn built(alloc: Global, files: Seq<Loaded>, library: Seq<LibClass>) -> Result<Program, TableFault>
    ensures { IfOk result (λ p. HasRightKinds (look p)) }
{
    Program::build(alloc, files, library)
}

/// The program of the class files below a folder and of the library.
pub fn program_of(rt: &HostRuntime, folder: &str) -> anyhow::Result<Program>
    ensures { IfOk result (λ p. HasRightKinds (look p)) }
{
    let alloc = rt.alloc();
    let mut files = Seq::new(alloc);
    files_below(alloc, &mut HostTree::new(rt), folder, &mut files)?;
    let library = classes(alloc)?;
    let program = built(alloc, files, library)?;
    Ok(program)
}

/// The same of the class files of these names in a folder, which a `+` parts.
pub fn program_with(rt: &HostRuntime, folder: &str, names: &str) -> anyhow::Result<Program>
    ensures { IfOk result (λ p. HasRightKinds (look p)) }
{
    let alloc = rt.alloc();
    let mut files = Seq::new(alloc);
    files_named(alloc, &mut HostTree::new(rt), folder, names, &mut files)?;
    let library = classes(alloc)?;
    let program = built(alloc, files, library)?;
    Ok(program)
}

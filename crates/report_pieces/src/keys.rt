//! The files of a program's mutants and tests, by the keys of their classes.

ghost use Rattle.std.specs.Prelude.{◌≡◌, ◌<◌, length, map, slice_get, IfOk, string_bytes};
ghost use Rattle.report_pieces.specs.FileKey.{key_of, key_in_place, keys_in, files_in, mutant_keys, test_keys};
ghost use Rattle.report_pieces.specs.Groups.{groups_of, key_at, keys_at};

use crate::class_file::{key_with, stated_file};
use crate::groups::grouped;
use crate::input::Group;
use class_model::{ClassId, Memory, Name, Seq};
use class_table::{Program, Test};
use mutator_ops::Mutant;
use std::alloc::Global;

// The key of the class of a number, empty where that has no class file.
#[tactic(auto, using(crate::proofs::ClassKeys::place_key))]
fn class_key(alloc: Global, program: &Program, id: ClassId) -> Result<String, Memory>
    ensures { IfOk result (λ key.
        string_bytes key ≡ key_in_place (slice_get program.now id.0)) }
{
    let Some(info) = program.get(id) else {
        return Ok(String::new(alloc));
    };
    let Some(class) = program.file_class(id) else {
        return Ok(String::new(alloc));
    };
    key_with(alloc, info.name(), stated_file(class))
}

// A class by its place.
fn id_of(program: &Program, place: usize) -> ClassId
    requires { place < length program.now }
    ensures { result.0 ≡ place }
{
    let _len = program.len();
    ClassId(place as u32)
}

// The key of each class of a program.
fn class_keys(alloc: Global, program: &Program) -> Result<Vec<String>, Memory>
    ensures { IfOk result (λ keys. map string_bytes keys.items ≡ keys_in program.now) }
{
    let mut keys = Vec::new(alloc);
    let count = program.len();
    for place in 0..count {
        let key = class_key(alloc, program, id_of(program, place))?;
        keys.push(key)?;
    }
    Ok(keys)
}

// The number of the class of a name, or the last number of all, which no class has.
fn class_number(program: &Program, name: &Name) -> u32
    ensures { key_at (keys_in program.now) result ≡ key_of (files_in program.now) name.now }
{
    let _len = program.len();
    match program.find(name) {
        Some(id) => id.0,
        None => u32::MAX,
    }
}

fn mutant_numbers(alloc: Global, program: &Program, mutants: &[Mutant]) -> Result<Vec<u32>, Memory>
    ensures { IfOk result (λ numbers.
        keys_at (keys_in program.now) numbers.items
        ≡ mutant_keys (files_in program.now) mutants.now) }
{
    let mut numbers = Vec::new(alloc);
    for mutant in mutants {
        numbers.push(class_number(program, &mutant.class))?;
    }
    Ok(numbers)
}

fn test_numbers(alloc: Global, program: &Program, tests: &[Test]) -> Result<Vec<u32>, Memory>
    ensures { IfOk result (λ numbers.
        keys_at (keys_in program.now) numbers.items
        ≡ test_keys (files_in program.now) tests.now) }
{
    let mut numbers = Vec::new(alloc);
    for test in tests {
        numbers.push(class_number(program, &test.class))?;
    }
    Ok(numbers)
}

/// The files of mutants of a program: a file for each different key of their classes.
pub fn mutant_files(
    alloc: Global,
    program: &Program,
    mutants: &[Mutant],
) -> Result<Seq<Group>, Memory>
    ensures { IfOk result (λ files.
        files ≡ groups_of (mutant_keys (files_in program.now) mutants.now)) }
{
    let keys = class_keys(alloc, program)?;
    let numbers = mutant_numbers(alloc, program, mutants)?;
    let files = grouped(alloc, keys.as_slice(), numbers.as_slice())?;
    Ok(files)
}

/// The files of tests of a program.
pub fn test_files(alloc: Global, program: &Program, tests: &[Test]) -> Result<Seq<Group>, Memory>
    ensures { IfOk result (λ files.
        files ≡ groups_of (test_keys (files_in program.now) tests.now)) }
{
    let keys = class_keys(alloc, program)?;
    let numbers = test_numbers(alloc, program, tests)?;
    let files = grouped(alloc, keys.as_slice(), numbers.as_slice())?;
    Ok(files)
}

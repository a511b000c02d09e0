//! The names that instructions mean without an index (JVMS 4.10.1.9, 6.5).

ghost use Rattle.std.specs.Prelude.{IfOk, OnOk};
ghost use Rattle.type_verifier.specs.Tables.{IsTable, Adds};
ghost use Rattle.type_verifier.specs.Heads.{AreClasses, AreSmall, AreLarge, CommonLast};

use crate::names::Names;
use crate::texts::number_of;
use class_model::Memory;
use class_table::Program;
use type_rows::CommonNames;

// The classes of texts, of classes and above all that is thrown.
fn class_numbers(names: &mut Names, program: &Program) -> Result<(usize, usize, usize), Memory>
    requires { IsTable program.now names.old }
    ensures adds { OnOk result (Adds program.now names.old names.new) }
    ensures numbers { IfOk result (AreClasses names.new.list.items) }
{
    let string = number_of(names, program, b"java/lang/String")?;
    let class = number_of(names, program, b"java/lang/Class")?;
    let throwable = number_of(names, program, b"java/lang/Throwable")?;
    Ok((string, class, throwable))
}

// The arrays of booleans, bytes and chars.
fn small_numbers(names: &mut Names, program: &Program) -> Result<(usize, usize, usize), Memory>
    requires { IsTable program.now names.old }
    ensures adds { OnOk result (Adds program.now names.old names.new) }
    ensures numbers { IfOk result (AreSmall names.new.list.items) }
{
    let booleans = number_of(names, program, b"[Z")?;
    let bytes = number_of(names, program, b"[B")?;
    let chars = number_of(names, program, b"[C")?;
    Ok((booleans, bytes, chars))
}

// The arrays of shorts, ints and longs.
fn large_numbers(names: &mut Names, program: &Program) -> Result<(usize, usize, usize), Memory>
    requires { IsTable program.now names.old }
    ensures adds { OnOk result (Adds program.now names.old names.new) }
    ensures numbers { IfOk result (AreLarge names.new.list.items) }
{
    let shorts = number_of(names, program, b"[S")?;
    let ints = number_of(names, program, b"[I")?;
    let longs = number_of(names, program, b"[J")?;
    Ok((shorts, ints, longs))
}

/// The numbers of the names that instructions mean without an index.
pub fn common_names(names: &mut Names, program: &Program) -> Result<CommonNames, Memory>
    requires { IsTable program.now names.old }
    ensures adds { OnOk result (Adds program.now names.old names.new) }
    ensures common { IfOk result (CommonLast names.new.list.items) }
{
    let classes = class_numbers(names, program)?;
    let small = small_numbers(names, program)?;
    let large = large_numbers(names, program)?;
    Ok(CommonNames {
        string: classes.0,
        class: classes.1,
        throwable: classes.2,
        booleans: small.0,
        bytes: small.1,
        chars: small.2,
        shorts: large.0,
        ints: large.1,
        longs: large.2,
    })
}

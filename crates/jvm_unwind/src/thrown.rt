//! The class of an object that is thrown.

ghost use Rattle.std.specs.Prelude.{◌≡◌, ◌<◌, length, codes, IfOk};
ghost use Rattle.program_rules.specs.Kinds.{class_of_kind};
ghost use Rattle.program_rules.specs.Names.{is_listed};
ghost use Rattle.program_rules.specs.Objects.{class_of_object};
ghost use Rattle.class_link.specs.Symbols.{kind_of};
ghost use Rattle.class_table.specs.Table.{IsProgram};
ghost use Rattle.jvm_world.specs.View.{kind_in, IsWorldOf};
ghost use Rattle.jvm_unwind.specs.Searches.{IsThrown, AreAbove};
ghost use Rattle.jvm_unwind.specs.Thrown.{class_name, names_of, IsClass, IsClassIn};

use class_family::{class_behind, object_name};
use class_model::names::ascii;
use class_model::{ClassId, Kind, Memory, Name, Seq};
use class_table::Program;
use jvm_values::ObjKind;
use jvm_world::World;
use std::alloc::Global;

/// The class that is looked up for an object.
#[derive(Drop)]
pub enum Thrown {
    /// A class of the program.
    Known(ClassId),
    /// A name of which the program has no class.
    Absent(Name),
}

impl Thrown {
    /// The number of the class, if the program has it.
    #[tactic(auto, using(crate::proofs::Classes::alone_above))]
    pub fn id(&self, p: &Program) -> Option<ClassId>
        requires { IsClass p.now self.now }
        ensures thrown { IsThrown p.now result }
        ensures above { AreAbove p.now result (names_of p.now self.now) }
    {
        let _ = p.len();
        match self {
            Thrown::Known(class) => Some(*class),
            Thrown::Absent(_) => None,
        }
    }

    /// Whether it is `java/lang/Error` or stands below that.
    pub fn is_error(&self, alloc: Global, p: &Program) -> Result<bool, Memory>
        requires { IsClass p.now self.now }
        ensures { IfOk result (λ b.
            b ≡ is_listed (codes "java/lang/Error") (names_of p.now self.now)) }
    {
        let error = ascii(alloc, "java/lang/Error")?;
        match self {
            Thrown::Known(class) => Ok(is_below(p, *class, &error)),
            Thrown::Absent(name) => Ok(is_alone(p, name, &error)),
        }
    }
}

// Whether the class of a number is that of a name or stands below it.
#[tactic(auto, using(crate::proofs::Classes::absent_listed))]
fn is_below(p: &Program, class: ClassId, name: &Name) -> bool
    requires { class.0 < length p.now }
    ensures { result ≡ is_listed name.now (names_of p.now (Thrown.Known class)) }
{
    let _class = p.info(class);
    let _len = p.len();
    match p.find(name) {
        Some(over) => p.is_subtype(class, over),
        None => false,
    }
}

// Whether a name without a class is another one.
#[tactic(auto, using(crate::proofs::Classes::alone_listed))]
fn is_alone(p: &Program, name: &Name, other: &Name) -> bool
    requires { IsClass p.now (Thrown.Absent name.now) }
    ensures { result ≡ is_listed other.now (names_of p.now (Thrown.Absent name.now)) }
{
    let _ = p.len();
    *name == *other
}

// The class of a name.
fn by_name(p: &Program, name: Name) -> Thrown
    ensures name { class_name p.now result ≡ name }
    ensures class { IsClass p.now result }
{
    match p.find(&name) {
        Some(id) => Thrown::Known(id),
        None => Thrown::Absent(name),
    }
}

// The class that is looked up for the elements of an array.
fn class_of_kind(alloc: Global, kind: &Kind) -> Result<Name, Memory>
    ensures { IfOk result (λ n. n ≡ class_of_kind (kind_of kind.now)) }
{
    match kind {
        Kind::Ref(name) => class_behind(alloc, name),
        Kind::Boolean => object_name(alloc),
        Kind::Byte => object_name(alloc),
        Kind::Char => object_name(alloc),
        Kind::Short => object_name(alloc),
        Kind::Int => object_name(alloc),
        Kind::Long => object_name(alloc),
    }
}

/// The class that is looked up for an object of a kind: that of an array's elements.
#[tactic(auto, using(crate::proofs::Classes::past_name))]
pub fn class_of(alloc: Global, p: &Program, kind: &ObjKind) -> Result<Thrown, Memory>
    ensures name { IfOk result (λ t.
        class_name p.now t ≡ class_of_object (kind_in p.now kind.now)) }
    ensures class { IfOk result (λ t. IsClass p.now t) }
{
    match kind {
        ObjKind::Plain(class) => {
            if (class.0 as usize) < p.len() {
                return Ok(Thrown::Known(*class));
            }
            Ok(by_name(p, Seq::new(alloc)))
        }
        ObjKind::Array(of) => {
            let name = class_of_kind(alloc, of)?;
            Ok(by_name(p, name))
        }
        ObjKind::Text => {
            let name = ascii(alloc, "java/lang/String")?;
            Ok(by_name(p, name))
        }
    }
}

/// The class of the object of a number, if there is one.
pub fn thrown_at(
    alloc: Global,
    p: &Program,
    world: &World,
    object: u32,
) -> Result<Option<Thrown>, Memory>
    ensures { IfOk result (IsClassIn p.now world.now object) }
{
    match world.object(p, object) {
        Some(found) => {
            let class = class_of(alloc, p, &found.kind)?;
            Ok(Some(class))
        }
        None => Ok(None),
    }
}

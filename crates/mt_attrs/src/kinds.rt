//! Which attributes are known, each in its own place of the standard.

ghost use Rattle.std.specs.Prelude.{◌≡◌};
ghost use Rattle.mt_attrs.specs.Named.{names_text};
ghost use Rattle.mt_attrs.specs.Kinds.{known_of, is_free, without, all_unseen, table_of, is_table_free, without_table, own_kind, own_name};

use crate::named::names_text;
use crate::owner::Owner;
use class_model::CheckedPool;

/// A known attribute of a class, a field or a method.
#[derive(Clone, Copy)]
pub enum Known {
    Code,
    Source,
    Value,
    Visible,
    Invisible,
}

/// A known attribute of a Code attribute: each is a table.
#[derive(Clone, Copy)]
pub enum CodeTable {
    Lines,
    Frames,
}

/// Which attributes haven't stood yet. `own` is the one that the owner alone may have.
#[derive(Clone, Copy)]
pub struct Unseen {
    pub own: bool,
    pub visible: bool,
    pub invisible: bool,
}

/// `Code`
const CODE: [u16; 4] = [67, 111, 100, 101];

/// `SourceFile`
const SOURCE_FILE: [u16; 10] = [83, 111, 117, 114, 99, 101, 70, 105, 108, 101];

/// `ConstantValue`
const CONSTANT_VALUE: [u16; 13] = [67, 111, 110, 115, 116, 97, 110, 116, 86, 97, 108, 117, 101];

/// `RuntimeVisibleAnnotations`
const VISIBLE: [u16; 25] = [
    82, 117, 110, 116, 105, 109, 101, 86, 105, 115, 105, 98, 108, 101, 65, 110, 110, 111, 116, 97,
    116, 105, 111, 110, 115,
];

/// `RuntimeInvisibleAnnotations`
const INVISIBLE: [u16; 27] = [
    82, 117, 110, 116, 105, 109, 101, 73, 110, 118, 105, 115, 105, 98, 108, 101, 65, 110, 110, 111,
    116, 97, 116, 105, 111, 110, 115,
];

/// `LineNumberTable`
const LINE_NUMBER_TABLE: [u16; 15] = [
    76, 105, 110, 101, 78, 117, 109, 98, 101, 114, 84, 97, 98, 108, 101,
];

/// `StackMapTable`
const STACK_MAP_TABLE: [u16; 13] = [83, 116, 97, 99, 107, 77, 97, 112, 84, 97, 98, 108, 101];

fn own_kind(owner: Owner) -> Known
    ensures { result ≡ own_kind owner }
{
    match owner {
        Owner::OfClass => Known::Source,
        Owner::OfField => Known::Value,
        Owner::OfMethod => Known::Code,
    }
}

/// The index names the attribute that this owner alone may have.
fn names_own(pool: &CheckedPool, owner: Owner, name: u16) -> bool
    ensures { result ≡ names_text pool.now name (own_name owner) }
{
    match owner {
        Owner::OfClass => names_text(pool, name, &SOURCE_FILE),
        Owner::OfField => names_text(pool, name, &CONSTANT_VALUE),
        Owner::OfMethod => names_text(pool, name, &CODE),
    }
}

/// The known attribute of the name that an index names.
pub fn known_of(pool: &CheckedPool, owner: Owner, name: u16) -> Option<Known>
    ensures { result ≡ known_of pool.now owner name }
{
    if names_own(pool, owner, name) {
        Some(own_kind(owner))
    } else if names_text(pool, name, &VISIBLE) {
        Some(Known::Visible)
    } else if names_text(pool, name, &INVISIBLE) {
        Some(Known::Invisible)
    } else {
        None
    }
}

pub fn all_unseen() -> Unseen
    ensures { result ≡ all_unseen }
{
    Unseen {
        own: true,
        visible: true,
        invisible: true,
    }
}

/// The attribute may stand here.
pub fn is_free(unseen: Unseen, known: Option<Known>) -> bool
    ensures { result ≡ is_free unseen known }
{
    match known {
        None => true,
        Some(Known::Visible) => unseen.visible,
        Some(Known::Invisible) => unseen.invisible,
        Some(Known::Code | Known::Source | Known::Value) => unseen.own,
    }
}

/// What hasn't stood yet behind the attribute.
pub fn without(unseen: Unseen, known: Option<Known>) -> Unseen
    ensures { result ≡ without unseen known }
{
    match known {
        None => unseen,
        Some(Known::Visible) => Unseen {
            own: unseen.own,
            visible: false,
            invisible: unseen.invisible,
        },
        Some(Known::Invisible) => Unseen {
            own: unseen.own,
            visible: unseen.visible,
            invisible: false,
        },
        Some(Known::Code | Known::Source | Known::Value) => Unseen {
            own: false,
            visible: unseen.visible,
            invisible: unseen.invisible,
        },
    }
}

/// The known attribute of the name that an index names, inside Code.
pub fn table_of(pool: &CheckedPool, name: u16) -> Option<CodeTable>
    ensures { result ≡ table_of pool.now name }
{
    if names_text(pool, name, &LINE_NUMBER_TABLE) {
        Some(CodeTable::Lines)
    } else if names_text(pool, name, &STACK_MAP_TABLE) {
        Some(CodeTable::Frames)
    } else {
        None
    }
}

/// The attribute may stand here. `unseen` says that no StackMapTable has stood yet.
pub fn is_table_free(unseen: bool, table: Option<CodeTable>) -> bool
    ensures { result ≡ is_table_free unseen table }
{
    match table {
        Some(CodeTable::Frames) => unseen,
        Some(CodeTable::Lines) | None => true,
    }
}

/// Whether no StackMapTable has stood yet behind the attribute.
pub fn without_table(unseen: bool, table: Option<CodeTable>) -> bool
    ensures { result ≡ without_table unseen table }
{
    match table {
        Some(CodeTable::Frames) => false,
        Some(CodeTable::Lines) | None => unseen,
    }
}

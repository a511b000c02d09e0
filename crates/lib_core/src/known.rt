//! The classes of which native methods make objects.

ghost use Rattle.std.specs.Prelude.{◌≡◌};
ghost use Rattle.lib_core.specs.Known.{known_id, is_text_class, TellsMade};

use class_model::ClassId;
use jvm_values::{ObjKind, Object};
use program_rules::Making;

/// The classes of which native methods make objects, by number.
#[derive(Clone, Copy)]
pub struct Known {
    pub text: ClassId,
    pub list: ClassId,
    pub set: ClassId,
    pub iterator: ClassId,
    pub optional: ClassId,
    pub integer: ClassId,
    pub long: ClassId,
    pub short: ClassId,
    pub byte: ClassId,
    pub character: ClassId,
    pub boolean: ClassId,
}

impl Known {
    /// The number of a class.
    pub fn id(&self, making: Making) -> ClassId
        ensures { result.0 ≡ known_id self.now making }
    {
        match making {
            Making::Text => self.text,
            Making::List => self.list,
            Making::Set => self.set,
            Making::Iterator => self.iterator,
            Making::Optional => self.optional,
            Making::Integer => self.integer,
            Making::Long => self.long,
            Making::Short => self.short,
            Making::Byte => self.byte,
            Making::Character => self.character,
            Making::Boolean => self.boolean,
        }
    }

    /// Whether an object is of this very class.
    pub fn is_made_of(&self, making: Making, object: &Object) -> bool
        ensures { TellsMade self.now making object.now result }
    {
        match &object.kind {
            ObjKind::Plain(class) => class.0 == self.id(making).0,
            ObjKind::Array(_) => false,
            ObjKind::Text => is_text(making),
        }
    }
}

// Whether it is the class of texts.
fn is_text(making: Making) -> bool
    ensures { is_text_class making ≡ result }
{
    matches!(making, Making::Text)
}

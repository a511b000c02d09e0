//! The initializer of a class (JVMS 2.9.2).

ghost use Rattle.std.specs.Prelude.{◌≡◌, ◌<◌, ◌^◌, List, map, length, slice_get, None, false, IfSome, IfNone};
ghost use Rattle.program_rules.specs.Outlines.{head_of, is_class_initializer};
ghost use Rattle.machine_rules.specs.Initialisation.{initializer_from};
ghost use Rattle.class_link.specs.declared.linked.Entry.{Entry};
ghost use Rattle.class_link.specs.View.{method_of};
ghost use Rattle.jvm_initialization.specs.Begins.{begin_at, IsInitializer, IsFirst, IsInitializerAt};

use crate::members::is_initializer;
use class_link::{LinkedBody, LinkedMethod};
use class_model::ClassId;
use class_table::Program;

/// What the frame of a method with code takes.
#[derive(Clone, Copy)]
pub struct Code {
    pub max_locals: u16,
    pub max_stack: u16,
}

/// The initializer of a class: its place among the methods, and what its frame takes.
#[derive(Clone, Copy)]
pub struct Initializer {
    pub place: u32,
    pub max_locals: u16,
    pub max_stack: u16,
}

// What the frame of a method takes, if it is the initializer of its class.
fn initializer_code(method: &LinkedMethod) -> Option<Code>
    ensures some { IfSome result (λ c. (es : List Entry) →
        IsInitializer (method_of es method.now) c) }
    ensures none { IfNone result ((es : List Entry) →
        is_class_initializer (method_of es method.now) ≡ false) }
{
    if !is_initializer(method) {
        return None;
    }
    match &method.body {
        LinkedBody::Code(code) => Some(Code {
            max_locals: code.max_locals,
            max_stack: code.max_stack,
        }),
        LinkedBody::Native(_) => None,
        LinkedBody::Absent => None,
    }
}

fn initializer_at(place: usize, code: Code) -> Initializer
    requires { place < 2 ^ 32 }
    ensures { result ≡ record {
      place = place;
      max_locals = code.max_locals;
      max_stack = code.max_stack;
    } }
{
    Initializer {
        place: place as u32,
        max_locals: code.max_locals,
        max_stack: code.max_stack,
    }
}

// The first initializer among these methods.
fn first_initializer(methods: &[LinkedMethod]) -> Option<Initializer>
    requires { length methods.now < 2 ^ 32 }
    ensures some { IfSome result (λ i. (es : List Entry) →
        IsFirst (map head_of (map (method_of es) methods.now))
        (slice_get (map (method_of es) methods.now) i.place) i) }
    ensures none { IfNone result ((es : List Entry) →
        initializer_from 0 (map head_of (map (method_of es) methods.now)) ≡ None) }
{
    for (place, method) in methods.iter().enumerate() {
        if let Some(code) = initializer_code(method) {
            return Some(initializer_at(place, code));
        }
    }
    None
}

/// The initializer of a class, if it has one.
#[tactic(auto, unfolding(class_link::specs::View::linked_of))]
pub fn initializer_of(p: &Program, class: ClassId) -> Option<Initializer>
    requires { class.0 < length p.now }
    ensures some { IfSome result (IsInitializerAt p.now class.0) }
    ensures none { IfNone result ((begin_at p.now class.0).initializer ≡ None) }
{
    let linked = p.info(class).linked();
    first_initializer(linked.methods.as_slice())
}

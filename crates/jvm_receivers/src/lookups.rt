//! What the rows that call methods look up: what was resolved and selected before.

ghost use Rattle.std.specs.Prelude.{IfOk};
ghost use Rattle.jvm_receivers.specs.Objects.{AreLookups, FindsClass, text_name};

use crate::owned::Owned;
use class_model::names::ascii;
use class_model::{ClassId, Memory};
use class_table::Program;
use jvm_link::{References, Selections};
use std::alloc::Global;

/// What references resolve to and what objects select, as far as it was asked, which of them name
/// their own class, and the class of texts. It depends on the program alone, so it serves all runs
/// of a program.
#[derive(Drop)]
pub struct Lookups {
    pub references: References,
    pub selections: Selections,
    /// Which references name the class itself or a direct superinterface of it.
    pub own: Owned,
    /// The class of `java/lang/String`, of which the heap keeps no number.
    pub text: Option<ClassId>,
}

// The class of texts.
#[tactic(auto, using(crate::proofs::Finding::class_is))]
fn text_class(alloc: Global, p: &Program) -> Result<Option<ClassId>, Memory>
    ensures { IfOk result (λ id. FindsClass p.now text_name id) }
{
    let name = ascii(alloc, "java/lang/String")?;
    Ok(p.find(&name))
}

impl Lookups {
    /// Nothing was asked yet. One class is looked up by its name, that of texts.
    pub fn new(alloc: Global, p: &Program) -> Result<Lookups, Memory>
        ensures { IfOk result (λ l. AreLookups p.now l) }
    {
        let text = text_class(alloc, p)?;
        let references = References::new(alloc);
        let selections = Selections::new(alloc);
        let own = Owned::new(alloc);
        Ok(Lookups {
            references,
            selections,
            own,
            text,
        })
    }
}

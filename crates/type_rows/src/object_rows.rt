//! New objects (JVMS 6.5, `new`).
#![tactic(auto, unfolding(type_rules::specs::Rows::row))]

ghost use Rattle.std.specs.Prelude.{◌≡◌, IfOk};
ghost use Rattle.program_rules.specs.Names.{is_array_name};
ghost use Rattle.vframes.specs.Named.{AreNamed, name_at};
ghost use Rattle.type_rows.specs.Sites.{NewIs};

use crate::answer::Answer;
use crate::site::Site;
use class_model::Memory;
use vframes::{Frame, Fresh, SlotType, named_at};

// Whether a name is that of an array.
fn is_array(site: &Site, class: usize) -> bool
    requires { AreNamed site.now.program.now site.now.names.now }
    ensures { result ≡ is_array_name (name_at site.now.names.now class) }
{
    named_at(site.names, class).dimensions > 0
}

/// `new` at an instruction, of this class.
pub fn new_object(site: &Site, f: &mut Frame, at: u32, class: usize) -> Result<Answer, Memory>
    requires { AreNamed site.now.program.now site.now.names.now }
    ensures { IfOk result (λ a. NewIs site.now at class f.old a f.new) }
{
    let fresh = Fresh::New(at);
    let stands = f.stack.has(fresh);
    f.stack.push(SlotType::Uninit(at))?;
    if !f.stack.fits(site.code.max_stack) {
        return Ok(Answer::Fails(8));
    }
    if is_array(site, class) {
        return Ok(Answer::Fails(13));
    }
    if stands {
        return Ok(Answer::Fails(13));
    }
    let alloc = *f.locals.allocator();
    let locals = fresh.replace(alloc, &f.locals, SlotType::Top)?;
    f.locals = locals;
    Ok(Answer::Falls)
}

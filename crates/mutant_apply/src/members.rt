//! The method that an edit names.

ghost use Rattle.std.specs.Prelude.{◌≡◌, IfOk, option_copied};
ghost use Rattle.mutant_apply.specs.Edited.{changed_at, with_code, member_with, named_code};

use crate::items::with_item;
use class_model::{Attr, Body, Class, Code, Edit, Member, Memory, Seq};
use mutator_ops::code_of;

/// The code that an edit names.
pub fn named_code<'a>(edit: &Edit, class: &'a Class) -> Option<&'a Code>
    ensures { option_copied result ≡ named_code edit.now class.now }
{
    let member = class.methods.get(edit.method as usize)?;
    code_of(member.attrs.as_slice())
}

/// The attributes of a method with another code in the place of the first one.
pub fn with_code(new: &Code, attrs: &Seq<Attr>) -> Result<Seq<Attr>, Memory>
    ensures { IfOk result (λ edited. edited ≡ with_code new.now attrs.now) }
{
    let mut edited = attrs.empty();
    let mut is_edited = false;
    for attr in attrs.as_slice() {
        match &attr.body {
            Body::Code(_) if !is_edited => {
                edited.push(Attr {
                    name: attr.name,
                    body: Body::Code(new.copy()?),
                })?;
                is_edited = true;
            }
            _ => edited.push(attr.copy()?)?,
        }
    }
    Ok(edited)
}

fn member_with(new: &Code, member: &Member) -> Result<Member, Memory>
    ensures { IfOk result (λ edited. edited ≡ member_with new.now member.now) }
{
    Ok(Member {
        flags: member.flags,
        name: member.name,
        desc: member.desc,
        attrs: with_code(new, &member.attrs)?,
    })
}

/// The methods of a class with another code in the one that an edit names.
#[tactic(auto, using(crate::proofs::Lists::changed_set, crate::proofs::Lists::changed_none))]
pub fn methods_with(edit: &Edit, new: &Code, class: &Class) -> Result<Seq<Member>, Memory>
    ensures { IfOk result (λ edited.
        edited ≡ changed_at edit.now.method (member_with new.now) class.now.methods) }
{
    let at = edit.method as usize;
    match class.methods.get(at) {
        Some(member) => with_item(&class.methods, at, member_with(new, member)?),
        None => class.methods.copy(),
    }
}

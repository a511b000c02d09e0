//! The whole class that an edited class file says.

ghost use Rattle.std.specs.Prelude.{◌≡◌, ◌++◌, IfOk};
ghost use Rattle.class_link.specs.Edits.{with_attrs_at, class_edited};

use crate::loaded::EditedFile;
use class_model::{Attr, Class, Const, Member, Memory, Seq, push_entries};

fn with_attrs(member: &Member, attrs: &Seq<Attr>) -> Result<Member, Memory>
    ensures { IfOk result (λ m. m ≡ record member.now { attrs = attrs.now }) }
{
    Ok(Member {
        flags: member.flags,
        name: member.name,
        desc: member.desc,
        attrs: attrs.copy()?,
    })
}

// Gives a method at a place these attributes, if there is one.
#[tactic(auto, using(crate::proofs::EditLaws::attrs_past_the_end, crate::proofs::EditLaws::attrs_put))]
fn with_attrs_at(
    methods: Seq<Member>,
    place: usize,
    attrs: &Seq<Attr>,
) -> Result<Seq<Member>, Memory>
    ensures { IfOk result (λ ms. ms ≡ with_attrs_at place attrs.now methods) }
{
    let Some(method) = methods.get(place) else {
        return Ok(methods);
    };
    let method = with_attrs(method, attrs)?;
    let mut changed = methods.into_vec();
    changed[place] = method;
    Ok(Seq::from_vec(changed))
}

/// The whole class: what isn't edited is copied.
pub fn edited_class(file: &EditedFile) -> Result<Class, Memory>
    ensures { IfOk result (λ c. c ≡ class_edited file.now) }
{
    let mut class = file.original.class.copy()?;
    push_entries(&mut class.pool, file.added.as_slice())?;
    class.methods = with_attrs_at(class.methods, file.method, &file.attrs)?;
    Ok(class)
}

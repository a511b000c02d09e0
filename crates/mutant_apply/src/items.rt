//! A list with another item at a place.

ghost use Rattle.std.specs.Prelude.{◌≡◌, ◌<◌, length, slice_set, IfOk};

use class_model::{Copied, Memory, Seq};

pub fn with_item<T: Copied + Drop>(items: &Seq<T>, at: usize, item: T) -> Result<Seq<T>, Memory>
    requires { at < length items.now }
    ensures { IfOk result (λ changed. changed ≡ slice_set items.now at item) }
{
    let mut changed = items.copy()?.into_vec();
    changed[at] = item;
    Ok(Seq::from_vec(changed))
}

//! Whether a method of the program stands at a place.

ghost use Rattle.std.specs.Prelude.{◌≡◌, true, false};
ghost use Rattle.jvm_invokes.specs.Calls.{IsSite};
ghost use Rattle.jvm_natives.specs.Completed.{NoMethodAt};

use class_table::Program;
use jvm_link::Site;

/// Whether a method of the program stands here.
#[tactic(auto, using(crate::proofs::Placed::there, crate::proofs::Placed::past, crate::proofs::Placed::outside))]
pub fn is_site(p: &Program, site: Site) -> bool
    ensures there { result ≡ true → IsSite p.now site }
    ensures nowhere { result ≡ false → NoMethodAt p.now site }
{
    if site.class.0 as usize >= p.len() {
        return false;
    }
    let info = p.info(site.class);
    let linked = info.linked();
    site.place < linked.methods.len()
}

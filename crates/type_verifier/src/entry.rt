//! The frame that an instruction begins with (JVMS 4.10.1.6).

ghost use Rattle.std.specs.Prelude.{◌≡◌, IfOk, IfSome, IfNone};
ghost use Rattle.vframes.specs.Named.{AreNamed};
ghost use Rattle.type_verifier.specs.Passes.{Begins, IsRefused, taken_in};

use class_model::Memory;
use type_rows::{Site, leads};
use vframes::Frame;

// Whether the frame that falls in, if one does, is assignable to the one that is stated.
fn is_taken(site: &Site, at: u32, falls: bool, f: &Frame) -> bool
    requires { AreNamed site.now.program.now site.now.names.now }
    ensures { result ≡ taken_in site.now f.now at falls }
{
    if falls { leads(site, f, at) } else { true }
}

/// Makes the frame that falls in, if one does, the one that the instruction begins with. Answers
/// the rule that refuses, if one does: 4, where there is no frame, and 5, where what falls in isn't
/// assignable to the frame that is stated.
pub fn enter(site: &Site, at: u32, falls: bool, f: &mut Frame) -> Result<Option<u8>, Memory>
    requires { AreNamed site.now.program.now site.now.names.now }
    ensures begins { IfOk result (λ r. IfNone r (Begins site.now at falls f.old f.new)) }
    ensures refused { IfOk result (λ r. IfSome r (λ v. IsRefused site.now at falls f.old v)) }
{
    let alloc = *f.locals.allocator();
    match site.stated.in_full(alloc, at)? {
        Some(stated) => {
            if !is_taken(site, at, falls, f) {
                return Ok(Some(5));
            }
            *f = stated;
            Ok(None)
        }
        None => {
            if !falls {
                return Ok(Some(4));
            }
            Ok(None)
        }
    }
}

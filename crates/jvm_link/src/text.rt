//! What the name of a class says.

ghost use Rattle.std.specs.Prelude.{◌≡◌};
ghost use Rattle.program_rules.specs.Names.{same, package_of};

const SLASH: u16 = b'/' as u16;

// The package of a class: what stands before the last `/` of its name (JVMS 5.3).
fn package(name: &[u16]) -> &[u16]
    ensures { result.now ≡ package_of name.now }
{
    let mut end = name.len();
    while end > 0 {
        end -= 1;
        if name[end] == SLASH {
            return &name[..end];
        }
    }
    &name[..0]
}

/// Whether two classes are of one package, by their names.
pub fn same_package(one: &[u16], other: &[u16]) -> bool
    ensures { result ≡ same (package_of one.now) (package_of other.now) }
{
    package(one) == package(other)
}

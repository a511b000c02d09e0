//! Which of some maps keeps what is asked of a test. Each is for a few tests, so that what a
//! question costs doesn't go by how many tests there are.

ghost use Rattle.std.specs.Prelude.{◌≡◌, ◌/◌};

// How many tests a map is for. A block of a map has room for so many keys; if each test had a map of
// its own, one with a single key would take a block, too.
const TESTS: u32 = 15;

/// How many maps there are for so many tests, beside the last.
pub fn others_for(tests: usize) -> usize {
    tests / TESTS as usize
}

/// The place of a test's map; behind all others it is the last.
pub fn place_of(test: u32) -> usize
    ensures { result ≡ test / 15 }
{
    (test / TESTS) as usize
}

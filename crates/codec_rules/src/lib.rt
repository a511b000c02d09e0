//! How bytes are read and written: what is left of an input, reading functions that answer a value
//! and the rest or the first fault, and the laws by which they and the spellings of values compose.
//! It stands on no crate, so that every format can cite it.
//!
//! Nothing here runs. The definitions are in `specs/` and the laws in `proofs/`; each function
//! below has one family of laws as its contract. A format adds an item by a spelling, a reading
//! function of the same shape, and one term of these laws, which proves that they undo each other.
#![tactic(auto)]

ghost use Rattle.std.specs.Int.{w8, w16, w32, w64};
ghost use Rattle.codec_rules.specs.Laws.{BytesCompose, NumberComposes, SignedNumberComposes, ChainComposes, MadeComposes, TestedComposes, EitherComposes, NothingComposes, GivenComposes, ManyCompose, WholeIsTaken, WholeIsReadAgain, FillingComposes, OneIsSpelled};

/// Values of which some have a spelling.
pub trait Spelled {
    ghost Fits: { Self → Type 0 };
}

/// So many bytes are read as they are spelled.
pub fn bytes_are_read_as_spelled<F>()
    ensures { BytesCompose F }
{}

/// Numbers of 8, 16, 32 and 64 bits are read as they are spelled.
pub fn numbers_are_read_as_spelled<F>()
    ensures w8 { NumberComposes F w8 }
    ensures w16 { NumberComposes F w16 }
    ensures w32 { NumberComposes F w32 }
    ensures w64 { NumberComposes F w64 }
{}

/// So are signed ones.
pub fn signed_numbers_are_read_as_spelled<F>()
    ensures w8 { SignedNumberComposes F w8 }
    ensures w16 { SignedNumberComposes F w16 }
    ensures w32 { SignedNumberComposes F w32 }
    ensures w64 { SignedNumberComposes F w64 }
{}

/// A value and what stands behind it are read as they are spelled, where each part is. Length
/// prefixes, tags and fields are chains.
pub fn chains_are_read_as_spelled<F, A: Spelled, B: Spelled>()
    ensures { ChainComposes F A B A.Fits B.Fits }
{}

/// What a constructor makes of a value is read as it is spelled, where the value is.
pub fn made_values_are_read_as_spelled<F, A: Spelled, B: Spelled>()
    ensures { MadeComposes F A B A.Fits B.Fits }
{}

/// A value that has to pass a test is read as it is spelled.
pub fn tested_values_are_read_as_spelled<F, A: Spelled>()
    ensures { TestedComposes F A A.Fits }
{}

/// A value that is read in one of several ways, as by its tag, is read as it is spelled, where it
/// is in each of them.
pub fn choices_are_read_as_spelled<F, A: Spelled>()
    ensures either { EitherComposes F A A.Fits }
    ensures nothing { NothingComposes F A A.Fits }
    ensures given { GivenComposes F A A.Fits }
{}

/// A list of a known length is read as it is spelled, where its values are.
pub fn lists_are_read_as_spelled<F, A: Spelled>()
    ensures { ManyCompose F A A.Fits }
{}

/// Values up to the last byte are read as they are spelled.
pub fn whole_inputs_are_read_as_spelled<F, A: Spelled>()
    ensures taken { WholeIsTaken F A A.Fits }
    ensures again { WholeIsReadAgain F A A.Fits }
{}

/// A value that fills a part of a stated length, as the content of an attribute, is read as it is
/// spelled.
pub fn parts_of_a_stated_length_are_read_as_spelled<F, A: Spelled>()
    ensures { FillingComposes F A A.Fits }
{}

/// Bytes begin with the spelling of at most one value.
pub fn values_are_spelled_apart<F, A: Spelled>()
    ensures { OneIsSpelled F A A.Fits }
{}

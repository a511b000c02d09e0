//! What is left of a journal while it is read.

ghost use Rattle.std.specs.Prelude.{◌≡◌, ◌+◌, ◌<◌, ◌^◌, length, take};
ghost use Rattle.codec_rules.specs.Input.{behind};
ghost use Rattle.run_journal.specs.Calls.{TakesByte};

use std::marker::Model;

/// A place in a journal, and the bytes from there on.
#[derive(Drop)]
pub struct Rest<'a> {
    bytes: &'a [u8],
    place: u64,
}

impl<'a> Model for Rest<'a> {
    ghost use Rattle.std.specs.Prelude.{◌+◌, ◌<◌, ◌^◌, length};
    ghost use Rattle.codec_rules.specs.Input.{Input};

    ghost Value = { Input };

    ghost view = { λ r. record { at = r.place; bytes = r.bytes.now } };

    ghost invariant = { λ r. r.place + length r.bytes.now < 2 ^ 64 };
}

impl<'a> Rest<'a> {
    /// All of these bytes.
    pub fn new(bytes: &'a [u8]) -> Rest<'a>
        ensures { result ≡ record { at = 0; bytes = bytes.entry.now } }
    {
        Rest { bytes, place: 0 }
    }

    /// The place of the next byte.
    pub fn at(&self) -> u64
        ensures { result ≡ self.now.at }
    {
        self.place
    }

    /// The next byte, if there is one.
    pub fn next(&mut self) -> Option<u8>
        ensures { TakesByte self.old self.new result }
    {
        let [first, behind @ ..] = self.bytes else {
            return None;
        };
        self.bytes = behind;
        self.place += 1;
        Some(*first)
    }

    /// The next so many bytes, or all that are left where these are fewer.
    #[tactic(auto, using(crate::proofs::Cutting::take_over, crate::proofs::Cutting::drop_over))]
    pub fn up_to(&mut self, count: usize) -> &'a [u8]
        ensures front { result.now ≡ take count self.old.bytes }
        ensures rest { self.new ≡ behind (length result.now) self.old }
    {
        let len = if self.bytes.len() < count {
            self.bytes.len()
        } else {
            count
        };
        let (front, behind) = self.bytes.split_at(len);
        self.bytes = behind;
        self.place += len as u64;
        front
    }
}

//! Reading numbers and bytes.

ghost use Rattle.std.specs.Prelude.{◌≡◌, ◌+◌, ◌^◌, ◌<◌, length};
ghost use Rattle.std.specs.Int.{w8, w16, w32, w64};
ghost use Rattle.class_model.specs.declared.fault.ClassFault.TheVariants as class_fault;
ghost use Rattle.codec_rules.specs.Input.{IsBytes, IsInput};
ghost use Rattle.codec_rules.specs.Reading.{bytes_at, number_at};
ghost use Rattle.mt_bytes.specs.Moves.{Moves, MovesBy};

use class_model::ClassFault;
use std::marker::Model;
use thiserror::Error;

/// Too few bytes remain for the item that begins at a place: a byte offset in the file, from 0.
#[derive(Clone, Copy, Debug, PartialEq, Eq, Error)]
#[error("the file ends inside the item at {at}")]
pub struct Truncated {
    pub at: u64,
}

impl From<Truncated> for ClassFault {
    ghost from_gives = { λ truncated fault. fault ≡ class_fault.Truncated truncated.at };

    fn from(truncated: Truncated) -> ClassFault {
        ClassFault::Truncated { at: truncated.at }
    }
}

/// A place in a file, and the bytes from there on.
#[derive(Drop)]
pub struct Cursor<'a> {
    rest: &'a [u8],
    place: u64,
}

impl<'a> Model for Cursor<'a> {
    ghost use Rattle.std.specs.Prelude.{◌+◌, ◌<◌, ◌^◌, length};
    ghost use Rattle.codec_rules.specs.Input.{Input};

    ghost Value = { Input };

    ghost view = { λ c. record { at = c.place; bytes = c.rest.now } };

    ghost invariant = { λ c. c.place + length c.rest.now < 2 ^ 64 };
}

/// Bytes are below 256. Behind a model a caller doesn't know it of a slice, so `at` says it.
fn are_bytes(bytes: &[u8])
    ensures { IsBytes bytes.now }
{
    let _bytes = bytes;
}

impl<'a> Cursor<'a> {
    /// A cursor at the first of these bytes, whose place in the file is `base`.
    pub fn new(bytes: &'a [u8], base: u64) -> Cursor<'a>
        requires { base + length bytes.now < 2 ^ 64 }
        ensures { result ≡ record { at = base; bytes = bytes.entry.now } }
    {
        Cursor {
            rest: bytes,
            place: base,
        }
    }

    /// The place of the next byte.
    pub fn at(&self) -> u64
        ensures place { result ≡ self.now.at }
        ensures known { IsInput self.now }
    {
        are_bytes(self.rest);
        self.place
    }

    /// How many bytes remain.
    pub fn left(&self) -> u64
        ensures { result ≡ length self.now.bytes }
    {
        self.rest.len() as u64
    }

    /// The next `n` bytes. Where fewer remain the cursor stays.
    pub fn take(&mut self, n: u32) -> Result<&'a [u8], Truncated>
        ensures { MovesBy (λ slice. slice.now) (bytes_at n) self.old self.new result }
    {
        let count = n as usize;
        if self.rest.len() < count {
            return Err(Truncated { at: self.place });
        }
        let (front, rest) = self.rest.split_at(count);
        self.rest = rest;
        self.place += count as u64;
        Ok(front)
    }

    /// A number of one byte. Where none remains the cursor stays.
    pub fn u1(&mut self) -> Result<u8, Truncated>
        ensures { Moves (number_at w8) self.old self.new result }
    {
        let bytes = self.take(1)?;
        Ok(bytes[0])
    }

    /// A number of two bytes, most significant first. Where fewer remain the cursor stays.
    pub fn u2(&mut self) -> Result<u16, Truncated>
        ensures { Moves (number_at w16) self.old self.new result }
    {
        let bytes = self.take(2)?;
        Ok(u16::from_be_bytes([bytes[0], bytes[1]]))
    }

    /// A number of four bytes, most significant first. Where fewer remain the cursor stays.
    pub fn u4(&mut self) -> Result<u32, Truncated>
        ensures { Moves (number_at w32) self.old self.new result }
    {
        let bytes = self.take(4)?;
        Ok(u32::from_be_bytes([bytes[0], bytes[1], bytes[2], bytes[3]]))
    }

    /// A number of eight bytes, most significant first. Where fewer remain the cursor stays.
    pub fn u8(&mut self) -> Result<u64, Truncated>
        ensures { Moves (number_at w64) self.old self.new result }
    {
        let bytes = self.take(8)?;
        Ok(u64::from_be_bytes([
            bytes[0], bytes[1], bytes[2], bytes[3], bytes[4], bytes[5], bytes[6], bytes[7],
        ]))
    }
}

//! Reading the items of instructions.

ghost use Rattle.std.specs.Prelude.{◌≡◌, ◌+◌, ◌^◌, ◌<◌, length};
ghost use Rattle.codec_rules.specs.Input.{IsBytes, IsInput};
ghost use Rattle.mt_insn.specs.Item.{ReadsCode, ReadsBytes, bytes_in, u1_in, u2_in, u4_in, s1_in, s2_in, s4_in};

use class_model::ClassFault;
use std::marker::Model;

/// A place in the code of a method, counted from its first instruction, and the bytes from there
/// on.
///
/// Each call is told the place in the file of the instruction that it reads from. Where the code
/// ends inside an item, that instruction passes the code's end.
#[derive(Drop)]
pub struct CodeCursor<'a> {
    rest: &'a [u8],
    place: u64,
}

impl<'a> Model for CodeCursor<'a> {
    ghost use Rattle.std.specs.Prelude.{◌+◌, ◌<◌, ◌^◌, length};
    ghost use Rattle.codec_rules.specs.Input.{Input};

    ghost Value = { Input };

    ghost view = { λ c. record { at = c.place; bytes = c.rest.now } };

    ghost invariant = { λ c. c.place + length c.rest.now < 2 ^ 64 };
}

/// Bytes are below 256. Behind a model a caller doesn't know it of a slice, so the cursor says it.
fn are_bytes(bytes: &[u8])
    ensures { IsBytes bytes.now }
{
    let _bytes = bytes;
}

impl<'a> CodeCursor<'a> {
    pub fn new(bytes: &'a [u8]) -> CodeCursor<'a>
        ensures { result ≡ record { at = 0; bytes = bytes.entry.now } }
    {
        CodeCursor {
            rest: bytes,
            place: 0,
        }
    }

    /// The place of the next byte.
    pub fn place(&self) -> u64
        ensures place { result ≡ self.now.at }
        ensures known { IsInput self.now }
    {
        are_bytes(self.rest);
        self.place
    }

    /// How many bytes remain.
    pub fn left(&self) -> u64
        ensures { result ≡ length self.now.bytes }
    {
        self.rest.len() as u64
    }

    pub fn take(&mut self, count: usize, at: u64) -> Result<&'a [u8], ClassFault>
        ensures { ReadsBytes (λ slice. slice.now) (bytes_in at count) self.old self.new result }
    {
        if self.rest.len() < count {
            return Err(ClassFault::BadLength { at });
        }
        let (front, rest) = self.rest.split_at(count);
        self.rest = rest;
        self.place += count as u64;
        Ok(front)
    }

    pub fn u1(&mut self, at: u64) -> Result<u8, ClassFault>
        ensures { ReadsCode (u1_in at) self.old self.new result }
    {
        let bytes = self.take(1, at)?;
        Ok(bytes[0])
    }

    pub fn u2(&mut self, at: u64) -> Result<u16, ClassFault>
        ensures { ReadsCode (u2_in at) self.old self.new result }
    {
        let bytes = self.take(2, at)?;
        Ok(u16::from_be_bytes([bytes[0], bytes[1]]))
    }

    pub fn u4(&mut self, at: u64) -> Result<u32, ClassFault>
        ensures { ReadsCode (u4_in at) self.old self.new result }
    {
        let bytes = self.take(4, at)?;
        Ok(u32::from_be_bytes([bytes[0], bytes[1], bytes[2], bytes[3]]))
    }

    pub fn s1(&mut self, at: u64) -> Result<i8, ClassFault>
        ensures { ReadsCode (s1_in at) self.old self.new result }
    {
        let n = self.u1(at)?;
        Ok(n.cast_signed())
    }

    pub fn s2(&mut self, at: u64) -> Result<i16, ClassFault>
        ensures { ReadsCode (s2_in at) self.old self.new result }
    {
        let n = self.u2(at)?;
        Ok(n.cast_signed())
    }

    pub fn s4(&mut self, at: u64) -> Result<i32, ClassFault>
        ensures { ReadsCode (s4_in at) self.old self.new result }
    {
        let n = self.u4(at)?;
        Ok(n.cast_signed())
    }
}

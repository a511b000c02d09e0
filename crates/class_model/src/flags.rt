//! The bits of access flags (JVMS 4.1, 4.5, 4.6).

ghost use Rattle.std.specs.Prelude.{◌≡◌, ◌||◌, nat_eq};
ghost use Rattle.std.specs.Int.{bit_at};

/// Bit 1 is ACC_PRIVATE.
#[inline(always)]
pub fn is_private(flags: u16) -> bool
    ensures { result ≡ nat_eq (bit_at flags 1) 1 }
{
    flags / 2 % 2 == 1
}

/// Bits 0 and 2 are ACC_PUBLIC and ACC_PROTECTED.
#[inline(always)]
pub fn is_open(flags: u16) -> bool
    ensures { result ≡ (nat_eq (bit_at flags 0) 1 || nat_eq (bit_at flags 2) 1) }
{
    flags % 2 == 1 || flags / 4 % 2 == 1
}

/// Bit 3 is ACC_STATIC.
#[inline(always)]
pub fn is_static(flags: u16) -> bool
    ensures { result ≡ nat_eq (bit_at flags 3) 1 }
{
    flags / 8 % 2 == 1
}

/// Bit 4 is ACC_FINAL.
#[inline(always)]
pub fn is_final(flags: u16) -> bool
    ensures { result ≡ nat_eq (bit_at flags 4) 1 }
{
    flags / 16 % 2 == 1
}

/// Bit 8 is ACC_NATIVE.
#[inline(always)]
pub fn is_native(flags: u16) -> bool
    ensures { result ≡ nat_eq (bit_at flags 8) 1 }
{
    flags / 256 % 2 == 1
}

/// Bit 9 is ACC_INTERFACE.
#[inline(always)]
pub fn is_interface(flags: u16) -> bool
    ensures { result ≡ nat_eq (bit_at flags 9) 1 }
{
    flags / 512 % 2 == 1
}

/// Bit 10 is ACC_ABSTRACT.
#[inline(always)]
pub fn is_abstract(flags: u16) -> bool
    ensures { result ≡ nat_eq (bit_at flags 10) 1 }
{
    flags / 1024 % 2 == 1
}

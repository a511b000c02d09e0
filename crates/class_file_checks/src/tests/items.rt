//! Numbers and bytes at a place in a file, against `byteorder`.

use byteorder::{BigEndian, ByteOrder};
use class_model::{Bytes, ClassFault, Seq};
use mt_bytes::{Cursor, Truncated, put_u1, put_u2, put_u4, put_u8};
use std::test::Fail;

#[test]
fn numbers_are_those_of_byteorder(rt: HostRuntime) -> Result<(), Fail> {
    let mut file = [0u8; 15];
    file[0] = 0xca;
    BigEndian::write_u16(&mut file[1..], 0xfeba);
    BigEndian::write_u32(&mut file[3..], 0xbe00_0034);
    BigEndian::write_u64(&mut file[7..], 0x0123_4567_89ab_cdef);
    let mut cursor = Cursor::new(&file, 40);
    let mut out: Bytes = Seq::new(rt.alloc());
    put_u1(&mut out, cursor.u1()?)?;
    put_u2(&mut out, cursor.u2()?)?;
    assert!(rt; cursor.at() == 43 && cursor.left() == 12);
    put_u4(&mut out, cursor.u4()?)?;
    let last = cursor.u8()?;
    assert!(rt; last == 0x0123_4567_89ab_cdef);
    put_u8(&mut out, last)?;
    assert!(rt; out.as_slice() == file.as_slice());
    assert!(rt; cursor.left() == 0);
    Ok(())
}

#[test]
fn bytes_are_taken_and_end(rt: HostRuntime) -> Result<(), Fail> {
    let mut cursor = Cursor::new(b"Hello", 7);
    assert!(rt; cursor.take(4)? == b"Hell".as_slice());
    assert!(rt; cursor.u2() == Err(Truncated { at: 11 }));
    assert!(rt; cursor.u1()? == b'o');
    let cut = ClassFault::from(Truncated { at: 12 });
    assert!(rt; cut == ClassFault::Truncated { at: 12 });
    Ok(())
}

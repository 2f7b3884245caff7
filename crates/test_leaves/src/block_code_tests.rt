use base_bytes::{
    Blob, Past, get_u8, get_u16, get_u32, get_u64, put_u8, put_u16, put_u32, put_u64,
};
use std::test::Fail;

#[test]
fn a_field_past_the_end_is_refused(rt: HostRuntime) {
    let mut bytes = [1, 2, 3, 4];
    assert!(rt; get_u32(&bytes, 1) == Err(Past { at: 1, width: 4 }));
    assert!(rt; put_u32(&mut bytes, 1, 0) == Err(Past { at: 1, width: 4 }));
    let far = usize::MAX;
    assert!(rt; get_u64(&bytes, far) == Err(Past { at: far, width: 8 }));
    assert!(rt; bytes == [1, 2, 3, 4]);
}

#[test]
fn each_width_is_written_and_read(rt: HostRuntime) {
    let mut bytes = [0xff; 17];
    assert!(rt; put_u8(&mut bytes, 0, 0x01) == Ok(()));
    assert!(rt; put_u16(&mut bytes, 1, 0x0203) == Ok(()));
    assert!(rt; put_u32(&mut bytes, 3, 0x0405_0607) == Ok(()));
    assert!(rt; put_u64(&mut bytes, 7, 0x0809_0a0b_0c0d_0e0f) == Ok(()));
    let low_first = [
        1, 3, 2, 7, 6, 5, 4, 15, 14, 13, 12, 11, 10, 9, 8, 0xff, 0xff,
    ];
    assert!(rt; bytes == low_first);
    assert!(rt; get_u8(&bytes, 0) == Ok(0x01));
    assert!(rt; get_u16(&bytes, 1) == Ok(0x0203));
    assert!(rt; get_u32(&bytes, 3) == Ok(0x0405_0607));
    assert!(rt; get_u64(&bytes, 7) == Ok(0x0809_0a0b_0c0d_0e0f));
}

#[test]
fn a_blob_is_written_number_behind_number(rt: HostRuntime) -> Result<(), Fail> {
    let mut blob = Blob::new(rt.alloc())?;
    blob.push(0x01);
    blob.put_u16(0x0203);
    blob.put_u32(0x0405_0607);
    blob.put_u64(0x0809_0a0b_0c0d_0e0f);
    blob.put_bytes(&[0xff, 0xff]);
    let low_first = [
        1, 3, 2, 7, 6, 5, 4, 15, 14, 13, 12, 11, 10, 9, 8, 0xff, 0xff,
    ];
    assert!(rt; blob.as_slice() == low_first.as_slice());
    assert!(rt; blob.len() == 17);
    blob.clear();
    assert!(rt; blob.len() == 0);
    Ok(())
}

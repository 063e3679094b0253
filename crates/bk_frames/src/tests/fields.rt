use bk_base::Fields;

#[test]
fn reads_numbers(rt: HostRuntime) {
    let bytes = b"\x01\x02\x03\x04\x05\x06\x07\x08\x09\x0a\x0b\x0c\x0d\x0e\x0f";
    let mut fields = Fields::new(bytes);
    assert!(rt; fields.u8() == Some(0x01));
    assert!(rt; fields.u16() == Some(0x0203));
    assert!(rt; fields.u32() == Some(0x0405_0607));
    assert!(rt; fields.u64() == Some(0x0809_0a0b_0c0d_0e0f));
    assert!(rt; fields.u8().is_none());
}

#[test]
fn reads_parts(rt: HostRuntime) {
    let text = [7u8; 33];
    let mut fields = Fields::new(&text);
    assert!(rt; fields.take(32) == Some([7u8; 32].as_slice()));
    assert!(rt; fields.take(32).is_none());
    assert!(rt; fields.take(1) == Some([7u8].as_slice()));
    assert!(rt; fields.rest().is_empty());
}

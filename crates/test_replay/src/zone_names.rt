use zone_stats::ZoneName;

#[test]
fn a_name_has_1_to_16_name_characters(rt: HostRuntime) {
    let cases: [(&[u8], bool); 8] = [
        (b"", false),
        (b"a", true),
        (b"Az09_-", true),
        (b"0123456789abcdef", true),
        (b"0123456789abcdefg", false),
        (b"a*", false),
        (b"a b", false),
        (b"\xc3\xa9", false),
    ];
    for (bytes, is_name) in cases {
        assert_eq!(rt; ZoneName::new(bytes).is_some(), is_name);
    }
}

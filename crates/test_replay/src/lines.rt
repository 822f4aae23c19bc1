use trace_lines::parse_number;

#[test]
fn numbers_are_decimals_below_two_to_the_sixty_four(rt: HostRuntime) {
    let texts = [
        ("0", Some(0)),
        ("9", Some(9)),
        ("10", Some(10)),
        ("18446744073709551615", Some(18446744073709551615)),
        ("18446744073709551616", None),
        ("", None),
        ("00", None),
        ("07", None),
        ("+7", None),
        ("-7", None),
        (" 7", None),
        ("7 ", None),
        ("7a", None),
        ("0x7", None),
    ];
    for (text, number) in texts {
        assert_eq!(rt; parse_number(text.as_bytes()), number, "{text}");
    }
    assert_eq!(rt; parse_number(&[b'1', 0xff]), None);
}

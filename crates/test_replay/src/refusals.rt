use zone_stats::Refusal;

#[test]
fn a_refusal_has_its_kind_and_its_numbers(rt: HostRuntime) {
    let cases = [
        (Refusal::AtLimit { out: 4, limit: 5 }, (1, 4, 5)),
        (
            Refusal::Reserved {
                free: 2,
                reserve: 3,
            },
            (2, 2, 3),
        ),
        (Refusal::Full { slabs: 1, made: 9 }, (3, 1, 9)),
        (Refusal::Init { code: 255 }, (4, 255, 0)),
        (Refusal::Ctor { code: 7 }, (5, 7, 0)),
    ];
    for (refusal, cause) in cases {
        assert_eq!(rt; refusal.cause(), cause);
    }
}

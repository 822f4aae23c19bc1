use std::test::Fail;
use trace_lines::{push_field, push_line};

#[test]
fn lines_have_one_space_between_two_fields(rt: HostRuntime) -> Result<(), Fail> {
    let mut text = Vec::new(rt.alloc());
    push_line(rt.alloc(), &mut text, b"end", &[])?;
    push_line(rt.alloc(), &mut text, b"names", &[0, 10, u128::MAX])?;
    push_field(&mut text, b"last")?;
    let expected = "end\nnames 0 10 340282366920938463463374607431768211455\n last";
    assert_eq!(rt; text.as_slice(), expected.as_bytes());
    Ok(())
}

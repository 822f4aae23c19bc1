use listed::Listed;
use std::test::Fail;

#[test]
fn lists_of_lists_keep_their_items(rt: HostRuntime) -> Result<(), Fail> {
    let inner = Listed::from_vec(vec![in rt.alloc(); 1u8, 2]?);
    let outer = Listed::from_vec(vec![in rt.alloc(); inner]?);
    assert_eq!(rt; outer.len(), 1);
    assert_eq!(rt; outer.as_slice()[0].as_slice(), [1, 2].as_slice());
    assert_eq!(rt; outer.into_vec().len(), 1);
    Ok(())
}

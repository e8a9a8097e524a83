//! Each list at a type of its own.
use crate::{Bytes, Listed, Numbers};
use std::test::Fail;

#[test]
fn lists_give_back_what_they_were_made_of(rt: HostRuntime) -> Result<(), Fail> {
    let bytes = Bytes::from_slice(rt.alloc(), &[1, 2])?;
    assert!(rt; bytes.len() == 2 && !bytes.is_empty());
    assert!(rt; bytes.into_vec().as_slice() == [1, 2].as_slice());
    let numbers = Numbers::new(Vec::from_array(rt.alloc(), [7, 8, 9])?);
    assert!(rt; numbers.len() == 3 && numbers.as_slice() == [7, 8, 9].as_slice());
    let flags = Listed::new(Vec::from_array(rt.alloc(), [true, false])?);
    assert!(rt; flags.as_slice() == [true, false].as_slice());
    Ok(())
}

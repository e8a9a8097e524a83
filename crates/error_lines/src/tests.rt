//! A line that is put together.
use crate::{Line, put, put_number};

#[test]
fn a_line_has_what_was_put(rt: HostRuntime) {
    let mut line = Line::new();
    put_number(&mut line, "at ", 0);
    put(&mut line, ", ");
    put_number(&mut line, "of ", u64::MAX);
    assert_eq!(rt;
        line.as_slice(),
        b"at 0, of 18446744073709551615".as_slice()
    );
}

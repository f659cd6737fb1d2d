//! Full windows.

use crate::{Additions, add_by_calls, add_in_windows, one_counter};
use std::test::Fail;
use tm_seq::Counter;

#[test]
fn three_windows_reply_as_plain_calls_do(rt: HostRuntime) -> Result<(), Fail> {
    let Some((mut turns, trust)) = one_counter(rt.alloc()) else {
        return Err(Fail::new("no memory"));
    };
    let mut asked = Additions::new();
    add_in_windows(&mut turns, &trust, &mut asked, 3);
    let mut called = Additions::new();
    let mut counter = Counter { value: 0 };
    add_by_calls(&mut counter, &mut called, 3);
    assert!(rt; called.digest() != Additions::new().digest());
    assert_eq!(rt; asked.digest(), called.digest());
    Ok(())
}

//! Two clients of one store, one after the other.

use super::{text, whole};
use crate::answer_after;
use mc_next::Ended;
use std::hash::RandomState;
use std::test::Fail;

#[test]
fn what_one_client_stores_another_one_gets(rt: HostRuntime) -> Result<(), Fail> {
    let alloc = rt.alloc();
    for trustees in [2, 5, 31] {
        let (other, again) = answer_after(
            alloc,
            trustees,
            RandomState::new(&rt)?,
            whole(alloc, "set a 0 0 1~x~set b 0 0 1~y~quit~")?,
            whole(alloc, "get a b~flush_all~")?,
            whole(alloc, "get a b~")?,
        )?;
        assert!(rt;
            other.output == text(alloc, "VALUE a 0 1~x~VALUE b 0 1~y~END~OK~")?,
            "over {trustees}"
        );
        assert!(rt; again.output == text(alloc, "END~")?, "over {trustees}");
        assert_eq!(rt; other.ended, Ended::AtEnd);
    }
    Ok(())
}

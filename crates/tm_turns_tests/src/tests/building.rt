//! A build that is refused.

use std::test::Fail;
use tm_batch::Config;
use tm_build::BuildRefused;
use tm_seq::Counter;
use tm_turns::Turns;

#[test]
fn a_build_of_one_trustee_is_refused(rt: HostRuntime) -> Result<(), Fail> {
    let config = Config {
        clients: 1,
        trustees: 1,
        objects: 1,
        trusts: 1,
        last_id: 1,
    };
    let built = Turns::<Counter, &'static str>::build(rt.alloc(), config, Vec::new(rt.alloc()));
    assert!(rt; matches!(built, Err(BuildRefused::BadConfig(_))));
    Ok(())
}

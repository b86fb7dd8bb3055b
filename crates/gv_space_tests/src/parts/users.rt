//! The jobs that use one buffer: when they are known to ascend, which no answer of `Buffers` shows.
use gv_buffers::{Usage, Users};
use std::test::Fail;

#[test]
fn users_ascend_again_once_all_have_left(rt: HostRuntime) -> Result<(), Fail> {
    let mut users = Users::new(rt.alloc());
    let mut known = [users.ascending; 5];
    users.list.reserve(1)?;
    users.join(2, Usage::Read);
    known[1] = users.ascending;
    users.list.reserve(1)?;
    users.join(1, Usage::Read);
    known[2] = users.ascending;
    users.leave(2);
    known[3] = users.ascending;
    users.leave(1);
    known[4] = users.ascending;
    assert_eq!(rt; known, [true, true, false, false, true]);
    Ok(())
}

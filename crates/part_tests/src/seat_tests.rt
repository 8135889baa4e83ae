//! Minutes with two seats. What they say exists in proofs alone, so only that the calls return is seen here.

use seats::Minutes;
use std::test::Fail;

#[test]
fn two_seats_are_told_in_the_minutes(rt: HostRuntime) -> Result<(), Fail> {
    let mut minutes = Minutes::<u8>::new(rt.alloc())?;
    let mut first = minutes.admit();
    let mut second = minutes.admit();
    first.see(&rt, &mut minutes, &1);
    second.see(&rt, &mut minutes, &2);
    first.read(&rt, &mut minutes);
    Ok(())
}

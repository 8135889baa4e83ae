//! The case of unavailability of a link, by its marks.

use crate::parts::CLEAR;
use link_state::{End, LinkChange};

#[test]
fn tells_the_case_of_unavailability(rt: HostRuntime) {
    let failed = CLEAR.after(LinkChange::Fail);
    let blocked = failed.after(LinkChange::Block(End::First));
    let inhibited = failed.after(LinkChange::Inhibit(End::Second));
    let cases = [
        CLEAR.case(),
        failed.case(),
        blocked.case(),
        inhibited.case(),
    ];
    assert_eq!(rt; cases, [0, 1, 3, 5]);
}

//! Texts that no script is answered with, since the program gives no cause for them.

use answers::{Answer, Reason, put_answer};
use desk_core::Refusal;
use std::alloc::Global;
use std::process::Abort;

/// The answer is this text.
fn expect_text(rt: &impl Abort, alloc: Global, answer: &Answer, wanted: &str) {
    let mut text = String::new(alloc);
    put_answer(alloc, &mut text, answer).expect(rt, "memory");
    assert_eq!(rt; text.as_str(), wanted);
}

#[test]
fn writes_refusals_of_results_and_versions(rt: HostRuntime) {
    for (refusal, text) in [
        (Refusal::Differs, "refused 49 Differs"),
        (Refusal::EndOfNumbers, "refused 51 EndOfNumbers"),
    ] {
        let answer = Answer::Refused(Reason::Desk(refusal));
        expect_text(&rt, rt.alloc(), &answer, text);
    }
}

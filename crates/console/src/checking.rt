//! The check of all tables of a network.

ghost use Rattle.std.specs.Prelude.{◌≡◌, IfOk, None, length, string_bytes};
ghost use Rattle.console.specs.Checking.{wrong_text, verdict_text, IsVerdict};

use all_tables::{Wrong, check_tables, tables_of};
use answers::put_complaint;
use excerpts::Frozen;
use std::alloc::{AllocError, Global};
use std::thread::Threads;
use transfer_state::Table;

/// What a check of all tables found.
#[derive(Debug, Clone, Copy)]
pub struct CheckEnd {
    /// How many tables there are.
    pub count: usize,
    /// The first wrong one, none if all are right.
    pub wrong: Option<Wrong>,
}

/// The first wrong table in text.
fn write_wrong(alloc: Global, wrong: Wrong) -> Result<String, AllocError>
    ensures { IfOk result (λ text. string_bytes text ≡ wrong_text wrong) }
{
    let mut text = String::from_str(alloc, "bad ")?;
    put_complaint(alloc, &mut text, wrong.dest, wrong.complaint)?;
    Ok(text)
}

impl CheckEnd {
    /// What is said of it, without a line feed: `ok P` of P tables that are all right, and else `bad X Y c` of the first that isn't: its
    /// destination, and the point and the letter of the first complaint about it. It fails if memory is refused.
    pub fn write(&self, alloc: Global) -> Result<String, AllocError>
        ensures { IfOk result (λ text. string_bytes text ≡ verdict_text self.now.count self.now.wrong) }
    {
        let count = self.count;
        match self.wrong {
            None => format!(in alloc; "ok {count}"),
            Some(wrong) => write_wrong(alloc, wrong),
        }
    }
}

/// Checks tables, whatever they are, by the local rule, each as that of its destination in a network: none is wrong if each is the
/// settled one of its destination, and else the first is told that isn't. It fails if memory is refused.
pub fn check_given(
    rt: &(impl Threads + Sync),
    alloc: Global,
    net: &Frozen,
    tables: &[Table],
) -> Result<CheckEnd, AllocError>
    ensures { IfOk result (λ end. IsVerdict net.now tables.now end.count end.wrong) }
{
    let wrong = check_tables(rt, alloc, net, tables)?;
    Ok(CheckEnd {
        count: tables.len(),
        wrong,
    })
}

/// Works out the tables of all planned destinations, and hands them to `check_given`. So there is one for each plan, and none is wrong.
/// It fails if memory is refused.
pub fn check_net(
    rt: &(impl Threads + Sync),
    alloc: Global,
    net: &Frozen,
) -> Result<CheckEnd, AllocError>
    ensures count { IfOk result (λ end. end.count ≡ length net.now.plans) }
    ensures right { IfOk result (λ end. end.wrong ≡ None) }
{
    let tables = tables_of(rt, alloc, net)?;
    check_given(rt, alloc, net, &tables)
}

//! How the sessions of seats end, which is told at once while others go on.

use crate::reports::Teller;
use crate::seat_reports::tell_end;
use crate::seat_text::SeatEntry;
use crate::streams::Seen;
use console::Fault;
use serving::Farewell;
use std::sync::{Mutex, Wait};

/// Who says on standard error which seat ended early.
#[derive(Drop)]
pub struct SeatEnds<'a, T: Wait> {
    rt: &'a HostRuntime,
    threads: &'a T,
    entries: &'a [SeatEntry],
    seen: &'a [Seen],
    explained: bool,
    /// Whether one ended early. It is held while that is told, so that no two are told in each other's lines.
    is_any: Mutex<bool>,
}

impl<'a, T: Wait> SeatEnds<'a, T> {
    /// None has ended yet.
    pub fn new(
        rt: &'a HostRuntime,
        threads: &'a T,
        entries: &'a [SeatEntry],
        seen: &'a [Seen],
        explained: bool,
    ) -> SeatEnds<'a, T> {
        SeatEnds {
            rt,
            threads,
            entries,
            seen,
            explained,
            is_any: Mutex::new(false),
        }
    }

    /// Whether one ended early.
    pub fn is_any(self) -> bool {
        self.is_any.into_inner()
    }
}

impl<'a, T: Wait> Farewell for SeatEnds<'a, T> {
    fn tell(&self, session: usize, fault: Option<Fault>) {
        let (Some(entry), Some(seen)) = (self.entries.get(session), self.seen.get(session)) else {
            return;
        };
        let mut is_any = self.is_any.lock(self.threads);
        let teller = Teller {
            rt: self.rt,
            explained: self.explained,
        };
        *is_any |= tell_end(teller, entry, seen, fault);
    }
}

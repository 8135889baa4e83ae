//! How a run ends: what it saves, what it says on standard error, and its status.

use crate::files::{Devices, fault_of, save_text, try_saving};
use crate::reports::{Done, Stop, Teller};
use crate::runs::Ended;
use crate::saying::say;
use crate::streams::Seen;
use crate::targets::{Stamp, stamp_of};
use console::Fault;
use net_data::Net;
use net_saving::save;
use std::io;
use std::process::ExitCode;

/// The file that a run saves to, as it was when the run began.
#[derive(Clone, Copy)]
pub struct Saving<'a> {
    /// The file's name.
    pub name: &'a str,
    before: Option<Stamp>,
}

/// The fault of a file that can't be written, of which the system's reason is said if that is wanted.
fn told_fault(teller: Teller<'_>, name: &str, error: &io::Error) -> Fault {
    teller.explain_file(name, error);
    fault_of(error)
}

impl<'a> Saving<'a> {
    /// The file that a run is to save to, if one is named. That it can be written is tried at once.
    pub fn new(teller: Teller<'_>, name: Option<&'a str>) -> Result<Option<Saving<'a>>, Stop> {
        let Some(name) = name else {
            return Ok(None);
        };
        if let Err(error) = try_saving(teller.rt, name) {
            return Err(told_fault(teller, name, &error).into());
        }
        Ok(Some(Saving {
            name,
            before: stamp_of(teller.rt, name),
        }))
    }

    /// Says that the file isn't as it was when the run began, if it isn't.
    fn tell_change(&self, rt: &HostRuntime) {
        if self.before != stamp_of(rt, self.name) {
            say(
                rt,
                &[
                    "route_desk: ",
                    self.name,
                    ": others changed it during this run; what they wrote is replaced",
                ],
            );
        }
    }

    /// Writes the network of a run to the file.
    pub fn save(&self, teller: Teller<'_>, net: &Net) -> Done {
        let text = save(teller.alloc(), net)?;
        self.tell_change(teller.rt);
        match save_text(teller.rt, self.name, text.as_str(), Devices::Written) {
            Ok(()) => Ok(ExitCode::SUCCESS),
            Err(error) => Err(told_fault(teller, self.name, &error).into()),
        }
    }
}

/// Says how many lines were refused, if they were counted and there were any.
fn tell_refused(rt: &HostRuntime, refused: u64) {
    let _ = match refused {
        0 => Ok(()),
        1 => eprintln!(rt; "route_desk: 1 line refused"),
        _ => eprintln!(rt; "route_desk: {refused} lines refused"),
    };
}

/// Why a run ends with a fault. What the fault means is said here if nothing is known of a stream, but for that of a network text, which
/// is explained where it is read.
fn stop_of(teller: Teller<'_>, seen: &Seen, fault: Fault) -> Stop {
    if let Some((stream, error)) = seen.reason_of(&fault) {
        return Stop::Stream(fault, stream, error);
    }
    if !matches!(fault, Fault::Load(_)) {
        teller.explain_fault(fault);
    }
    Stop::Fault(fault)
}

/// Ends a run: says what was wrong with it, or writes its network if a file is named.
pub fn finish(ended: &Ended, saving: Option<Saving<'_>>, teller: Teller<'_>) -> Done {
    let refused = ended.seen.refused();
    tell_refused(teller.rt, refused);
    if let Some(fault) = &ended.end.fault {
        return Err(stop_of(teller, &ended.seen, *fault));
    }
    if refused > 0 {
        return Ok(ExitCode::from(1));
    }
    match (&ended.end.net, saving) {
        (Some(net), Some(saving)) => saving.save(teller, net),
        _ => Ok(ExitCode::SUCCESS),
    }
}

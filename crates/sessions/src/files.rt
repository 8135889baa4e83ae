//! A network text of its own, without a script.

ghost use Rattle.std.specs.Prelude.{MatchResult};
ghost use Rattle.sessions.specs.Input.{HasReadAll, HasNotReadAll, HasLoaded, HasNotLoaded};

use crate::faults::Fault;
use crate::input::{TEXT_LIMIT, of_run};
use crate::runs::{CHUNK, READ_LIMIT};
use net_data::Net;
use net_text::load_owned;
use std::alloc::Global;
use std::io::{ErrorKind, Read};

/// Reads all bytes, of which there are at most as many as a network text may have.
fn read_all<R: Read>(alloc: Global, reader: &mut R) -> Result<Vec<u8>, Fault>
    ensures { MatchResult result (λ bytes. HasReadAll (R.remaining reader.old) (R.remaining reader.new) bytes.items)
        (HasNotReadAll (R.remaining reader.old) (R.remaining reader.new)) }
{
    let mut bytes: Vec<u8> = Vec::new(alloc);
    let mut chunk = [0u8; CHUNK];
    for _turn in 0..READ_LIMIT {
        match reader.read(&mut chunk) {
            Ok(0) => return Ok(bytes),
            Ok(n) => {
                if n > TEXT_LIMIT - bytes.len() {
                    return Err(Fault::Read);
                }
                if let Err(_) = bytes.extend_from_slice(&chunk[..n]) {
                    return Err(Fault::OutOfMemory);
                }
            }
            Err(e) => {
                if e.kind() != ErrorKind::Interrupted {
                    return Err(Fault::Read);
                }
            }
        }
    }
    Err(Fault::Read)
}

/// Reads a network text to its end, and loads it. A text of more than 134,217,728 bytes is refused as `Read`.
pub fn read_net<R: Read>(alloc: Global, reader: &mut R) -> Result<Net, Fault>
    ensures { MatchResult result (HasLoaded (R.remaining reader.old) (R.remaining reader.new)) (HasNotLoaded (R.remaining reader.old) (R.remaining reader.new)) }
{
    let bytes = read_all(alloc, reader)?;
    of_run(load_owned(alloc, bytes))
}

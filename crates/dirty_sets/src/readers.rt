//! The readers of an index: for each planned destination, the sets that its table reads.

ghost use Rattle.std.specs.Prelude.{◌≡◌, ◌<◌, ◌||◌, ◌==◌, ℕ, false, true, IfOk, IfErr, is_some, map};
ghost use Rattle.std.specs.List.{AllZip};
ghost use Rattle.std.specs.Option.{option_map_or};
ghost use Rattle.std.specs.Vec.{vec_len, vec_capacity};
ghost use Rattle.net_items.specs.Keyed.{IsRising, IsFoundAt, IsGapAt, at_key, put, without};
ghost use Rattle.dirty_sets.specs.Bits.{is_marked};
ghost use Rattle.dirty_sets.specs.Index.{IsWithId, reads_among, reads_any as any_read, would_read};

use crate::bits::{Codes, SetIds};
use crate::noted::NotedIds;
use excerpts::reading::is_read;
use net_data::Net;
use net_items::LinkSet;
use point_codes::PointCode;

/// A planned destination, and the sets that its table reads.
#[derive(Drop)]
pub struct Reader {
    /// The destination.
    pub dest: PointCode,
    /// The ids of the sets.
    pub ids: SetIds,
}

/// The position of the reader of a destination, or the one that it would get.
pub fn position_of_reader(readers: &[Reader], dest: PointCode) -> Result<usize, usize>
    requires { IsRising (λ r. r.dest) readers.now }
    ensures found { IfOk result (IsFoundAt (λ r. r.dest) dest readers.now) }
    ensures absent { IfErr result (IsGapAt (λ r. r.dest) dest readers.now) }
{
    readers.binary_search_by_key(&dest, |r| r.dest)
}

/// Whether the table of a destination reads a set.
pub fn reads(readers: &[Reader], dest: PointCode, id: u16) -> bool
    requires rising { IsRising (λ r. r.dest) readers.now }
    requires small { id < 4096 }
    ensures { result ≡ reads_among readers.now dest id }
{
    match position_of_reader(readers, dest) {
        Ok(at) => readers[at].ids.has(id),
        Err(_) => false,
    }
}

/// Whether the table of a destination would read a set.
fn would_read_set(net: &Net, set: &LinkSet, dest: PointCode) -> bool
    ensures { result ≡ would_read net.now set.now dest }
{
    net.validity();
    match net.plan(dest) {
        Some(plan) => is_read(net.points(), plan, set),
        None => false,
    }
}

/// Marks all planned destinations.
pub fn mark_all(readers: &[Reader], marks: &mut Codes)
    requires { IsRising (λ r. r.dest) readers.now }
    ensures { (x : ℕ) → is_marked marks.new x ≡ (is_marked marks.old x || is_some (at_key (λ r. r.dest) x readers.now)) }
{
    for reader in readers {
        marks.mark(reader.dest);
    }
}

/// Marks the destinations whose tables read a set.
pub fn mark_readers(readers: &[Reader], id: u16, marks: &mut Codes)
    requires rising { IsRising (λ r. r.dest) readers.now }
    requires small { id < 4096 }
    ensures { (x : ℕ) → is_marked marks.new x ≡ (is_marked marks.old x || reads_among readers.now x id) }
{
    for reader in readers {
        marks.mark_if(reader.dest, reader.ids.has(id));
    }
}

/// Marks the destinations whose tables read one of some sets.
pub fn mark_any_readers(readers: &[Reader], ids: &NotedIds, marks: &mut Codes)
    requires { IsRising (λ r. r.dest) readers.now }
    ensures { (x : ℕ) → is_marked marks.new x ≡ (is_marked marks.old x || any_read readers.now ids.now x) }
{
    for reader in readers {
        marks.mark_if(reader.dest, ids.meets(&reader.ids));
    }
}

/// Marks the destinations whose tables would read a set.
pub fn mark_new_readers(readers: &[Reader], net: &Net, set: &LinkSet, marks: &mut Codes)
    requires rising { IsRising (λ r. r.dest) readers.now }
    requires planned { map (λ r. r.dest) readers.now ≡ map (λ p. p.dest) net.now.plans }
    ensures { (x : ℕ) → is_marked marks.new x ≡ (is_marked marks.old x || would_read net.now set.now x) }
{
    for reader in readers {
        marks.mark_if(reader.dest, would_read_set(net, set, reader.dest));
    }
}

/// Puts into each reader whether it reads a new set.
pub fn add_set(readers: &mut [Reader], net: &Net, set: &LinkSet)
    requires { set.now.id < 4096 }
    ensures { AllZip (IsWithId set.now.id (would_read net.now set.now)) readers.old readers.new }
{
    for reader in readers.iter_mut() {
        let reads = would_read_set(net, set, reader.dest);
        reader.ids.put(set.id, reads);
    }
}

/// Takes a set out of each reader.
pub fn remove_set(readers: &mut [Reader], id: u16)
    requires { id < 4096 }
    ensures { AllZip (IsWithId id (λ x. false)) readers.old readers.new }
{
    for reader in readers.iter_mut() {
        reader.ids.put(id, false);
    }
}

/// Puts in a reader, in the place of one of its destination.
pub fn put_reader(readers: &mut Vec<Reader>, reader: Reader)
    requires rising { IsRising (λ r. r.dest) readers.old.items }
    requires room { vec_len readers.old < vec_capacity readers.old }
    ensures { readers.new.items ≡ put (λ r. r.dest) reader readers.old.items }
{
    match position_of_reader(readers.as_slice(), reader.dest) {
        Ok(at) => readers[at] = reader,
        Err(at) => match readers.insert(at, reader) {
            Ok(()) => {}
            Err(_) => unreachable!(),
        },
    }
}

/// Takes out the reader of a destination.
pub fn remove_reader(readers: &mut Vec<Reader>, dest: PointCode)
    requires rising { IsRising (λ r. r.dest) readers.old.items }
    requires there { is_some (at_key (λ r. r.dest) dest readers.old.items) ≡ true }
    ensures { readers.new.items ≡ without (λ r. r.dest) dest readers.old.items }
{
    match position_of_reader(readers.as_slice(), dest) {
        Ok(at) => {
            readers.remove(at);
        }
        Err(_) => unreachable!(),
    }
}

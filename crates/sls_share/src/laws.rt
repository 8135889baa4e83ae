//! Laws: functions that do nothing when they run, and whose contracts are facts about the definitions.

ghost use Rattle.sls_share.specs.Share.{ProbesCover, SetsServe};

/// The laws of the probe order. It does nothing when it runs.
///
/// For a set of 1 to 16 links and a share number below 16 the probe order tries every position, and a set with an
/// available link has a link for each share number.
pub fn probe_law()
    ensures covers { ProbesCover }
    ensures serves { SetsServe }
{}

//! The laws of the profile.

ghost use Rattle.sls_share.specs.Share.{ProbesCover};
ghost use Rattle.profile.specs.Laws.{ExcerptsGiveTables, ExcerptsKeep, LinksServe, MatesStayApart, StatusesAlone, StatusesObey, TablesCertify, TracesReach, WalksReach};

/// The laws that hold of every valid source, with either setting of the transfer-restricted option. It does nothing
/// when it runs.
///
/// - `statuses`, `alone`: the statuses obey the rule, and nothing else does (own, after Q.704 clauses 13.2 to 13.4).
/// - `walks`: a status is not prohibited exactly if a walk over available sets leads to the destination.
/// - `mates`: no two mates use each other.
/// - `tables`: a table is what its own messages make of it exactly if it is the table from scratch.
/// - `excerpts`, `unread`: the excerpt of a source gives the same table, and sets that a table does not read may
///   change, come and go.
/// - `probes`, `links`: the probe order tries every position, and each signalling link selection of a point that is
///   not prohibited has a link.
/// - `traces`: a trace stops exactly if the status is prohibited, and else leads to the destination in at most twice
///   the rank of hops.
pub fn profile_law()
    ensures statuses { StatusesObey }
    ensures alone { StatusesAlone }
    ensures walks { WalksReach }
    ensures mates { MatesStayApart }
    ensures tables { TablesCertify }
    ensures excerpts { ExcerptsGiveTables }
    ensures unread { ExcerptsKeep }
    ensures probes { ProbesCover }
    ensures links { LinksServe }
    ensures traces { TracesReach }
{}

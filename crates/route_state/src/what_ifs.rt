//! What events would change and move, what moved between versions, what would mend a point, and what single failures would take.

pub use what_if::{
    Change, Changes, Effect, Effects, Mend, Refused, Report, Reroute, RerouteCounts, Reroutes,
    SetLink, Single, Survey, Wanted, count_reroutes, find_mend, report_listed, reroutes_by,
    reroutes_listed, reroutes_since, survey_listed, what_if,
};

//! Laws of the one history of all who come to a hub: functions that do nothing when they run, and whose contracts are facts about
//! the definitions (all own).
#![tactic(auto)]

ghost use Rattle.std.specs.Prelude.{◌≡◌, ℕ, List, ◌∷◌, ◌++◌, Result, Ok};
ghost use Rattle.net_data.specs.declared.events.Event.{Event};
ghost use Rattle.net_data.specs.Network.{Network};
ghost use Rattle.desk_core.specs.declared.steps.Reply.TheVariants as reply;
ghost use Rattle.desk_core.specs.Runs.{event_taken};
ghost use Rattle.desk_core.specs.Steps.{Posts};
ghost use Rattle.work_units.specs.declared.replies.Posted.{Posted};
ghost use Rattle.work_units.specs.declared.replies.Posted.TheVariants.{Taken};
ghost use Rattle.work_units.specs.declared.replies.Refusal.{Refusal};
ghost use Rattle.seats.specs.Minutes.{OnlyOthersSince, SeatValue};
ghost use Rattle.seats.specs.declared.rule.Sight.{Sight};
ghost use Rattle.versions.specs.Working.{ComesAndDoes, Follow, IsHistory, IsWholeHistory};
ghost use Rattle.versions.specs.declared.state.DeskAndChain.{DeskAndChain};
ghost use Rattle.versions.specs.Authors.{authored_in, own_events};
ghost use Rattle.histories.specs.Histories.{IsEnded, IsExplained, IsNth, IsOpened, IsOpening, IsSeen, IsTaken};

/// The law: in a history of a hub over a new desk the hub is right at each sight, what it shows only grows, and its accepted events
/// are those of the seats, in their order.
pub fn history_law()
    ensures { (start : Network) (first : Sight DeskAndChain) (later : List (Sight DeskAndChain)) → IsOpening start first.state → Follow first later → IsExplained start first later }
{}

/// The law: a post that is taken adds its event to those of the hub and to those of its seat, any other adds none.
pub fn post_law()
    ensures { (seats : ℕ) (old new : SeatValue DeskAndChain) (found left : DeskAndChain) (collector seq : ℕ) (event : Event) (result : Result Posted Refusal) → IsHistory old.saw
        → ComesAndDoes seats old found left new → Posts found.desk collector seq event result left.desk → left.shown ≡ found.shown → IsTaken old (event_taken event (reply.Post result)) found left new }
{}

/// The law: what others do leaves the events of a seat as they are.
pub fn others_law()
    ensures { (me : ℕ) (saw log : List (Sight DeskAndChain)) → IsHistory saw → OnlyOthersSince me saw log → own_events me log ≡ own_events me saw }
{}

/// The law: what a seat saw is a part of the history: the hub was right at its last sight, and what it showed and had accepted then
/// begins what it shows and has accepted at the end.
pub fn seen_law()
    ensures { (start : Network) (saw since : List (Sight DeskAndChain)) → IsOpened start saw → IsHistory (saw ++ since) → IsSeen start saw (saw ++ since) }
{}

/// The law: a post that is told `taken` with a number is the event of that number, and came through the seat that posted it.
pub fn nth_law()
    ensures { (start : Network) (seats : ℕ) (old new : SeatValue DeskAndChain) (found left : DeskAndChain) (collector seq : ℕ) (event : Event) (number : ℕ) → IsOpened start old.saw
        → ComesAndDoes seats old found left new → Posts found.desk collector seq event (Ok (Taken number)) left.desk → left.shown ≡ found.shown
        → IsNth (authored_in new.saw) number (record { by = old.me; event = event }) }
{}

/// The law: at the end of a history each published version is the one of its number, the network is the one after all events, and each
/// event came through one of the seats.
pub fn end_law()
    ensures { (start : Network) (seats : ℕ) (log : List (Sight DeskAndChain)) (state : DeskAndChain) → IsOpened start log → IsWholeHistory seats log state
        → IsEnded start seats log state }
{}

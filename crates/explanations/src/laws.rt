//! Laws: functions that do nothing when they run, and whose contracts are facts about the definitions.

ghost use Rattle.std.specs.Prelude.{◌≡◌, ◌++◌, true, codes};
ghost use Rattle.std.specs.List.{list_all};
ghost use Rattle.answers.specs.Answers.{reason_name, reason_text};
ghost use Rattle.answers.specs.declared.answer.Reason.{Reason};
ghost use Rattle.sessions.specs.Faults.{load_text, fault_text};
ghost use Rattle.net_text.specs.declared.faults.LoadFault.{LoadFault};
ghost use Rattle.sessions.specs.declared.faults.Fault.{Fault};
ghost use Rattle.answers.specs.Refusals.{cause_letter};
ghost use Rattle.plan_rows.specs.declared.causes.Cause.{Cause};
ghost use Rattle.explanations.specs.Names.{cause_title, load_name, fault_name};
ghost use Rattle.explanations.specs.Titles.{titles, is_found_by, is_reached, BeginsWith, StandsIn};

/// The law: each title is found by itself, by its name, and by its number if it has one. So no two explanations have the same
/// number or the same name.
pub fn titles_law()
    ensures { list_all is_reached titles ≡ true }
{}

/// The law: the letter of a cause finds the cause.
pub fn letters_law()
    ensures { (cause : Cause) → is_found_by (cause_title cause) (cause_letter cause) ≡ true }
{}

/// The law: the title of why a line is refused stands at the front of its answer, behind `refused`, and that of a fault stands in what is
/// printed of it.
pub fn names_law()
    ensures line { (why : Reason) → BeginsWith (reason_text why) (codes "refused " ++ reason_name why) }
    ensures load { (fault : LoadFault) → StandsIn (load_text fault) (load_name fault) }
    ensures run { (fault : Fault) → StandsIn (fault_text fault) (fault_name fault) }
{}

//! Conditions without marks, and those that need a step which no record has.
ghost use Rattle.std.specs.Prelude.{◌≡◌, ◌↔◌, ℕ, List, Option, false, length};
ghost use Rattle.access_marks.specs.declared.marks.Marks.{Marks};
ghost use Rattle.board_core.specs.History.{Event};
ghost use Rattle.condition_script.specs.declared.patterns.Pattern.{Pattern};
ghost use Rattle.condition_script.specs.declared.rules.Ending.{Ending};
ghost use Rattle.condition_script.specs.declared.rules.Rule.{Rule};
ghost use Rattle.conditions.specs.Rules.{Holds};
ghost use Rattle.marked_conditions.specs.Marked.{HoldsWith, IsAtWith, asks_of_marks};
ghost use Rattle.marked_conditions.specs.Needs.{HasTelling};

/// A condition that doesn't ask of marks means with them what it means without. A law: there is nothing to run.
pub fn marks_are_not_asked()
    ensures { (rule : Rule) (events : List Event) (marks : List Marks) (end : Option Ending) → asks_of_marks rule ≡ false
        → length events ≡ length marks
        → HoldsWith rule events marks end ↔ Holds rule events end }
{}

/// A pattern matches no step of a record that has none of which its mark tells something. A law: there is nothing to run.
pub fn what_tells_nothing_matches_nothing()
    ensures { (p : Pattern) (events : List Event) (marks : List Marks) → ¬ HasTelling p events marks
        → (k : ℕ) → ¬ IsAtWith p events marks k }
{}

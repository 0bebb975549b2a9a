//! Laws of the words of a command line, of what they and its files call for, and of what the numbers rest on.
ghost use Rattle.std.specs.Prelude.{◌≡◌, ℕ, List};
ghost use Rattle.cert_check.specs.Reasons.{IsFirstReason};
ghost use Rattle.cert_check.specs.declared.verdict.Reason.{Reason};
ghost use Rattle.command_words.specs.Line.{Text};
ghost use Rattle.flow_table.specs.Table.{TableFacts, instance_of};
ghost use Rattle.outside.specs.Shelf.{Told};
ghost use Rattle.report_text.specs.Report.{IsReport};
ghost use Rattle.report_text.specs.declared.value.Report.{Report};
ghost use Rattle.stats_cli.specs.Complete.{IsAnswer};
ghost use Rattle.stats_cli.specs.Rests.{HasRightNumbers};
ghost use Rattle.stats_cli.specs.Words.{IsStatsWords, StatsSaid};
ghost use Rattle.stats_cli.specs.declared.status.StatsStatus.{StatsStatus};

/// What the files of a command line call for is one status at most.
pub fn answer_is_one()
    ensures { (said : StatsSaid) (t : Told) (a b : StatsStatus) → IsAnswer said t a → IsAnswer said t b → a ≡ b }
{}

/// Where the first reason against the report of a plan is its ratio, its schedule, its cost and its bound are right.
pub fn no_ratio_is_right_otherwise()
    ensures { (t : TableFacts) (weights : List ℕ) (r : Report) (cost most : ℕ) → IsReport r →
        IsFirstReason (instance_of t weights) t.ids r (Reason.RatioBroken cost most) →
        HasRightNumbers (instance_of t weights) t.ids r }
{}

/// Words say one thing at most.
pub fn words_are_one()
    ensures { (words : List Text) (a b : StatsSaid) → IsStatsWords words a → IsStatsWords words b → a ≡ b }
{}

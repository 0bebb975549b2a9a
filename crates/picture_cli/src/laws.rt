//! Laws of the words of a command line, of what they and its files call for, and of the title.
ghost use Rattle.cert_check.specs.Sound.{IsSound};
ghost use Rattle.coflow_units.specs.Flows.{Instance};
ghost use Rattle.command_words.specs.Line.{Text};
ghost use Rattle.outside.specs.Shelf.{Told};
ghost use Rattle.picture_cli.specs.Complete.{IsAnswer};
ghost use Rattle.picture_cli.specs.Picture.{HasMeans, IsNearBest};
ghost use Rattle.picture_cli.specs.Words.{PictureSaid, IsPictureWords};
ghost use Rattle.picture_cli.specs.declared.status.PictureStatus.{PictureStatus};
ghost use Rattle.report_text.specs.declared.value.Report.{Report};
ghost use Rattle.std.specs.Prelude.{◌≡◌, ℕ, ◌≤◌, List};

/// What the files of a command line call for is one status at most.
pub fn answer_is_one()
    ensures { (said : PictureSaid) (t : Told) (a b : PictureStatus) → IsAnswer said t a → IsAnswer said t b → a ≡ b }
{}

/// What the title says holds of every right report. Where the bound is above 0, the cost is at most as many hundredths
/// of the cost of any valid schedule as it tells. Where the weights add up to more than 0, the mean is at most the
/// first that it tells, and that of no valid schedule is below the second.
pub fn title_bounds_every_schedule()
    ensures ratio { (i : Instance) (ids : List ℕ) (r : Report) → IsSound i ids r → IsNearBest i r }
    ensures means { (i : Instance) (ids : List ℕ) (r : Report) (weight : ℕ) → IsSound i ids r → 1 ≤ weight →
        HasMeans i r weight }
{}

/// Words say one thing at most.
pub fn words_are_one()
    ensures { (words : List Text) (a b : PictureSaid) → IsPictureWords words a → IsPictureWords words b → a ≡ b }
{}

//! Laws of bars and curves, of colours and means, of the text of a picture, and of the picture of an online run.
ghost use Rattle.coflow_units.specs.declared.fabric.Flow.{Flow};
ghost use Rattle.picture.specs.Bars.{IsBars};
ghost use Rattle.picture.specs.Curve.{IsCurve};
ghost use Rattle.picture.specs.Layout.{IsDrawable};
ghost use Rattle.picture.specs.Means.{tenths_down, tenths_up};
ghost use Rattle.picture.specs.Palette.{ink_on, level, luminance};
ghost use Rattle.picture.specs.Run.{IsRunOf};
ghost use Rattle.picture.specs.Svg.{picture_text};
ghost use Rattle.picture.specs.Title.{hundredths};
ghost use Rattle.picture.specs.Told.{HasSmallIds, told_bars};
ghost use Rattle.picture.specs.declared.palette.TheConstants.{COLOURS};
ghost use Rattle.picture.specs.declared.run_value.RunPicture.{RunPicture};
ghost use Rattle.picture.specs.declared.value.Picture.{Picture};
ghost use Rattle.picture.specs.declared.value.Bar.{Bar};
ghost use Rattle.picture.specs.declared.value.Step.{Step};
ghost use Rattle.picture.specs.declared.value.Window.{Window};
ghost use Rattle.std.specs.List.{slice_index_or};
ghost use Rattle.std.specs.Prelude.{◌≡◌, ◌≢◌, ◌⊎◌, ℕ, ◌+◌, ◌<◌, AllPairs, List, [], length, ◌*◌, ◌≤◌};

/// A schedule has one list of bars in a window.
pub fn bars_are_one()
    ensures { (flows : List Flow) (slots : List (List ℕ)) (ports : ℕ) (window : Window) (a b : List (List Bar)) →
        IsBars flows slots ports window a → IsBars flows slots ports window b → a ≡ b }
{}

/// Of two bars of a port one after another, where the second begins right after the first, the coflows differ.
pub fn neighbours_differ()
    ensures { (flows : List Flow) (slots : List (List ℕ)) (ports : ℕ) (window : Window) (rows : List (List Bar))
        (port k : ℕ) (d : Bar) → IsBars flows slots ports window rows → port < ports →
        k + 1 < length (slice_index_or rows port []) →
        (slice_index_or (slice_index_or rows port []) k d).last + 1 ≡
        (slice_index_or (slice_index_or rows port []) (k + 1) d).first →
        (slice_index_or (slice_index_or rows port []) k d).coflow ≢
        (slice_index_or (slice_index_or rows port []) (k + 1) d).coflow }
{}

/// Completions have one curve.
pub fn curve_is_one()
    ensures { (ends : List ℕ) (a b : List Step) → IsCurve ends a → IsCurve ends b → a ≡ b }
{}

/// The hundredths that the title tells are the least ones that are not below cost by bound.
pub fn ratio_is_cut_upwards()
    ensures enough { (cost bound : ℕ) → 1 ≤ bound → 100 * cost ≤ hundredths cost bound * bound }
    ensures least { (cost bound : ℕ) → 1 ≤ bound → hundredths cost bound * bound < 100 * cost + bound }
{}

/// The tenths of the means: those of the schedule are the least ones that are not below its mean, and those of the
/// bound are the greatest ones that are not above its mean.
pub fn means_are_cut()
    ensures enough { (cost weight : ℕ) → 1 ≤ weight → 10 * cost ≤ tenths_up cost weight * weight }
    ensures least { (cost weight : ℕ) → 1 ≤ weight → tenths_up cost weight * weight < 10 * cost + weight }
    ensures within { (bound weight : ℕ) → 1 ≤ weight → tenths_down bound weight * weight ≤ 10 * bound }
    ensures most { (bound weight : ℕ) → 1 ≤ weight → 10 * bound < tenths_down bound weight * weight + weight }
{}

/// Grey print keeps the order of places: each colour is lighter than the one before, a later place has no earlier
/// colour, and each place has one of the colours.
pub fn grey_keeps_the_order()
    ensures lighter { AllPairs (λ a b. luminance a < luminance b) COLOURS }
    ensures monotone { (a b places : ℕ) → a ≤ b → level a places ≤ level b places }
    ensures inside { (place places : ℕ) → 1 ≤ place → place ≤ places → level place places < length COLOURS }
{}

/// Words differ in luminance from the colour below them by almost half of what there is.
pub fn words_can_be_read()
    ensures { (colour : ℕ) → (luminance colour + 1200000 ≤ luminance (ink_on colour)) ⊎
        (luminance (ink_on colour) + 1200000 ≤ luminance colour) }
{}

/// A text tells one list of bars: two pictures with the same text have the same bars at the same ports, with coflows of
/// the same ids.
pub fn text_has_one_list_of_bars()
    ensures { (p q : Picture) → IsDrawable p → IsDrawable q → HasSmallIds p → HasSmallIds q →
        picture_text p ≡ picture_text q → told_bars p ≡ told_bars q }
{}

/// The ticks of an online run ascend where its orders are published one after another.
pub fn ticks_ascend()
    ensures { (arrived ends published : List ℕ) (p : RunPicture) → IsRunOf arrived ends published p →
        AllPairs (λ a b. a < b) published → AllPairs (λ a b. a < b) p.ticks }
{}

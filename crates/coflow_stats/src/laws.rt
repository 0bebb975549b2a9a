//! Laws of percentiles and groups.
ghost use Rattle.std.specs.Prelude.{◌≡◌, ◌≤◌, ◌<◌, ◌+◌, ◌*◌, ℕ, true, List};
ghost use Rattle.coflow_stats.specs.declared.value.Finished.{Finished};
ghost use Rattle.coflow_stats.specs.declared.value.Group.{Group};
ghost use Rattle.coflow_stats.specs.Groups.{group_of, is_in};
ghost use Rattle.coflow_stats.specs.Percentile.{IsPercentile};
ghost use Rattle.coflow_stats.specs.Text.{ten_thousandths};

/// A list has one number at so many per cent.
pub fn percentile_is_one()
    ensures { (percent : ℕ) (xs : List ℕ) (v w : ℕ) → IsPercentile percent xs v → IsPercentile percent xs w → v ≡ w }
{}

/// A coflow is of one group.
pub fn group_is_one()
    ensures own { (unit : ℕ) (x : Finished) → is_in (group_of unit x) unit x ≡ true }
    ensures alone { (unit : ℕ) (x : Finished) (group : Group) → is_in group unit x ≡ true → group ≡ group_of unit x }
{}

/// The ten-thousandths that the text tells are the least ones that are not below cost by bound.
pub fn ratio_is_cut_upwards()
    ensures enough { (cost bound : ℕ) → 1 ≤ bound → 10000 * cost ≤ ten_thousandths cost bound * bound }
    ensures least { (cost bound : ℕ) → 1 ≤ bound → ten_thousandths cost bound * bound < 10000 * cost + bound }
{}

//! The round numbers at an axis.
ghost use Rattle.std.specs.Prelude.{◌≡◌, ◌*◌, ◌≤◌};
ghost use Rattle.coflow_units.specs.declared.limits.TheConstants.{MAX_SLOT};
ghost use Rattle.picture.specs.Ticks.{step_of};

/// The step of an axis with so many places: 1, 2 or 5 times a power of ten, so that at most six steps are on it.
pub fn step_of(count: u64) -> u64
    requires { count ≤ MAX_SLOT }
    ensures step { result ≡ step_of count }
    ensures some { 1 ≤ result }
    ensures few { count ≤ 6 * result }
{
    let mut power = 1;
    for _ in 0..13u32 {
        if count <= 6 * power {
            return power;
        }
        if count <= 12 * power {
            return 2 * power;
        }
        if count <= 30 * power {
            return 5 * power;
        }
        power *= 10;
    }
    power
}

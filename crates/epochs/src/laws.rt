//! Laws of the choice. Each says something of every course, time and list of owed units.
ghost use Rattle.std.specs.Prelude.{◌≡◌, ℕ, List};
ghost use Rattle.epochs.specs.declared.action.Action.{Action};
ghost use Rattle.epochs.specs.Course.{Course};
ghost use Rattle.epochs.specs.Choice.{IsFirstAction};

/// At most one action is the first that applies: the rules leave no tie open.
pub fn action_is_one()
    ensures { (s : Course) (time : ℕ) (owed : List ℕ) (a b : Action) → IsFirstAction s time owed a →
        IsFirstAction s time owed b → a ≡ b }
{}

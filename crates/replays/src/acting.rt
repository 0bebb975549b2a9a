//! The actions of a replay.
ghost use Rattle.std.specs.Prelude.{◌≡◌, ℕ, Err, None, Ok, OnOk, Some, is_some};
ghost use Rattle.rankers.specs.Meaning.{Meaning};
ghost use Rattle.replays.specs.declared.rows.Replayed.{Replayed};
ghost use Rattle.replays.specs.declared.rows.Replayed.TheVariants.{Cost};
ghost use Rattle.replays.specs.declared.rows.ReplayFault.TheVariants.{TooMany};
ghost use Rattle.replays.specs.Acting.{EndsAs, GoesOnFrom, MayAct};
ghost use Rattle.epochs.specs.declared.action.Action.TheVariants.{End, TooMany as PublishesTooMany};

use crate::kept::Kept;
use crate::publishing::publish;
use crate::rows::{ReplayFault, Replayed};
use epochs::Action;
use flow_table::Table;
use rankers::Ranker;
use schedule_model::cost_of;
use std::alloc::Global;

/// Carries out an action. None comes where the replay goes on, and else what it comes to.
pub(crate) fn act(
    alloc: Global,
    table: &Table,
    weights: &[u64],
    kept: &mut Kept,
    ranker: &mut Box<dyn Ranker>,
    action: Action,
) -> Result<Option<Replayed>, ReplayFault>
    requires may { MayAct table.now weights.now kept.old action }
    ensures goes_on { result ≡ Ok None →
        GoesOnFrom table.now kept.old (meaning ranker.old) action kept.new (meaning ranker.new) }
    ensures ends { (replayed : Replayed) → result ≡ Ok (Some replayed) →
        EndsAs table.now weights.now kept.old (meaning ranker.old) action replayed }
    ensures last { (total : ℕ) → result ≡ Ok (Some (Cost total)) → (action ≡ End) × (kept.new ≡ kept.old) }
    ensures recorded { OnOk result (is_some kept.new.recording ≡ is_some kept.old.recording) }
    ensures too_many { (count : ℕ) → result ≡ Err (TooMany count) → action ≡ PublishesTooMany count }
{
    match action {
        Action::Register(coflow) => {
            kept.join(coflow)?;
            Ok(None)
        }
        Action::Withdraw(coflow) => {
            kept.leave(coflow);
            Ok(None)
        }
        Action::Publish => {
            let epoch = kept.questions.published + 1;
            match publish(alloc, table, kept, ranker)? {
                Some(place) => Ok(Some(Replayed::Unfit { epoch, place })),
                None => Ok(None),
            }
        }
        Action::Run(most) => {
            kept.run(table, most)?;
            Ok(None)
        }
        Action::Skip(to) => {
            kept.skip(to)?;
            Ok(None)
        }
        Action::End => Ok(Some(Replayed::Cost(cost_of(weights, &kept.progress.ends)))),
        Action::TooMany(count) => Err(ReplayFault::TooMany { count }),
    }
}

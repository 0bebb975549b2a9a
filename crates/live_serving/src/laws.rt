//! Laws of the rounds of a run of `live`.
ghost use Rattle.std.specs.Prelude.{◌≡◌, ℕ, ◌+◌, ◌<◌, ◌≤◌, ◌++◌, [], ◌∷◌, All, false, true, length, List};
ghost use Rattle.journal.specs.declared.command.Reply.TheVariants.{NothingLeft};
ghost use Rattle.journal.specs.declared.opening.Opening.{Opening};
ghost use Rattle.journal.specs.Driven.{Drive, IsSentWhole};
ghost use Rattle.journal.specs.Closed.{wire_of};
ghost use Rattle.journal.specs.State.{IsOpening};
ghost use Rattle.master_core.specs.Master.{MasterFacts};
ghost use Rattle.workload.specs.declared.script.Round.{Round};
ghost use Rattle.workload.specs.declared.script.Script.{Script};
ghost use Rattle.client_session.specs.Closes.{IsClosed};
ghost use Rattle.client_session.specs.Levels.{IsLevel};
ghost use Rattle.client_session.specs.Models.{DriverModel, HallModel, SessionModel};
ghost use Rattle.slot_runner.specs.Models.{RunnerModel};
ghost use Rattle.slot_runner.specs.Slots.{HasRun, IsAnswered};
ghost use Rattle.live_model.specs.Rounds.{Spell};
ghost use Rattle.live_model.specs.Script.{limit_of};
ghost use Rattle.live_rounds.specs.Drivers.{AreOpenings};
ghost use Rattle.live_model.specs.Sent.{Wires};
ghost use Rattle.live_rounds.specs.declared.answer.PullDone.{PullDone};
ghost use Rattle.live_rounds.specs.Rounds.{IsRoundDone};
ghost use Rattle.live_serving.specs.Driven.{HasDriven};
ghost use Rattle.live_serving.specs.Ends.{HasRunOut, IsCarriedOut, IsRunningOut, MayBeAsked};
ghost use Rattle.live_serving.specs.Followed.{AreBegun};
ghost use Rattle.live_serving.specs.Room.{found_none, IsShort};
ghost use Rattle.live_serving.specs.Rounds.{AreRoundsDone};

/// How rounds go on. None is done where a driver has seen nothing and each session is new. A round more is done where
/// all clients carried out its lines, the driver opened and closed a run beside them where one was asked for, and all
/// were levelled behind both.
pub fn rounds_go_on()
    ensures first { (most calls : ℕ) (driver : DriverModel) (sessions : List SessionModel) →
        driver.journal ≡ [] → driver.position ≡ 0 → AreBegun calls 1 sessions →
        AreRoundsDone most calls [] driver sessions [] }
    ensures round { (o : Opening) (most calls : ℕ) (rounds : List Round) (r : Round) (driver mid new : DriverModel)
        (olds mids news : List SessionModel) (pulls more : List PullDone) →
        AreRoundsDone most calls rounds driver olds pulls → IsRoundDone o r.lines olds mids more →
        HasDriven most (length rounds) r.runs driver mid → IsLevel mid new mids news →
        AreRoundsDone most calls (rounds ++ r ∷ []) new news (pulls ++ more) }
{}

/// How the work is ended after the last round: no run more at first, one more by a run that was sent whole, and none by
/// an opening that is answered that nothing is left.
pub fn drivers_run_out()
    ensures first { (most calls : ℕ) (rounds : List Round) (driver : DriverModel) (sessions : List SessionModel)
        (pulls : List PullDone) → AreRoundsDone most calls rounds driver sessions pulls →
        IsRunningOut most calls rounds driver sessions pulls }
    ensures run { (o : Opening) (most calls : ℕ) (rounds : List Round) (old new : RunnerModel) (d : Drive)
        (sessions : List SessionModel) (pulls : List PullDone) →
        IsRunningOut most calls rounds old.driver sessions pulls → HasRun o most d old new →
        IsSentWhole o old.driver.journal d → IsRunningOut most calls rounds new.driver sessions pulls }
    ensures nothing { (o : Opening) (most calls : ℕ) (rounds : List Round) (old new : RunnerModel)
        (sessions : List SessionModel) (pulls : List PullDone) →
        IsRunningOut most calls rounds old.driver sessions pulls → IsAnswered o most old new NothingLeft →
        HasRunOut most calls rounds new.driver sessions pulls }
{}

/// What the closed hall tells of a run that has ended its work: a course that carries out the script, with this
/// journal, and with wires that hold what its closed runs sent; and the lines of the pulls that the rounds told.
pub fn closed_halls_carry_out_scripts()
    ensures { (script : Script) (most calls : ℕ) (hall : HallModel) (driver : DriverModel)
        (sessions : List SessionModel) (pulls : List PullDone) (master : MasterFacts) (wires : Wires) →
        IsOpening master.opening → master.opening.limit ≡ limit_of master.opening script →
        MayBeAsked master.opening script → length sessions ≡ script.clients →
        HasRunOut most calls script.rounds driver sessions pulls → IsClosed hall driver sessions master →
        ((port : ℕ) → wires port ≡ wire_of master.opening master.journal port) →
        IsCarriedOut master.opening script most master.journal wires pulls }
{}

/// The journal of a closed hall has fewer entries than the limit of its script, whatever its rounds stopped for: no
/// session has more entries than its client has lines, each run that was closed sent a unit, and no more openings found
/// nothing left than there are rounds, and one.
pub fn runs_have_room()
    ensures { (script : Script) (most : ℕ) (hall : HallModel) (driver : DriverModel) (sessions : List SessionModel)
        (spells : List Spell) (master : MasterFacts) → master.opening.limit ≡ limit_of master.opening script →
        length sessions ≡ script.clients → All (IsShort script) sessions → AreOpenings most driver.journal spells →
        found_none spells ≤ length script.rounds + 1 → IsClosed hall driver sessions master →
        length master.journal < master.opening.limit }
{}

/// What the slot of a runner comes to beside a round: a run that was sent whole, or the answer that nothing is left, is
/// the one opening that was asked for.
pub fn runs_stand_beside_rounds()
    ensures run { (o : Opening) (most round : ℕ) (old new : RunnerModel) (d : Drive) → HasRun o most d old new →
        IsSentWhole o old.driver.journal d → HasDriven most round true old.driver new.driver }
    ensures nothing { (o : Opening) (most round : ℕ) (old new : RunnerModel) →
        IsAnswered o most old new NothingLeft → HasDriven most round true old.driver new.driver }
    ensures none { (most round : ℕ) (driver : DriverModel) → HasDriven most round false driver driver }
{}

//! Laws of rankers: orders by keys, the rows of a comparison, and what no row costs less than.
ghost use Rattle.coflow_units.specs.Completion.{cost};
ghost use Rattle.coflow_units.specs.Flows.{Instance};
ghost use Rattle.coflow_units.specs.Schedule.{IsValid};
ghost use Rattle.flow_table.specs.Table.{TableFacts, instance_of};
ghost use Rattle.rankers.specs.ByKey.{IsByKey, by_key};
ghost use Rattle.rankers.specs.Comparison.{IsBelowCosts, IsComparison};
ghost use Rattle.rankers.specs.Ends.{IsOwn, IsSecondEnds, IsSecondRound};
ghost use Rattle.rankers.specs.FactsTold.{FactsTold, IsFacts, coflows_in};
ghost use Rattle.rankers.specs.Kinds.{GoesByRatio, wsebf};
ghost use Rattle.rankers.specs.Meaning.{Meaning, answer_of};
ghost use Rattle.rankers.specs.Rounds.{IsRounds, IsRowsFrom};
ghost use Rattle.rankers.specs.Rows.{Answers, ByKeys, UnfitRows};
ghost use Rattle.rankers.specs.declared.scoring.Came.TheVariants as came;
ghost use Rattle.rankers.specs.declared.row.Row.{Row};
ghost use Rattle.rankers.specs.declared.row.Scored.{Scored};
ghost use Rattle.rankers.specs.declared.row.Scored.TheVariants as scored;
ghost use Rattle.report_text.specs.declared.compared.Compare.{Compare};
ghost use Rattle.std.specs.Prelude.{◌≡◌, ℕ, All, List, length, ◌≤◌};

/// What the rounds of a ranker are worth depends on its own meaning and the facts alone: not on its place, nor on the
/// other rankers.
pub fn rounds_are_one()
    ensures first { (i : Instance) (facts : FactsTold) (m : Meaning) (first second other_first other_second : Scored) →
        IsRounds i facts m first second → IsRounds i facts m other_first other_second → first ≡ other_first }
    ensures second { (i : Instance) (facts : FactsTold) (m : Meaning) (first second other_first other_second : Scored) →
        IsRounds i facts m first second → IsRounds i facts m other_first other_second → second ≡ other_second }
    ensures rows { (i : Instance) (facts : FactsTold) (index : ℕ) (ms : List Meaning) (rows other_rows : List Row) →
        IsRowsFrom i facts index ms rows → IsRowsFrom i facts index ms other_rows → rows ≡ other_rows }
{}

/// The list of numbers by a key is the one list that has them by their keys, and those of one key by number.
pub fn by_key_is_one()
    ensures sorted { (key : ℕ → ℕ) (n : ℕ) → IsByKey key n (by_key key n) }
    ensures one { (key : ℕ → ℕ) (n : ℕ) (order : List ℕ) → IsByKey key n order → order ≡ by_key key n }
{}

/// Orders by keys, and what rankers answer before and after notes, are as they were worked out by hand.
pub fn rows_hold()
    ensures by_key { ByKeys }
    ensures answers { Answers }
{}

/// The answer of `wsebf` goes by bottleneck over weight exactly, where each coflow has a weight: the rounding of its
/// keys changes no order.
pub fn wsebf_goes_by_ratio()
    ensures { (facts : FactsTold) → IsFacts facts → All (λ w. 1 ≤ w) facts.weights →
        GoesByRatio facts (answer_of wsebf facts) }
{}

/// Each cost of a comparison is that of a valid schedule. So where the bound is at most the cost of every valid
/// schedule, no cost of a row is below it.
pub fn costs_are_above_the_bound()
    ensures { (t : TableFacts) (weights : List ℕ) (bench : List Meaning) (c : Compare) →
        IsComparison t weights bench c →
        ((slots : List (List ℕ)) → IsValid t.flows slots →
        c.bound ≤ cost t.flows (instance_of t weights).weight (instance_of t weights).coflows slots) → IsBelowCosts c }
{}

/// Places at which an answer is no order are as they were worked out by hand.
pub fn unfit_rows_hold()
    ensures { UnfitRows }
{}

/// The schedule of a ranker's second round is valid, and it costs what a comparison tells of that round.
pub fn second_round_is_compared()
    ensures valid { (i : Instance) (facts : FactsTold) (m : Meaning) (slots : List (List ℕ)) →
        IsSecondRound i facts m slots → IsValid i.flows slots }
    ensures cost { (i : Instance) (facts : FactsTold) (m : Meaning) (first second : Scored) (slots : List (List ℕ)) →
        IsRounds i facts m first second → IsSecondRound i facts m slots →
        second ≡ scored.Cost (cost i.flows i.weight i.coflows slots) }
{}

/// The rankers of this crate answer orders of the coflows, whatever they were told.
pub fn own_answers_are_orders()
    ensures { (i : Instance) (facts : FactsTold) (m : Meaning) (place : ℕ) → IsFacts facts → IsOwn m →
        length i.coflows ≡ coflows_in facts → IsSecondEnds i facts m (came.Unfit place) → ⊥ }
{}

//! The comparison of rankers.
ghost use Rattle.std.specs.Prelude.{◌≡◌, ◌<◌, ◌≤◌, ◌^◌, ℕ, [], All, IfOk, OnOk, drop, length, map, take};
ghost use Rattle.coflow_units.specs.declared.limits.TheConstants.{MAX_WEIGHT};
ghost use Rattle.flow_table.specs.Table.{instance_of};
ghost use Rattle.rankers.specs.FactsTold.{FactsTold, IsFacts, IsFactsOf};
ghost use Rattle.rankers.specs.declared.row.Row.{Row};
ghost use Rattle.report_text.specs.declared.compared.Compare.{Compare};
ghost use Rattle.report_text.specs.declared.compared.RowLine.{RowLine};
ghost use Rattle.report_text.specs.Compared.{IsName, compare_text};
ghost use Rattle.rankers.specs.Comparison.{IsComparison, line_of, names_of, worth_of};

use crate::comparing::compare;
use crate::facts::Facts;
use crate::ranker::Ranker;
use crate::row::{Row, Scored};
use coflow_units::{Items, NoMemory};
use flow_table::Table;
use report_text::{Compare, RowLine, RowText, write_compare};
use std::alloc::Global;

/// The text of the comparison of the rankers of a bench on a table, under a lower bound on the cost of its schedules.
///
/// Each ranker in turn is asked; where its answer has each coflow once, it is told the completions in the schedule that
/// serves it; then it is asked again, and dropped. So on success the bench is empty. The bench has fewer than 2^32
/// rankers, and there is a weight for each coflow, at most 2^32. The error is want of memory: the rankers that were
/// asked are gone, and those that were not reached are still on the bench, as they were and in their order.
pub fn comparison_text(
    alloc: Global,
    table: &Table,
    weights: &[u64],
    bound: u128,
    bench: &mut Vec<Box<dyn Ranker>>,
) -> Result<Vec<u8>, NoMemory>
    requires count { length weights.now ≡ length table.now.ids }
    requires weights { All (λ w. w ≤ MAX_WEIGHT) weights.now }
    requires few { length bench.old.items < 2 ^ 32 }
    ensures text { IfOk result (λ text. (c : Compare) × (c.bound ≡ bound) ×
        IsComparison table.now weights.now (map (λ b. meaning b) bench.old.items) c × (text.items ≡ compare_text c)) }
    ensures empty { OnOk result (bench.new.items ≡ []) }
    ensures left { (reached : ℕ) × (bench.new.items ≡ drop reached bench.old.items) ×
        All (λ b. (facts : FactsTold) × IsFacts facts × IsFactsOf table.now weights.now facts × answered b facts)
        (take reached bench.old.items) }
{
    let names = names_of(alloc, bench)?;
    let Ok(facts) = Facts::of(alloc, table, weights) else {
        drop(names);
        return Err(NoMemory);
    };
    let _within = facts.coflows();
    let compared = compare(alloc, table, weights, &facts, bench);
    drop(facts);
    let Ok(rows) = compared else {
        drop(names);
        return Err(NoMemory);
    };
    let listed = lines_of(alloc, &names, &rows);
    drop(names);
    drop(rows);
    let lines = listed?;
    let comparison = Compare {
        bound,
        rows: Items::from_vec(lines),
    };
    let written = write_compare(alloc, &comparison);
    drop(comparison);
    let text = written?;
    Ok(text)
}

/// The names of rankers.
fn names_of(alloc: Global, bench: &[Box<dyn Ranker>]) -> Result<Vec<Items<u8>>, NoMemory>
    ensures names { IfOk result (λ names. names.items ≡ names_of (map (λ b. meaning b) bench.now)) }
    ensures letters { IfOk result (λ names. All IsName names.items) }
{
    let mut names = Vec::new(alloc);
    for ranker in bench {
        names.push(name_of(alloc, ranker)?)?;
    }
    Ok(names)
}

/// The name of a ranker.
pub(crate) fn name_of(alloc: Global, ranker: &Box<dyn Ranker>) -> Result<Items<u8>, NoMemory>
    ensures name { IfOk result (λ name. name ≡ (meaning ranker.now).name) }
    ensures letters { IfOk result IsName }
{
    let name = Vec::from_slice(alloc, ranker.name().as_bytes())?;
    Ok(Items::from_vec(name))
}

/// The lines of rows, each with the name of its ranker.
fn lines_of(alloc: Global, names: &[Items<u8>], rows: &[Row]) -> Result<Vec<RowLine>, NoMemory>
    requires letters { All IsName names.now }
    requires counted { All (λ (row : Row). 1 ≤ row.index) rows.now }
    requires known { All (λ (row : Row). row.index ≤ length names.now) rows.now }
    ensures lines { IfOk result (λ lines. lines.items ≡ map (line_of names.now) rows.now) }
    ensures letters { IfOk result (λ lines. All (λ (line : RowLine). IsName line.name) lines.items) }
{
    let mut lines = Vec::new(alloc);
    for row in rows {
        lines.push(line_of(alloc, names, row)?)?;
    }
    Ok(lines)
}

/// The line of a row, with the name of its ranker.
fn line_of(alloc: Global, names: &[Items<u8>], row: &Row) -> Result<RowLine, NoMemory>
    requires letters { All IsName names.now }
    requires counted { 1 ≤ row.now.index }
    requires known { row.now.index ≤ length names.now }
    ensures line { IfOk result (λ line. line ≡ line_of names.now row.now) }
    ensures letters { IfOk result (λ line. IsName line.name) }
{
    let name = names[row.index as usize - 1].as_slice();
    let name = Vec::from_slice(alloc, name)?;
    Ok(RowLine {
        index: row.index,
        round: row.round,
        name: Items::from_vec(name),
        scored: worth_of(row.result),
    })
}

/// What an answer is worth, as it is printed.
fn worth_of(scored: Scored) -> RowText
    ensures { result ≡ worth_of scored }
{
    match scored {
        Scored::Cost(total) => RowText::Cost(total),
        Scored::Unfit(place) => RowText::Unfit(place),
    }
}

//! Compares a ranker of one's own, `lifo`, with two that the library has, on a trace of four coflows and three ports a
//! side. It prints the text of the comparison.
#![tactic(auto)]

ghost use Rattle.std.specs.Prelude.{IfOk};
ghost use Rattle.ranker_example.specs.Lifo.{IsTextOf};

use anyhow::{Context, Result};
use coflow_units::NoMemory;
use flow_table::Table;
use plans::bound_of;
use rankers::{Bssi0, Facts, Fifo, Ranker, comparison_text, fill_by_key};
use std::alloc::Global;
use std::io::Write;
use trace_reader::read_trace;

const TRACE: &str = "2 4\n1 20 2 1 2 1 2:6\n2 30 1 2 2 0:1 2:2\n3 10 1 0 1 2:2\n4 0 1 0 1 0:2\n";

/// The last arrival first, and of equal ones the greatest number. Its name is `lifo`: last in, first out.
#[derive(Drop)]
struct Lifo;

impl Ranker for Lifo {
    ghost use Rattle.ranker_example.specs.Lifo.{lifo};

    ghost meaning = { λ s. lifo };

    fn name(&self) -> &str {
        "lifo"
    }

    fn rank(&mut self, facts: &Facts, out: &mut [u32]) {
        let _few = facts.coflows();
        fill_by_key(facts.arrivals(), out);
        out.reverse();
    }

    fn note(&mut self, _coflow: u32, _slot: u64) {}
}

fn main(rt: HostRuntime) -> Result<()> {
    let alloc = rt.alloc();
    let trace = read_trace(alloc, TRACE.as_bytes())?;
    let table = Table::build(alloc, &trace, 1)?;
    let text = compared(alloc, &table).ok().context("no memory")?;
    rt.stdout().write_all(&text)?;
    Ok(())
}

/// The text that compares the three rankers, where each coflow has weight 1. The error is want of memory.
fn compared(alloc: Global, table: &Table) -> Result<Vec<u8>, NoMemory>
    ensures text { IfOk result (λ text. IsTextOf table.now text.items) }
{
    let weights = vec![in alloc; 1u64; table.coflows() as usize]?;
    let bound = bound_of(alloc, table, &weights)?;
    let mut bench: Vec<Box<dyn Ranker>> = Vec::new(alloc);
    bench.push(Box::new(alloc, Bssi0)?)?;
    bench.push(Box::new(alloc, Fifo)?)?;
    bench.push(Box::new(alloc, Lifo)?)?;
    comparison_text(alloc, table, &weights, bound, &mut bench)
}

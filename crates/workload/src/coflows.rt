//! The coflows of a table by their ids.
ghost use Rattle.std.specs.Prelude.{◌≡◌, ℕ, List, Some, None, IfOk, OnOk, cond, nat_eq};
ghost use Rattle.text_fields.specs.Numbers.{AreIds, capped};
ghost use Rattle.indexmap.specs.IndexMap.{get};
ghost use Rattle.workload.specs.Operands.{coflow_with, or_else};

use coflow_units::{MAX_ID, NoMemory};
use flow_table::Table;
use indexmap::IndexMap;
use std::alloc::Global;
use std::marker::Model;

/// A coflow for each id of a table. Contracts see the ids, by number.
#[derive(Drop)]
pub(crate) struct Coflows<'a> {
    table: &'a Table,
    numbers: IndexMap<u32, u32>,
}

impl<'a> Model for Coflows<'a> {
    ghost Value = { List ℕ };

    ghost view = { λ s. s.table.now.ids };

    ghost invariant = { λ s. ((id : ℕ) → get nat_eq s.numbers id ≡ coflow_with id s.table.now.ids)
        × AreIds s.table.now.ids };
}

impl<'a> Coflows<'a> {
    /// The coflows of this table.
    pub(crate) fn of(alloc: Global, table: &'a Table) -> Result<Coflows<'a>, NoMemory>
        ensures { IfOk result (λ coflows. coflows ≡ table.now.ids) }
    {
        let mut numbers = IndexMap::<u32, u32>::new(alloc);
        for coflow in 0..table.coflows() {
            let Ok(()) = add(&mut numbers, table.id(coflow), coflow) else {
                drop(numbers);
                return Err(NoMemory);
            };
        }
        Ok(Coflows { table, numbers })
    }

    /// The first coflow that has this id, which is told as 2^64 - 1 where it is greater.
    pub(crate) fn number(&self, id: u64) -> Option<u32>
        ensures { (n : ℕ) → id ≡ capped n → result ≡ coflow_with n self.now }
    {
        let numbers = &self.numbers;
        if id > u64::from(MAX_ID) {
            return None;
        }
        let short = id as u32;
        match numbers.get(&short) {
            Some(number) => Some(*number),
            None => None,
        }
    }
}

/// Notes the coflow for the id, where none is noted.
fn add(numbers: &mut IndexMap<u32, u32>, id: u32, coflow: u32) -> Result<(), NoMemory>
    ensures { OnOk result ((n : ℕ) → get nat_eq numbers.new n
        ≡ or_else (get nat_eq numbers.old n) (cond (nat_eq n id) (Some coflow) None)) }
{
    if numbers.contains_key(&id) {
        return Ok(());
    }
    numbers.insert(id, coflow)?;
    Ok(())
}

//! The coflows of a table by their ids.
ghost use Rattle.std.specs.Prelude.{◌≡◌, ◌<◌, ◌^◌, ◌==◌, ℕ, List, Some, None, IfOk, IfSome, OnOk, cond, nat_eq, position};
ghost use Rattle.std.specs.Option.{option_or};
ghost use Rattle.indexmap.specs.IndexMap.{get};
ghost use Rattle.text_fields.specs.Numbers.{AreIds, capped};

use coflow_units::{MAX_ID, NoMemory};
use flow_table::Table;
use indexmap::IndexMap;
use std::alloc::Global;
use std::marker::Model;

/// The number of a coflow for each id of a table: that of the first coflow with the id. Contracts see the ids, by
/// number.
#[derive(Drop)]
pub(crate) struct Coflows<'a> {
    table: &'a Table,
    numbers: IndexMap<u32, u32>,
}

impl<'a> Model for Coflows<'a> {
    ghost Value = { List ℕ };

    ghost view = { λ s. s.table.now.ids };

    ghost invariant = { λ s. ((id : ℕ) → get nat_eq s.numbers id ≡ position (λ x. x == id) s.table.now.ids)
        × AreIds s.table.now.ids };
}

impl<'a> Coflows<'a> {
    /// The coflows of this table.
    pub(crate) fn of(alloc: Global, table: &'a Table) -> Result<Coflows<'a>, NoMemory>
        ensures { IfOk result (λ coflows. coflows ≡ table.now.ids) }
    {
        let mut numbers = IndexMap::<u32, u32>::new(alloc);
        for coflow in 0..table.coflows() {
            let Ok(()) = add(&mut numbers, table.id(coflow), coflow) else {
                drop(numbers);
                return Err(NoMemory);
            };
        }
        Ok(Coflows { table, numbers })
    }

    /// The number of the first coflow that has this id, which is told as 2^64 - 1 where it is greater. Ids have 32
    /// bits.
    pub(crate) fn number(&self, id: u64) -> Option<u32>
        ensures number { (n : ℕ) → id ≡ capped n → result ≡ position (λ x. x == n) self.now }
        ensures short { IfSome result (λ _. id < 2 ^ 32) }
    {
        let numbers = &self.numbers;
        if id > u64::from(MAX_ID) {
            return None;
        }
        let short = id as u32;
        match numbers.get(&short) {
            Some(number) => Some(*number),
            None => None,
        }
    }
}

/// Notes the number of a coflow for the id, where none is noted.
fn add(numbers: &mut IndexMap<u32, u32>, id: u32, coflow: u32) -> Result<(), NoMemory>
    ensures { OnOk result ((n : ℕ) → get nat_eq numbers.new n
        ≡ option_or (get nat_eq numbers.old n) (cond (id == n) (Some coflow) None)) }
{
    if numbers.contains_key(&id) {
        return Ok(());
    }
    numbers.insert(id, coflow)?;
    Ok(())
}

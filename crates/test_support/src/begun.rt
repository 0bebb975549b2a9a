//! A master of two coflows, and sessions of a new hall.
ghost use Rattle.std.specs.Prelude.{◌≡◌, ◌≤◌, ◌^◌, [], All, IfSome, OnSome, length};
ghost use Rattle.client_session.specs.Models.{IsDriverOf, IsSessionOf};
ghost use Rattle.test_support.specs.Begun.{HasTurns};

use crate::table::table_of_text;
use client_session::{Driver, Hall, Session};
use coflow_units::{Items, UnitSize};
use flow_table::Table;
use master_core::Master;
use std::alloc::Global;

/// Two coflows that share both ports, of 3 units and of 1 unit.
const TWO: &str = "2 2\n1 0 1 0 1 1:3\n2 0 1 0 1 1:1\n";

/// The table of these coflows.
fn table_of_two(alloc: Global) -> Option<Table>
    ensures coflows { IfSome result (λ table. length table.ids ≡ 2) }
    ensures ports { IfSome result (λ table. 2 ≤ table.ports) }
{
    let Ok(table) = table_of_text(alloc, TWO.as_bytes(), UnitSize::MEGABYTE) else {
        return None;
    };
    if table.coflows() == 2 && table.ports() >= 2 {
        Some(table)
    } else {
        None
    }
}

/// A master of two coflows of weight 1, both from port 0 to port 1: coflow 0 owes 3 units, and coflow 1 owes 1. Its
/// journal takes entries up to the limit, from 1 to 2^23.
///
/// None means that memory was wanting.
pub fn master_of_two(alloc: Global, limit: u32) -> Option<Master>
    requires some { 1 ≤ limit }
    requires few { limit ≤ 2 ^ 23 }
    ensures coflows { IfSome result (λ master. length master.opening.table.ids ≡ 2) }
    ensures ports { IfSome result (λ master. 2 ≤ master.opening.table.ports) }
    ensures journal { IfSome result (λ master. master.journal ≡ []) }
{
    let Ok(weights) = vec![in alloc; 1u64; 2] else {
        return None;
    };
    let Some(table) = table_of_two(alloc) else {
        return None;
    };
    match Master::new(alloc, table, Items::from_vec(weights), limit) {
        Ok(master) => Some(master),
        Err(_) => None,
    }
}

/// Lets a master go.
pub fn let_master_go(master: Master) {
    drop(master);
}

/// Lets a session go. Its hall stays open from then on.
pub fn let_session_go(session: Session) {
    drop(session);
}

/// The first sessions of a hall, each of so many turns. None means that memory was wanting.
pub(crate) fn sessions_of(
    alloc: Global,
    hall: &Hall,
    driver: &mut Driver,
    count: u32,
    calls: u32,
) -> Option<Vec<Session>>
    requires driver { IsDriverOf hall.now driver.old }
    requires none_made { driver.old.made ≡ 0 }
    requires few { count ≤ 2 ^ 16 }
    ensures sessions { IfSome result (λ made. All (IsSessionOf hall.now) made.items) }
    ensures turns { IfSome result (λ made. All (HasTurns calls) made.items) }
    ensures count { IfSome result (λ made. length made.items ≡ count) }
    ensures driver { OnSome result (IsDriverOf hall.now driver.new) }
    ensures made { OnSome result (driver.new.made ≡ count) }
    ensures left { OnSome result (driver.new.left ≡ driver.old.left) }
{
    let Ok(mut sessions) = Vec::with_capacity(alloc, count as usize) else {
        return None;
    };
    for before in 0..count {
        let Ok(session) = hall.session(alloc, driver, calls) else {
            return None;
        };
        sessions.push_reserved(session);
    }
    Some(sessions)
}

//! Gates at which clients wait, one for each client.
ghost use Rattle.std.specs.Prelude.{◌≡◌, All, IfSome, false, length};
ghost use Rattle.coflow_units.specs.declared.limits.TheConstants.{MAX_CLIENTS};

use crate::meeting::Side;
use coflow_units::MAX_CLIENTS;
use live_rounds::Gate;
use std::alloc::Global;

/// A gate that may hold its client back at one line until another one comes, and notes whether it was passed there.
#[derive(Clone, Copy)]
pub struct MeetingGate<'a> {
    side: Option<(u32, Side<'a>)>,
    passed: bool,
    gave_up: bool,
}

impl MeetingGate<'_> {
    /// Whether it was passed at the line where it waits.
    pub fn passed(&self) -> bool
        ensures { result ≡ self.now.passed }
    {
        self.passed
    }

    /// Whether it waited for another one who did not come.
    pub fn gave_up(&self) -> bool
        ensures { result ≡ self.now.gave_up }
    {
        self.gave_up
    }
}

impl Gate for MeetingGate<'_> {
    fn pass(&mut self, line: u32) {
        if let Some((at, side)) = &self.side {
            if *at == line {
                self.passed = true;
                self.gave_up = !side.meets();
            }
        }
    }
}

/// A gate for each client that a script may have. Those of the first two may wait for others at a line. None was passed
/// yet. None as an answer means that memory was wanting.
pub fn gates_meeting<'a>(
    alloc: Global,
    sides: [Option<(u32, Side<'a>)>; 2],
) -> Option<Vec<MeetingGate<'a>>>
    ensures count { IfSome result (λ gates. length gates.items ≡ MAX_CLIENTS) }
    ensures closed { IfSome result (λ gates. All (λ g. g.passed ≡ false) gates.items) }
    ensures nobody { IfSome result (λ gates. All (λ g. g.gave_up ≡ false) gates.items) }
{
    let Ok(mut gates) = Vec::with_capacity(alloc, MAX_CLIENTS as usize) else {
        return None;
    };
    for client in 0..MAX_CLIENTS {
        gates.push_reserved(MeetingGate {
            side: match client {
                0 => sides[0],
                1 => sides[1],
                _ => None,
            },
            passed: false,
            gave_up: false,
        });
    }
    Some(gates)
}

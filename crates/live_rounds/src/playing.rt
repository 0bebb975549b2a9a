//! Clients on threads of their own.
ghost use Rattle.std.specs.Prelude.{◌≡◌, ◌+◌, length, All};
ghost use denote.Param.Send.{IsSync};
ghost use Rattle.client_session.specs.Models.{IsSessionOf};
ghost use Rattle.live_rounds.specs.Parts.{Each, IsReady, Plays};

use crate::client::play;
use crate::gate::Gate;
use crate::part::{Part, has_lines};
use client_session::{Hall, Session};
use std::sync::Wait;
use std::thread::{Threads, join_mut};

/// The clients carry out their parts beside each other, each in its session and by its gate. Where one half of them has
/// no lines, no thread is started for it.
#[tactic(auto, using(crate::proofs::Halves::each_halves))]
pub(crate) fn play_all<R: Threads + Wait + Sync, G: Gate + Send>(
    rt: &R,
    hall: &Hall,
    sessions: &mut [Session],
    gates: &mut [G],
    parts: &mut [Part],
)
    requires own { All (IsSessionOf hall.now) sessions.old }
    requires ready { All (IsReady hall.now.setting.opening) parts.old }
    requires gates { length gates.old ≡ length sessions.old }
    requires parts { length parts.old ≡ length sessions.old }
    ensures { Each (Plays hall.now.setting.opening) sessions.old sessions.new parts.old parts.new }
{
    if sessions.len() <= 1 {
        if sessions.len() == 1 {
            play(rt, hall, &mut sessions[0], &mut gates[0], &mut parts[0]);
        }
        return;
    }
    let half = sessions.len() / 2;
    let (a, b) = sessions.split_at_mut(half);
    let (front, back) = gates.split_at_mut(half);
    let (x, y) = parts.split_at_mut(half);
    if !has_lines(x) || !has_lines(y) {
        play_all(rt, hall, a, front, x);
        play_all(rt, hall, b, back, y);
        return;
    }
    join_mut(
        rt,
        &mut || -> ()
            requires { IsSync R.row × All (IsSessionOf hall.now) a.now × All (IsReady hall.now.setting.opening) x.now ×
                (length front.now ≡ length a.now) × (length x.now ≡ length a.now) }
            ensures { Each (Plays hall.entry.now.setting.opening) a.entry.now a.exit.now x.entry.now x.exit.now }
        { play_all(rt, hall, a, front, x) },
        &mut || -> ()
            requires { IsSync R.row × All (IsSessionOf hall.now) b.now × All (IsReady hall.now.setting.opening) y.now ×
                (length back.now ≡ length b.now) × (length y.now ≡ length b.now) }
            ensures { Each (Plays hall.entry.now.setting.opening) b.entry.now b.exit.now y.entry.now y.exit.now }
        { play_all(rt, hall, b, back, y) },
    );
}

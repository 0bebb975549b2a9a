//! The turnstile and its calls.
ghost use Rattle.std.specs.Prelude.{◌≡◌, ℕ, ◌+◌, ◌-◌, ◌^◌, ◌<◌, ◌≤◌, true, false, length, [], ◌∷◌, Some, None, IfOk, IsOk};
ghost use Rattle.turnstile.specs.declared.view.Stage.TheVariants.{Idle, InTurn};
ghost use Rattle.turnstile.specs.Histories.{GoesOn, Begins, AddsAtMostOne, NoneAbove, longer};
ghost use Rattle.turnstile.specs.Models.{first_root, next_seat, takes_back, EachCameBack, GoesOnForEach};
ghost use Rattle.turnstile.specs.Tells.{MayLeave, Has, hears, learned};
ghost use Rattle.turnstile.specs.Tickets.{number_of, IsNumbered, IsRoot};

use crate::chronicle::Chronicle;
use crate::plays::{Another, Learns, TakesBack};
use crate::seats::{Due, Root, Turn, TurnSeat};
use crate::steps::{SERVING, VALUE, WORDS, end_turn, take_turn, tell};
use crate::view::{Tickets, View};
use atomic_table::Table;
use coflow_units::NoMemory;
use std::alloc::Global;
use std::marker::Model;
use std::snapshot::Snapshot;
use std::sync::Wait;

/// One value behind a lock by tickets (Reed and Kanodia, "Synchronization with Eventcounts and Sequencers", CACM 1979):
/// a caller takes the next ticket, and has the turn once that ticket is served. The value means a list of entries, each
/// made by one caller, and a setting, which stays the one that it had at `new`.
#[derive(Drop)]
pub struct Turnstile<T: Chronicle> {
    table: Table<Option<T>, View<T::Entry, T::Setting>, Snapshot<T>, Tickets, Global>,
}

impl<T: Chronicle> Model for Turnstile<T> {
    ghost use Rattle.std.specs.Prelude.{◌≡◌};
    ghost use Rattle.turnstile.specs.Models.{TurnstileModel};

    ghost Value = { TurnstileModel T.Setting };

    ghost view = { λ t. record { table = t.table.shared.table_id; setting = T.setting t.table.shared.key.value } };

    ghost invariant = { λ t. (t.table.shared.table_id.words ≡ 66) × (t.table.shared.table_id.slots ≡ 1) };
}

/// What `close` hands back where it finds no memory.
#[derive(Drop)]
pub struct TurnstileBack<T: Chronicle> {
    pub turnstile: Turnstile<T>,
    pub root: Root<T>,
}

impl<T: Chronicle + Drop> Turnstile<T> {
    /// Puts a value with an empty list behind a new turnstile, and makes its root. `NoMemory` is want of memory, and
    /// drops the value.
    pub fn new(alloc: Global, value: T) -> Result<(Turnstile<T>, Root<T>), NoMemory>
        requires empty { T.entries value ≡ [] }
        ensures setting { IfOk result (λ made. made.0.setting ≡ T.setting value) }
        ensures root { IfOk result (λ made. made.1 ≡ first_root made.0.table (T.setting value)) }
    {
        let about = Snapshot::of(&value);
        let mut slots = Vec::with_capacity(alloc, 1)?;
        slots.push_reserved(Some(value));
        match Table::new(alloc, &[0; WORDS], slots, &about) {
            Ok((table, place)) => Ok((
                Turnstile { table },
                Root {
                    place,
                    made: 0,
                    back: 0,
                },
            )),
            Err(_refused) => Err(NoMemory),
        }
    }
}

impl<T: Chronicle> Turnstile<T> {
    /// Makes a seat with the next number, from 1 on. It has seen what the root has seen. A root makes at most 2^32 - 1
    /// seats.
    pub fn seat(&self, root: &mut Root<T>) -> TurnSeat<T>
        requires own { root.old.table ≡ self.now.table }
        requires room { root.old.made < 2 ^ 32 - 1 }
        ensures counted { root.new ≡ record root.old { made = root.old.made + 1 } }
        ensures seat { result ≡ next_seat root.old }
    {
        root.made += 1;
        TurnSeat {
            place: self.table.shared.split_seat::<Another>(&mut root.place),
            number: root.made,
        }
    }

    /// Waits for the seat's turn, and hands out the value. Its list begins with all that the seat had seen, and its
    /// entries of the seat's number are exactly those that the seat had seen.
    pub fn enter<R: Wait>(&self, rt: &R, seat: &mut TurnSeat<T>) -> Turn<T>
        requires own { seat.old.table ≡ self.now.table }
        requires free { seat.old.in_turn ≡ false }
        ensures seat { seat.new ≡ record seat.old { in_turn = true; seen = T.entries result.value } }
        ensures setting { seat.old.setting ≡ Some (T.setting result.value) }
        ensures list { GoesOn T.by (T.entries result.value) seat.old.number seat.old.seen }
    {
        let value = take_turn(rt, &self.table.shared, &mut seat.place);
        Turn { value, due: Due }
    }

    /// Puts the value back and ends the turn. Its list is the one at entering, or that list with one entry of the
    /// seat's number. The seat has then seen it.
    pub fn leave(&self, seat: &mut TurnSeat<T>, turn: Turn<T>)
        requires own { seat.old.table ≡ self.now.table }
        requires turn { seat.old.in_turn ≡ true }
        requires setting { seat.old.setting ≡ Some (T.setting turn.value) }
        requires list { AddsAtMostOne T.by (T.entries turn.value) seat.old.number seat.old.seen }
        ensures seat { seat.new ≡ record seat.old { in_turn = false; seen = T.entries turn.value } }
    {
        let Turn { value, due: Due } = turn;
        end_turn(&self.table.shared, &mut seat.place, value);
    }

    /// The same as `enter` for the root, whose number is 0. Each entry was made by the root or by a seat that it has
    /// made.
    pub fn enter_root<R: Wait>(&self, rt: &R, root: &mut Root<T>) -> Turn<T>
        requires own { root.old.table ≡ self.now.table }
        requires free { root.old.in_turn ≡ false }
        ensures root { root.new ≡ record root.old { in_turn = true; seen = T.entries result.value } }
        ensures setting { root.old.setting ≡ Some (T.setting result.value) }
        ensures list { GoesOn T.by (T.entries result.value) 0 root.old.seen }
        ensures numbers { NoneAbove T.by root.old.made (T.entries result.value) }
    {
        let value = take_turn(rt, &self.table.shared, &mut root.place);
        Turn { value, due: Due }
    }

    /// The same as `leave` for the root.
    pub fn leave_root(&self, root: &mut Root<T>, turn: Turn<T>)
        requires own { root.old.table ≡ self.now.table }
        requires turn { root.old.in_turn ≡ true }
        requires setting { root.old.setting ≡ Some (T.setting turn.value) }
        requires list { AddsAtMostOne T.by (T.entries turn.value) 0 root.old.seen }
        ensures root { root.new ≡ record root.old { in_turn = false; seen = T.entries turn.value } }
    {
        let Turn { value, due: Due } = turn;
        end_turn(&self.table.shared, &mut root.place, value);
    }

    /// Takes a seat back, also while the root has the turn. The root has then seen all that the seat had seen, and
    /// keeps the seat's number with that list. Each entry was made by the root or by a seat that it has made, no more
    /// seats came back than it has made, and the seat had the root's setting.
    pub fn rejoin(&self, root: &mut Root<T>, seat: TurnSeat<T>)
        requires own { (root.old.table ≡ self.now.table) × (seat.table ≡ self.now.table) }
        requires free { seat.in_turn ≡ false }
        ensures root { root.new ≡ takes_back root.old seat }
        ensures own_entries { GoesOn T.by root.new.seen 0 root.old.seen }
        ensures seen { Begins root.new.seen seat.seen }
        ensures numbers { NoneAbove T.by root.new.made root.new.seen }
        ensures few { length root.new.back ≤ root.new.made }
        ensures setting { seat.setting ≡ root.new.setting }
    {
        let TurnSeat {
            place: other,
            number: _,
        } = seat;
        let steps = &self.table.shared;
        steps.join_seat::<TakesBack>(&mut root.place, other);
        steps.load::<Learns>(&mut root.place, SERVING);
        root.back += 1;
    }

    /// The root and the seat tell each other what they have seen. Both have then seen one list, and each keeps its
    /// number and its own entries. Each entry of that list was made by the root or by a seat that it has made, and the
    /// two have one setting.
    pub fn meet(&self, root: &mut Root<T>, seat: &mut TurnSeat<T>)
        requires own { (root.old.table ≡ self.now.table) × (seat.old.table ≡ self.now.table) }
        requires free { (root.old.in_turn ≡ false) × (seat.old.in_turn ≡ false) }
        ensures root { root.new ≡ record root.old { seen = longer root.old.seen seat.old.seen } }
        ensures seat { seat.new ≡ record seat.old { seen = longer root.old.seen seat.old.seen } }
        ensures same { seat.new.seen ≡ root.new.seen }
        ensures root_list { GoesOn T.by root.new.seen 0 root.old.seen }
        ensures seat_list { GoesOn T.by seat.new.seen seat.old.number seat.old.seen }
        ensures numbers { NoneAbove T.by root.new.made root.new.seen }
        ensures setting { seat.new.setting ≡ root.new.setting }
    {
        let steps = &self.table.shared;
        tell(steps, &mut seat.place, &mut root.place);
        tell(steps, &mut root.place, &mut seat.place);
    }

    /// Takes the value out, once all seats came back. It needs no memory, so it always answers `Ok`. Its list begins
    /// with all that the root has seen. The entries of number 0 are exactly the root's own, those of each seat's number
    /// exactly the ones that the root keeps for that seat, and no other number has an entry.
    pub fn close(self, root: Root<T>) -> Result<T, TurnstileBack<T>>
        requires own { root.table ≡ self.table }
        requires free { root.in_turn ≡ false }
        requires all { root.made ≡ length root.back }
        ensures ok { IsOk result }
        ensures setting { IfOk result (λ value. (T.setting value ≡ self.setting)
            × (root.setting ≡ Some (T.setting value))) }
        ensures root { IfOk result (λ value. GoesOn T.by (T.entries value) 0 root.seen) }
        ensures seats { IfOk result (λ value. GoesOnForEach T.by (T.entries value) root.back) }
        ensures numbers { EachCameBack root.made root.back }
        ensures others { IfOk result (λ value. NoneAbove T.by root.made (T.entries value)) }
    {
        let Turnstile { table } = self;
        let Root {
            place,
            made: _,
            back: _,
        } = root;
        let mut closed = table.close_with(place);
        let value = closed.take(VALUE);
        closed.free();
        Ok(value.unwrap())
    }
}

//! The steps that calls of the turnstile take together.
ghost use Rattle.std.specs.Prelude.{◌≡◌, ℕ, ◌<◌, ◌≤◌, true, false, [], ◌∷◌, Some, None};
ghost use Rattle.turnstile.specs.declared.view.Stage.TheVariants.{Idle, InTurn};
ghost use Rattle.turnstile.specs.Histories.{GoesOn, Begins, NoneAbove, longer};
ghost use Rattle.turnstile.specs.Tells.{MayLeave, Has, hears, learned};
ghost use Rattle.turnstile.specs.Tickets.{number_of, IsNumbered, IsRoot};

use crate::chronicle::Chronicle;
use crate::plays::{Learns, Leaves, Looks, Marks, Reads, Takes, Writes};
use crate::view::{Tickets, View};
use atomic_table::{Seat, Shared};
use std::hint;
use std::snapshot::Snapshot;
use std::sync::Wait;

// The word with the next ticket to be taken, modulo 2^64.
const NEXT: usize = 0;

/// The word with the ticket that is served, modulo 2^64.
pub const SERVING: usize = 1;

// The first of the words that callers sleep on, and how many there are. Tickets with the same remainder share one.
// A word is odd once a caller is about to sleep on it, and is raised before those who sleep on it are woken.
const SPOTS: usize = 2;

const SPOT_COUNT: u64 = 64;

/// How many words the table has.
pub const WORDS: usize = 66;

// A caller looks again and again while its ticket is less than so many behind the one that is served, and else sleeps. Whoever leaves wakes those who have come so near,
// since a thread takes some turns' time to wake.
const NEAR: u64 = 4;

// How often a caller that is near looks before it sleeps all the same: a few microseconds, as there may be more threads than processors.
const LOOKS: u32 = 1000;

/// The slot in which the value lies while nobody has the turn.
pub const VALUE: usize = 0;

/// The table as all threads share it.
pub type Steps<T> = Shared<
    Option<T>,
    View<<T as Chronicle>::Entry, <T as Chronicle>::Setting>,
    Snapshot<T>,
    Tickets,
>;
/// A place at the turnstile's table.
pub type Place<T> = Seat<Option<T>, View<<T as Chronicle>::Entry, <T as Chronicle>::Setting>>;

/// Takes a ticket, waits until it is served, and takes the value out.
pub fn take_turn<T: Chronicle, R: Wait>(rt: &R, steps: &Steps<T>, place: &mut Place<T>) -> T
    requires table { (place.old.table_id ≡ steps.now.table_id) × (steps.now.table_id.words ≡ 66) ×
        (steps.now.table_id.slots ≡ 1) }
    requires free { IsNumbered place.old.me.0.role × (place.old.me.0.stage ≡ Idle) × (place.old.me.1 ≡ []) }
    ensures same { (place.new.table_id ≡ place.old.table_id) × (place.new.id ≡ place.old.id) }
    ensures took { (t : ℕ) × (place.new.me ≡
        (record place.old.me.0 { stage = InTurn t; seen = T.entries result }, (0, None) ∷ [])) }
    ensures setting { place.old.me.0.setting ≡ Some (T.setting result) }
    ensures list { GoesOn T.by (T.entries result) (number_of place.old.me.0.role) place.old.me.0.seen }
    ensures numbers { IsRoot place.old.me.0.role → NoneAbove T.by place.old.me.0.made (T.entries result) }
{
    let ticket = steps.fetch_add::<Takes>(place, NEXT, 1);
    wait_for(rt, steps, place, ticket)
}

// Waits until this ticket is served, and takes the value out.
fn wait_for<T: Chronicle, R: Wait>(rt: &R, steps: &Steps<T>, place: &mut Place<T>, ticket: u64) -> T
    requires table { (place.old.table_id ≡ steps.now.table_id) × (steps.now.table_id.words ≡ 66) ×
        (steps.now.table_id.slots ≡ 1) }
    requires waits { IsNumbered place.old.me.0.role × (place.old.me.1 ≡ []) × Has place.old.me.0.stage ticket }
    ensures same { (place.new.table_id ≡ place.old.table_id) × (place.new.id ≡ place.old.id) }
    ensures took { (t : ℕ) × (place.new.me ≡
        (record place.old.me.0 { stage = InTurn t; seen = T.entries result }, (0, None) ∷ [])) }
    ensures setting { place.old.me.0.setting ≡ Some (T.setting result) }
    ensures list { GoesOn T.by (T.entries result) (number_of place.old.me.0.role) place.old.me.0.seen }
    ensures numbers { IsRoot place.old.me.0.role → NoneAbove T.by place.old.me.0.made (T.entries result) }
{
    let mut looks = 0u32;
    for _ in rt.forever() {
        let serving = steps.load::<Looks>(place, SERVING);
        if serving == ticket {
            return steps.exchange(place, VALUE, None).unwrap();
        }
        if looks < LOOKS && ticket.wrapping_sub(serving) < NEAR {
            looks += 1;
            hint::spin_loop();
        } else {
            sleep(rt, steps, place, ticket);
            looks = 0;
        }
    }
    unreachable!()
}

// The word that a caller with this ticket sleeps on.
fn spot_of(ticket: u64) -> usize
    ensures spot { (2 ≤ result) × (result < 66) }
{
    SPOTS + (ticket % SPOT_COUNT) as usize
}

// Sleeps until the ticket is near its turn. It may also return for no reason.
//
// No wake is lost. A caller makes its word odd before it looks at what is served, and whoever leaves raises what is served before it looks at that word.
// So the caller finds its ticket served, or the word is raised before that wake, by the one who leaves or by one who left earlier: the caller sleeps until a wake, or finds the word raised and does not sleep.
// Words only rise. A sleep compares their lower 32 bits alone, which come again after 2^32 steps of one word, while a caller is between two of its own.
fn sleep<T: Chronicle, R: Wait>(rt: &R, steps: &Steps<T>, place: &mut Place<T>, ticket: u64)
    requires table { (place.old.table_id ≡ steps.now.table_id) × (steps.now.table_id.words ≡ 66) }
    ensures same { (place.new.table_id ≡ place.old.table_id) × (place.new.id ≡ place.old.id) ×
        (place.new.me ≡ place.old.me) }
{
    let spot = spot_of(ticket);
    let mark = steps.fetch_or::<Marks>(place, spot, 1) | 1;
    if steps.peek(SERVING) != ticket {
        steps.park(rt, spot, (mark % (1 << 32)) as u32);
    }
}

/// Puts the value back, lets the next ticket be served, and wakes those who sleep and are near their turn.
pub fn end_turn<T: Chronicle>(steps: &Steps<T>, place: &mut Place<T>, value: T)
    requires table { (place.old.table_id ≡ steps.now.table_id) × (steps.now.table_id.words ≡ 66) ×
        (steps.now.table_id.slots ≡ 1) }
    requires turn { (t : ℕ) × (place.old.me.0.stage ≡ InTurn t) }
    requires holds { IsNumbered place.old.me.0.role × (place.old.me.1 ≡ (0, None) ∷ []) }
    requires value { MayLeave T.by T.entries T.setting place.old.me.0 value }
    ensures same { (place.new.table_id ≡ place.old.table_id) × (place.new.id ≡ place.old.id) }
    ensures left { place.new.me ≡ (record place.old.me.0 { stage = Idle; seen = T.entries value }, []) }
{
    match steps.exchange(place, VALUE, Some(value)) {
        None => {}
        Some(_) => unreachable!(),
    }
    let served = steps.fetch_add::<Leaves>(place, SERVING, 1);
    wake_near(steps, place, served.wrapping_add(1));
}

// Wakes those who sleep with the ticket that is served, or with one of the next, who are then awake when their turn comes.
fn wake_near<T: Chronicle>(steps: &Steps<T>, place: &mut Place<T>, serving: u64)
    requires table { (place.old.table_id ≡ steps.now.table_id) × (steps.now.table_id.words ≡ 66) }
    ensures same { (place.new.table_id ≡ place.old.table_id) × (place.new.id ≡ place.old.id) ×
        (place.new.me ≡ place.old.me) }
{
    for ahead in 0..NEAR {
        wake(steps, place, serving.wrapping_add(ahead));
    }
}

// Wakes the caller with this ticket, where it sleeps. Where nobody sleeps on its word, that is one look at the word.
fn wake<T: Chronicle>(steps: &Steps<T>, place: &mut Place<T>, ticket: u64)
    requires table { (place.old.table_id ≡ steps.now.table_id) × (steps.now.table_id.words ≡ 66) }
    ensures same { (place.new.table_id ≡ place.old.table_id) × (place.new.id ≡ place.old.id) ×
        (place.new.me ≡ place.old.me) }
{
    let spot = spot_of(ticket);
    let mark = steps.peek(spot);
    if mark % 2 == 0 {
        return;
    }
    // Where another raised the word since then, that one wakes.
    if steps.compare_exchange::<Marks>(place, spot, mark, mark.wrapping_add(1)) == mark {
        steps.wake_all(spot);
    }
}

/// A note of what one place has seen is read at another, which has then seen it too.
pub fn tell<T: Chronicle>(steps: &Steps<T>, from: &mut Place<T>, to: &mut Place<T>)
    requires table { (from.old.table_id ≡ steps.now.table_id) × (to.old.table_id ≡ steps.now.table_id) ×
        (steps.now.table_id.words ≡ 66) }
    requires numbered { IsNumbered from.old.me.0.role × IsNumbered to.old.me.0.role }
    ensures same { (from.new.table_id ≡ from.old.table_id) × (from.new.id ≡ from.old.id) ×
        (to.new.table_id ≡ to.old.table_id) × (to.new.id ≡ to.old.id) }
    ensures from { from.new.me ≡ from.old.me }
    ensures to { to.new.me ≡ (learned (hears to.old.me.0 from.old.me.0), to.old.me.1) }
    ensures kept { GoesOn T.by (longer to.old.me.0.seen from.old.me.0.seen) (number_of to.old.me.0.role)
        to.old.me.0.seen }
    ensures heard { Begins (longer to.old.me.0.seen from.old.me.0.seen) from.old.me.0.seen }
    ensures numbers { IsRoot to.old.me.0.role →
        NoneAbove T.by to.old.me.0.made (longer to.old.me.0.seen from.old.me.0.seen) }
    ensures setting { (x : T.Setting) → from.old.me.0.setting ≡ Some x → to.old.me.0.setting ≡ Some x }
{
    let note = steps.split_seat::<Writes>(from);
    steps.join_seat::<Reads>(to, note);
    steps.load::<Learns>(to, SERVING);
}

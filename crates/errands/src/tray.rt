//! The tray and its two ends.
ghost use Rattle.std.specs.Prelude.{◌≡◌, [], ◌∷◌, true, false, Some, None, IfOk, IfSome, IfNone};
ghost use Rattle.errands.specs.Models.{first_giver, helper_of};

use crate::errand::Errand;
use crate::plays::{Another, Answers, Begins, Ends, Fetches, Gives, Recalls, Takes};
use crate::view::{Errands, Place, View};
use atomic_table::Table;
use std::alloc::{AllocError, Global};
use std::hint;
use std::marker::Model;
use std::sync::Wait;
use std::time::Duration;

// The words that are stored, at the one place.
const WORD: usize = 0;

const RESTS: u64 = 0;

const LIES: u64 = 1;

const TAKEN: u64 = 2;

const BACK: u64 = 3;

const ENDED: u64 = 4;

// So often an end looks before it sleeps.
const LOOKS: u32 = 200;

// How long an end sleeps at first, in microseconds. A look comes after each sleep, so no end wakes the other.
const FIRST_SLEEP: u64 = 50;

// The longest sleep of a giver, in microseconds.
const LONGEST_WAIT: u64 = 1000;

// The one slot.
const SLOT: usize = 0;

/// A place where one end gives values, and the other takes them, does its errand and answers.
pub struct Tray<T: Errand> {
    table: Table<Option<T>, View<T, T::About>, T::About, Errands, Global>,
}

impl<T: Errand> Model for Tray<T> {
    ghost use Rattle.std.specs.Prelude.{◌≡◌};
    ghost use Rattle.errands.specs.Models.{TrayModel};

    ghost Value = { TrayModel T.About };

    ghost view = { λ t. record { id = t.table.shared.table_id; about = t.table.shared.key } };

    ghost invariant = { λ t. (t.table.shared.table_id.words ≡ 1) × (t.table.shared.table_id.slots ≡ 1) };
}

/// The end that gives, and takes back.
#[derive(Drop)]
pub struct Giver<T: Errand> {
    place: Place<T>,
}

impl<T: Errand> Model for Giver<T> {
    ghost use Rattle.std.specs.Prelude.{◌≡◌};
    ghost use Rattle.errands.specs.declared.view.Role.TheVariants.{Giver};
    ghost use Rattle.errands.specs.Models.{EndModel, GiverHolds, is_over, out_of};

    ghost Value = { EndModel T T.About };

    ghost view = { λ s. record {
      at = s.place.table_id;
      about = s.place.me.0.about;
      out = out_of s.place.me.0.stage;
      over = is_over s.place.me.0.stage;
    } };

    ghost invariant = { λ s. (s.place.me.0.role ≡ Giver) × GiverHolds s.place.me.0.stage s.place.me.1 };
}

/// The end that takes and answers.
#[derive(Drop)]
pub struct Helper<T: Errand> {
    place: Place<T>,
    // In microseconds.
    longest_sleep: u64,
}

impl<T: Errand> Model for Helper<T> {
    ghost use Rattle.std.specs.Prelude.{◌≡◌};
    ghost use Rattle.errands.specs.declared.view.Role.TheVariants.{Helper};
    ghost use Rattle.errands.specs.Models.{EndModel, HelperHolds, is_over, out_of};

    ghost Value = { EndModel T T.About };

    ghost view = { λ s. record {
      at = s.place.table_id;
      about = s.place.me.0.about;
      out = out_of s.place.me.0.stage;
      over = is_over s.place.me.0.stage;
    } };

    ghost invariant = { λ s. (s.place.me.0.role ≡ Helper) × HelperHolds s.place.me.0.stage s.place.me.1 };
}

impl<T: Errand> Tray<T> {
    /// A tray, and the end that gives.
    pub fn new(alloc: Global, about: &T::About) -> Result<(Tray<T>, Giver<T>), AllocError>
        ensures about { IfOk result (λ made. made.0.about ≡ about.now) }
        ensures giver { IfOk result (λ made. made.1 ≡ first_giver made.0) }
    {
        let (table, mut place) = Table::vacant(alloc, &[ENDED], 1, about)?;
        table.shared.store::<Begins>(&mut place, WORD, RESTS);
        Ok((Tray { table }, Giver { place }))
    }

    /// The end that takes. While nothing is given, it sleeps at most so many microseconds at a time, and 50 at first.
    pub fn helper(&self, giver: &mut Giver<T>, longest_sleep: u64) -> Helper<T>
        requires own { giver.old.at ≡ self.now.id }
        ensures giver { giver.new ≡ giver.old }
        ensures helper { result ≡ helper_of giver.old }
    {
        let place = self.table.shared.split_seat::<Another>(&mut giver.place);
        Helper {
            place,
            longest_sleep,
        }
    }

    /// Gives a value to the helper.
    pub fn give(&self, giver: &mut Giver<T>, value: T)
        requires own { giver.old.at ≡ self.now.id }
        requires free { (giver.old.out ≡ None) × (giver.old.over ≡ false) }
        requires fits { T.fits giver.old.about value }
        ensures out { giver.new ≡ record giver.old { out = Some value } }
    {
        let steps = &self.table.shared;
        match steps.exchange(&mut giver.place, SLOT, Some(value)) {
            None => {}
            Some(_) => unreachable!(),
        }
        steps.store::<Gives>(&mut giver.place, WORD, LIES);
    }

    /// Takes back what was given, where no helper has taken it.
    pub fn recall(&self, giver: &mut Giver<T>) -> Option<T>
        requires own { giver.old.at ≡ self.now.id }
        requires given { (x : T) × (giver.old.out ≡ Some x) }
        ensures back { IfSome result (λ x. (giver.old.out ≡ Some x) × (giver.new ≡ record giver.old { out = None })) }
        ensures none { IfNone result (giver.new ≡ giver.old) }
    {
        let steps = &self.table.shared;
        let found = steps.compare_exchange::<Recalls>(&mut giver.place, WORD, LIES, RESTS);
        if found != LIES {
            return None;
        }
        Some(steps.exchange(&mut giver.place, SLOT, None).unwrap())
    }

    /// Takes what the helper answered, where it has answered.
    pub fn fetch(&self, giver: &mut Giver<T>) -> Option<T>
        requires own { giver.old.at ≡ self.now.id }
        requires given { (x : T) × (giver.old.out ≡ Some x) }
        ensures back { IfSome result (λ y. ((x : T) → giver.old.out ≡ Some x → T.done giver.old.about x y) ×
            (giver.new ≡ record giver.old { out = None })) }
        ensures none { IfNone result (giver.new ≡ giver.old) }
    {
        let steps = &self.table.shared;
        let found = steps.compare_exchange::<Fetches>(&mut giver.place, WORD, BACK, RESTS);
        if found != BACK {
            return None;
        }
        Some(steps.exchange(&mut giver.place, SLOT, None).unwrap())
    }

    /// Takes what the helper answers, once it does.
    pub fn wait<R: Wait>(&self, rt: &R, giver: &mut Giver<T>) -> T
        requires own { giver.old.at ≡ self.now.id }
        requires given { (x : T) × (giver.old.out ≡ Some x) }
        ensures done { (x : T) → giver.old.out ≡ Some x → T.done giver.old.about x result }
        ensures free { giver.new ≡ record giver.old { out = None } }
    {
        let mut looks = 0u32;
        let mut micros = FIRST_SLEEP;
        for _ in rt.forever() {
            if let Some(value) = self.fetch(giver) {
                return value;
            }
            looks = looks.saturating_add(1);
            if looks < LOOKS {
                hint::spin_loop();
                continue;
            }
            self.sleep(rt, TAKEN, micros);
            micros = micros.saturating_mul(2).min(LONGEST_WAIT);
        }
        unreachable!()
    }

    /// Nothing is given any more.
    pub fn end(&self, giver: &mut Giver<T>)
        requires own { giver.old.at ≡ self.now.id }
        requires free { (giver.old.out ≡ None) × (giver.old.over ≡ false) }
        ensures over { giver.new ≡ record giver.old { over = true } }
    {
        let steps = &self.table.shared;
        steps.store::<Ends>(&mut giver.place, WORD, ENDED);
        steps.wake_all(WORD);
    }

    /// Frees the tray, once nothing is given any more.
    pub fn close(self, giver: Giver<T>)
        requires own { giver.at ≡ self.id }
        requires over { giver.over ≡ true }
    {
        let Tray { table } = self;
        let Giver { place } = giver;
        let mut closed = table.close_with(place);
        match closed.take(SLOT) {
            None => {}
            Some(_) => unreachable!(),
        }
        closed.free();
    }

    /// Takes what is given, where something is.
    pub fn take(&self, helper: &mut Helper<T>) -> Option<T>
        requires own { helper.old.at ≡ self.now.id }
        requires free { helper.old.out ≡ None }
        ensures took { IfSome result (λ x. T.fits helper.old.about x ×
            (helper.new ≡ record helper.old { out = Some x })) }
        ensures none { IfNone result (helper.new ≡ helper.old) }
    {
        let steps = &self.table.shared;
        let found = steps.compare_exchange::<Takes>(&mut helper.place, WORD, LIES, TAKEN);
        if found != LIES {
            return None;
        }
        Some(steps.exchange(&mut helper.place, SLOT, None).unwrap())
    }

    /// Waits until something is given, and takes it. None ends the wait: the end that gives has said that nothing is
    /// given any more, which no clause tells.
    pub fn next<R: Wait>(&self, rt: &R, helper: &mut Helper<T>) -> Option<T>
        requires own { helper.old.at ≡ self.now.id }
        requires free { helper.old.out ≡ None }
        ensures took { IfSome result (λ x. T.fits helper.old.about x ×
            (helper.new ≡ record helper.old { out = Some x })) }
        ensures none { IfNone result (helper.new ≡ helper.old) }
    {
        let mut looks = 0u32;
        let mut micros = FIRST_SLEEP;
        for _ in rt.forever() {
            let word = self.table.shared.peek(WORD);
            if word == ENDED {
                return None;
            }
            if word == LIES {
                if let Some(value) = self.take(helper) {
                    return Some(value);
                }
            }
            looks = looks.saturating_add(1);
            if looks < LOOKS {
                hint::spin_loop();
                continue;
            }
            self.sleep(rt, word, micros);
            micros = micros.saturating_mul(2).min(helper.longest_sleep);
        }
        unreachable!()
    }

    /// Answers what was made of the value that was taken.
    pub fn answer(&self, helper: &mut Helper<T>, value: T)
        requires own { helper.old.at ≡ self.now.id }
        requires done { (x : T) × (helper.old.out ≡ Some x) × T.done helper.old.about x value }
        ensures free { helper.new ≡ record helper.old { out = None } }
    {
        let steps = &self.table.shared;
        match steps.exchange(&mut helper.place, SLOT, Some(value)) {
            None => {}
            Some(_) => unreachable!(),
        }
        steps.store::<Answers>(&mut helper.place, WORD, BACK);
    }

    // Sleeps for so many microseconds at most, while the word is this one.
    fn sleep<R: Wait>(&self, rt: &R, word: u64, micros: u64) {
        let low = (word % (1 << 32)) as u32;
        let most = Duration::from_micros(micros);
        self.table.shared.park_timeout(rt, WORD, low, most);
    }
}

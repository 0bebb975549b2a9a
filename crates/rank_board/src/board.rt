//! The board, its publisher, its seats, and what they do.
ghost use Rattle.std.specs.Prelude.{◌≡◌, ℕ, ◌+◌, ◌-◌, ◌*◌, ◌%◌, ◌^◌, ◌<◌, ◌≤◌, ◌∷◌, ◌++◌, [], length, All, IfOk, true};
ghost use Rattle.rank_board.specs.Models.{first_publisher, new_seat, saw_front, read_rank, pulled, FoundAnother};
ghost use Rattle.rank_board.specs.Pulls.{Agrees};
ghost use Rattle.rank_board.specs.Tells.{takes_right, without_right};
ghost use Rattle.rank_board.specs.Words.{word_at, WasPublished};

use crate::plays::{Another, Gives, Hears, Looks, Meets, Raises, Reads, Takes, Writes};
use crate::pulls::{Pull, Pulls};
use crate::view::{Banks, Place, View};
use coflow_units::NoMemory;
use observed_table::ObservedTable;
use std::alloc::Global;
use std::marker::Model;

#[cfg(test)]
mod tests;

// The place of the front.
const FRONT: usize = 0;

// A rank word is its version times 2^32, and its rank.
const VERSION: u64 = 1 << 32;

// The table as all threads share it.
type Steps = ObservedTable<(), View, u64, Banks, Global>;

/// The ranks of a fixed number of coflows, which any number of threads read while one publisher replaces them.
///
/// Each version is written beside the one before it, and then the front names it. A rank has its version in its word,
/// so a reader knows which version it read.
#[derive(Drop)]
pub struct RankBoard {
    table: Steps,
    coflows: u32,
}

impl Model for RankBoard {
    ghost use Rattle.std.specs.Prelude.{◌≡◌, ◌+◌, ◌*◌, ◌<◌};
    ghost use Rattle.rank_board.specs.Models.{BoardModel};

    ghost Value = { BoardModel };

    ghost view = { λ b. record { table = b.table.table_id; coflows = b.coflows } };

    ghost invariant = { λ b. (b.table.table_id.words ≡ 1 + 2 * b.coflows) × (b.table.key ≡ b.coflows) ×
        (b.coflows < 4294967296) };
}

/// The one that publishes. Contracts see what it published: for each version from 1 on, the rank of each coflow.
#[derive(Drop)]
pub struct Publisher {
    place: Place,
    version: u32,
}

impl Model for Publisher {
    ghost use Rattle.std.specs.Prelude.{◌≡◌, [], length, true};
    ghost use Rattle.rank_board.specs.Models.{PublisherModel};

    ghost Value = { PublisherModel };

    ghost view = { λ p. record { table = p.place.table_id; published = p.place.me.0.published } };

    ghost invariant = { λ p. (p.place.me.0.publishes ≡ true) × (p.place.me.0.next ≡ []) ×
        (length p.place.me.0.published ≡ p.version) };
}

impl Publisher {
    /// How many versions it published.
    pub fn version(&self) -> u32
        ensures version { result ≡ length self.now.published }
    {
        self.version
    }
}

/// The seat of a reader. Contracts see the greatest version that it has seen, its pulls, and its looks: the words that
/// it loaded, each with its place.
#[derive(Drop)]
pub struct RankSeat {
    place: Place,
    seen: u32,
    pulls: Pulls,
}

impl Model for RankSeat {
    ghost use Rattle.std.specs.Prelude.{◌≡◌, All};
    ghost use Rattle.rank_board.specs.Models.{SeatModel};
    ghost use Rattle.rank_board.specs.Pulls.{IsRead};

    ghost Value = { SeatModel };

    ghost view = { λ s. record {
      table = s.place.table_id;
      id = s.place.id;
      seen = s.seen;
      pulls = s.pulls.list;
      looks = s.place.me.0.looks;
    } };

    ghost invariant = { λ s. (s.place.me.0.seen ≡ s.seen) × All (IsRead s.place.me.0.looks) s.pulls.list };
}

impl RankSeat {
    /// The greatest version that the seat has seen.
    pub fn seen(&self) -> u32
        ensures seen { result ≡ self.now.seen }
    {
        self.seen
    }
}

/// What a pull found.
#[derive(Clone, Copy, Debug, PartialEq, Eq)]
pub enum Pulled {
    /// The coflow has this rank in the version, from 1 on.
    Rank { version: u32, rank: u32 },
    /// The coflow has no rank in the version.
    Unranked { version: u32 },
    /// The front had one version, and the rank word had a later one.
    Moved { front: u32, found: u32 },
}

impl RankBoard {
    /// A board on which nothing is published, its publisher and a first seat.
    ///
    /// The error is want of memory.
    pub fn new(alloc: Global, coflows: u32) -> Result<(RankBoard, Publisher, RankSeat), NoMemory>
        ensures coflows { IfOk result (λ made. made.0.coflows ≡ coflows) }
        ensures publisher { IfOk result (λ made. made.1 ≡ first_publisher made.0.table) }
        ensures seat { IfOk result (λ made. made.2 ≡ new_seat made.0.table made.2.id 0) }
    {
        let words = vec![in alloc; 0u64; 1 + 2 * coflows as usize]?;
        let key = u64::from(coflows);
        let (table, mut place) = ObservedTable::of_words(alloc, &words, &key)?;
        let first = table.split_seat::<Another>(&mut place);
        let board = RankBoard { table, coflows };
        let publisher = Publisher { place, version: 0 };
        let seat = RankSeat {
            place: first,
            seen: 0,
            pulls: Pulls::new(),
        };
        Ok((board, publisher, seat))
    }

    /// How many coflows the board has ranks of.
    pub fn coflows(&self) -> u32
        ensures coflows { result ≡ self.now.coflows }
    {
        self.coflows
    }

    /// Makes one more seat. It has seen what `from` has seen, and has neither pulls nor looks.
    pub fn seat(&self, from: &mut RankSeat) -> RankSeat
        requires own { from.old.table ≡ self.now.table }
        ensures from { from.new ≡ from.old }
        ensures seat { result ≡ new_seat from.old.table result.id from.old.seen }
    {
        RankSeat {
            place: self.table.split_seat::<Another>(&mut from.place),
            seen: from.seen,
            pulls: Pulls::new(),
        }
    }

    /// Publishes the next version: one rank for each coflow, from 1 on, and 0 for none.
    ///
    /// Its words are written first, and then the front is raised. A publisher publishes at most 2^32 - 1 versions.
    pub fn publish(&self, publisher: &mut Publisher, ranks: &[u32])
        requires own { publisher.old.table ≡ self.now.table }
        requires ranks { length ranks.now ≡ self.now.coflows }
        requires room { length publisher.old.published < 2 ^ 32 - 1 }
        ensures published { publisher.new ≡
            record publisher.old { published = publisher.old.published ++ ranks.now ∷ [] } }
    {
        let steps = &self.table;
        let version = publisher.version + 1;
        write_bank(steps, &mut publisher.place, version, ranks);
        steps.store::<Raises>(&mut publisher.place, FRONT, u64::from(version));
        publisher.version = version;
    }

    /// Reads the rank of a coflow, by a load of the front and, once something is published, a load of the coflow's word
    /// in that version.
    ///
    /// `Rank` and `Unranked` have the version of the front, and the seat keeps the pull with its mark. `Unranked` comes
    /// exactly where the front is 0 or the word has its version and rank 0. `Moved` comes only where the word has a
    /// later version, whose front was raised or will be next; the seat keeps no pull.
    pub fn pull(&self, seat: &mut RankSeat, coflow: u32, mark: u32) -> Pulled
        requires own { seat.old.table ≡ self.now.table }
        requires coflow { coflow < self.now.coflows }
        ensures own { seat.new.table ≡ seat.old.table }
        ensures later { seat.old.seen ≤ seat.new.seen }
        ensures rank { (version rank : ℕ) → result ≡ Pulled.Rank version rank →
            (1 ≤ version) × (1 ≤ rank) × (seat.new ≡ pulled version coflow rank mark seat.old) }
        ensures unranked { (version : ℕ) → result ≡ Pulled.Unranked version →
            seat.new ≡ pulled version coflow 0 mark seat.old }
        ensures moved { (front found : ℕ) → result ≡ Pulled.Moved front found →
            (1 ≤ front) × (front + 2 ≤ found) × FoundAnother front coflow found (saw_front front seat.old) seat.new }
        ensures even { (front found : ℕ) → result ≡ Pulled.Moved front found → found % 2 ≡ front % 2 }
    {
        self.look(seat);
        self.read(seat, coflow, mark)
    }

    /// The publisher and a seat meet. The seat has then seen the publisher's version, by one look at the front.
    ///
    /// The publisher's version is at least each that the seat had seen.
    /// All that the seat loaded was published, a later version that a pull found among it.
    /// Each rank that it pulled is the one that was published with its version.
    pub fn meet(&self, publisher: &mut Publisher, seat: &mut RankSeat)
        requires own { (publisher.old.table ≡ self.now.table) × (seat.old.table ≡ self.now.table) }
        ensures publisher { publisher.new ≡ publisher.old }
        ensures seat { seat.new ≡ saw_front (length publisher.new.published) seat.old }
        ensures seen { seat.old.seen ≤ length publisher.new.published }
        ensures looks { All (WasPublished publisher.new.published) seat.new.looks }
        ensures pulls { All (Agrees publisher.new.published) seat.new.pulls }
    {
        let steps = &self.table;
        hand_on(steps, &mut publisher.place, &mut seat.place);
        steps.load::<Meets>(&mut seat.place, FRONT);
        hand_on(steps, &mut seat.place, &mut publisher.place);
        seat.seen = publisher.version;
    }

    /// Lets a seat see what another has seen. It gains one look at the front, and its version is at least both.
    pub fn tell(&self, from: &mut RankSeat, to: &mut RankSeat)
        requires own { (from.old.table ≡ self.now.table) × (to.old.table ≡ self.now.table) }
        ensures from { from.new ≡ from.old }
        ensures to { to.new ≡ saw_front to.new.seen to.old }
        ensures seen { (from.old.seen ≤ to.new.seen) × (to.old.seen ≤ to.new.seen) }
    {
        let steps = &self.table;
        let note = steps.split_seat::<Another>(&mut from.place);
        steps.join_seat::<Hears>(&mut to.place, note);
        let front = steps.load::<Looks>(&mut to.place, FRONT);
        to.seen = front as u32;
    }

    // The first half of `pull`: the front.
    fn look(&self, seat: &mut RankSeat)
        requires own { seat.old.table ≡ self.now.table }
        ensures seat { seat.new ≡ saw_front seat.new.seen seat.old }
        ensures later { seat.old.seen ≤ seat.new.seen }
    {
        let front = self.table.load::<Looks>(&mut seat.place, FRONT);
        seat.seen = front as u32;
    }

    // The second half of `pull`: the rank word of the version that the seat has seen.
    fn read(&self, seat: &mut RankSeat, coflow: u32, mark: u32) -> Pulled
        requires own { seat.old.table ≡ self.now.table }
        requires coflow { coflow < self.now.coflows }
        ensures own { seat.new.table ≡ seat.old.table }
        ensures rank { (version rank : ℕ) → result ≡ Pulled.Rank version rank →
            (1 ≤ version) × (1 ≤ rank) × (version ≡ seat.old.seen) ×
            (seat.new ≡ read_rank version coflow rank mark seat.old) }
        ensures unranked { (version : ℕ) → result ≡ Pulled.Unranked version →
            (version ≡ seat.old.seen) × (seat.new ≡ read_rank version coflow 0 mark seat.old) }
        ensures moved { (front found : ℕ) → result ≡ Pulled.Moved front found →
            (1 ≤ front) × (front ≡ seat.old.seen) × (front + 2 ≤ found) ×
            FoundAnother front coflow found seat.old seat.new }
        ensures even { (front found : ℕ) → result ≡ Pulled.Moved front found → found % 2 ≡ front % 2 }
        ensures seen { seat.new.seen ≡ seat.old.seen }
    {
        let version = seat.seen;
        let mut rank = 0;
        if version > 0 {
            let place = place_of(version, coflow as usize);
            let word = self.table.load::<Reads>(&mut seat.place, place);
            let found = (word / VERSION) as u32;
            if found > version {
                return Pulled::Moved {
                    front: version,
                    found,
                };
            }
            rank = (word % VERSION) as u32;
        }
        seat.pulls = seat.pulls.then(&Pull {
            version,
            coflow,
            rank,
            mark,
        });
        if rank == 0 {
            Pulled::Unranked { version }
        } else {
            Pulled::Rank { version, rank }
        }
    }
}

// The place of the word that has the coflow's rank in this version.
fn place_of(version: u32, coflow: usize) -> usize
    requires { coflow < 2 ^ 32 }
    ensures { result ≡ word_at version coflow }
{
    1 + 2 * coflow + (version % 2) as usize
}

// Writes the words of the next version, which no reader takes for the newest yet.
fn write_bank(steps: &Steps, place: &mut Place, version: u32, ranks: &[u32])
    requires own { place.old.table_id ≡ steps.now.table_id }
    requires words { (steps.now.table_id.words ≡ 1 + 2 * length ranks.now) × (steps.now.key ≡ length ranks.now) ×
        (length ranks.now < 2 ^ 32) }
    requires next { (place.old.me.0.publishes ≡ true) × (place.old.me.0.next ≡ []) ×
        (version ≡ length place.old.me.0.published + 1) }
    ensures same { place.new.table_id ≡ place.old.table_id }
    ensures written { place.new.me ≡ (record place.old.me.0 { next = ranks.now }, place.old.me.1) }
{
    for coflow in 0..ranks.len() {
        let word = u64::from(version) * VERSION + u64::from(ranks[coflow]);
        steps.store::<Writes>(place, place_of(version, coflow), word);
    }
}

// The right to publish, with what was published, goes from one place to another.
fn hand_on(steps: &Steps, from: &mut Place, to: &mut Place)
    requires own { (from.old.table_id ≡ steps.now.table_id) × (to.old.table_id ≡ steps.now.table_id) ×
        (0 < steps.now.table_id.words) }
    requires right { from.old.me.0.publishes ≡ true }
    ensures same { (from.new.table_id ≡ from.old.table_id) × (to.new.table_id ≡ to.old.table_id) }
    ensures ids { (from.new.id ≡ from.old.id) × (to.new.id ≡ to.old.id) }
    ensures from { from.new.me ≡ (without_right from.old.me.0, from.old.me.1) }
    ensures to { to.new.me ≡ (takes_right to.old.me.0 from.old.me.0, to.old.me.1) }
{
    let right = steps.split_seat::<Gives>(from);
    steps.join_seat::<Takes>(to, right);
}

//! The board of port words, its poster and its agents.
ghost use Rattle.std.specs.Prelude.{◌≡◌, ◌≢◌, ◌⊎◌, ℕ, ◌+◌, ◌-◌, ◌*◌, ◌/◌, ◌%◌, ◌^◌, ◌<◌, ◌≤◌, [], ◌∷◌, length, true, false, ◌||◌, AllPairs, Contains, Some, None, IfOk, Result};
ghost use Rattle.coflow_units.specs.declared.limits.TheConstants.{MAX_FLOWS, MAX_PORTS, MAX_SLOT};
ghost use Rattle.coflow_units.specs.PortWord.{word_of, FitsWord, shows_granted, shows_drawn, shows_reported};
ghost use Rattle.coflow_units.specs.PortWord.PortStage.{granted};
ghost use Rattle.port_board.specs.declared.view.Came.{Came};
ghost use Rattle.port_board.specs.declared.view.Grant.{Grant};
ghost use Rattle.port_board.specs.declared.view.Kind.TheVariants.{Agent};
ghost use Rattle.port_board.specs.declared.view.Step.TheVariants.{Rests, Loaded};
ghost use Rattle.port_board.specs.declared.view.View.{View};
ghost use Rattle.port_board.specs.Views.{grant, IsPoster, number_of, agents_out, is_unsettled, last_slot, last_at, LastIsListed, one_more, newcomer, sees, takes_in, looked, posted_too, settled_as, found_idle, found_other, drew, reported_as, Tried, IsLength, IsNewest, ShowsLast};
ghost use Rattle.port_board.specs.Rule.{first_poster, HoldsOnce};
ghost use Rattle.port_board.specs.Answers.{is_busy};
ghost use Rattle.port_board.specs.Tells.{loaded_now, after_miss, drawn_now, poster_step};
ghost use Rattle.port_board.specs.Agreement.{SharesNothing, EachOnce, EachPosted, EachMissedPosted, AnswersAgree, SentCameBack, SentByAgent, NobodyHad, Agrees};

use crate::answer::{Draw, Drawn, Settled};
use crate::plays::{
    Another, Counts, Draws, Hears, Learns, Loads, Notes, PosterLoads, Posts, PostsAgain,
    ReadsLength, ReadsSent, Reports, TakesBack, TakesIn,
};
use crate::seat::{AgentSeat, Poster};
use crate::view::{Place, Ports, View};
use coflow_units::{NoMemory, PortWord, PostStage};
use observed_table::ObservedTable;
use std::alloc::Global;
use std::marker::Model;

#[cfg(test)]
mod tests;

/// A word and a count word for each ingress port, which any number of threads share.
///
/// One poster grants flows at the ports. Each grant is drawn by at most one agent, which reports how many units it
/// sent, and the poster settles it.
#[derive(Drop)]
pub struct PortBoard {
    table: ObservedTable<(), View, u64, Ports, Global>,
    ports: u32,
}

impl Model for PortBoard {
    ghost use Rattle.coflow_units.specs.declared.limits.TheConstants.{MAX_PORTS};
    ghost use Rattle.std.specs.Prelude.{◌≡◌, ◌+◌, ◌≤◌};
    ghost use Rattle.port_board.specs.Views.{Board};

    ghost Value = { Board };

    ghost view = { λ b. record { id = b.table.table_id; ports = b.ports } };

    ghost invariant = { λ b. (b.table.table_id.words ≡ b.ports + b.ports) × (b.table.key ≡ b.ports) ×
        (b.table.table_id.slots ≡ 0) × (1 ≤ b.ports) × (b.ports ≤ MAX_PORTS + 1) };
}

impl PortBoard {
    /// A board of idle ports, from 1 to 1025 of them, and its poster.
    ///
    /// The error is want of memory.
    pub fn new(alloc: Global, ports: u32) -> Result<(PortBoard, Poster), NoMemory>
        requires ports { (1 ≤ ports) × (ports ≤ MAX_PORTS + 1) }
        ensures board { IfOk result (λ r. (r.0.ports ≡ ports) × (r.1.at ≡ r.0.id)) }
        ensures poster { IfOk result (λ r. r.1.view ≡ first_poster) }
    {
        let words = vec![in alloc; 0u64; 2 * ports as usize]?;
        let posted = vec![in alloc; false; ports as usize]?;
        let counts = vec![in alloc; 0u64; ports as usize]?;
        let key = u64::from(ports);
        let (table, place) = ObservedTable::of_words(alloc, &words, &key)?;
        let board = PortBoard { table, ports };
        let poster = Poster {
            place,
            agents: 0,
            posted,
            counts,
        };
        Ok((board, poster))
    }

    /// Makes the seat of one more agent. It has seen no post yet.
    ///
    /// Fewer than 2^32 - 1 agents may be out before.
    pub fn agent(&self, poster: &mut Poster) -> AgentSeat
        requires own { poster.old.at ≡ self.now.id }
        requires room { agents_out poster.old.view < 2 ^ 32 - 1 }
        ensures own { (poster.new.at ≡ poster.old.at) × (result.at ≡ poster.old.at) }
        ensures same { poster.new.id ≡ poster.old.id }
        ensures poster { poster.new.view ≡ one_more poster.old.view }
        ensures seat { result.view ≡ newcomer poster.old.view }
    {
        poster.agents += 1;
        let place = self.table.split_seat::<Another>(&mut poster.place);
        AgentSeat {
            place,
            ports: self.ports,
        }
    }

    /// Lets the seat see all posts made so far.
    pub fn show(&self, poster: &mut Poster, seat: &mut AgentSeat)
        requires own { (poster.old.at ≡ self.now.id) × (seat.old.at ≡ self.now.id) }
        ensures own { (poster.new.at ≡ poster.old.at) × (seat.new.at ≡ seat.old.at) }
        ensures same { (poster.new.id ≡ poster.old.id) × (seat.new.id ≡ seat.old.id) }
        ensures poster { poster.new.view ≡ poster.old.view }
        ensures seat { seat.new.view ≡ sees poster.old.view.posts seat.old.view }
    {
        let shared = &self.table;
        let note = shared.split_seat::<Notes>(&mut poster.place);
        shared.join_seat::<Hears>(&mut seat.place, note);
    }

    /// Takes back the seat of an agent that holds no drawn grant, with its lists of drawn and of missed grants.
    ///
    /// It looks at the word of port 0 alone, whatever stands there, so that the poster learns what its lists say of one
    /// another.
    pub fn back(&self, poster: &mut Poster, seat: AgentSeat)
        requires own { (poster.old.at ≡ self.now.id) × (seat.at ≡ self.now.id) }
        requires reported { seat.view.out ≡ [] }
        ensures own { poster.new.at ≡ poster.old.at }
        ensures same { poster.new.id ≡ poster.old.id }
        ensures lists { (word : ℕ) × (poster.new.view ≡ looked 0 word (takes_in poster.old.view seat.view)) }
        ensures handed { (c : Came) × Contains poster.new.view.back c × (c.done ≡ seat.view.done) ×
            (c.missed ≡ seat.view.missed) }
        ensures fewer { agents_out poster.new.view + 1 ≡ agents_out poster.old.view }
        ensures apart { AllPairs SharesNothing poster.new.view.back }
        ensures once { EachOnce poster.new.view }
        ensures posted { EachPosted poster.new.view }
        ensures missed { EachMissedPosted poster.new.view }
        ensures answers { AnswersAgree poster.new.view }
        ensures sent { SentCameBack poster.new.view }
        ensures reporter { SentByAgent poster.new.view }
    {
        let AgentSeat { place, ports: _ } = seat;
        let shared = &self.table;
        shared.join_seat::<TakesIn>(&mut poster.place, place);
        shared.load::<Learns>(&mut poster.place, 0);
        poster.agents -= 1;
    }

    /// Grants `length` units of a flow at a port, one in each slot from `slot` on.
    ///
    /// The port has no unsettled post, and the slot is above that of its last post, or above 0 where it has none. It is
    /// below 2^41, the flow is below 2^20, and the length is from 1 to 2^41.
    pub fn post(&self, poster: &mut Poster, port: u32, slot: u64, flow: u32, length: u64)
        requires own { poster.old.at ≡ self.now.id }
        requires port { port < self.now.ports }
        requires settled { is_unsettled port poster.old.view.posts poster.old.view.settled ≡ false }
        requires slot { (last_slot port poster.old.view.posts < slot) × (slot ≤ MAX_SLOT) }
        requires flow { flow < MAX_FLOWS }
        requires length { (1 ≤ length) × (length ≤ MAX_SLOT + 1) }
        ensures own { poster.new.at ≡ poster.old.at }
        ensures same { poster.new.id ≡ poster.old.id }
        ensures post { poster.new.view ≡ posted_too (grant port slot flow length) poster.old.view }
        ensures unsettled { is_unsettled port poster.new.view.posts poster.new.view.settled ≡ true }
    {
        let shared = &self.table;
        let word = PortWord {
            stage: PostStage::Granted,
            slot,
            flow,
        }
        .bits();
        let held = poster.counts[port as usize];
        poster.posted[port as usize] = true;
        poster.counts[port as usize] = 0;
        // A count word that holds the length already is not written again.
        if held == length {
            shared.store::<PostsAgain>(&mut poster.place, port as usize, word);
        } else {
            let count = count_place(self.ports, port);
            shared.store::<Counts>(&mut poster.place, count, length);
            shared.store::<Posts>(&mut poster.place, port as usize, word);
        }
    }

    /// Tries once to draw the grant of a port.
    ///
    /// A drawn grant is no earlier than each post of the port that the seat has seen. A seen post of its slot is the
    /// grant, with its flow and its length. The grant may also be newer than all posts that the seat was shown: that it
    /// was posted so is then known to the poster alone, and `back` tells it.
    ///
    /// Where nothing is drawn, the last post of the port that the seat has seen goes on its list of missed grants,
    /// unless it stands in one of its lists.
    pub fn draw(&self, seat: &mut AgentSeat, port: u32) -> Draw
        requires own { seat.old.at ≡ self.now.id }
        requires port { port < self.now.ports }
        ensures own { seat.new.at ≡ seat.old.at }
        ensures same { seat.new.id ≡ seat.old.id }
        ensures drawn { (g : Grant) → result ≡ Draw.Drawn g →
            (g.port ≡ port) × (seat.new.view ≡ drew self.now.ports (word_of granted g.slot g.flow) g seat.old.view) }
        ensures held { (g : Grant) → result ≡ Draw.Drawn g → Contains seat.new.view.out g }
        ensures length { (g : Grant) → result ≡ Draw.Drawn g → IsLength g.length }
        ensures newest { (g : Grant) → result ≡ Draw.Drawn g → IsNewest g seat.old.view.shown }
        ensures idle { (word : ℕ) → result ≡ Draw.Idle word →
            (shows_granted word ≡ false) × (seat.new.view ≡ found_idle port word seat.old.view) }
        ensures missed { (loaded found : ℕ) → result ≡ Draw.Missed loaded found →
            (shows_granted loaded ≡ true) × (found ≢ loaded) ×
            (seat.new.view ≡ found_other port loaded found seat.old.view) }
        ensures once { HoldsOnce seat.new.view }
        ensures idle_listed { (word : ℕ) → result ≡ Draw.Idle word → LastIsListed port seat.new.view }
        ensures missed_listed { (loaded found : ℕ) → result ≡ Draw.Missed loaded found →
            LastIsListed port seat.new.view }
    {
        match self.look(&mut seat.place, port) {
            Ok(loaded) => self.exchange(&mut seat.place, port, loaded),
            Err(word) => Draw::Idle(word),
        }
    }

    /// How many ports the board has, from 1 to 1025.
    pub fn ports(&self) -> u32
        ensures ports { result ≡ self.now.ports }
        ensures range { (1 ≤ result) × (result ≤ MAX_PORTS + 1) }
    {
        self.ports
    }

    // The first half of `draw`: the word, Ok where it is granted.
    fn look(&self, place: &mut Place, port: u32) -> Result<u64, u64>
        requires own { place.old.table_id ≡ self.now.id }
        requires port { port < self.now.ports }
        requires agent { (place.old.me.0.kind ≡ Agent (number_of place.old.me.0.kind)) × (place.old.me.0.step ≡ Rests) }
        ensures own { place.new.table_id ≡ place.old.table_id }
        ensures same { place.new.id ≡ place.old.id }
        ensures granted { (word : ℕ) → result ≡ Result.Ok word →
            (shows_granted word ≡ true) × (place.new.me ≡ (loaded_now port word place.old.me.0, place.old.me.1)) }
        ensures idle { (word : ℕ) → result ≡ Result.Err word →
            (shows_granted word ≡ false) × (place.new.me ≡ (found_idle port word place.old.me.0, place.old.me.1)) }
        ensures once { HoldsOnce place.new.me.0 }
    {
        let loaded = self.table.load::<Loads>(place, port as usize);
        if PostStage::Granted.is_shown(loaded) {
            Ok(loaded)
        } else {
            Err(loaded)
        }
    }

    // The second half of `draw`: the exchange, and the length where it won.
    fn exchange(&self, place: &mut Place, port: u32, loaded: u64) -> Draw
        requires own { place.old.table_id ≡ self.now.id }
        requires port { port < self.now.ports }
        requires agent { place.old.me.0.kind ≡ Agent (number_of place.old.me.0.kind) }
        requires loaded { (place.old.me.0.step ≡ Loaded port loaded) × (shows_granted loaded ≡ true) }
        ensures own { place.new.table_id ≡ place.old.table_id }
        ensures same { place.new.id ≡ place.old.id }
        ensures drawn { (g : Grant) → result ≡ Draw.Drawn g →
            (g.port ≡ port) × FitsWord g.slot g.flow × (loaded ≡ word_of granted g.slot g.flow) ×
            (place.new.me ≡ (drawn_now self.now.ports g loaded place.old.me.0, place.old.me.1)) }
        ensures length { (g : Grant) → result ≡ Draw.Drawn g → IsLength g.length }
        ensures newest { (g : Grant) → result ≡ Draw.Drawn g → IsNewest g place.old.me.0.shown }
        ensures missed { (before found : ℕ) → result ≡ Draw.Missed before found →
            (before ≡ loaded) × (found ≢ loaded) ×
            (place.new.me ≡ (after_miss port found place.old.me.0, place.old.me.1)) }
        ensures range { (g : Grant) → result ≡ Draw.Drawn g → g.port + g.port < place.old.table_id.words }
        ensures once { HoldsOnce place.new.me.0 }
        ensures tried { (word : ℕ) → result ≢ Draw.Idle word }
    {
        let shared = &self.table;
        let Some(post) = PortWord::of_bits(loaded) else {
            unreachable!();
        };
        let drawn = PortWord {
            stage: PostStage::Drawn,
            ..post
        }
        .bits();
        let found = shared.compare_exchange::<Draws>(place, port as usize, loaded, drawn);
        if found != loaded {
            return Draw::Missed { loaded, found };
        }
        let length = shared.load::<ReadsLength>(place, count_place(self.ports, port));
        Draw::Drawn(Drawn {
            port,
            slot: post.slot,
            flow: post.flow,
            length,
        })
    }

    /// Reports how many units of a drawn grant were sent, at most its length.
    pub fn report(&self, seat: &mut AgentSeat, drawn: Drawn, sent: u64)
        requires own { seat.old.at ≡ self.now.id }
        requires drawn { Contains seat.old.view.out drawn }
        requires sent { sent ≤ drawn.length }
        ensures own { seat.new.at ≡ seat.old.at }
        ensures same { seat.new.id ≡ seat.old.id }
        ensures report { seat.new.view ≡ reported_as drawn sent seat.old.view }
    {
        let Drawn {
            port,
            slot,
            flow,
            length,
        } = drawn;
        let shared = &self.table;
        if sent < length {
            let count = count_place(seat.ports, port);
            shared.store::<Counts>(&mut seat.place, count, sent);
        }
        let word = PortWord {
            stage: PostStage::Reported,
            slot,
            flow,
        }
        .bits();
        shared.store::<Reports>(&mut seat.place, port as usize, word);
    }

    /// Settles the unsettled post of a port: takes the grant back where nobody drew it, or reads the number that its
    /// agent reported.
    pub fn settle(&self, poster: &mut Poster, port: u32) -> Settled
        requires own { poster.old.at ≡ self.now.id }
        requires port { port < self.now.ports }
        requires unsettled { is_unsettled port poster.old.view.posts poster.old.view.settled ≡ true }
        ensures own { poster.new.at ≡ poster.old.at }
        ensures same { poster.new.id ≡ poster.old.id }
        ensures sent { (n : ℕ) → result ≡ Settled.Sent n →
            (word : ℕ) × (before : View) × Tried port poster.old.view before × (shows_reported word ≡ true) ×
            (poster.new.view ≡ looked (self.now.ports + port) n (settled_as port (Some n) (looked port word before))) ×
            ShowsLast port word poster.old.view.posts }
        ensures taken_back { result ≡ Settled.TakenBack →
            (word : ℕ) × (shows_granted word ≡ true) ×
            (poster.new.view ≡ looked port word (settled_as port None (looked port word poster.old.view))) }
        ensures busy { (word : ℕ) → result ≡ Settled.Busy word →
            (before : View) × Tried port poster.old.view before × (shows_drawn word ≡ true) ×
            (poster.new.view ≡ looked port word before) }
        ensures busy_is_posted { (word : ℕ) → result ≡ Settled.Busy word → ShowsLast port word poster.old.view.posts }
        ensures out { (word : ℕ) → result ≡ Settled.Busy word → 0 < agents_out poster.old.view }
        ensures nobody { (g : Grant) → result ≡ Settled.TakenBack → last_at port poster.old.view.posts ≡ Some g →
            NobodyHad g poster.old.view }
        ensures seats { (poster.new.view.back ≡ poster.old.view.back) × (poster.new.view.made ≡ poster.old.view.made) }
        ensures posts { poster.new.view.posts ≡ poster.old.view.posts }
        ensures answers { AnswersAgree poster.new.view }
        ensures returned { SentCameBack poster.new.view }
        ensures reporter { SentByAgent poster.new.view }
    {
        let answer = self.try_settle(&mut poster.place, port);
        poster.posted[port as usize] = answer.is_busy();
        poster.counts[port as usize] = answer.number_sent();
        answer
    }

    // Loads the word, and exchanges it where it is granted.
    fn try_settle(&self, place: &mut Place, port: u32) -> Settled
        requires own { place.old.table_id ≡ self.now.id }
        requires port { port < self.now.ports }
        requires poster { (IsPoster place.old.me.0.kind) × (place.old.me.0.step ≡ Rests) × (place.old.me.1 ≡ []) }
        requires unsettled { is_unsettled port place.old.me.0.posts place.old.me.0.settled ≡ true }
        ensures own { (place.new.table_id ≡ place.old.table_id) × (place.new.me.1 ≡ []) }
        ensures same { place.new.id ≡ place.old.id }
        ensures range { port + port < place.old.table_id.words }
        ensures sent { (n : ℕ) → result ≡ Settled.Sent n →
            (word : ℕ) × (before : View) × Tried port place.old.me.0 before × (shows_reported word ≡ true) ×
            (place.new.me.0 ≡ looked (self.now.ports + port) n (settled_as port (Some n) (looked port word before))) ×
            ShowsLast port word place.old.me.0.posts }
        ensures taken_back { result ≡ Settled.TakenBack →
            (word : ℕ) × (shows_granted word ≡ true) ×
            (place.new.me.0 ≡ looked port word (settled_as port None (looked port word place.old.me.0))) }
        ensures busy { (word : ℕ) → result ≡ Settled.Busy word →
            (before : View) × Tried port place.old.me.0 before × (shows_drawn word ≡ true) ×
            (place.new.me.0 ≡ looked port word before) }
        ensures busy_is_posted { (word : ℕ) → result ≡ Settled.Busy word → ShowsLast port word place.old.me.0.posts }
        ensures out { (word : ℕ) → result ≡ Settled.Busy word → length place.old.me.0.back < place.old.me.0.made }
        ensures nobody { (g : Grant) → result ≡ Settled.TakenBack → last_at port place.old.me.0.posts ≡ Some g →
            NobodyHad g place.old.me.0 }
        ensures agrees { Agrees place.new.me.0 }
    {
        let shared = &self.table;
        let loaded = shared.load::<PosterLoads>(place, port as usize);
        if !PostStage::Granted.is_shown(loaded) {
            return self.conclude(place, port, loaded);
        }
        let found = shared.compare_exchange::<TakesBack>(place, port as usize, loaded, 0);
        if found == loaded {
            return Settled::TakenBack;
        }
        self.conclude(place, port, found)
    }

    // Settles by a word that is drawn or reported.
    fn conclude(&self, place: &mut Place, port: u32, word: u64) -> Settled
        requires own { place.old.table_id ≡ self.now.id }
        requires port { port < self.now.ports }
        requires poster { (IsPoster place.old.me.0.kind) × (place.old.me.0.step ≡ poster_step port word) }
        requires unsettled { is_unsettled port place.old.me.0.posts place.old.me.0.settled ≡ true }
        requires word { (shows_granted word ≡ false) ×
            ((shows_granted word || (shows_drawn word || shows_reported word)) ≡ true) }
        requires agrees { Agrees place.old.me.0 }
        ensures own { (place.new.table_id ≡ place.old.table_id) × (place.new.me.1 ≡ place.old.me.1) }
        ensures same { place.new.id ≡ place.old.id }
        ensures sent { (n : ℕ) → result ≡ Settled.Sent n →
            (shows_reported word ≡ true) ×
            (place.new.me.0 ≡ looked (self.now.ports + port) n (settled_as port (Some n) place.old.me.0)) }
        ensures busy { (drawn : ℕ) → result ≡ Settled.Busy drawn →
            (drawn ≡ word) × (shows_drawn word ≡ true) × (place.new.me ≡ place.old.me) }
        ensures taken_back { result ≢ Settled.TakenBack }
        ensures agrees { Agrees place.new.me.0 }
    {
        if PostStage::Drawn.is_shown(word) {
            return Settled::Busy(word);
        }
        let shared = &self.table;
        Settled::Sent(shared.load::<ReadsSent>(place, count_place(self.ports, port)))
    }
}

// The place of a port's count word, behind the words of all ports.
fn count_place(ports: u32, port: u32) -> usize
    ensures { result ≡ ports + port }
{
    ports as usize + port as usize
}

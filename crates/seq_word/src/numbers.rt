//! The two words, with all calls.
#![tactic(auto)]

ghost use Rattle.std.specs.Prelude.{◌≡◌, ◌≢◌, ℕ, ◌+◌, ◌-◌, ◌*◌, ◌^◌, ◌<◌, ◌≤◌, max, [], ◌∷◌, ◌++◌, All, AllPairs, IfOk, IfErr, OnErr};
ghost use Rattle.mesh_base.specs.Pairs.{word_of};
ghost use Rattle.seq_word.specs.Word.{seq_of, IsWord};
ghost use Rattle.seq_word.specs.declared.looks.Look.TheVariants as saw;
ghost use Rattle.seq_word.specs.Rule.{IsEndOf, IsWithin, times, once_below, passed_over};
ghost use Rattle.seq_word.specs.Seen.{fresh, IsAbove, IsEndAbove, IsPrefix, Finds, IsFoundBy, HasCause, SameDrawn, AfterLost, last_word, miss_of, split_from, went_to};

use crate::closed::Closed;
use crate::drawer::Drawer;
use crate::dry::Dry;
use crate::keeper::Keeper;
use crate::miss::{DrawStop, Miss};
use crate::rule::{
    Advances, Bounds, COUNTER, Counts, Draws, Informs, Lifts, MARK, Opening, Opens, Promises,
    Publishes, Recalls, Seats, SeesMark, SeesNext, Shows, Tells, Watches, Words,
};
use crate::watcher::Watcher;
use crate::word::{BLOCK, SPENT_SEQ, WORDS_PER_IV, pair_of};
use atomic_table::Table;
use mesh_base::pair::Pair;
use std::alloc::{AllocError, Global};
use std::marker::Model;
use std::snapshot::Snapshot;
use std::sync::Wait;

/// The counter, whose word is the next to be drawn, and the mark, a word that no draw reaches. Threads share them by `&`, and
/// each steps with a seat of its own. Words are those of `crate::word`.
///
/// Between any two atomic steps the counter is at most the mark, and the mark is the keeper's. The mark is at most 256 above the counter, but
/// between the two steps of an advance; and where it is 256 above, some seat owes a draw. Each word from the opening on and below the counter was
/// drawn once, at one seat, or was passed over once, by an advance.
#[derive(Drop)]
pub struct Numbers {
    table: Words,
}

impl Model for Numbers {
    ghost use Rattle.std.specs.Prelude.{◌≡◌};
    ghost use Rattle.seq_word.specs.Seen.{NumbersView};

    ghost Value = { NumbersView };

    ghost view = { λ n. record { which = n.table.shared.table_id; opened = n.table.shared.key.first } };

    ghost invariant = { λ n. (n.table.shared.table_id.words ≡ 2) × (n.table.shared.table_id.slots ≡ 0) };
}

/// What a look at both words found.
struct Found {
    mark: u64,
    next: u64,
}

impl Numbers {
    /// Opens the counter and the mark at `first`, a word, with the keeper's seat and a first seat that draws. So the first draw finds the
    /// counter at the mark. An error says that memory ran out.
    pub fn start(alloc: Global, first: u64) -> Result<(Numbers, Keeper, Drawer), AllocError>
        requires word { IsWord first }

        ensures opened { IfOk result (λ t. t.0.opened ≡ first) }
        ensures keeper { IfOk result (λ t. t.1 ≡ record { which = t.0.which; mark = first; advances = [] }) }
        ensures drawer { IfOk result (λ t. t.2 ≡ fresh t.0.which [] 1024) }
    {
        let (table, mut seat) = Table::of_words(alloc, &[first, first], &Opening { first })?;
        let drawer = Drawer {
            seat: table.shared.split_seat::<Opens>(&mut seat),
        };
        Ok((Numbers { table }, Keeper { seat }, drawer))
    }

    /// Looks at the mark, and then at the counter.
    fn look(&self, d: &mut Drawer) -> Found
        requires made { d.old.which ≡ self.now.which }

        ensures word { IsWord result.next }
        ensures looks { d.new.looks ≡ d.old.looks ++ saw.Mark result.mark ∷ saw.Counter result.next ∷ [] }
        ensures above { IsAbove d.old result.next }
        ensures unchanged { SameDrawn d.old d.new }
        ensures owes { d.new.owes ≤ result.next + 1 }
        ensures paid { result.mark ≤ result.next → d.new.owes ≡ 0 }
        ensures spent { 2 ^ 24 ≤ seq_of result.next → d.new.owes ≡ 0 }
    {
        let mark = self.table.shared.load::<SeesMark>(&mut d.seat, MARK);
        let next = self.table.shared.load::<SeesNext>(&mut d.seat, COUNTER);
        Found { mark, next }
    }

    /// Draws the next number, if no other seat comes between: a load of the mark, a load of the counter, and a compare-exchange on
    /// the counter. The miss tells the words that these found; where two causes hold, it is the first in the order of `Miss`.
    /// It waits for no other thread.
    pub fn try_draw(&self, d: &mut Drawer) -> Result<Pair, Miss>
        requires made { d.old.which ≡ self.now.which }

        ensures looks { IsPrefix d.old.looks d.new.looks }
        ensures frame { (d.new.which ≡ d.old.which) × (d.new.noted ≡ d.old.noted) × (d.new.known ≡ d.old.known)
            × (d.new.informed ≡ d.old.informed) × (d.new.parts ≡ d.old.parts) }

        ensures drawn { IfOk result (λ p. d.new.drawn ≡ d.old.drawn ++ word_of p ∷ []) }
        ensures raised { IfOk result (λ p. d.new.raised ≡ d.old.raised ++ (word_of p + 1) ∷ []) }
        ensures above { IfOk result (λ p. IsAbove d.old (word_of p)) }
        ensures unspent { IfOk result (λ p. p.seq < 2 ^ 24) }
        ensures found { IfOk result (λ p. Finds p d.old d.new) }

        ensures err { OnErr result (SameDrawn d.old d.new) }
        ensures cause { IfErr result (λ e. HasCause e d.old d.new) }
        ensures end { IfErr result (IsEndAbove d.old) }
        // Whatever the answer: the counter has passed each mark that was reached when this seat had it raised.
        ensures owes { d.new.owes ≡ 0 }
    {
        let Found { mark, next } = self.look(d);
        let pair = pair_of(next);
        if pair.seq == SPENT_SEQ {
            return Err(Miss::Spent { iv: pair.iv });
        }
        if next >= mark {
            let by = Snapshot::of(&d.seat);
            return Err(Miss::Dry(Dry { next, mark, by }));
        }
        let words = &self.table.shared;
        let found = words.compare_exchange::<Draws>(&mut d.seat, COUNTER, next, next + 1);
        if found != next {
            return Err(Miss::Lost {
                expected: next,
                found,
            });
        }
        Ok(pair)
    }

    /// Draws the next number. It tries again where another seat came between, and for no other cause.
    pub fn draw(&self, rt: &impl Wait, d: &mut Drawer) -> Result<Pair, DrawStop>
        requires made { d.old.which ≡ self.now.which }

        ensures looks { IsPrefix d.old.looks d.new.looks }
        ensures frame { (d.new.which ≡ d.old.which) × (d.new.noted ≡ d.old.noted) × (d.new.known ≡ d.old.known)
            × (d.new.informed ≡ d.old.informed) × (d.new.parts ≡ d.old.parts) }

        ensures drawn { IfOk result (λ p. d.new.drawn ≡ d.old.drawn ++ word_of p ∷ []) }
        ensures raised { IfOk result (λ p. d.new.raised ≡ d.old.raised ++ (word_of p + 1) ∷ []) }
        ensures above { IfOk result (λ p. IsAbove d.old (word_of p)) }
        ensures unspent { IfOk result (λ p. p.seq < 2 ^ 24) }
        ensures found { IfOk result (λ p. AfterLost (Finds p) d.old d.new) }

        ensures err { OnErr result (SameDrawn d.old d.new) }
        ensures cause { IfErr result (λ e. AfterLost (HasCause (miss_of e)) d.old d.new) }
        ensures end { IfErr result (λ e. IsEndAbove d.old (miss_of e)) }
        ensures owes { d.new.owes ≡ 0 }
    {
        for _ in rt.forever() {
            match self.try_draw(d) {
                Ok(pair) => return Ok(pair),
                Err(Miss::Spent { iv }) => return Err(DrawStop::Spent { iv }),
                Err(Miss::Dry(dry)) => return Err(DrawStop::Dry(dry)),
                Err(Miss::Lost { .. }) => {}
            }
        }
        unreachable!()
    }

    /// Moves the mark up by 256, where a draw of this seat found the counter at it: so the mark is at most 256 above the counter. Publish a mark
    /// that is in flash already, since numbers below it are drawn from now on. The seat owes then that the counter passes the mark that was reached;
    /// its next try to draw pays that, whatever it answers. Where a seat owes, `close` tells that the mark is at most 256 above the counter (`near`), and
    /// not that it is less (`paid`).
    ///
    /// It asks that the words are those of the draw (`made`), that the seat has looked at neither since (`found`), that no refill came between (`at`),
    /// and that the new mark is a word (`word`).
    pub fn publish(&self, k: &mut Keeper, d: &mut Drawer, dry: Dry)
        requires made { k.old.which ≡ self.now.which }
        requires drawer_made { d.old.which ≡ self.now.which }
        requires found { IsFoundBy dry d.old }
        requires at { dry.mark ≡ k.old.mark }
        requires word { IsWord (dry.mark + 256) }

        ensures value { k.new ≡ record k.old { mark = k.old.mark + 256 } }
        ensures owes { d.new ≡ record d.old { owes = max d.old.owes (dry.next + 1) } }
    {
        let mark = dry.mark();
        let words = &self.table.shared;
        let promise = words.split_seat::<Promises>(&mut d.seat);
        words.join_seat::<Seats>(&mut k.seat, promise);
        words.store::<Publishes>(&mut k.seat, MARK, mark + BLOCK);
        let told = words.split_seat::<Tells>(&mut k.seat);
        words.join_seat::<Seats>(&mut d.seat, told);
    }

    /// Moves the mark up to SEQ 0 of the IV Index `iv`, and then the counter, unless it is there or above. What it passes over is never drawn.
    /// Between the two steps the mark may be far above the counter. As with `publish` the mark is to be in flash already.
    pub fn advance(&self, k: &mut Keeper, iv: u32)
        requires made { k.old.which ≡ self.now.which }
        requires up { k.old.mark ≤ iv * 2 ^ 25 }

        ensures mark { k.new.mark ≡ iv * 2 ^ 25 }
        ensures noted { (found : ℕ) × (k.new.advances ≡ k.old.advances ++ (found, iv * 2 ^ 25) ∷ []) }
        ensures frame { k.new.which ≡ k.old.which }
    {
        let to = u64::from(iv) * WORDS_PER_IV;
        let words = &self.table.shared;
        words.store::<Lifts>(&mut k.seat, MARK, to);
        words.fetch_max::<Advances>(&mut k.seat, COUNTER, to);
    }

    /// Tells a seat that draws where the keeper has moved the counter to so far: what it draws from now on isn't below that (`above` of `draw`), and
    /// the keeper's mark is above what it has drawn, or noted, and not below where it saw the counter, or was told that it is (`below`). It takes no
    /// memory, and changes neither word: all that runs is five loads of the counter, whose words nothing uses.
    pub fn inform(&self, k: &mut Keeper, d: &mut Drawer)
        requires made { k.old.which ≡ self.now.which }
        requires drawer_made { d.old.which ≡ self.now.which }

        ensures keeper { k.new ≡ k.old }
        ensures informed { d.new ≡ record d.old { informed = d.old.informed ++ went_to k.old.advances } }
        ensures below { IsAbove d.old k.old.mark }
    {
        let words = &self.table.shared;
        let shown = words.split_seat::<Shows>(&mut d.seat);
        words.join_seat::<Seats>(&mut k.seat, shown);
        let _ = words.load::<Bounds>(&mut k.seat, COUNTER);
        let seat = words.split_seat::<Informs>(&mut k.seat);
        words.join_seat::<Seats>(&mut d.seat, seat);
    }

    /// A seat that watches the counter, and found nothing yet. It takes no memory.
    pub fn watcher(&self, d: &mut Drawer) -> Watcher
        requires made { d.old.which ≡ self.now.which }

        ensures value { result ≡ record { which = self.now.which; counters = [] } }
        ensures drawer { d.new ≡ d.old }
    {
        Watcher {
            seat: self.table.shared.split_seat::<Watches>(&mut d.seat),
        }
    }

    /// Looks at the counter, and tells a seat that draws where it is (`informed`): what it draws from now on isn't below that (`above` of `draw`), and
    /// what it has drawn, or noted, is (`above`). Nor is it below where the counter was before (`rise`). It takes no memory, and changes neither word:
    /// all that runs is five loads of the counter, whose words nothing uses.
    pub fn watch(&self, w: &mut Watcher, d: &mut Drawer)
        requires made { w.old.which ≡ self.now.which }
        requires drawer_made { d.old.which ≡ self.now.which }

        ensures watcher { w.new
            ≡ record w.old { counters = w.old.counters ++ last_word w.new.counters ∷ [] } }
        ensures rise { All (λ x. x ≤ last_word w.new.counters) w.old.counters }
        ensures above { IsAbove d.old (last_word w.new.counters) }
        ensures informed { d.new ≡ record d.old { informed = d.old.informed ++ w.new.counters } }
    {
        let words = &self.table.shared;
        let shown = words.split_seat::<Shows>(&mut d.seat);
        words.join_seat::<Seats>(&mut w.seat, shown);
        let _ = words.load::<Counts>(&mut w.seat, COUNTER);
        let counters = words.split_seat::<Recalls>(&mut w.seat);
        words.join_seat::<Seats>(&mut d.seat, counters);
    }

    /// A new seat. What it draws is above all that this one has drawn so far, and not below what this one has seen. It takes one of this one's
    /// parts. Where this one has one part alone, that part is lost, and `close` can't tell any more that all seats were joined.
    pub fn split(&self, d: &mut Drawer) -> Drawer
        requires made { d.old.which ≡ self.now.which }

        ensures value { result ≡ split_from d.old }
        ensures frame { d.new ≡ record d.old { parts = d.old.parts - 1 } }
    {
        Drawer {
            seat: self.table.shared.split_seat::<Seats>(&mut d.seat),
        }
    }

    /// Takes another seat in, with all that was drawn and seen there.
    pub fn join(&self, d: &mut Drawer, other: Drawer)
        requires made { d.old.which ≡ self.now.which }
        requires other_made { other.which ≡ self.now.which }

        ensures which { d.new.which ≡ d.old.which }
        ensures drawn { d.new.drawn ≡ d.old.drawn ++ other.drawn }
        ensures raised { d.new.raised ≡ d.old.raised ++ other.raised }
        ensures noted { d.new.noted ≡ d.old.noted ++ other.noted }
        ensures looks { d.new.looks ≡ d.old.looks ++ other.looks }
        ensures known { d.new.known ≡ d.old.known ++ other.known }
        ensures informed { d.new.informed ≡ d.old.informed ++ other.informed }
        ensures parts { d.new.parts ≡ d.old.parts + other.parts }
        ensures owes { d.new.owes ≡ max d.old.owes other.owes }
    {
        let Drawer { seat } = other;
        self.table.shared.join_seat::<Seats>(&mut d.seat, seat);
    }

    /// Ends the words, with the keeper's seat and one that draws. What was drawn at a seat that isn't joined to this one is not told.
    pub fn close(self, k: Keeper, d: Drawer) -> Closed
        requires keeper_made { k.which ≡ self.which }
        requires drawer_made { d.which ≡ self.which }

        ensures drawn { result.drawn ≡ d.drawn }
        ensures looks { result.looks ≡ d.looks }
        ensures advances { result.advances ≡ k.advances }

        ensures words { IsWord result.next × IsWord result.mark }
        ensures order { (self.opened ≤ result.next) × (result.next ≤ result.mark) }
        ensures mark { result.mark ≡ k.mark }
        // So at most 256 of the numbers below the mark neither were drawn nor passed over.
        ensures near { result.mark ≤ result.next + 256 }
        // And where all seats were joined, and none owes a draw, fewer: so no block was published behind which nothing was drawn or passed over.
        ensures paid { d.parts ≡ 1024 → d.owes ≡ 0 → result.mark < result.next + 256 }
        ensures advanced { All (λ a. a.1 ≤ result.next) k.advances }
        ensures firsts { All (λ a. seq_of a.1 ≡ 0) k.advances }

        ensures since { All (λ x. self.opened ≤ x) d.drawn }
        ensures below { All (λ x. x < result.next) d.drawn }
        ensures once { (x : ℕ) → times x d.drawn ≤ 1 }
        ensures distinct { AllPairs (λ x y. x ≢ y) d.drawn }
        ensures seen { All (IsWithin result.next result.mark) d.looks }
        // Where all seats were joined, each word from the opening on and below the next was drawn or passed over, once, and no
        // other word was. So this says which word the next is.
        ensures all { d.parts ≡ 1024 → (x : ℕ)
            → times x d.drawn + passed_over x k.advances + once_below x self.opened ≡ once_below x result.next }
        // And the counter was seen at the end of an IV Index only where it was opened there, or the last number under that was drawn.
        ensures ends { d.parts ≡ 1024 → All (IsEndOf self.opened d.drawn) d.looks }
    {
        let Numbers { table } = self;
        let Keeper { seat: keeper } = k;
        let Drawer { mut seat } = d;
        table.shared.join_seat::<Seats>(&mut seat, keeper);
        let last = Snapshot::of(&seat);
        let words = table.close_with(seat);
        let next = words.word(COUNTER);
        let mark = words.word(MARK);
        words.free();
        Closed { next, mark, last }
    }
}

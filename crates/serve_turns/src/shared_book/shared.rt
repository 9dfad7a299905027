//! The shared book and its seats.
ghost use Rattle.std.specs.Prelude.{◌≡◌, ◌+◌, ◌<◌, ◌≤◌, ◌^◌, true, None, [], ◌∷◌, IfOk};
ghost use Rattle.serve_turns.specs.declared.shared_book.view.Stage.TheVariants.{Idle, Waiting, Called};
ghost use Rattle.serve_turns.specs.shared_book.Turns.{first_view, staged, fronted, drew, made_with, with_made, rejoined, HasBook, Works};
ghost use Rattle.serve_turns.specs.shared_book.Seats.{is_opened, Applied, Closes, EndsWithOwn, IsHistory};

use crate::shared_book::bells::{Bells, hung, next_look};
use crate::shared_book::book::Book;
use crate::shared_book::turns::{
    AdvanceFront, DrawNumber, DrawTicket, LookForTurn, PassTurn, PeekAtFront, ShareView, TakeBook,
    Turns,
};
use crate::shared_book::view::{Slot, View};
use atomic_table::{Seat, Table, TableRule};
use std::alloc::{AllocError, Global};
use std::snapshot::Snapshot;
use std::sync::Wait;
use std::thread;

/// The place of an event in the history, from 0.
#[derive(Clone, Copy)]
pub struct Receipt {
    pub place: u64,
}

/// A numbered seat that is in no turn. It has no bytes.
#[derive(Drop)]
pub struct TurnSeat<S, B, E, R> {
    pub seat: Seat<S, View<B, E, R>>,
    ghost empty: { seat.me.1 ≡ [] },
    ghost idle: { seat.me.0.stage ≡ Idle },
    ghost numbered: { seat.me.0.numbered ≡ true },
    ghost opened: { is_opened seat.me.0.opening ≡ true },
    ghost undrawn: { seat.me.0.drawn ≡ None },
    ghost ends: { EndsWithOwn seat.me.0 },
}

/// A seat at a book. A call that takes a book and a seat needs a seat of that book.
pub type BookSeat<B> = TurnSeat<
    Slot<B, <B as Book>::Event, <B as Book>::Reply>,
    B,
    <B as Book>::Event,
    <B as Book>::Reply,
>;

/// A table of four words and one slot, and the bells by which its turns are called.
#[derive(Drop)]
pub struct TurnTable<S, V, K, P: TableRule<S, V, K>> {
    pub table: Table<S, V, K, P, Global>,
    pub bells: Bells,
    ghost sizes: { (table.shared.table_id.words ≡ 4) × (table.shared.table_id.slots ≡ 1) },
}

// The slot's type is named, because the check finds no proof that a struct may cross threads whose slot's type it has
// to work out.
/// A book that several threads change in turn, each by a seat of its own.
pub type SharedBook<B> = TurnTable<
    Slot<B, <B as Book>::Event, <B as Book>::Reply>,
    View<B, <B as Book>::Event, <B as Book>::Reply>,
    Snapshot<B>,
    Turns<B>,
>;

impl<B: Book + Drop> SharedBook<B> {
    ghost use Rattle.serve_turns.specs.shared_book.Words.{view_of, IsSeatOf};

    /// A shared book whose opening state is this one, and its first seat, which has the number 0.
    pub fn new(alloc: Global, book: B) -> Result<(SharedBook<B>, BookSeat<B>), AllocError>
        ensures { IfOk result (λ r. IsSeatOf r.0 r.1 × (view_of r.1 ≡ first_view book)) }
    {
        let opening = Snapshot::of(&book);
        let bells = hung(alloc)?;
        let mut slots = Vec::new(alloc);
        slots.push(Slot::Opening(book))?;
        match Table::new(alloc, &[0, 0, 0, 1], slots, &opening) {
            Ok((table, seat)) => Ok((TurnTable { table, bells }, TurnSeat { seat })),
            Err(_) => Err(AllocError),
        }
    }
}

impl<B: Book> SharedBook<B> {
    ghost use Rattle.serve_turns.specs.shared_book.Words.{view_of, IsSameSeat, IsSeatAt, IsSeatOf};

    // Draws a ticket. Where all are drawn it waits for ever.
    fn draw<W: Wait>(
        &self,
        rt: &W,
        seat: &mut Seat<Slot<B, B::Event, B::Reply>, View<B, B::Event, B::Reply>>,
    ) -> u64
        requires own { seat.old.table_id ≡ self.now.table.shared.table_id }
        requires idle { seat.old.me.0.stage ≡ Idle }
        ensures same { (seat.new.table_id ≡ seat.old.table_id) × (seat.new.id ≡ seat.old.id) }
        ensures drawn { seat.new.me ≡ (staged (Waiting result) seat.old.me.0, seat.old.me.1) }
        ensures raised { result + 1 < 2 ^ 64 }
    {
        for _ in rt.forever() {
            let next = self.table.shared.peek(0);
            // Compared and exchanged, not added to: after its last ticket the word must not begin anew.
            if next < u64::MAX {
                let found = self
                    .table
                    .shared
                    .compare_exchange::<DrawTicket>(seat, 0, next, next + 1);
                if found == next {
                    return next;
                }
            }
            thread::yield_now();
        }
        unreachable!()
    }

    // Waits until the ticket is served. It looks a few times, and then sleeps until the ticket's bell is rung. The bell is heard before
    // each look, so that one that is rung behind the look ends the sleep.
    fn wait<W: Wait>(
        &self,
        rt: &W,
        seat: &mut Seat<Slot<B, B::Event, B::Reply>, View<B, B::Event, B::Reply>>,
        ticket: u64,
    )
        requires own { seat.old.table_id ≡ self.now.table.shared.table_id }
        requires waiting { seat.old.me.0.stage ≡ Waiting ticket }
        ensures same { (seat.new.table_id ≡ seat.old.table_id) × (seat.new.id ≡ seat.old.id) }
        ensures called { seat.new.me ≡ (staged (Called ticket) seat.old.me.0, seat.old.me.1) }
    {
        let mut looks = 0;
        for _ in rt.forever() {
            let heard = self.bells.heard(ticket);
            if self.table.shared.load::<LookForTurn>(seat, 1) == ticket {
                return;
            }
            self.bells.rest(rt, ticket, heard, looks);
            looks = next_look(looks);
        }
        unreachable!()
    }

    // Gives the book that is out the event, and puts it back with a note of the event and the reply.
    fn work(
        &self,
        seat: &mut Seat<Slot<B, B::Event, B::Reply>, View<B, B::Event, B::Reply>>,
        event: B::Event,
    ) -> B::Reply
        requires own { seat.old.table_id ≡ self.now.table.shared.table_id }
        requires book { (book : B) × (slot : _) × (seat.old.me.1 ≡ (0, slot) ∷ []) × HasBook book slot }
        ensures same { (seat.new.table_id ≡ seat.old.table_id) × (seat.new.id ≡ seat.old.id) }
        ensures works { Works B.steps seat.old.me event result seat.new.me }
    {
        let mut book = self.table.shared.exchange(seat, 0, Slot::Away).into_book();
        let asked = Snapshot::of(&event);
        let reply = book.step(event);
        let told = Snapshot::of(&reply);
        self.table
            .shared
            .exchange(seat, 0, Slot::After(book, asked, told))
            .let_go();
        reply
    }

    /// Waits for the seat's turn and gives the book one event. The reply is the one at the receipt's place
    /// of the history. It takes no memory of its own. Where all tickets are drawn it waits for ever.
    pub fn apply<W: Wait>(
        &self,
        rt: &W,
        seat: &mut BookSeat<B>,
        event: B::Event,
    ) -> (B::Reply, Receipt)
        requires own { IsSeatOf self.now seat.old }
        ensures same { IsSameSeat seat.old seat.new }
        ensures applied { Applied B.steps (view_of seat.old) event result.0 result.1.place (view_of seat.new) }
    {
        let mine = &mut seat.seat;
        // A ticket lock: that one seat alone has the book follows from the number that the seat's view holds.
        let ticket = self.draw(rt, mine);
        self.wait(rt, mine, ticket);
        let place = self.table.shared.load::<TakeBook>(mine, 2);
        let reply = self.work(mine, event);
        // Before the turn is passed, so that whoever comes next finds this entry in the history.
        self.table.shared.store::<AdvanceFront>(mine, 2, place + 1);
        self.table.shared.store::<PassTurn>(mine, 1, ticket + 1);
        self.bells.ring(ticket + 1);
        (reply, Receipt { place })
    }

    /// A count of entries that the history has, not below the one that the seat has seen. It becomes the
    /// seat's. It neither waits nor takes memory. What the seat knows is the book's history then, up to the seat's last turn.
    pub fn peek(&self, seat: &mut BookSeat<B>) -> u64
        requires own { IsSeatOf self.now seat.old }
        ensures same { IsSameSeat seat.old seat.new }
        ensures front { view_of seat.new ≡ fronted result (view_of seat.old) }
        ensures seen { (view_of seat.old).front ≤ result }
        ensures history { IsHistory B.steps (view_of seat.new) }
    {
        self.table.shared.load::<PeekAtFront>(&mut seat.seat, 2)
    }

    // Draws a number for a seat that is to be made. Where all are drawn it waits for ever.
    fn draw_number<W: Wait>(
        &self,
        rt: &W,
        seat: &mut Seat<Slot<B, B::Event, B::Reply>, View<B, B::Event, B::Reply>>,
    ) -> u64
        requires own { seat.old.table_id ≡ self.now.table.shared.table_id }
        requires idle { seat.old.me.0.stage ≡ Idle }
        requires numbered { seat.old.me.0.numbered ≡ true }
        requires undrawn { seat.old.me.0.drawn ≡ None }
        ensures same { (seat.new.table_id ≡ seat.old.table_id) × (seat.new.id ≡ seat.old.id) }
        ensures drawn { seat.new.me ≡ (drew result seat.old.me.0, seat.old.me.1) }
    {
        for _ in rt.forever() {
            let next = self.table.shared.peek(3);
            // Compared and exchanged, not added to: after its last number the word must not begin anew.
            if next < u64::MAX {
                let found = self
                    .table
                    .shared
                    .compare_exchange::<DrawNumber>(seat, 3, next, next + 1);
                if found == next {
                    return next;
                }
            }
            thread::yield_now();
        }
        unreachable!()
    }

    /// A new seat, which has seen what this one has and has no entries. It takes no memory. Where all
    /// numbers are drawn it waits for ever.
    pub fn seat<W: Wait>(&self, rt: &W, from: &mut BookSeat<B>) -> BookSeat<B>
        requires own { IsSeatOf self.now from.old }
        ensures same { IsSeatAt from.old from.new }
        ensures made { view_of from.new ≡ with_made (view_of result).number (view_of from.old) }
        ensures own { IsSeatOf self.now result }
        ensures newcomer { view_of result ≡ made_with (view_of result).number (view_of from.old) }
    {
        let mine = &mut from.seat;
        // By the old seat, so that what it has made is known of it, and a seat that is lost is missed in the end.
        self.draw_number(rt, mine);
        let seat = self.table.shared.split_seat::<ShareView>(mine);
        TurnSeat { seat }
    }

    /// Takes in what another seat has seen, which ends there: its history is kept beside this seat's own, and its number and its own
    /// entries stand with those of the seats that have ended.
    pub fn rejoin(&self, seat: &mut BookSeat<B>, ended: BookSeat<B>)
        requires own { IsSeatOf self.now seat.old × IsSeatOf self.now ended }
        ensures same { IsSeatAt seat.old seat.new }
        ensures rejoined { view_of seat.new ≡ rejoined (view_of seat.old) (view_of ended) }
    {
        let TurnSeat { seat: ended } = ended;
        self.table
            .shared
            .join_seat::<ShareView>(&mut seat.seat, ended);
    }

    /// Takes the book out at the seat's turn, which is passed to nobody.
    pub fn close<W: Wait>(self, rt: &W, seat: BookSeat<B>) -> B
        requires own { IsSeatOf self seat }
        ensures closes { Closes B.steps (view_of seat) result }
    {
        let TurnSeat { seat: mut mine } = seat;
        let ticket = self.draw(rt, &mut mine);
        self.wait(rt, &mut mine, ticket);
        let TurnTable { table, bells: _ } = self;
        let mut closed = table.close_with(mine);
        let slot = closed.take(0);
        closed.free();
        slot.into_book()
    }
}

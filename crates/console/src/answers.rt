// The calls: each writes its letter and the numbers of its answer as a line.
ghost use Rattle.std.specs.Prelude.{◌≡◌, replicate};
ghost use Rattle.arrayvec.specs.ArrayVec.{array_vec_len};
ghost use Rattle.text.specs.declared.calls.BookNumber.TheVariants.{First};
ghost use Rattle.text.specs.declared.calls.TheConstants.{BUFFER};
ghost use Rattle.book.specs.Fresh.{fresh_book};

use crate::session::Session;
use arrayvec::{ArrayString, ArrayVec};
use book::{Book, Next};
use carry::carry_over;
use entries::{Raw, Refusal, refusal_of};
use loads::load;
use pages::page;
use queries::{ContributionReply, StatementReply, contribution_query, statement, year_totals};
use rules::{PostingAnswer, PostingReply};
use runs::{close_run, open_run, step};
use saves::save;
use std::fmt::Write;
use std::io;
use text::{
    BUFFER, BookNumber, Call, Change, PLACES, Places, Room, SHOWN, Spaced, Span, Unclear,
    understood,
};

// The most entries that are listed for a carry-over.
pub const LISTED: usize = 64;

// The longest answer: a letter, numbers of at most three digits with a space before each, and the end of the line.
const LONGEST_ANSWER: usize = 1 + 4 * SHOWN + 1;

// The books that lines are calls on, the entries for a carry-over, and the buffer.
#[derive(Drop)]
pub struct Console<'a, P: Print> {
    // Where answers go.
    pub rt: &'a P,
    pub books: [Book; 2],
    pub session: Session,
    // The entries for a carry-over.
    pub list: ArrayVec<Raw, LISTED>,
    pub buffer: [u8; BUFFER],
}

impl<'a, P: Print> Console<'a, P> {
    // Two fresh books, and nothing read, listed or set.
    pub fn fresh(rt: &'a P) -> Console<'a, P>
        ensures books { result.books ≡ replicate 2 fresh_book }
        ensures session { result.session ≡ record { current = First; lines = 0 } }
        ensures list { array_vec_len result.list ≡ 0 }
        ensures buffer { result.buffer ≡ replicate BUFFER 0 }
    {
        Console {
            rt,
            books: [Book::fresh(); 2],
            session: Session::fresh(),
            list: ArrayVec::new(),
            buffer: [0; BUFFER],
        }
    }

    // Answers a line: makes its call and writes the answer, none where the line is passed over.
    pub fn answer(&mut self, line: &[u8]) -> io::Result<()> {
        self.session = self.session.next_line();
        match understood(line) {
            Ok(Some(call)) => self.make(call),
            Ok(None) => Ok(()),
            Err(Unclear) => self.tell_unclear(),
        }
    }

    fn make(&mut self, call: Call) -> io::Result<()> {
        match call {
            Call::Turn(number) => self.turn(number),
            Call::Post(entry) => self.post(entry),
            Call::List(entry) => self.list(entry),
            Call::CarryOver(places) => self.carry_over(places),
            Call::Statement { account, allowance } => self.statement(account, allowance),
            Call::Contribution {
                account,
                node,
                serial,
            } => self.contribution(account, node, serial),
            Call::Year(year) => self.year(year),
            Call::Page { account, room } => self.page(account, room),
            Call::Save(room) => self.save(room),
            Call::Load(room) => self.load(room),
            Call::OpenRun { node, day, rate } => self.open_run(node, day, rate),
            Call::Step => self.step(),
            Call::CloseRun => self.close_run(),
            Call::Set(change) => self.set(&change),
            Call::Show(span) => self.show(span),
        }
    }

    // p, t: what a posting or a run's step answers.
    fn tell_posting(&self, letter: char, answer: PostingAnswer) -> io::Result<()> {
        let r = PostingReply::from(answer);
        println!(self.rt;
            "{letter} {} {} {} {} {} {}",
            r.refusal, r.number, r.settled, r.paid_out, r.retained, r.interest,
        )
    }

    // r, c: what an opening or a close of a run answers.
    fn tell_run(&self, letter: char, answer: Result<(), Refusal>) -> io::Result<()> {
        println!(self.rt; "{letter} {}", refusal_of(&answer))
    }

    fn tell_unclear(&self) -> io::Result<()> {
        println!(self.rt; "? {}", self.session.lines)
    }

    // The book that calls go to.
    fn book(&self) -> &Book {
        &self.books[self.session.place()]
    }

    // Keeps the next book of a call that changes it, and gives the answer.
    fn keep<A>(&mut self, next: Next<A>) -> A {
        let at = self.session.place();
        self.books[at] = next.book;
        next.answer
    }

    fn turn(&mut self, number: BookNumber) -> io::Result<()> {
        self.session.current = number;
        println!(self.rt; "b {}", number as u8)
    }

    fn post(&mut self, entry: Raw) -> io::Result<()> {
        let at = self.session.place();
        let answer = self.books[at].offer(entry);
        self.tell_posting('p', answer)
    }

    // A full list leaves the line unclear.
    fn list(&mut self, entry: Raw) -> io::Result<()> {
        match self.list.try_push(entry) {
            Ok(()) => println!(self.rt; "e {}", self.list.len()),
            Err(_) => self.tell_unclear(),
        }
    }

    // The list is empty afterwards.
    fn carry_over(&mut self, places: Places) -> io::Result<()> {
        let mut results = [255; PLACES];
        let results = &mut results[..places.number];
        let list = self.list.as_slice();
        let carried = carry_over(*self.book(), list, results);
        let answer = self.keep(carried);
        self.list.clear();
        println!(self.rt; "o {}{}", refusal_of(&answer), Spaced(results))
    }

    fn statement(&self, account: u16, allowance: u64) -> io::Result<()> {
        let r = StatementReply::from(statement(self.book(), account, allowance));
        println!(self.rt;
            "s {} {} {} {} {} {} {} {} {}",
            r.refusal,
            r.arrears,
            r.credit,
            r.deposit,
            r.held,
            r.links_read,
            r.bills,
            r.payments,
            u8::from(r.complete),
        )
    }

    fn contribution(&self, account: u16, node: u8, serial: u32) -> io::Result<()> {
        let answer = contribution_query(self.book(), account, node, serial);
        let r = ContributionReply::from(answer);
        println!(self.rt;
            "q {} {} {} {} {} {} {} {}",
            r.refusal,
            r.amount,
            r.to_arrears,
            r.paid_out,
            r.held,
            r.retained,
            r.added,
            u8::from(r.closed),
        )
    }

    // No refusal stops it.
    fn year(&self, year: u16) -> io::Result<()> {
        let totals = year_totals(self.book(), year);
        println!(self.rt;
            "y 0 {} {} {} {}",
            totals.bills.0, totals.payments.0, totals.paid_out.0, totals.entries,
        )
    }

    fn page(&mut self, account: u16, room: Room) -> io::Result<()> {
        let book = *self.book();
        let answer = page(&book, account, &mut self.buffer[..room.number]);
        println!(self.rt; "g {} {}", refusal_of(&answer), answer.unwrap_or(0))
    }

    fn save(&mut self, room: Room) -> io::Result<()> {
        let book = *self.book();
        let answer = save(&book, &mut self.buffer[..room.number]);
        println!(self.rt; "w {} {}", refusal_of(&answer), answer.unwrap_or(0))
    }

    fn load(&mut self, room: Room) -> io::Result<()> {
        let loaded = load(&self.buffer[..room.number]);
        let (refusal, record) = match self.keep(loaded) {
            Ok(()) => (0, 0),
            Err(fault) => (fault.refusal.into(), fault.record_number()),
        };
        println!(self.rt; "l {refusal} {record}")
    }

    fn open_run(&mut self, node: u8, day: u16, rate: u16) -> io::Result<()> {
        let ran = open_run(*self.book(), node, day, rate);
        let answer = self.keep(ran);
        self.tell_run('r', answer)
    }

    fn step(&mut self) -> io::Result<()> {
        let posted = step(*self.book());
        let answer = self.keep(posted);
        self.tell_posting('t', answer)
    }

    fn close_run(&mut self) -> io::Result<()> {
        let ran = close_run(*self.book());
        let answer = self.keep(ran);
        self.tell_run('c', answer)
    }

    fn set(&mut self, change: &Change) -> io::Result<()> {
        let bytes = change.bytes.as_slice();
        self.buffer[change.from..change.from + bytes.len()].copy_from_slice(bytes);
        println!(self.rt; "x {}", bytes.len())
    }

    // In one write: `println!` makes several of a line that is longer than its own buffer. No answer lacks room; the arm that prints one which did
    // would write the same bytes.
    fn show(&self, span: Span) -> io::Result<()> {
        let shown = Spaced(&self.buffer[span.from..span.from + span.count]);
        let mut line: ArrayString<LONGEST_ANSWER> = ArrayString::new();
        match writeln!(line, "d{shown}") {
            Ok(()) => self.rt.write_all(line.as_str().as_bytes()),
            Err(_) => println!(self.rt; "d{shown}"),
        }
    }
}

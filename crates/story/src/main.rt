// Two nodes of a pair: posts entries to their books, carries entries over, and prints the statements of both.
#![tactic(auto)]

use book::Book;
use carry::carry_over;
use entries::{Kind, Raw};
use loads::Loaded;
use printer::print_loaded;
use rules::PostingReply;
use std::io;

// An entry of account 9, with no amount and nothing named.
fn entry(kind: Kind, node: u8, day: u16, serial: u32) -> Raw {
    Raw {
        kind: kind.into(),
        node,
        account: 9,
        day,
        serial,
        ..Raw::default()
    }
}

// Names the entry that node 1 gave a serial.
fn naming(entry: Raw, named_serial: u32) -> Raw {
    Raw {
        named_serial,
        named_node: 1,
        ..entry
    }
}

// Those of the story, by node 1 but for the second correction: a contribution of 60,000 for 100 m of one phase, a bill of 12,000, two
// corrections of it, and a customer for the whole line.
fn entries() -> [Raw; 5] {
    [
        Raw {
            amount: 60000,
            a: 100,
            b: 1,
            ..entry(Kind::Contribution, 1, 100, 1)
        },
        Raw {
            amount: 12000,
            a: 30,
            b: 30,
            ..entry(Kind::Bill, 1, 110, 2)
        },
        Raw {
            amount: 10000,
            ..naming(entry(Kind::Correction, 1, 120, 3), 2)
        },
        Raw {
            amount: 9000,
            ..naming(entry(Kind::Correction, 2, 121, 1), 2)
        },
        Raw {
            a: 100,
            b: 1,
            ..naming(entry(Kind::AddedCustomer, 1, 130, 4), 1)
        },
    ]
}

// A node of the pair, which prints to standard output.
#[derive(Drop)]
struct Node<'a, P: Print> {
    rt: &'a P,
    name: &'a str,
    book: Book,
}

impl<'a, P: Print> Node<'a, P> {
    fn fresh(rt: &'a P, name: &'a str) -> Node<'a, P> {
        Node {
            rt,
            name,
            book: Book::fresh(),
        }
    }

    // Posts the entry and prints the refusal, and what it settled and paid out.
    fn post(&mut self, entry: Raw) -> io::Result<()> {
        let reply = PostingReply::from(self.book.offer(entry));
        println!(self.rt;
            "posted: refusal {}, settled {}, paid out {}",
            reply.refusal, reply.settled, reply.paid_out,
        )
    }

    // Carries the entry over and prints its place of the result list.
    fn carry_over(&mut self, entry: Raw) -> io::Result<()> {
        let mut results = [255];
        self.book = carry_over(self.book, &[entry], &mut results).book;
        println!(self.rt; "carried over: refusal {}", results[0])
    }

    fn show(&self) -> io::Result<()> {
        println!(self.rt; "{}:", self.name)?;
        let loaded = Loaded {
            book: self.book,
            answer: Ok(()),
        };
        print_loaded(self.rt, loaded)
    }
}

fn main(rt: HostRuntime) -> io::Result<()> {
    let mut first = Node::fresh(&rt, "node 1");
    let mut second = Node::fresh(&rt, "node 2");
    let [contribution, bill, to_ten, to_nine, customer] = entries();

    // Node 1 takes a contribution of 60,000 for 100 m of one phase and a bill of 12,000; both are carried over to node 2.
    first.post(contribution)?;
    first.post(bill)?;
    second.carry_over(contribution)?;
    second.carry_over(bill)?;
    first.show()?;
    second.show()?;

    // The link breaks. Node 1 corrects the bill to 10,000, node 2 corrects the same bill to 9,000.
    first.post(to_ten)?;
    second.post(to_nine)?;
    first.show()?;
    second.show()?;

    // The link is back. Each correction is carried over to the other node, which has corrected the bill already: refused by 16.
    first.carry_over(to_nine)?;
    second.carry_over(to_ten)?;
    first.show()?;
    second.show()?;

    // A customer joins, for the whole line: a refund of 30,000. It settles the arrears, and only the rest is paid out.
    first.post(customer)?;
    second.carry_over(customer)?;
    first.show()?;
    second.show()
}

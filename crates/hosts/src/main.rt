// Two nodes that keep their books as images, through the exported calls. Each call prints all that it gives.
#![tactic(auto)]

use codec::{RECORD, Record, header};
use contribution_book::{
    contribution_book_carry_over, contribution_book_check, contribution_book_contribution,
    contribution_book_page, contribution_book_post, contribution_book_statement,
    contribution_book_year,
};
use entries::{Kind, Raw};
use std::io;
use std::ops::Range;
use text::Spaced;

const ROOM: usize = 288;

// One byte more than a page has.
const PAGE_ROOM: usize = 5347;

// The first 19 lines of a page.
const LINES: usize = 19 * 81;

// An entry of account 5, with no amount and nothing named.
fn entry(kind: Kind, node: u8, day: u16, serial: u32) -> Raw {
    Raw {
        kind: kind.into(),
        node,
        account: 5,
        day,
        serial,
        ..Raw::default()
    }
}

fn contribution(node: u8, day: u16, serial: u32, amount: u32, built: u16, phases: u8) -> Raw {
    Raw {
        amount,
        a: built,
        b: phases,
        ..entry(Kind::Contribution, node, day, serial)
    }
}

// A bill of 30 days, served for all of them.
fn bill(node: u8, day: u16, serial: u32, charge: u32) -> Raw {
    Raw {
        amount: charge,
        a: 30,
        b: 30,
        ..entry(Kind::Bill, node, day, serial)
    }
}

fn payment(node: u8, day: u16, serial: u32, amount: u32) -> Raw {
    Raw {
        amount,
        ..entry(Kind::Payment, node, day, serial)
    }
}

// Names the first entry of node 1.
fn naming(entry: Raw) -> Raw {
    Raw {
        named_serial: 1,
        named_node: 1,
        ..entry
    }
}

// A node: its image is the first bytes of an array. It prints to standard output.
#[derive(Drop)]
struct Host<'a, P: Print> {
    rt: &'a P,
    memory: [u8; ROOM],
    length: usize,
}

impl<'a, P: Print> Host<'a, P> {
    fn fresh(rt: &'a P) -> Host<'a, P> {
        let mut memory = [0; ROOM];
        memory[..RECORD].copy_from_slice(&header(0));
        Host {
            rt,
            memory,
            length: RECORD,
        }
    }

    // The same image with a byte changed.
    fn damaged(&self, at: usize, byte: u8) -> Host<'a, P> {
        let mut memory = self.memory;
        if at < ROOM {
            memory[at] = byte;
        }
        Host { memory, ..*self }
    }

    fn image(&self) -> &[u8] {
        &self.memory[..self.length.min(ROOM)]
    }

    // The first so many bytes of the records.
    fn records(&self, size: usize) -> &[u8] {
        let records = &self.memory[RECORD..];
        &records[..size.min(records.len())]
    }

    // Prints bytes of the array.
    fn show(&self, places: Range<usize>) -> io::Result<()> {
        println!(self.rt; "bytes{}", Spaced(self.memory.get(places).unwrap_or(&[])))
    }

    fn check(&self) -> io::Result<()> {
        let given = contribution_book_check(self.image());
        println!(self.rt;
            "check {} {} {}",
            given.refusal, given.record, given.entries,
        )
    }

    // Takes the next image that a call gives, unless it is refused.
    fn keep(&mut self, refusal: u8, memory: [u8; ROOM], length: usize) {
        if refusal == 0 {
            self.memory = memory;
            self.length = length;
        }
    }

    // Posts the first so many bytes of an entry, with so much room for the next image. Last is the output's first byte, 255 where nothing
    // is written.
    fn post_into(&mut self, entry: Raw, size: usize, room: usize) -> io::Result<()> {
        let mut output = [255; ROOM];
        let record = Record {
            raw: entry,
            next: 0,
        };
        let given = contribution_book_post(
            self.image(),
            &record.encode()[..size.min(RECORD)],
            &mut output[..room.min(ROOM)],
        );
        println!(self.rt;
            "post {} {} {} {} {} {} {} {} {}",
            given.refusal,
            given.record,
            given.number,
            given.bytes,
            given.settled,
            given.paid_out,
            given.retained,
            given.interest,
            output[0],
        )?;
        self.keep(given.refusal, output, given.bytes);
        Ok(())
    }

    fn post(&mut self, entry: Raw) -> io::Result<()> {
        self.post_into(entry, RECORD, ROOM)
    }

    // Carries entries over, with so many places for results and so much room for the next image. Last are the output's first byte and five
    // places, 255 before.
    fn carry_over(&mut self, entries: &[u8], places: usize, room: usize) -> io::Result<()> {
        let mut results = [255; 5];
        let mut output = [255; ROOM];
        let given = contribution_book_carry_over(
            self.image(),
            entries,
            &mut results[..places.min(5)],
            &mut output[..room.min(ROOM)],
        );
        println!(self.rt;
            "carry-over {} {} {} {}{}",
            given.refusal,
            given.record,
            given.bytes,
            output[0],
            Spaced(&results),
        )?;
        self.keep(given.refusal, output, given.bytes);
        Ok(())
    }

    fn statement(&self, account: u16, allowance: u64) -> io::Result<()> {
        let given = contribution_book_statement(self.image(), account, allowance);
        println!(self.rt;
            "statement {} {} {} {} {} {} {} {} {} {}",
            given.refusal,
            given.record,
            given.links_read,
            u8::from(given.complete),
            given.arrears,
            given.credit,
            given.deposit,
            given.held,
            given.bills,
            given.payments,
        )
    }

    fn contribution(&self, account: u16, node: u8, serial: u32) -> io::Result<()> {
        let given = contribution_book_contribution(self.image(), account, node, serial);
        println!(self.rt;
            "contribution {} {} {} {} {} {} {} {} {}",
            given.refusal,
            given.record,
            given.added,
            u8::from(given.closed),
            given.amount,
            given.to_arrears,
            given.paid_out,
            given.held,
            given.retained,
        )
    }

    fn year(&self, year: u16) -> io::Result<()> {
        let given = contribution_book_year(self.image(), year);
        println!(self.rt;
            "year {} {} {} {} {} {}",
            given.refusal, given.record, given.entries, given.bills, given.payments, given.paid_out,
        )
    }

    // Asks for a page with so much room. Last are the output's first byte and the one past a page, 255 before; then the page's first 19
    // lines, where it is accepted.
    fn page(&self, account: u16, room: usize) -> io::Result<()> {
        let mut output = [255; PAGE_ROOM];
        let given = contribution_book_page(
            self.image(),
            account,
            &mut output[..room.min(PAGE_ROOM)],
        );
        println!(self.rt;
            "page {} {} {} {} {}",
            given.refusal,
            given.record,
            given.bytes,
            output[0],
            output[PAGE_ROOM - 1],
        )?;
        match output.get(..LINES) {
            Some(lines) if given.refusal == 0 => self.rt.write_all(lines),
            _ => Ok(()),
        }
    }

    // Refused calls on an image of eight entries, with the other node's image.
    fn refused(&mut self, other: &Host<'a, P>) -> io::Result<()> {
        let paid = payment(2, 300, 1, 40);
        let again = payment(1, 300, 8, 40);
        self.post_into(paid, 23, ROOM)?;
        self.post(again)?;
        self.post_into(paid, 24, 239)?;
        self.post_into(again, 24, 239)?;
        self.carry_over(other.records(71), 5, ROOM)?;
        self.carry_over(other.records(72), 2, ROOM)?;
        self.carry_over(other.records(72), 5, 287)?;
        self.statement(129, 9)?;
        self.contribution(129, 3, 1)?;
        self.contribution(129, 1, 1)?;
        self.contribution(5, 1, 2)?;
        self.page(129, 5345)?;
        self.page(5, 5345)
    }

    // Every call on an image that is damaged.
    fn all_refused(&mut self, other: &Host<'a, P>) -> io::Result<()> {
        self.check()?;
        self.post(payment(2, 300, 1, 40))?;
        self.carry_over(other.records(72), 5, ROOM)?;
        self.statement(5, 9)?;
        self.contribution(5, 1, 1)?;
        self.year(2000)?;
        self.page(5, PAGE_ROOM)
    }
}

// Node 1: a contribution, bills, an added customer, a deposit and its return, a payment, the expiry in 2005.
fn first_node<P: Print>(rt: &P) -> io::Result<Host<'_, P>> {
    let mut node = Host::fresh(rt);
    node.check()?;
    node.post(contribution(1, 100, 1, 1000, 10, 3))?;
    node.post(bill(1, 100, 2, 300))?;
    let customer = naming(entry(Kind::AddedCustomer, 1, 200, 3));
    node.post(Raw {
        a: 8,
        b: 3,
        ..customer
    })?;
    node.contribution(5, 1, 1)?;
    node.post(bill(1, 210, 4, 700))?;
    let deposit = entry(Kind::Deposit, 1, 100, 5);
    node.post(Raw {
        amount: 5000,
        a: 100,
        ..deposit
    })?;
    node.statement(5, 3)?;
    node.statement(5, 5)?;
    node.post(entry(Kind::DepositReturn, 1, 130, 6))?;
    node.post(payment(1, 300, 7, 250))?;
    node.statement(5, 6)?;
    node.post(naming(entry(Kind::Expiry, 1, 1926, 8)))?;
    node.contribution(5, 1, 1)?;
    node.check()?;
    node.year(2000)?;
    node.year(2005)?;
    // Years that no book has.
    node.year(1999)?;
    node.year(2100)?;
    Ok(node)
}

// Node 2: a payment, a bill and a contribution. No byte past the image is written.
fn second_node<P: Print>(rt: &P) -> io::Result<Host<'_, P>> {
    let mut node = Host::fresh(rt);
    node.post(payment(2, 300, 1, 40))?;
    node.show(40..56)?;
    node.post(bill(2, 301, 2, 90))?;
    node.post(contribution(2, 302, 3, 2000, 20, 1))?;
    Ok(node)
}

fn main(rt: HostRuntime) -> io::Result<()> {
    let mut host = first_node(&rt)?;
    let other = second_node(&rt)?;
    host.refused(&other)?;
    host.damaged(192, 0).all_refused(&other)?;
    host.damaged(0, 0).check()?;
    host.post(payment(2, 300, 1, 40))?;
    host.carry_over(other.records(72), 5, ROOM)?;
    host.statement(5, 99)?;
    host.contribution(5, 2, 3)?;
    host.year(2000)?;
    host.page(5, PAGE_ROOM)?;
    host.show(0..24)?;
    host.show(264..288)
}

// The contribution book.
#![tactic(auto)]

ghost use Rattle.std.specs.Prelude.{◌≡◌, ◌<◌, not, IfSome};
ghost use Rattle.std.specs.Iterator.{YieldsFirst, item_count};
ghost use Rattle.measures.specs.Cents.{cents};
ghost use Rattle.entries.specs.Ranges.{between};
ghost use Rattle.entries.specs.Refusals.{refuse_if, check_rows};
ghost use Rattle.entries.specs.declared.refusals.Refusal.TheVariants as no;
ghost use Rattle.entries.specs.Data.{carries, points_at};
ghost use Rattle.rules.specs.Answers.{posting_reply_of};
ghost use Rattle.book.specs.Fresh.{fresh_book, accounts_most, entries_most};
ghost use Rattle.book.specs.Runs.{arrival_of};
ghost use Rattle.book.specs.Serials.{last_of, after_of};
ghost use Rattle.book.specs.Chain.{slot_of, ends_of, links_of, walk_of, found_by, sought_in, paid_over};
ghost use Rattle.book.specs.Refusals.{late_rows, check_entry_of};
ghost use Rattle.book.specs.Posting.{account_at, decision_of, years_of, with_years, stored_of, posted_reply, enter_of, post_of};

use changes::{Change, Decision, Link, naming_decision, own_decision};
use entries::{Arrival, Entry, Incoming, Kind, Name, Raw, Refusal, refuse_if};
use measures::{Cents, Day};
use rules::{Accepted, Account, PostingAnswer, paid_within};
use years::Years;

// The last serial of each node, 0 where it has none.
#[derive(Clone, Copy, Default)]
pub struct Serials {
    pub node_1: u32,
    pub node_2: u32,
}

// An open late-charge run.
#[derive(Clone, Copy)]
pub struct Run {
    pub node: u8,
    pub day: u16,
    // In hundredths of a percent.
    pub rate: u16,
    // The account that is charged next.
    pub next: u16,
    // Every account's arrears at the run's opening.
    pub noted: [Cents; Book::ACCOUNTS],
}

#[derive(Clone, Copy)]
pub struct Book {
    pub accounts: [Account; Book::ACCOUNTS],
    // Between the arrays: the compiler then fills those of a fresh book with fewer copies.
    pub last: Serials,
    pub run: Option<Run>,
    pub entries: [Entry; Book::ENTRIES],
    // How many entries there are: they stand at the places before this one. Document 01 has the book's entry array.
    pub count: u16,
    // What the entries of each calendar year come to.
    pub years: Years,
}

// The next book beside the answer.
#[derive(Clone, Copy)]
pub struct Next<A> {
    pub book: Book,
    pub answer: A,
}

pub type Posted = Next<PostingAnswer>;

// What a search along a chain gives: the cases are those that document 01 names, so it is no Option.
#[derive(Clone, Copy)]
pub enum Found {
    At(Link),
    Nothing,
}

// The entries of an account's chain, newest first.
#[derive(Clone, Copy)]
pub struct Chain<'a> {
    entries: &'a [Entry; Book::ENTRIES],
    // The number of the next entry.
    at: u16,
    // How many links are left at most.
    left: u16,
}

impl Serials {
    #[tactic(auto, unfolding(crate::specs::Serials::last_of))]
    pub fn of(self, node: u8) -> u32
        ensures { result ≡ last_of self node }
    {
        if node == 1 { self.node_1 } else { self.node_2 }
    }

    // After an entry of node 1 or 2.
    #[tactic(auto, unfolding(crate::specs::Serials::after_of))]
    pub fn after(self, raw: Raw) -> Serials
        ensures { result ≡ after_of self raw }
    {
        if raw.node == 1 {
            Serials {
                node_1: raw.serial,
                ..self
            }
        } else {
            Serials {
                node_2: raw.serial,
                ..self
            }
        }
    }
}

// The place of an account, and 0 where there is no such account.
#[tactic(auto, unfolding(crate::specs::Chain::slot_of))]
pub fn slot(account: u16) -> usize
    ensures { result ≡ slot_of account }
{
    let a = usize::from(account);
    if (1..=Book::ACCOUNTS).contains(&a) {
        a - 1
    } else {
        0
    }
}

// Whether a chain ends at a link.
#[tactic(auto, unfolding(crate::specs::Chain::ends_of))]
fn ends(at: u16) -> bool
    ensures { result ≡ ends_of at }
{
    at == 0 || Book::ENTRIES < usize::from(at)
}

impl Iterator for Chain<'_> {
    type Item = Link;

    ghost next_gives = { YieldsFirst links_of };

    ghost remaining = { item_count links_of };

    #[tactic(auto, using(crate::proofs::ChainLaws::link_inside, crate::proofs::ChainLaws::place_link, crate::proofs::ChainLaws::walk_none, crate::proofs::ChainLaws::walk_ends, crate::proofs::ChainLaws::walk_link))]
    fn next(&mut self) -> Option<Link> {
        if self.left == 0 || ends(self.at) {
            return None;
        }
        let place = usize::from(self.at) - 1;
        let entry = self.entries[place];
        self.at = entry.next;
        self.left -= 1;
        Some(Link { place, entry })
    }
}

impl Chain<'_> {
    // The first entry that is the one of a name.
    pub fn search(mut self, name: Name) -> Option<Link>
        ensures { found_by result ≡ sought_in (carries name) (links_of self.entry) }
    {
        self.find(|link| link.entry.carries(name))
    }

    // The payments that a reduction of a day counts.
    #[tactic(auto, unfolding(crate::specs::Chain::paid_over))]
    fn paid(self, day: u16) -> Cents
        ensures { result ≡ paid_over «day» (cents 0) (links_of self.entry) }
    {
        let mut paid = Cents(0);
        for link in self {
            paid = paid.plus(paid_within(link.entry, day));
        }
        paid
    }

    // The entry that another names.
    fn lookup(self, raw: Raw) -> Found
        ensures { result ≡ sought_in (points_at raw) (links_of self.entry) }
    {
        match self.search(raw.named()) {
            Some(link) => Found::At(link),
            None => Found::Nothing,
        }
    }
}

// 2: the node is not 1 or 2.
#[tactic(auto, unfolding(entries::specs::Ranges::between))]
pub fn check_node(node: u8) -> Result<(), Refusal>
    ensures { result ≡ refuse_if (not (between node 1 2)) no.UnknownNode }
{
    refuse_if(!(1..=2).contains(&node), Refusal::UnknownNode)
}

// 3: the account is none of the book's.
#[tactic(auto, unfolding(entries::specs::Ranges::between))]
pub fn check_account(account: u16) -> Result<(), Refusal>
    ensures { result ≡ refuse_if (not (between account 1 accounts_most)) no.UnknownAccount }
{
    let known = (1..=Book::ACCOUNTS).contains(&usize::from(account));
    refuse_if(!known, Refusal::UnknownAccount)
}

impl Book {
    pub const ACCOUNTS: usize = 128;

    pub const ENTRIES: usize = 1024;

    // The book with no entries.
    #[tactic(auto, unfolding(crate::specs::Fresh::fresh_book))]
    pub fn fresh() -> Book
        ensures { result ≡ fresh_book }
    {
        let account = Account::fresh();
        let entry = Entry::unused();
        Book {
            accounts: [account; Book::ACCOUNTS],
            entries: [entry; Book::ENTRIES],
            count: 0,
            last: Serials::default(),
            run: None,
            years: Years::fresh(),
        }
    }

    // An account, the first where there is none of that number.
    #[tactic(auto, using(crate::proofs::ChainLaws::slot_inside))]
    pub fn account(&self, account: u16) -> Account
        ensures { result ≡ account_at self.now account }
    {
        self.accounts[slot(account)]
    }

    // The chain that begins at the entry of a number.
    pub fn chain(&self, newest: u16) -> Chain<'_>
        ensures { links_of result ≡ walk_of self.now.entries entries_most newest }
    {
        Chain {
            entries: &self.entries,
            at: newest,
            left: Book::ENTRIES as u16,
        }
    }

    // The rules after 5: 30, 6, 27 and 7.
    #[tactic(auto, unfolding(entries::specs::Refusals::refuse_if))]
    fn check_late(&self, incoming: Incoming, arrival: Arrival) -> Result<(), Refusal>
        ensures { result ≡ check_rows (late_rows incoming.raw incoming.kind arrival self.now.count (last_of self.now.last incoming.raw.node)) }
    {
        let Incoming { raw, kind } = incoming;
        let full = Book::ENTRIES <= usize::from(self.count);
        refuse_if(arrival.no_day(kind, raw.b), Refusal::NoDaysServed)?;
        refuse_if(raw.serial <= self.last.of(raw.node), Refusal::SerialNotNew)?;
        refuse_if(arrival.waits(kind), Refusal::CorrectionInRun)?;
        refuse_if(full, Refusal::BookFull)
    }

    // 1 to 7, 30 after 5 and 27 before 7: the refusals that the entry, how it comes in, its node's last serial and the number of entries
    // decide.
    #[tactic(auto, unfolding(crate::specs::Refusals::check_entry_of, entries::specs::Refusals::refuse_if))]
    fn check_entry(&self, incoming: Incoming, arrival: Arrival) -> Result<(), Refusal>
        ensures { result ≡ check_entry_of incoming.raw incoming.kind arrival self.now.count (last_of self.now.last incoming.raw.node) }
    {
        let Incoming { raw, kind } = incoming;
        refuse_if(arrival.unknown(kind), Refusal::UnknownKind)?;
        check_node(raw.node)?;
        check_account(raw.account)?;
        refuse_if(Day::LAST < raw.day, Refusal::UnknownDay)?;
        refuse_if(!incoming.in_range(), Refusal::FieldOutOfRange)?;
        self.check_late(incoming, arrival)
    }

    // The refusal of an entry that comes in, or what it does.
    #[tactic(auto, unfolding(crate::specs::Posting::decision_of, crate::specs::Posting::lookup_of, crate::specs::Posting::paid_of, crate::specs::Chain::start_of, crate::specs::Refusals::decision_by, crate::specs::Refusals::searched_of, entries::specs::Refusals::decided_of))]
    fn decision(&self, raw: Raw, arrival: Arrival) -> Decision
        ensures { result ≡ decision_of arrival self.now raw }
    {
        let incoming = Incoming::from(raw);
        let account = self.account(raw.account);
        self.check_entry(incoming, arrival)?;
        if !incoming.kind.names() {
            return own_decision(incoming, account);
        }
        let chain = self.chain(account.newest);
        let Found::At(link) = chain.lookup(raw) else {
            return Err(Refusal::NotOnChain);
        };
        let paid = if incoming.kind == Kind::Reduction {
            chain.paid(raw.day)
        } else {
            Cents(0)
        };
        naming_decision(incoming, account, paid, link)
    }

    // Counts an accepted entry in its year, and the entry that it names as it is afterwards in that one's.
    #[tactic(auto, unfolding(crate::specs::Posting::years_of))]
    fn count_in_years(&mut self, raw: Raw, change: Change)
        requires { IfSome change.named (λ l. l.place < entries_most) }
        ensures { self.new ≡ with_years self.old (years_of self.old raw change) }
    {
        self.years
            .post(Day(raw.day), change.data, change.amounts.paid_out);
        if let Some(link) = change.named {
            let before = self.entries[link.place];
            self.years.restate(before.day, before.data, link.entry.data);
        }
    }

    // Stores an accepted entry.
    #[tactic(auto, using(crate::proofs::ChainLaws::slot_inside), unfolding(crate::specs::Posting::stored_of))]
    fn store(&mut self, raw: Raw, change: Change)
        requires { (self.old.count < entries_most) × IfSome change.named (λ l. l.place < entries_most) }
        ensures { self.new ≡ stored_of self.old raw change }
    {
        // First, as it reads the named entry as it was.
        self.count_in_years(raw, change);
        let a = slot(raw.account);
        let newest = self.accounts[a].newest;
        self.entries[usize::from(self.count)] = raw.entry(newest, change.data);
        if let Some(link) = change.named {
            self.entries[link.place] = link.entry;
        }
        self.count += 1;
        self.accounts[a] = change.account.with_newest(self.count);
        self.last = self.last.after(raw);
    }

    // An entry comes in, in place.
    #[tactic(auto, using(crate::proofs::Posting::room, crate::proofs::Posting::named_inside, crate::proofs::Posting::enter_refused, crate::proofs::Posting::enter_accepted), unfolding(crate::specs::Posting::stored_of))]
    pub fn admit(&mut self, raw: Raw, arrival: Arrival) -> PostingAnswer
        ensures { (record { book = self.new; reply = posting_reply_of result }) ≡ enter_of arrival self.old raw }
    {
        let change = self.decision(raw, arrival)?;
        self.store(raw, change);
        Ok(Accepted {
            number: self.count,
            amounts: change.amounts,
        })
    }

    // How a posted entry comes in.
    #[tactic(auto, unfolding(crate::specs::Runs::arrival_of))]
    pub fn arrival(&self) -> Arrival
        ensures { result ≡ arrival_of self.now.run }
    {
        match &self.run {
            Some(_) => Arrival::PostedInRun,
            None => Arrival::Posted,
        }
    }

    // Posts an entry in place, during a run where one is open.
    #[tactic(auto, unfolding(crate::specs::Posting::post_of))]
    pub fn offer(&mut self, raw: Raw) -> PostingAnswer
        ensures { (record { book = self.new; reply = posting_reply_of result }) ≡ post_of self.old raw }
    {
        let arrival = self.arrival();
        self.admit(raw, arrival)
    }

    // Posts an entry.
    pub fn post(mut self, raw: Raw) -> Posted
        ensures { posted_reply result ≡ post_of self raw }
    {
        let answer = self.offer(raw);
        Next { book: self, answer }
    }
}

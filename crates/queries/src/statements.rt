// The statement of an account.
ghost use Rattle.std.specs.Prelude.{◌≡◌};
ghost use Rattle.queries.specs.Walk.{sums_with, statement_figures_of};
ghost use Rattle.queries.specs.Statements.{statement_reply_of, statement_of};

use book::{Book, check_account};
use entries::{Entry, Kind, Refusal, one_more};
use measures::Cents;
use rules::Account;

#[derive(Clone, Copy, Debug, PartialEq, Eq)]
pub struct StatementFigures {
    pub arrears: Cents,
    pub credit: Cents,
    pub deposit: Cents,
    // Of all the account's contributions.
    pub held: Cents,
    pub links_read: u16,
    // Of the entries read; late charges count with bills.
    pub bills: Cents,
    pub payments: Cents,
    pub complete: bool,
}

pub type StatementAnswer = Result<StatementFigures, Refusal>;

// An answer in document 01's numbers.
#[derive(Clone, Copy, Debug, Default, PartialEq, Eq)]
pub struct StatementReply {
    pub refusal: u8,
    pub arrears: u64,
    pub credit: u64,
    pub deposit: u64,
    pub held: u64,
    pub links_read: u16,
    pub bills: u64,
    pub payments: u64,
    pub complete: bool,
}

impl From<StatementAnswer> for StatementReply {
    ghost from_gives = { λ answer reply. reply ≡ statement_reply_of answer };

    #[tactic(auto, unfolding(crate::specs::Statements::statement_reply_of))]
    fn from(answer: StatementAnswer) -> StatementReply {
        match answer {
            Err(refusal) => StatementReply {
                refusal: refusal.into(),
                ..StatementReply::default()
            },
            Ok(figures) => StatementReply {
                refusal: 0,
                arrears: figures.arrears.0,
                credit: figures.credit.0,
                deposit: figures.deposit.0,
                held: figures.held.0,
                links_read: figures.links_read,
                bills: figures.bills.0,
                payments: figures.payments.0,
                complete: figures.complete,
            },
        }
    }
}

// What a walk of a chain counted and summed so far.
#[derive(Clone, Copy, Default)]
struct Sums {
    // All links passed, and those within the allowance.
    length: u16,
    links_read: u16,
    held: Cents,
    bills: Cents,
    payments: Cents,
}

impl Sums {
    // After one entry more. It is read where fewer than the allowance were before it.
    #[tactic(auto, unfolding(crate::specs::Walk::sums_with))]
    fn with(self, entry: Entry, allowance: u64) -> Sums
        ensures { result ≡ sums_with self entry allowance }
    {
        let particulars = entry.data.particulars();
        let passed = Sums {
            length: one_more(self.length),
            held: self.held.plus(particulars.held),
            ..self
        };
        if allowance <= u64::from(self.links_read) {
            return passed;
        }
        let kind = particulars.kind;
        let billed = particulars.standing_if(kind.counts_with_bills());
        let paid = particulars.standing_if(kind == Kind::Payment);
        Sums {
            links_read: one_more(self.links_read),
            bills: self.bills.plus(billed),
            payments: self.payments.plus(paid),
            ..passed
        }
    }

    // The statement of an account whose whole chain was walked.
    #[tactic(auto, unfolding(crate::specs::Walk::statement_figures_of))]
    fn figures(self, account: Account, allowance: u64) -> StatementFigures
        ensures { result ≡ statement_figures_of self account allowance }
    {
        StatementFigures {
            arrears: account.arrears,
            credit: account.credit,
            deposit: account.deposit,
            held: self.held,
            links_read: self.links_read,
            bills: self.bills,
            payments: self.payments,
            complete: u64::from(self.length) <= allowance,
        }
    }
}

// The statement of an account, whose chain is read newest first as far as the allowance goes.
#[tactic(auto, using(crate::proofs::StatementsLaws::refused, crate::proofs::StatementsLaws::given), unfolding(entries::specs::Refusals::refuse_if))]
pub fn statement(book: &Book, account: u16, allowance: u64) -> StatementAnswer
    ensures { statement_reply_of result ≡ statement_of book.now account allowance }
{
    check_account(account)?;
    let own = book.account(account);
    let mut sums = Sums::default();
    for link in book.chain(own.newest) {
        sums = sums.with(link.entry, allowance);
    }
    Ok(sums.figures(own, allowance))
}

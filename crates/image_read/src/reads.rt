// The statement, the contribution query and the totals of a year of an image.
ghost use Rattle.std.specs.Prelude.{◌≡◌};
ghost use Rattle.loads.specs.Loads.{load_of};
ghost use Rattle.image_read.specs.Reads.{statement_given_of, statement_image, contribution_given_of, contribution_image, year_given_of, year_image};

use book::Next;
use loads::{Fault, load};
use queries::{ContributionFigures, StatementFigures, contribution_query, statement, year_totals};
use years::Year;

#[repr(C)]
#[derive(Clone, Copy, Default)]
pub struct StatementGiven {
    pub refusal: u8,
    // The image's record at fault, 0 where none is.
    pub record: u16,
    pub links_read: u16,
    pub complete: bool,
    pub arrears: u64,
    pub credit: u64,
    pub deposit: u64,
    pub held: u64,
    pub bills: u64,
    pub payments: u64,
}

#[repr(C)]
#[derive(Clone, Copy, Default)]
pub struct ContributionGiven {
    pub refusal: u8,
    // The image's record at fault, 0 where none is.
    pub record: u16,
    // Customers added.
    pub added: u16,
    pub closed: bool,
    pub amount: u64,
    pub to_arrears: u64,
    pub paid_out: u64,
    pub held: u64,
    pub retained: u64,
}

#[repr(C)]
#[derive(Clone, Copy, Default)]
pub struct YearGiven {
    pub refusal: u8,
    // The image's record at fault, 0 where none is.
    pub record: u16,
    // How many entries the year has.
    pub entries: u16,
    pub bills: u64,
    pub payments: u64,
    pub paid_out: u64,
}

impl From<Result<StatementFigures, Fault>> for StatementGiven {
    ghost from_gives = { λ answer given. given ≡ statement_given_of answer };

    #[tactic(auto, unfolding(queries::specs::Statements::statement_reply_of, crate::specs::Reads::statement_given_of))]
    fn from(answer: Result<StatementFigures, Fault>) -> StatementGiven {
        match answer {
            Err(fault) => StatementGiven {
                refusal: fault.refusal.into(),
                record: fault.record_number(),
                ..StatementGiven::default()
            },
            Ok(figures) => StatementGiven {
                refusal: 0,
                record: 0,
                links_read: figures.links_read,
                complete: figures.complete,
                arrears: figures.arrears.0,
                credit: figures.credit.0,
                deposit: figures.deposit.0,
                held: figures.held.0,
                bills: figures.bills.0,
                payments: figures.payments.0,
            },
        }
    }
}

// The figures of the account's statement.
#[tactic(auto, using(entries::proofs::RefusalsLaws::is_refusal), unfolding(loads::specs::Loaded::loaded_reply, queries::specs::Statements::statement_reply_of, crate::specs::Reads::statement_given_of, crate::specs::Reads::statement_image))]
fn statement_figures(image: &[u8], account: u16, allowance: u64) -> Result<StatementFigures, Fault>
    ensures { statement_given_of result ≡ statement_image (load_of image.now) account allowance }
{
    let Next { book, answer } = load(image);
    answer?;
    Ok(statement(&book, account, allowance)?)
}

// The statement of an account of an image.
pub fn statement_image(image: &[u8], account: u16, allowance: u64) -> StatementGiven
    ensures { result ≡ statement_image (load_of image.now) account allowance }
{
    statement_figures(image, account, allowance).into()
}

impl From<Result<ContributionFigures, Fault>> for ContributionGiven {
    ghost from_gives = { λ answer given. given ≡ contribution_given_of answer };

    #[tactic(auto, unfolding(queries::specs::Contributions::contribution_reply_of, crate::specs::Reads::contribution_given_of))]
    fn from(answer: Result<ContributionFigures, Fault>) -> ContributionGiven {
        match answer {
            Err(fault) => ContributionGiven {
                refusal: fault.refusal.into(),
                record: fault.record_number(),
                ..ContributionGiven::default()
            },
            Ok(figures) => ContributionGiven {
                refusal: 0,
                record: 0,
                added: figures.added,
                closed: figures.closed,
                amount: figures.amount.0,
                to_arrears: figures.to_arrears.0,
                paid_out: figures.paid_out.0,
                held: figures.held.0,
                retained: figures.retained.0,
            },
        }
    }
}

// The figures of the contribution.
#[tactic(auto, using(entries::proofs::RefusalsLaws::is_refusal), unfolding(loads::specs::Loaded::loaded_reply, queries::specs::Contributions::contribution_reply_of, crate::specs::Reads::contribution_given_of, crate::specs::Reads::contribution_image))]
fn contribution_figures(
    image: &[u8],
    account: u16,
    node: u8,
    serial: u32,
) -> Result<ContributionFigures, Fault>
    ensures { contribution_given_of result ≡ contribution_image (load_of image.now) account node serial }
{
    let Next { book, answer } = load(image);
    answer?;
    Ok(contribution_query(&book, account, node, serial)?)
}

// What is known of a contribution of an image.
pub fn contribution_image(image: &[u8], account: u16, node: u8, serial: u32) -> ContributionGiven
    ensures { result ≡ contribution_image (load_of image.now) account node serial }
{
    contribution_figures(image, account, node, serial).into()
}

impl From<Result<Year, Fault>> for YearGiven {
    ghost from_gives = { λ answer given. given ≡ year_given_of answer };

    #[tactic(auto, unfolding(crate::specs::Reads::year_given_of))]
    fn from(answer: Result<Year, Fault>) -> YearGiven {
        match answer {
            Err(fault) => YearGiven {
                refusal: fault.refusal.into(),
                record: fault.record_number(),
                ..YearGiven::default()
            },
            Ok(year) => YearGiven {
                refusal: 0,
                record: 0,
                entries: year.entries,
                bills: year.bills.0,
                payments: year.payments.0,
                paid_out: year.paid_out.0,
            },
        }
    }
}

// What the entries of the year come to.
#[tactic(auto, using(entries::proofs::RefusalsLaws::is_refusal), unfolding(loads::specs::Loaded::loaded_reply, crate::specs::Reads::year_given_of, crate::specs::Reads::year_image))]
fn year_figures(image: &[u8], year: u16) -> Result<Year, Fault>
    ensures { year_given_of result ≡ year_image (load_of image.now) year }
{
    let Next { book, answer } = load(image);
    answer?;
    Ok(year_totals(&book, year))
}

// The totals of a calendar year of an image.
pub fn year_image(image: &[u8], year: u16) -> YearGiven
    ensures { result ≡ year_image (load_of image.now) year }
{
    year_figures(image, year).into()
}

// The contribution query.
ghost use Rattle.std.specs.Prelude.{◌≡◌};
ghost use Rattle.entries.specs.Refusals.{check_rows};
ghost use Rattle.queries.specs.Contributions.{contribution_reply_of, contribution_rows, contribution_figures_of, contribution_query_of};

use book::{Book, check_account, check_node};
use entries::{Data, Name, Refusal};
use measures::Cents;

#[derive(Clone, Copy, Debug, PartialEq, Eq)]
pub struct ContributionFigures {
    pub amount: Cents,
    // Refunds to arrears, and refunds paid out.
    pub to_arrears: Cents,
    pub paid_out: Cents,
    pub held: Cents,
    pub retained: Cents,
    // Customers added.
    pub added: u16,
    pub closed: bool,
}

pub type ContributionAnswer = Result<ContributionFigures, Refusal>;

// An answer in document 01's numbers.
#[derive(Clone, Copy, Debug, Default, PartialEq, Eq)]
pub struct ContributionReply {
    pub refusal: u8,
    pub amount: u64,
    pub to_arrears: u64,
    pub paid_out: u64,
    pub held: u64,
    pub retained: u64,
    pub added: u16,
    pub closed: bool,
}

impl From<ContributionAnswer> for ContributionReply {
    ghost from_gives = { λ answer reply. reply ≡ contribution_reply_of answer };

    #[tactic(auto, unfolding(crate::specs::Contributions::contribution_reply_of))]
    fn from(answer: ContributionAnswer) -> ContributionReply {
        match answer {
            Err(refusal) => ContributionReply {
                refusal: refusal.into(),
                ..ContributionReply::default()
            },
            Ok(figures) => ContributionReply {
                refusal: 0,
                amount: figures.amount.0,
                to_arrears: figures.to_arrears.0,
                paid_out: figures.paid_out.0,
                held: figures.held.0,
                retained: figures.retained.0,
                added: figures.added,
                closed: figures.closed,
            },
        }
    }
}

// 2 and 3: the refusals that node and account decide.
#[tactic(auto, unfolding(entries::specs::Refusals::refuse_if))]
fn check_query(account: u16, node: u8) -> Result<(), Refusal>
    ensures { result ≡ check_rows (contribution_rows account node) }
{
    check_node(node)?;
    check_account(account)
}

// The figures of a contribution; 8 for any other entry.
#[tactic(auto, unfolding(entries::specs::Data::case_of, crate::specs::Contributions::contribution_reply_of, crate::specs::Contributions::contribution_figures_of))]
fn figures(data: Data) -> ContributionAnswer
    ensures { contribution_reply_of result ≡ contribution_figures_of «data» }
{
    let Data::Contribution {
        amount,
        held,
        to_arrears,
        paid_out,
        retained,
        added,
        closed,
        ..
    } = data
    else {
        return Err(Refusal::NotOnChain);
    };
    Ok(ContributionFigures {
        amount,
        to_arrears,
        paid_out,
        held,
        retained,
        added,
        closed,
    })
}

// What is known of the contribution that carries a pair of node and serial, sought along an account's chain.
#[tactic(auto, unfolding(entries::specs::Refusals::decided_of, crate::specs::Contributions::contribution_query_of, crate::specs::Contributions::known_of))]
pub fn contribution_query(book: &Book, account: u16, node: u8, serial: u32) -> ContributionAnswer
    ensures { contribution_reply_of result ≡ contribution_query_of book.now account node serial }
{
    check_query(account, node)?;
    let newest = book.account(account).newest;
    match book.chain(newest).search(Name { node, serial }) {
        Some(link) => figures(link.entry.data),
        None => Err(Refusal::NotOnChain),
    }
}

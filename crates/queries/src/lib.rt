// The calls that only read the book: the statement, the contribution query and the totals of a year.
#![tactic(auto)]

mod contributions;
mod statements;
mod yearly;

pub use contributions::{
    ContributionAnswer, ContributionFigures, ContributionReply, contribution_query,
};
pub use statements::{StatementAnswer, StatementFigures, StatementReply, statement};
pub use yearly::year_totals;

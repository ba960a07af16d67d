// What is read off an image: its check, a statement, a contribution query and the totals of a year.
#![tactic(auto)]

mod checks;
mod reads;

pub use checks::{CheckGiven, check_image};
pub use reads::{
    ContributionGiven, StatementGiven, YearGiven, contribution_image, statement_image, year_image,
};

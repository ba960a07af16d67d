// The contribution book for hosts: a book goes in and comes out as its image. The crate contribution_book_c exports these calls to C and Rust.
#![tactic(auto)]

ghost use Rattle.std.specs.Prelude.{◌≡◌};
ghost use Rattle.loads.specs.Loads.{load_of};
ghost use Rattle.image_read.specs.Checks.{check_given};
ghost use Rattle.image_read.specs.Reads.{statement_image, contribution_image, year_image};
ghost use Rattle.image_page.specs.Pages.{page_image};
ghost use Rattle.image_post.specs.Postings.{post_image};
ghost use Rattle.image_carry.specs.Carries.{carry_image};

use image_carry::{CarryGiven, carry_image};
use image_page::{PageGiven, page_image};
use image_post::{PostingGiven, post_image};
use image_read::{
    CheckGiven, ContributionGiven, StatementGiven, YearGiven, check_image, contribution_image,
    statement_image, year_image,
};

// Checks an image, and counts its entries.
pub fn contribution_book_check(image: &[u8]) -> CheckGiven
    ensures { result ≡ check_given (load_of image.now) }
{
    check_image(image)
}

// Posts an entry to an image.
pub fn contribution_book_post(image: &[u8], entry: &[u8], output: &mut [u8]) -> PostingGiven
    ensures { (record { given = result; output = output.new }) ≡ post_image (load_of image.now) entry.now output.old }
{
    post_image(image, entry, output)
}

// Carries entries over into an image.
pub fn contribution_book_carry_over(
    image: &[u8],
    entries: &[u8],
    results: &mut [u8],
    output: &mut [u8],
) -> CarryGiven
    ensures { (record { given = result; results = results.new; output = output.new }) ≡ carry_image (load_of image.now) entries.now results.old output.old }
{
    carry_image(image, entries, results, output)
}

// The statement of an account of an image.
pub fn contribution_book_statement(image: &[u8], account: u16, allowance: u64) -> StatementGiven
    ensures { result ≡ statement_image (load_of image.now) account allowance }
{
    statement_image(image, account, allowance)
}

// What is known of a contribution of an image.
pub fn contribution_book_contribution(
    image: &[u8],
    account: u16,
    node: u8,
    serial: u32,
) -> ContributionGiven
    ensures { result ≡ contribution_image (load_of image.now) account node serial }
{
    contribution_image(image, account, node, serial)
}

// The totals of a calendar year of an image.
pub fn contribution_book_year(image: &[u8], year: u16) -> YearGiven
    ensures { result ≡ year_image (load_of image.now) year }
{
    year_image(image, year)
}

// The page of an account of an image.
pub fn contribution_book_page(image: &[u8], account: u16, output: &mut [u8]) -> PageGiven
    ensures { (record { given = result; output = output.new }) ≡ page_image (load_of image.now) account output.old }
{
    page_image(image, account, output)
}

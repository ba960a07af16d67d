// The page of an account of an image.
#![tactic(auto)]

ghost use Rattle.std.specs.Prelude.{◌≡◌};
ghost use Rattle.loads.specs.Given.{bytes_given_of};
ghost use Rattle.loads.specs.Loads.{load_of};
ghost use Rattle.image_page.specs.Pages.{page_image};

use book::Next;
use loads::{BytesGiven, Fault, load};
use pages::page;

// What the exported call gives.
pub type PageGiven = BytesGiven;

// The bytes written, or the fault.
pub type PageImageAnswer = Result<usize, Fault>;

// Writes the page of an account of an image at the start of the output.
#[tactic(auto, using(entries::proofs::RefusalsLaws::is_refusal), unfolding(loads::specs::Loaded::loaded_reply, pages::specs::Pages::page_exit_of, loads::specs::Given::bytes_given_of, crate::specs::Pages::page_image))]
pub fn page_answer(image: &[u8], account: u16, output: &mut [u8]) -> PageImageAnswer
    ensures { (record { given = bytes_given_of result; output = output.new }) ≡ page_image (load_of image.now) account output.old }
{
    let Next { book, answer } = load(image);
    answer?;
    Ok(page(&book, account, output)?)
}

// The same, as a C struct.
pub fn page_image(image: &[u8], account: u16, output: &mut [u8]) -> PageGiven
    ensures { (record { given = result; output = output.new }) ≡ page_image (load_of image.now) account output.old }
{
    page_answer(image, account, output).into()
}

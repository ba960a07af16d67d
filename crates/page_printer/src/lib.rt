// What the page printer writes.
#![tactic(auto)]

ghost use Rattle.std.specs.Prelude.{◌≡◌};
ghost use Rattle.loads.specs.Loads.{load_of};
ghost use Rattle.page_printer.specs.Printed.{printed_page};

use buffers::Text;
use image_page::page_answer;
use lines::refused_line;
use pages::PAGE;
use std::io;

// What the printer writes of an account of an image.
pub fn printed_page(image: &[u8], account: u16) -> Text<PAGE>
    ensures { result ≡ printed_page (load_of image.now) account }
{
    let mut page = [0u8; PAGE];
    let mut text = Text::new();
    match page_answer(image, account, &mut page) {
        Ok(bytes) => text.push(&page[..bytes]),
        Err(fault) => {
            let number = u8::from(fault.refusal);
            text.push(refused_line(u64::from(number), u64::from(fault.record_number())).as_slice());
        }
    }
    text
}

// Writes what the printer writes of an account of an image to standard output.
pub fn print_page(rt: &impl Print, image: &[u8], account: u16) -> io::Result<()> {
    rt.write_all(printed_page(image, account).as_slice())
}

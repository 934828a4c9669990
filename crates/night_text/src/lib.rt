// What the text of a line of a night is: the header, a block, or text that cannot be read.
#![tactic(auto)]

ghost use Rattle.std.specs.Prelude.{◌≡◌, length};
ghost use Rattle.layout.specs.Layout.{row_words};
ghost use Rattle.night_text.specs.Text.{says, text_says};

use csv_header::is_header;
use night_block::read_block;

// A block's row is in the slice that was lent for it.
#[derive(Clone, Copy)]
pub enum LineIs {
    Unread,
    Header,
    Block,
}

// The text of a line, without its end: the first line is the header, any other a block.
pub fn text_is(physical: u64, text: &[u8], row: &mut [u64]) -> LineIs
    requires { length row.old ≡ row_words }
    ensures { says result row.new ≡ text_says physical text.now }
{
    if physical == 1 {
        if is_header(text) {
            return LineIs::Header;
        }
        return LineIs::Unread;
    }
    if read_block(text, row) {
        return LineIs::Block;
    }
    LineIs::Unread
}

// For the test programs: a card written, and what the writer gives back printed.
#![tactic(auto)]

ghost use Rattle.std.specs.Prelude.{◌≡◌, length};
ghost use Rattle.card_format.specs.Written.{written, written_by};
ghost use Rattle.card_format.specs.Filing.{written_size};
ghost use Rattle.test_card_printing.specs.Written.{written_length, written_bytes};

use card_format::FiledCard;
use refusals::Refusal;

// A card that was written, or the number that refuses; its length.
pub fn print_written(rt: &HostRuntime, filed: Result<FiledCard, u32>) -> usize
    ensures { result ≡ written_size (written_by filed) }
{
    match filed {
        Err(n) => {
            test_printing::refused(rt, n);
            0
        }
        Ok(card) => {
            test_printing::answer(rt, card.answer);
            test_printing::line(rt, b"bytes", card.size as u64);
            card.size
        }
    }
}

// What the writer gives back; its length.
pub fn print_filed(rt: &HostRuntime, filed: Result<FiledCard, Refusal>) -> usize
    ensures { result ≡ written_size (written filed) }
{
    match filed {
        Err(refusal) => print_written(rt, Err(refusal.number())),
        Ok(card) => print_written(rt, Ok(card)),
    }
}

// Writes the card of two files to the first `room` bytes of a buffer, prints what the writer gives back, and gives back its length.
pub fn written(rt: &HostRuntime, book: &[u8], sheet: &[u8], buffer: &mut [u8], room: usize) -> usize
    ensures value { result ≡ written_length book.now sheet.now room (length buffer.old) }
    ensures buffer_after { buffer.new ≡ written_bytes book.now sheet.now room buffer.old }
{
    if buffer.len() < room {
        return 0;
    }
    let start = 0;
    print_filed(
        rt,
        written_card::write_card(book, sheet, &mut buffer[start..room]),
    )
}

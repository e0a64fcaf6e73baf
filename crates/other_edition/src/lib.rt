// A sheet written in the other edition: WSH1 into WSH2 with every factor 1, WSH2 into WSH1 where every factor is 1.
//
// Entry, which asks nothing of its caller: other_edition. Helpers for other crates: refusal_in, which asks nothing either; other_number and
// other_size, whose callers prove what they require.
#![tactic(auto)]

ghost use Rattle.std.specs.Prelude.{◌≡◌, ◌+◌, ◌*◌, ◌≤◌, length};
ghost use Rattle.refusals.specs.Numbers.{refusal_number};
ghost use Rattle.files.specs.Limits.{file_limit};
ghost use Rattle.method.specs.Answers.{slots_after};
ghost use Rattle.buffers.specs.Placed.{placed};
ghost use Rattle.editions.specs.Rewritten.{rewritten};
ghost use Rattle.editions.specs.Rewriting.{other_number, other_edition, edition_refusal, rewriting};
ghost use Rattle.editions.specs.Promise.{EditionRight};
ghost use Rattle.other_edition.specs.Ending.{ending, Convertible};

use buffers::put_bytes;
use editions::Edition;
use refusals::Refusal;

// The most bytes a file may have.
const MOST_BYTES: usize = 40000;

// The edition that a sheet is converted into.
pub fn other_number(sheet: &[u8]) -> u32
    requires { 16 ≤ length sheet.now }
    ensures { result ≡ other_number sheet.now }
{
    if files::ends_with(sheet, b"WSH2") {
        return 1;
    }
    2
}

// How many bytes the conversion has: a factor for each column more in WSH2, less in WSH1.
pub fn other_size(sheet: &[u8], number: u32) -> usize
    requires convertible { Convertible sheet.now }
    requires number_value { number ≡ other_number sheet.now }
    ensures { result ≡ length (other_edition sheet.now) }
{
    let columns = files::sheet_columns(sheet) as usize;
    if number == 1 {
        return sheet.len() - columns;
    }
    sheet.len() + columns
}

// Whether the conversion into an output of `room` bytes is refused.
pub fn refusal_in(sheet: &[u8], room: usize) -> Result<(), Refusal>
    ensures { refusal_number result ≡ edition_refusal sheet.now room }
{
    validation::sheet_refusal_in(sheet, 1, 64)?;
    if !factors::is_plain(sheet) {
        return Err(Refusal::EditionFactors);
    }
    let number = other_number(sheet);
    let size = other_size(sheet, number);
    if room < size {
        return Err(Refusal::EditionRoom);
    }
    if MOST_BYTES < size {
        return Err(Refusal::EditionRoom);
    }
    Ok(())
}

// What follows the target, from its end on: every factor 1 in the edition 2, then the trailer. The target starts at the first byte.
fn put_ending(output: &mut [u8], number: u32, columns: usize, steps: u32, tolerance: u32)
    requires columns_bound { columns ≤ 64 }
    requires tolerance_in_bounds { 2 * columns + length (ending number columns steps tolerance) ≤ length output.old }
    ensures { output.new ≡ placed output.old (2 * columns) (ending number columns steps tolerance) }
{
    if number == 1 {
        sheet_output::put_sheet_trailer(output, 2 * columns, columns, steps, tolerance);
        return;
    }
    let ones = [1u8; 64];
    put_bytes(output, 2 * columns, &ones[..columns]);
    sheet_output::put_factored_trailer(output, 3 * columns, columns, steps, tolerance);
}

// The conversion, from the output's first byte on: front text and target as they are, then what follows in the other edition.
fn put_other(sheet: &[u8], number: u32, output: &mut [u8])
    requires convertible { Convertible sheet.now }
    requires number_value { number ≡ other_number sheet.now }
    requires sheet_in_bounds { length (other_edition sheet.now) ≤ length output.old }
    ensures { output.new ≡ placed output.old 0 (other_edition sheet.now) }
{
    let columns = files::sheet_columns(sheet) as usize;
    let front = files::sheet_body(sheet);
    let end = front + 2 * columns;
    put_bytes(output, 0, &sheet[..end]);
    let steps = files::steps(sheet);
    let tolerance = files::tolerance(sheet);
    put_ending(&mut output[front..], number, columns, steps, tolerance);
}

// ENTRY. A sheet in the other edition, by its letters, written to the first bytes of `output`: refuses a sheet by its own tests (11 to 17
// and 46; 13 for columns that are not 1 to 64), a factor other than 1 (47), then an output that is shorter than the result or a result of
// more than 40,000 bytes (48), and leaves the output as it was; else gives the edition and how many bytes it wrote. Later bytes are as
// they were. The third clause says that the result is accepted, asks for the same, goes back to the same bytes, and has the same outcomes
// on every book (EditionRight).
pub fn other_edition(sheet: &[u8], output: &mut [u8]) -> Result<Edition, Refusal>
    ensures value { rewritten result ≡ rewriting (edition_refusal sheet.now (length output.old)) (other_number sheet.now) (length (other_edition sheet.now)) }
    ensures output_after { output.new ≡ slots_after (edition_refusal sheet.now (length output.old)) (other_edition sheet.now) output.old }
    ensures edition_right { EditionRight sheet.now (rewritten result) output.new }
{
    refusal_in(sheet, output.len())?;
    let number = other_number(sheet);
    let size = other_size(sheet, number);
    put_other(sheet, number, output);
    Ok(Edition { number, size })
}

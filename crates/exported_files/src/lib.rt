// Functions for programs in other languages: files made from scale cells, sheets and books. Each is a thin function over an entry of another crate;
// exported_files_c exports them for C.
//
// Entries, which ask nothing of their caller: dofitrano_sheet_values, dofitrano_scale_sheet, dofitrano_other_edition, dofitrano_merge_books.
// A slice passes as a pointer and a length; include/dofitrano.h declares the functions for C and says what a caller in another
// language must see to. The first clause of a contract gives the reply, the second every slot or byte that was lent, the third
// what the entry behind it promises of both.
#![tactic(auto)]

ghost use Rattle.std.specs.Prelude.{◌≡◌, length};
ghost use Rattle.method.specs.Answers.{slots_after};
ghost use Rattle.exported_types.specs.Replies.{edition_reply_of};
ghost use Rattle.scale_cells.specs.Cells.{sheet_values};
ghost use Rattle.scale_cells.specs.Promise.{ConversionRight};
ghost use Rattle.scale_sheet.specs.Sheets.{scale_sheet};
ghost use Rattle.scale_sheet.specs.Promise.{SheetRight};
ghost use Rattle.scale_cell_lists.specs.Lists.{flat_cells};
ghost use Rattle.editions.specs.Rewriting.{other_number, other_edition, edition_refusal, rewriting};
ghost use Rattle.editions.specs.Promise.{EditionRight};
ghost use Rattle.merged_book.specs.Merging.{merged_book, merge_refusal, merging};
ghost use Rattle.merged_book.specs.Promise.{MergeRight};

use exported_types::EditionReply;
use merged_book::Merged;
use scale_cells::SheetValues;
use scale_sheet::ScaleSheet;

// ENTRY. The sheet values of scale cells for other languages: those of `sheet_values` for the cells of four lists.
pub fn dofitrano_sheet_values(
    book: &[u8],
    kinds: &[u8],
    first: &[f64],
    second: &[f64],
    units: &[u32],
) -> SheetValues
    ensures value { result ≡ sheet_values book.now (flat_cells kinds.now first.now second.now units.now) }
    ensures conversion_right { ConversionRight book.now (flat_cells kinds.now first.now second.now units.now) result }
{
    let cells = scale_cell_lists::cells_of(kinds, first, second, units);
    match scale_conversion::sheet_values(book, cells) {
        Ok(values) => SheetValues { refusal: 0, values },
        Err(refusal) => SheetValues {
            refusal: refusal.number(),
            values: [0i16; 64],
        },
    }
}

// ENTRY. The sheet of scale cells for other languages: that of `scale_sheet` for the cells of four lists.
pub fn dofitrano_scale_sheet(
    book: &[u8],
    kinds: &[u8],
    first: &[f64],
    second: &[f64],
    units: &[u32],
    steps: u32,
    tolerance: u32,
) -> ScaleSheet
    ensures value { result ≡ scale_sheet book.now (flat_cells kinds.now first.now second.now units.now) steps tolerance }
    ensures sheet_right { SheetRight book.now (flat_cells kinds.now first.now second.now units.now) steps tolerance result }
{
    let cells = scale_cell_lists::cells_of(kinds, first, second, units);
    match scale_sheet::scale_sheet(book, cells, steps, tolerance) {
        Ok(made) => {
            let bytes = made.bytes;
            ScaleSheet {
                refusal: 0,
                len: made.len,
                bytes,
            }
        }
        Err(refusal) => ScaleSheet {
            refusal: refusal.number(),
            len: 0,
            bytes: [0u8; 144],
        },
    }
}

// ENTRY. A sheet in its other edition for other languages: the reply of `other_edition` for this sheet and this output, and its bytes
// afterwards.
pub fn dofitrano_other_edition(sheet: &[u8], output: &mut [u8]) -> EditionReply
    ensures value { result ≡ edition_reply_of (rewriting (edition_refusal sheet.now (length output.old)) (other_number sheet.now) (length (other_edition sheet.now))) }
    ensures output_after { output.new ≡ slots_after (edition_refusal sheet.now (length output.old)) (other_edition sheet.now) output.old }
    ensures edition_right { EditionRight sheet.now (rewriting (edition_refusal sheet.now (length output.old)) (other_number sheet.now) (length (other_edition sheet.now))) output.new }
{
    let given = other_edition::other_edition(sheet, &mut *output);
    exported_types::edition_reply_to(given)
}

// ENTRY. One fleet book from two for other languages: what `merge_books` gives back for these books and this buffer, and its bytes
// afterwards.
pub fn dofitrano_merge_books(first: &[u8], second: &[u8], output: &mut [u8]) -> Merged
    ensures value { result ≡ merging (merge_refusal first.now second.now (length output.old)) (length (merged_book first.now second.now)) }
    ensures output_after { output.new ≡ slots_after (merge_refusal first.now second.now (length output.old)) (merged_book first.now second.now) output.old }
    ensures merge_right { MergeRight first.now second.now result output.new }
{
    match merge_books::merge_books(first, second, output) {
        Ok(len) => Merged { refusal: 0, len },
        Err(refusal) => Merged {
            refusal: refusal.number(),
            len: 0,
        },
    }
}

// A fleet book's trailer put into a buffer, right after the rows.
//
// A helper for other crates, whose callers prove that there is room: put_book_trailer.
#![tactic(auto)]

ghost use Rattle.std.specs.Prelude.{◌≡◌, ◌+◌, ◌≤◌, length};
ghost use Rattle.buffers.specs.Placed.{placed};
ghost use Rattle.book_output.specs.Output.{book_trailer};

use buffers::{put, put_bytes};

// A fleet book's trailer from `at` on, which is also its back count.
pub fn put_book_trailer(output: &mut [u8], at: usize, boats: usize, columns: usize)
    requires { at + 12 ≤ length output.old }
    ensures { output.new ≡ placed output.old at (book_trailer at boats columns) }
{
    put(output, at, 4, at as u64);
    put(output, at + 4, 2, boats as u64);
    put(output, at + 6, 2, columns as u64);
    put_bytes(output, at + 8, b"WBK1");
}

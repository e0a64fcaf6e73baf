// Bytes put into a buffer that the caller lends: a number's, lowest first, or those of a list.
//
// Helpers for other crates, whose callers prove that there is room: put, put_bytes.
#![tactic(auto)]

ghost use Rattle.std.specs.Prelude.{◌≡◌, ◌+◌, ◌≤◌, length};
ghost use Rattle.files.specs.Bytes.{number_bytes};
ghost use Rattle.buffers.specs.Placed.{placed};

// The `width` bytes of a number from `at` on, the lowest first.
pub fn put(output: &mut [u8], at: usize, width: usize, number: u64)
    requires { at + width ≤ length output.old }
    ensures { output.new ≡ placed output.old at (number_bytes width number) }
{
    let mut rest = number;
    for i in 0..width {
        output[at + i] = (rest % 256) as u8;
        rest /= 256;
    }
}

// Bytes from `at` on.
pub fn put_bytes(output: &mut [u8], at: usize, bytes: &[u8])
    requires { at + length bytes.now ≤ length output.old }
    ensures { output.new ≡ placed output.old at bytes.now }
{
    for i in 0..bytes.len() {
        output[at + i] = bytes[i];
    }
}

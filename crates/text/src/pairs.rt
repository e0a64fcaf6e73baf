// The two figures of each number below 100, as ASCII bytes. They are worked out: a table of them would take 200 bytes of read-only memory.
ghost use Rattle.std.specs.Prelude.{◌≡◌, ◌<◌, ◌/◌, ◌%◌};
ghost use Rattle.text.specs.Decimal.{figure};

// The first of the two figures of `n`.
pub fn tens(n: usize) -> u8
    requires { n < 100 }
    ensures { result ≡ figure (n / 10) }
{
    (48 + n / 10) as u8
}

// The second.
pub fn units(n: usize) -> u8
    requires { n < 100 }
    ensures { result ≡ figure (n % 10) }
{
    (48 + n % 10) as u8
}

// Decimal digits, and numbers brought into the width of a field.
ghost use Rattle.std.specs.Prelude.{◌≡◌, min};
ghost use Rattle.lent_rows.specs.Rows.{digit_after};

// A digit more at the end of a number: the low four bits of its character. What is too great becomes the
// greatest.
pub fn digit_after(n: u64, c: u8) -> u64
    ensures { result ≡ digit_after n c }
{
    n.saturating_mul(10).saturating_add(u64::from(c % 16))
}

// A number brought into a field of the type T: one that is too great becomes the greatest.
pub trait Narrow<T> {
    fn narrow(self) -> T;
}

impl Narrow<u8> for u64 {
    fn narrow(self) -> u8
        ensures { result ≡ min self 255 }
    {
        u8::try_from(self).unwrap_or(u8::MAX)
    }
}

impl Narrow<u16> for u64 {
    fn narrow(self) -> u16
        ensures { result ≡ min self 65535 }
    {
        u16::try_from(self).unwrap_or(u16::MAX)
    }
}

impl Narrow<u32> for u64 {
    fn narrow(self) -> u32
        ensures { result ≡ min self 4294967295 }
    {
        u32::try_from(self).unwrap_or(u32::MAX)
    }
}

// A place in a table, or a count of it: no table here has more than 255.
pub fn place(n: u64) -> usize
    ensures { result ≡ min n 255 }
{
    let narrowed: u8 = n.narrow();
    usize::from(narrowed)
}

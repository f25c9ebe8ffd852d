//! The meta page's bits.

ghost use Rattle.std.specs.Prelude.{◌≡◌, ℕ, ◌+◌, ◌/◌, ◌%◌, ◌^◌, ◌<◌, ◌==◌, length};
ghost use Rattle.mp_cells.specs.PageView.{bit_of, with_bit, without_bit};

/// Whether the bit of a page is set.
pub(crate) fn is_taken(bits: &[u8], page: u16) -> bool
    requires { page / 8 < length bits.now }
    ensures { result ≡ (bit_of bits.now page == 1) }
{
    bits[usize::from(page / 8)] >> (page % 8) & 1 == 1
}

/// Sets the bit of a page.
pub(crate) fn set_bit(bits: &mut [u8], page: u16)
    requires { page / 8 < length bits.old }
    ensures { bits.new ≡ with_bit bits.old page }
{
    bits[usize::from(page / 8)] |= 1 << (page % 8);
}

/// Clears the bit of a page.
pub(crate) fn clear_bit(bits: &mut [u8], page: u16)
    requires { page / 8 < length bits.old }
    ensures { bits.new ≡ without_bit bits.old page }
{
    bits[usize::from(page / 8)] &= !(1 << (page % 8));
}

//! The classical bits of a rank, and the number that they make.
ghost use Rattle.std.specs.Prelude.{◌≡◌};
ghost use Rattle.qm_instr.specs.Bits.{number_of_bits};

/// How many classical bits a rank has, as the length of a list.
pub const BITS: usize = qm_limits::BITS as usize;

/// The number that a rank's bits make, bit 0 the lowest.
pub fn number_of_bits(bits: &[bool; BITS]) -> u32
    ensures { result ≡ number_of_bits bits.now }
{
    let mut number = 0;
    for k in 0..BITS {
        number = 2 * number + u32::from(bits[BITS - 1 - k]);
    }
    number
}

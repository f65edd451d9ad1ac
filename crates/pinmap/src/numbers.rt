// Numbers of a map: four bytes, high byte first, as they are or as 32-bit two's complement, and back.
ghost use Rattle.std.specs.Prelude.{◌≡◌, ◌+◌, ◌≤◌, length};
ghost use Rattle.pinmap.specs.Number.{bits_at, number_at, bits_of, put_at};

// The number whose four bytes begin at `at`.
#[tactic(auto, unfolding(crate::specs::Number::bits_at))]
pub fn read_bits(bytes: &[u8], at: usize) -> u32
    requires { at + 4 ≤ length bytes.now }
    ensures { result ≡ bits_at bytes.now at }
{
    u32::from_be_bytes([bytes[at], bytes[at + 1], bytes[at + 2], bytes[at + 3]])
}

// The same in two's complement.
#[tactic(auto, unfolding(crate::specs::Number::number_at))]
pub fn read_number(bytes: &[u8], at: usize) -> i32
    requires { at + 4 ≤ length bytes.now }
    ensures { result ≡ number_at bytes.now at }
{
    read_bits(bytes, at).cast_signed()
}

// Writes the four bytes of an i32 from `at` on.
pub fn write_number(bytes: &mut [u8], at: usize, z: i32)
    requires { at + 4 ≤ length bytes.old }
    ensures { bytes.new ≡ put_at bytes.old at (bits_of z) }
{
    write_bits(bytes, at, z.cast_unsigned());
}

// Writes the four bytes of a number from `at` on.
pub fn write_bits(bytes: &mut [u8], at: usize, n: u32)
    requires { at + 4 ≤ length bytes.old }
    ensures { bytes.new ≡ put_at bytes.old at n }
{
    bytes[at..at + 4].copy_from_slice(&n.to_be_bytes());
}

// Numbers of more than one byte, by shifts and masks, and two's complement.
#![tactic(auto)]

ghost use Rattle.std.specs.Prelude.{◌≡◌, ◌+◌, ◌*◌, ◌%◌, ◌^◌, ◌<◌, ◌≤◌};
ghost use Rattle.std.specs.Int.Signed.{mag};
ghost use Rattle.bits.specs.Bits as Spec;

pub fn be16(a: u8, b: u8) -> u32
    ensures { result ≡ Spec.be16 a b }
{
    ((a as u32) << 8) | (b as u32)
}

pub fn be32(a: u8, b: u8, c: u8, d: u8) -> u32
    ensures { result ≡ Spec.be32 a b c d }
{
    (be16(a, b) << 16) | be16(c, d)
}

// The low byte of u.
pub fn low(u: u32) -> u8
    ensures { result ≡ u % 256 }
{
    (u & 0xFF) as u8
}

// A byte whose top two bits are the form, and whose others are u.
pub fn tagged(form: u32, u: u32) -> u8
    requires { (form < 4) × (u < 64) }
    ensures { result ≡ form * 64 + u }
{
    ((form << 6) | u) as u8
}

// The bits u, of which the highest is worth half, read as two's complement.
pub fn signed(half: u32, u: u32) -> i32
    requires { (u < half + half) × (half ≤ 2 ^ 31) }
    ensures { result ≡ Spec.signed half u }
{
    if u < half {
        u as i32
    } else {
        -1 - ((half - 1 - (u - half)) as i32)
    }
}

// v, or -1 - v where v is negative.
pub fn magnitude(v: i32) -> u32
    ensures { result ≡ mag v }
{
    if v < 0 { (-1 - v) as u32 } else { v as u32 }
}

// The bits of v, of which the highest is worth half.
pub fn bits_of(half: u32, v: i32) -> u32
    requires { (mag v < half) × (half ≤ 2 ^ 31) }
    ensures { result ≡ Spec.bits_of half v }
{
    if v < 0 {
        half - 1 - magnitude(v) + half
    } else {
        magnitude(v)
    }
}

// A signed number as a count or a place, where it is one.
pub fn as_natural(v: i32) -> Option<usize>
    ensures { result ≡ Spec.natural_of v }
{
    if v < 0 { None } else { Some(v as usize) }
}

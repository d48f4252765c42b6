// Whole numbers in decimal, read and printed: with a minus where they are below 0, and with digits behind a point.
#![tactic(auto)]

ghost use Rattle.std.specs.Prelude.{◌+◌, ◌-◌, ◌≤◌, length, SomeIff};
ghost use Rattle.laws.specs.Written.{Written};
ghost use Rattle.decimals.specs.Decimals.{sign_of, pointed, decimal};
ghost use Rattle.decimals.specs.Readers.{NaturalOf, SignedOf};

// ---- reading

// The number of a digit.
fn digit(b: u8) -> Option<u64>
    ensures { SomeIff result ((48 ≤ b) × (b ≤ 57)) (b - 48) }
{
    if b.is_ascii_digit() {
        return Some(u64::from(b - b'0'));
    }
    None
}

// The number that the bytes are: a decimal of 64 bits with no needless zero, and nothing behind it.
pub fn read_natural(s: &[u8]) -> Option<u64>
    ensures { NaturalOf s.now result }
{
    let (first, rest) = s.split_first()?;
    let mut n = digit(*first)?;
    for b in rest {
        if n == 0 {
            return None;
        }
        let d = digit(*b)?;
        n = n.checked_mul(10)?.checked_add(d)?;
    }
    Some(n)
}

// The same with a minus in front where the number is below 0, for every i64; there is no plus and no -0.
pub fn read_signed(s: &[u8]) -> Option<i64>
    ensures { SignedOf s.now result }
{
    if let Some(digits) = s.strip_prefix(b"-") {
        let size = read_natural(digits)?;
        let m = i64::try_from(size.checked_sub(1)?).ok()?;
        return Some(-1 - m);
    }
    let n = read_natural(s)?;
    i64::try_from(n).ok()
}

// ---- printing

// A minus where z is below 0, appended.
pub fn put_sign(out: &mut [u8], at: usize, z: i64) -> usize
    requires { at + length (sign_of z) ≤ length out.old }
    ensures { Written out.old at (sign_of z) out.new result }
{
    if z < 0 {
        out[at] = b'-';
        return at + 1;
    }
    at
}

// n with its last k digits behind a point, appended.
fn put_pointed(out: &mut [u8], at: usize, k: usize, n: u64) -> usize
    requires { at + length (pointed k n) ≤ length out.old }
    ensures { Written out.old at (pointed k n) out.new result }
{
    if k == 0 {
        let mid = lines::put_dec(out, at, n);
        out[mid] = b'.';
        return mid + 1;
    }
    let mid = put_pointed(out, at, k - 1, n / 10);
    out[mid] = b'0' + (n % 10) as u8;
    mid + 1
}

// The same, without a point where k is 0.
pub fn put_decimal(out: &mut [u8], at: usize, k: usize, n: u64) -> usize
    requires { at + length (decimal k n) ≤ length out.old }
    ensures { Written out.old at (decimal k n) out.new result }
{
    if k == 0 {
        return lines::put_dec(out, at, n);
    }
    put_pointed(out, at, k, n)
}

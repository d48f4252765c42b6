// Numbers as bytes, lowest byte first: stored into a lent list and read from one.
#![tactic(auto)]

ghost use Rattle.std.specs.Prelude.{◌≡◌, ◌+◌, ◌≤◌, ◌<◌, length};
ghost use Rattle.laws.specs.Written.{Written};
ghost use Rattle.little_endian.specs.Bytes.{bytes_of, number_at};

// The same number in the wider type.
pub fn wider(n: u32) -> u64
    ensures { result ≡ n }
{
    u64::from(n)
}

// The N lowest bytes of w, appended.
fn put<const N: usize>(out: &mut [u8], at: usize, w: u64) -> usize
    requires few { N ≤ 8 }
    requires room { at + N ≤ length out.old }
    ensures { Written out.old at (bytes_of N w) out.new result }
{
    let bytes = w.to_le_bytes();
    out[at..at + N].copy_from_slice(&bytes[..N]);
    at + N
}

// The four lowest bytes of w, appended.
pub fn put4(out: &mut [u8], at: usize, w: u64) -> usize
    requires { at + 4 ≤ length out.old }
    ensures { Written out.old at (bytes_of 4 w) out.new result }
{
    put::<4>(out, at, w)
}

// The eight bytes of w, appended.
pub fn put8(out: &mut [u8], at: usize, w: u64) -> usize
    requires { at + 8 ≤ length out.old }
    ensures { Written out.old at (bytes_of 8 w) out.new result }
{
    put::<8>(out, at, w)
}

// `get4` and `get8` are two functions: the library reads each type by a method of that type, so one over both would be no shorter.

// The number of the four bytes from `at` on.
pub fn get4(s: &[u8], at: usize) -> u32
    requires { at + 4 ≤ length s.now }
    ensures { (result ≡ number_at 4 s.now at) × (result < 4294967296) }
{
    let mut bytes = [0u8; 4];
    bytes.copy_from_slice(&s[at..at + 4]);
    u32::from_le_bytes(bytes)
}

// The number of the eight bytes from `at` on.
pub fn get8(s: &[u8], at: usize) -> u64
    requires { at + 8 ≤ length s.now }
    ensures { result ≡ number_at 8 s.now at }
{
    let mut bytes = [0u8; 8];
    bytes.copy_from_slice(&s[at..at + 8]);
    u64::from_le_bytes(bytes)
}

// Numbers and lines as text, read and printed: one line with its key, and runs of lines whose keys stand one after the other in one byte string.
// A place in a text is its caller's number, who goes on from it in lists of other lines: that it is no further than the end stands in each clause.
#![tactic(auto)]

ghost use Rattle.std.specs.Prelude.{◌≡◌, ◌+◌, ◌*◌, ◌≤◌, ◌<◌, eqb, leb, nat_eq, length, drop, get_or, position};
ghost use Rattle.laws.specs.Written.{Written};
ghost use Rattle.lines.specs.Numbers.{dec};
ghost use Rattle.lines.specs.Lines.{dec_end, hex_end, dec_line, hex_line, Small, Word, line_of, ok_of, lines};
ghost use Rattle.lines.specs.Inner.Readers.{Line, starts, hex_val};
ghost use Rattle.lines.specs.Inner.Forms.{first_key, field_of, form_of};
ghost use Rattle.lines.specs.Inner.Stored.{RunOf};
ghost use Rattle.lines.specs.Status.{refusal_text};

// ---- one line

// The number of a line, and where the next line starts.
#[derive(Clone, Copy)]
pub struct Num {
    pub value: u64,
    pub next: usize,
}

// Whether the bytes from `at` on begin with the key.
pub fn has(s: &[u8], at: usize, key: &[u8]) -> bool
    requires { at ≤ length s.now }
    ensures { result ≡ starts key.now (drop at s.now) }
{
    s[at..].starts_with(key)
}

// Whether an LF stands at i: past the end there is none.
fn ends(s: &[u8], i: usize) -> bool
    ensures { result ≡ eqb (get_or s.now i 0) 10 }
{
    if i < s.len() {
        return s[i] == 10;
    }
    false
}

// The rest of a decimal whose first digit is d, and LF.
fn dec_more(s: &[u8], from: usize, d: u64) -> Option<Num>
    requires { (from < length s.now) × (d < 10) × (get_or s.now from 0 ≡ 48 + d) }
    ensures { Line dec_end Small s.now from result }
{
    let mut n = d;
    for i in from + 1..s.len() {
        let b = s[i];
        if b == b'\n' {
            return Some(Num {
                value: n,
                next: i + 1,
            });
        }
        if !b.is_ascii_digit() {
            return None;
        }
        if n == 0 {
            return None;
        }
        if 100_000_000 <= n {
            return None;
        }
        n = n * 10 + u64::from(b - b'0');
    }
    None
}

// A decimal of at most nine digits with no needless zero, and LF.
fn dec_at(s: &[u8], from: usize) -> Option<Num>
    requires { from ≤ length s.now }
    ensures { Line dec_end Small s.now from result }
{
    let b = *s.get(from)?;
    if !b.is_ascii_digit() {
        return None;
    }
    dec_more(s, from, u64::from(b - b'0'))
}

// The value of a lower-case hex digit; no other byte has one.
fn hex_value(b: u8) -> Option<u64>
    ensures { result ≡ hex_val b }
{
    match b {
        b'0'..=b'9' => Some(u64::from(b - b'0')),
        b'a'..=b'f' => Some(u64::from(b - b'a') + 10),
        _ => None,
    }
}

// Sixteen hex digits and LF.
fn hex_at(s: &[u8], from: usize) -> Option<Num>
    requires { from ≤ length s.now }
    ensures { Line hex_end Word s.now from result }
{
    if s.len() - from < 16 {
        return None;
    }
    let mut n: u64 = 0;
    for b in &s[from..from + 16] {
        let d = hex_value(*b)?;
        n = n * 16 + d;
    }
    if ends(s, from + 16) {
        return Some(Num {
            value: n,
            next: from + 17,
        });
    }
    None
}

// A line with a decimal.
pub fn dec_line(s: &[u8], at: usize, key: &[u8]) -> Option<Num>
    requires { at ≤ length s.now }
    ensures { Line (dec_line key.now) Small s.now at result }
{
    if has(s, at, key) {
        return dec_at(s, at + key.len());
    }
    None
}

// A line with the bits of a float.
pub fn hex_line(s: &[u8], at: usize, key: &[u8]) -> Option<Num>
    requires { at ≤ length s.now }
    ensures { Line (hex_line key.now) Word s.now at result }
{
    if has(s, at, key) {
        return hex_at(s, at + key.len());
    }
    None
}

// ---- a run of lines

// Where the first `=` stands.
fn first_equals(keys: &[u8]) -> Option<usize>
    ensures { result ≡ position (λ b. nat_eq b 61) keys.now }
{
    keys.iter().position(|b| *b == b'=')
}

// Where the key ends that starts at p: past its `=`.
fn key_end(keys: &[u8], p: usize) -> usize
    requires { p ≤ length keys.now }
    ensures { result ≡ p + length (first_key (drop p keys.now)) }
{
    match first_equals(&keys[p..]) {
        Some(i) => p + i + 1,
        None => keys.len(),
    }
}

// Line k of a run whose first decs lines are in decimal, the others by their bits.
fn line(s: &[u8], at: usize, key: &[u8], k: usize, decs: usize) -> Option<Num>
    requires { at ≤ length s.now }
    ensures { Line (line_of (field_of (leb decs k) key.now)) (ok_of (field_of (leb decs k) key.now)) s.now at result }
{
    if k < decs {
        return dec_line(s, at, key);
    }
    hex_line(s, at, key)
}

// The first n lines of the keys, the first decs of them in decimal, the others by their bits: the numbers are stored in the first n places. Answers where the
// run ends.
pub fn read_run(
    s: &[u8],
    from: usize,
    decs: usize,
    keys: &[u8],
    n: usize,
    out: &mut [u64],
) -> Option<usize>
    requires { (from ≤ length s.now) × (n ≤ length out.old) }
    ensures { RunOf (form_of decs n keys.now) s.now from n out.old out.new result }
{
    let mut at = from;
    let mut p = 0usize;
    for k in 0..n {
        let q = key_end(keys, p);
        let Num { value, next } = line(s, at, &keys[p..q], k, decs)?;
        out[k] = value;
        at = next;
        p = q;
    }
    Some(at)
}

// ---- printing

// n in decimal, appended.
pub fn put_dec(out: &mut [u8], at: usize, n: u64) -> usize
    requires { at + length (dec n) ≤ length out.old }
    ensures { Written out.old at (dec n) out.new result }
{
    if n < 10 {
        out[at] = 48 + n as u8;
        return at + 1;
    }
    let mid = put_dec(out, at, n / 10);
    out[mid] = 48 + (n % 10) as u8;
    mid + 1
}

// text, appended.
pub fn put_text(out: &mut [u8], at: usize, text: &[u8]) -> usize
    requires { at + length text.now ≤ length out.old }
    ensures { Written out.old at text.now out.new result }
{
    let end = at + text.len();
    out[at..end].copy_from_slice(text);
    end
}

// A line: key, n in decimal, LF, appended.
pub fn put_line(out: &mut [u8], at: usize, key: &[u8], n: u64) -> usize
    requires { at + length (dec_line key.now n) ≤ length out.old }
    ensures { Written out.old at (dec_line key.now n) out.new result }
{
    let a = put_text(out, at, key);
    let b = put_dec(out, a, n);
    put_text(out, b, b"\n")
}

// The lines of the numbers, in decimal, appended.
pub fn put_run(out: &mut [u8], at: usize, keys: &[u8], vals: &[u64]) -> usize
    requires { at + length keys.now + 21 * length vals.now ≤ length out.old }
    ensures { Written out.old at (lines (form_of (length vals.now) (length vals.now) keys.now) vals.now) out.new result }
{
    let mut next = at;
    let mut p = 0usize;
    for v in vals {
        let q = key_end(keys, p);
        next = put_line(out, next, &keys[p..q], *v);
        p = q;
    }
    next
}

// ---- the line `status=`

// The line of the status, appended: the first line of an answer, and all of a refusal. It never takes more than 28 bytes.
pub fn put_status(out: &mut [u8], at: usize, n: u64) -> usize
    requires { at + 28 ≤ length out.old }
    ensures { Written out.old at (refusal_text n) out.new result }
{
    put_line(out, at, b"status=", n)
}

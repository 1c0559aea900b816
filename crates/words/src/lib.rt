// Numbers and lists in byte slices. What is large lives in bytes of a workspace that the caller lends: these are the
// words to speak of it. Every number is little-endian. A `requires` here is a bound on an index and nothing else.
// Contracts say what is read by the definitions `number_at` and `float_at` [10.1].

#![tactic(auto)]

// What proves the law `wide`: the library's specs state no order of two given numbers.
ghost use Rattle.std.proofs.Common.{lit<};
ghost use Rattle.std.specs.Prelude.{◌≡◌, ◌∷◌, [], ◌+◌, ◌≤◌, ◌<◌, ℕ, length};
ghost use Rattle.std.specs.Float.{binary64};
ghost use Rattle.std.specs.Float.Ieee.{to_bits};
ghost use Rattle.definitions.specs.Job.{number_at, float_at};
ghost use Rattle.words.specs.Words.{put};
ghost use Rattle.words.specs.Floats.{read_of};
ghost use Rattle.words.specs.Writer.{with_word, behind_word};
ghost use Rattle.words.specs.Wrote.{Writes};

// ---- numbers

// Two numbers below 65,536 lie in one of four bytes: the one, and HIGH times the other.
pub const HIGH: u32 = 65536;

// A number that lies in so many bytes of a slice, the lowest byte first.
pub trait Word: Copy {
    ghost BYTES: { ℕ };

    // How many bytes it has.
    const BYTES: usize;

    ghost number: { Self → ℕ };

    // The number that begins at a place.
    fn get(s: &[u8], at: usize) -> Self
        requires { at + BYTES ≤ length s.now }
        ensures { number result ≡ number_at s.now at BYTES };

    // A number written from a place on.
    fn put(s: &mut [u8], at: usize, v: Self)
        requires { at + BYTES ≤ length s.old }
        ensures { s.new ≡ put BYTES s.old at (number v) };

    // One byte or more, so that numbers that fit in a slice are no more than its bytes.
    ghost wide: { 0 < BYTES };
}

// One impl for each width, written out, since no impl is written by a macro of the repository's own.
impl Word for u16 {
    ghost BYTES = { 2 };

    const BYTES: usize = 2;

    ghost number = { λ v. v };

    fn get(s: &[u8], at: usize) -> u16 {
        u16::from_le_bytes(s[at..at + 2].try_into().unwrap())
    }

    fn put(s: &mut [u8], at: usize, v: u16) {
        s[at..at + 2].copy_from_slice(&v.to_le_bytes());
    }

    ghost wide = { lit< tt };
}

impl Word for u32 {
    ghost BYTES = { 4 };

    const BYTES: usize = 4;

    ghost number = { λ v. v };

    fn get(s: &[u8], at: usize) -> u32 {
        u32::from_le_bytes(s[at..at + 4].try_into().unwrap())
    }

    fn put(s: &mut [u8], at: usize, v: u32) {
        s[at..at + 4].copy_from_slice(&v.to_le_bytes());
    }

    ghost wide = { lit< tt };
}

impl Word for u64 {
    ghost BYTES = { 8 };

    const BYTES: usize = 8;

    ghost number = { λ v. v };

    fn get(s: &[u8], at: usize) -> u64 {
        u64::from_le_bytes(s[at..at + 8].try_into().unwrap())
    }

    fn put(s: &mut [u8], at: usize, v: u64) {
        s[at..at + 8].copy_from_slice(&v.to_le_bytes());
    }

    ghost wide = { lit< tt };
}

// ---- floats

// In a bit pattern: the sign, 2^63; the infinity, above which the patterns of NaNs lie, the sign aside; and the one
// that is written for a NaN. A constant calls `to_bits` by its path. The library's `from_bits` and `to_bits` ask for
// no NaN, so the patterns of NaNs are told apart, and named, as numbers.
const SIGN: u64 = 0x8000_0000_0000_0000;

const INFINITY: u64 = f64::to_bits(f64::INFINITY);

const NAN: u64 = 0x7ff8_0000_0000_0000;

// What eight bytes hold: a float, an infinity among them, or nothing where they are the pattern of a NaN.
pub fn get_f64(s: &[u8], at: usize) -> Option<f64>
    requires { at + 8 ≤ length s.now }
    ensures { result ≡ read_of (float_at s.now at) }
{
    let bits = u64::get(s, at);
    let size = bits % SIGN;
    if INFINITY < size {
        return None;
    }
    Some(f64::from_bits(bits))
}

// Every NaN is written as the one that the library's `to_bits` names. No call of the register writes a float; a
// public function stays.
pub fn put_f64(s: &mut [u8], at: usize, x: f64)
    requires { at + 8 ≤ length s.old }
    ensures { s.new ≡ put 8 s.old at (to_bits binary64 x) }
{
    let bits = if x.is_nan() { NAN } else { x.to_bits() };
    u64::put(s, at, bits);
}

// ---- an answer, word by word

// An answer buffer, and where its next word goes: nowhere once there was no room for one.
#[derive(Drop)]
pub struct Writer<'a> {
    pub buffer: &'a mut [u8],
    pub at: Option<usize>,
}

impl<'a> Writer<'a> {
    pub fn new(buffer: &'a mut [u8]) -> Writer<'a>
        ensures { (result.buffer ≡ buffer.entry) × (result.at ≡ Some 0) }
    {
        Writer {
            buffer,
            at: Some(0),
        }
    }

    // Where there is room the word is written at the cursor, which moves behind it; where there is none nothing is
    // written, now and later.
    pub fn push(&mut self, v: u32)
        ensures cursor { self.new.at ≡ behind_word (length self.old.buffer.now) self.old.at }
        ensures buffer { self.new.buffer.now ≡ with_word self.old.buffer.now self.old.at v }
        ensures writes { Writes self.old self.new (v ∷ []) }
    {
        let n = self.buffer.len();
        if let Some(at) = self.at {
            if at <= n && 4 <= n - at {
                u32::put(self.buffer, at, v);
                self.at = Some(at + 4);
            } else {
                self.at = None;
            }
        }
    }

    pub fn push_three(&mut self, a: u32, b: u32, c: u32)
        ensures { Writes self.old self.new (a ∷ b ∷ c ∷ []) }
    {
        self.push(a);
        self.push(b);
        self.push(c);
    }
}

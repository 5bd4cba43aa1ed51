// `Turns`: which hart is expected to run next, and the number whose digits come.
ghost use Rattle.std.specs.Prelude.{◌≡◌};

/// Which hart ran last behind each hart, by the last four bits of its number; which ran last of all; which is expected; and the
/// number whose digits are being told.
#[derive(Clone, Copy)]
pub struct Turns {
    pub follow: [u32; 16],
    pub last: u32,
    pub expected: u32,
    pub number: u64,
}

impl Turns {
    ghost use Rattle.run_tape.specs.Turning.{start, gone, with_digit, expecting, count_at};

    /// Before the first byte.
    pub fn start() -> Turns
        ensures { result ≡ start }
    {
        Turns {
            follow: [0; 16],
            last: 0,
            expected: 0,
            number: 0,
        }
    }

    /// The expected hart ran.
    pub fn go(&mut self)
        ensures { self.new ≡ gone self.old }
    {
        self.follow[(self.last % 16) as usize] = self.expected;
        self.last = self.expected;
        self.expected = self.follow[(self.expected % 16) as usize];
        self.number = 0;
    }

    /// Six bits more of a number.
    pub fn digit(&mut self, byte: u8)
        ensures { self.new ≡ with_digit self.old byte }
    {
        self.number = self.number % 0x0400_0000_0000_0000 * 64 + u64::from(byte % 64);
    }

    /// The hart is expected whose number has these five bits behind it.
    pub fn expect(&mut self, byte: u8)
        ensures { self.new ≡ expecting self.old byte }
    {
        self.expected = (self.number % 0x0800_0000) as u32 * 32 + u32::from(byte % 32);
        self.number = 0;
    }

    /// The number with these seven bits behind it.
    pub fn count(&self, byte: u8) -> u64
        ensures { result ≡ count_at self.now byte }
    {
        self.number % 0x0200_0000_0000_0000 * 128 + u64::from(byte % 128)
    }
}

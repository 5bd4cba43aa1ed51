// What a reader sees of a hart.
ghost use Rattle.std.specs.Prelude.{◌≡◌, ◌≤◌, Option, ℕ};

/// What a reader sees of one hart: its registers and the bytes of memory.
pub trait View {
    /// The registers by number; 32 is pc.
    ghost registers: { Self → ℕ → ℕ };

    /// The mapped bytes by address.
    ghost bytes: { Self → ℕ → Option ℕ };

    /// The register of a number up to 32; 32 is pc.
    fn reg(&self, n: u32) -> u32
        requires { n ≤ 32 }
        ensures { result ≡ registers self.now n };

    /// The byte at an address, where it is mapped.
    fn byte(&self, addr: u32) -> Option<u8>
        ensures { result ≡ bytes self.now addr };
}

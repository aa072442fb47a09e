// The seed, which moves at each format and each successful mount.
ghost use Rattle.std.specs.Prelude.{◌≡◌};
ghost use Rattle.seq.specs.Seed.{seed_after};

// The product wraps on purpose: it is made in 64 bits, and the low 32 are kept.
pub fn seed_step(seed: u32) -> u32
    ensures { result ≡ seed_after seed }
{
    ((seed as u64) * 1750509587 % 0x1_0000_0000) as u32
}

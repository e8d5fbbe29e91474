ghost use Rattle.sk_gen.specs.declared.fault.MakeFault.TheVariants as fault;
ghost use Rattle.std.specs.Prelude.{◌≡◌};

/// Why no model is made.
#[derive(Clone, Copy, Debug, PartialEq, Eq)]
pub enum MakeFault {
    /// The number of lines isn't from 1 to 90.
    BadCount,
    /// Want of memory.
    NoMemory,
}

impl From<crate::NoMemory> for MakeFault {
    ghost from_gives = { λ _ e. e ≡ fault.NoMemory };

    fn from(_: crate::NoMemory) -> Self {
        MakeFault::NoMemory
    }
}

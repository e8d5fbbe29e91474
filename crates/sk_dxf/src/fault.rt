ghost use Rattle.sk_dxf.specs.declared.fault.DxfFault.TheVariants as fault;
ghost use Rattle.std.specs.Prelude.{◌≡◌};

/// Why no drawing is written.
#[derive(Clone, Copy, Debug, PartialEq, Eq)]
pub enum DxfFault {
    /// The model has no such group.
    NoGroup,
    /// Want of memory.
    NoMemory,
}

impl From<crate::NoMemory> for DxfFault {
    ghost from_gives = { λ _ e. e ≡ fault.NoMemory };

    fn from(_: crate::NoMemory) -> Self {
        DxfFault::NoMemory
    }
}

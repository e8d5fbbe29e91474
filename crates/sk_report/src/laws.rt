// Laws of blocks. The function here does nothing when it runs: its contract is the laws.

ghost use Rattle.sk_report.specs.BlockLaws.{CentreLaw, LineLaw, ReachLaw};

/// What the lines of a block stand for. There is one for each unknown, in order, and its number is read back. Where the
/// certificate is whole, there is one with a radius for each solved column, in order, and one without for each held parameter.
/// A certified box reaches as far in each unknown as is printed of it.
pub fn block_laws()
    ensures centre { CentreLaw }
    ensures lines { LineLaw }
    ensures reach { ReachLaw }
{}

// A law of curves. The function here does nothing when it runs: its contract is the law.

ghost use Rattle.sk_cubic.specs.CurveLaws.{CurveLaw};

/// Of any four control points: point 0 is the first and point 16 the last, each component of every point lies between the
/// least and the greatest of the four, and the points of the reversed control points come in reversed order.
pub fn curve_law()
    ensures { CurveLaw }
{}

// A law of faces. The function here does nothing when it runs: its contract is the law.

ghost use Rattle.sk_face.specs.SideLaws.{SideLaw};

/// At every point and every precision the normal vector of a side is at a right angle to the line and to the vector along
/// which the line is moved.
pub fn side_law()
    ensures { SideLaw }
{}

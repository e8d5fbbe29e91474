// A law of drawings. The function here does nothing when it runs: its contract is the law.

ghost use Rattle.sk_dxf.specs.DrawingLaws.{DrawingLaw};

/// A drawing begins and ends as a DXF does. Between stand exactly the entities that the group draws, in handle order.
pub fn drawing_law()
    ensures { DrawingLaw }
{}

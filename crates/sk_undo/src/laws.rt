ghost use Rattle.sk_undo.specs.ChangeLaws.{ChangeLaw};

/// What holds of every two texts: front and back are the greatest in which they agree, and each text is made from the other.
pub fn change_law()
    ensures { ChangeLaw }
{}

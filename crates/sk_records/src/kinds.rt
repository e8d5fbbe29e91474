// Kinds of records.
ghost use Rattle.std.specs.Prelude.{◌≡◌};
ghost use Rattle.sk_records.specs.Kinds.{kind_place, same_kind};

/// A kind of record, in the order of the format.
#[derive(Clone, Copy)]
pub enum Kind {
    Group,
    Param,
    Request,
    Entity,
    Constraint,
    Style,
}

impl Kind {
    /// The kind's place in the order of kinds.
    pub fn place(self) -> usize
        ensures { result ≡ kind_place self }
    {
        match self {
            Kind::Group => 0,
            Kind::Param => 1,
            Kind::Request => 2,
            Kind::Entity => 3,
            Kind::Constraint => 4,
            Kind::Style => 5,
        }
    }

    /// Whether two kinds are the same.
    pub fn is(self, other: Kind) -> bool
        ensures { result ≡ same_kind self other }
    {
        self.place() == other.place()
    }
}

/// A record's name: its kind, and its place, from 0, among the records of that kind.
#[derive(Clone, Copy)]
pub struct RecId {
    pub kind: Kind,
    pub place: usize,
}

// The keys of an entity's record that are read.

ghost use Rattle.std.specs.Prelude.{◌≡◌, ◌<◌, length, map};
ghost use Rattle.sk_records.specs.Answers.{rows_in};
ghost use Rattle.sk_records.specs.Blocks.{records};
ghost use Rattle.sk_records.specs.Rows.{last_place};
ghost use Rattle.sk_link.specs.Keys.{key_bytes, key_place, all_keys};

use sk_records::{Book, RecId};

/// How many keys there are.
pub(crate) const KEYS: usize = 16;

/// A key of an entity's record, named for what stands under it.
#[derive(Clone, Copy)]
pub(crate) enum Key {
    Handle,
    Number,
    Construction,
    FirstPoint,
    SecondPoint,
    ThirdPoint,
    Normal,
    Distance,
    PlaceX,
    PlaceY,
    PlaceZ,
    TurnW,
    TurnX,
    TurnY,
    TurnZ,
    Length,
}

impl Key {
    /// The key as it stands in a text.
    #[tactic(auto, unfolding(crate::specs::Keys::key_bytes))]
    pub(crate) fn bytes(self) -> &'static [u8]
        ensures { result.now ≡ key_bytes self }
    {
        match self {
            Key::Handle => b"Entity.h.v",
            Key::Number => b"Entity.type",
            Key::Construction => b"Entity.construction",
            Key::FirstPoint => b"Entity.point[0].v",
            Key::SecondPoint => b"Entity.point[1].v",
            Key::ThirdPoint => b"Entity.point[2].v",
            Key::Normal => b"Entity.normal.v",
            Key::Distance => b"Entity.distance.v",
            Key::PlaceX => b"Entity.actPoint.x",
            Key::PlaceY => b"Entity.actPoint.y",
            Key::PlaceZ => b"Entity.actPoint.z",
            Key::TurnW => b"Entity.actNormal.w",
            Key::TurnX => b"Entity.actNormal.vx",
            Key::TurnY => b"Entity.actNormal.vy",
            Key::TurnZ => b"Entity.actNormal.vz",
            Key::Length => b"Entity.actDistance",
        }
    }

    /// The key's place in the order of the keys.
    pub(crate) fn place(self) -> usize
        ensures place { result ≡ key_place self }
        ensures there { result < 16 }
    {
        match self {
            Key::Handle => 0,
            Key::Number => 1,
            Key::Construction => 2,
            Key::FirstPoint => 3,
            Key::SecondPoint => 4,
            Key::ThirdPoint => 5,
            Key::Normal => 6,
            Key::Distance => 7,
            Key::PlaceX => 8,
            Key::PlaceY => 9,
            Key::PlaceZ => 10,
            Key::TurnW => 11,
            Key::TurnX => 12,
            Key::TurnY => 13,
            Key::TurnZ => 14,
            Key::Length => 15,
        }
    }
}

/// The places of a record's last lines with the keys, in their order, in one pass over its lines.
pub(crate) fn find_lines(book: &Book, rec: RecId) -> [Option<usize>; KEYS]
    requires { rec.place < length (records rec.kind book.now) }
    ensures { result ≡ map (λ k. last_place (key_bytes k) (rows_in rec book.now)) all_keys }
{
    let keys: [&[u8]; KEYS] = [
        Key::Handle.bytes(),
        Key::Number.bytes(),
        Key::Construction.bytes(),
        Key::FirstPoint.bytes(),
        Key::SecondPoint.bytes(),
        Key::ThirdPoint.bytes(),
        Key::Normal.bytes(),
        Key::Distance.bytes(),
        Key::PlaceX.bytes(),
        Key::PlaceY.bytes(),
        Key::PlaceZ.bytes(),
        Key::TurnW.bytes(),
        Key::TurnX.bytes(),
        Key::TurnY.bytes(),
        Key::TurnZ.bytes(),
        Key::Length.bytes(),
    ];
    let mut found = [None; KEYS];
    book.find(rec, &keys, &mut found);
    found
}

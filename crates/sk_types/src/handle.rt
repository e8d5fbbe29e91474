// Handles, and the numbers packed into them.

ghost use Rattle.std.specs.Prelude.{◌≡◌, ◌≤◌};
ghost use Rattle.sk_types.specs.Handles.{item_of_request, item_of_group, maker_of};

/// The handle of a group; 0 is none.
#[derive(Clone, Copy, Debug, PartialEq, Eq, PartialOrd, Ord, Hash)]
pub struct GroupId(pub u32);

/// The handle of a request; 0 is none.
#[derive(Clone, Copy, Debug, PartialEq, Eq, PartialOrd, Ord, Hash)]
pub struct RequestId(pub u32);

/// The handle of an entity; 0 is none.
#[derive(Clone, Copy, Debug, PartialEq, Eq, PartialOrd, Ord, Hash)]
pub struct EntityId(pub u32);

/// The handle of a parameter; 0 is none.
#[derive(Clone, Copy, Debug, PartialEq, Eq, PartialOrd, Ord, Hash)]
pub struct ParamId(pub u32);

/// The handle of a constraint; 0 is none.
#[derive(Clone, Copy, Debug, PartialEq, Eq, PartialOrd, Ord, Hash)]
pub struct ConstraintId(pub u32);

/// The request or group that makes an entity or a parameter, and which item of it that is.
#[derive(Clone, Copy, Debug, PartialEq, Eq)]
pub enum Maker {
    /// That item of the request.
    OfRequest(RequestId, u16),
    /// That item of the group.
    OfGroup(GroupId, u16),
}

// What stands above the items of requests.
const GROUPS: u32 = 1 << 31;

fn item_of_request(r: RequestId, i: u16) -> u32
    requires { r.0 ≤ 32767 }
    ensures number { result ≡ item_of_request r.0 i }
    ensures maker { maker_of result ≡ Maker.OfRequest r i }
{
    r.0 * 65536 + u32::from(i)
}

fn item_of_group(g: GroupId, i: u16) -> u32
    requires { g.0 ≤ 32767 }
    ensures number { result ≡ item_of_group g.0 i }
    ensures maker { maker_of result ≡ Maker.OfGroup g i }
{
    GROUPS + g.0 * 65536 + u32::from(i)
}

fn maker_of(handle: u32) -> Maker
    ensures { result ≡ maker_of handle }
{
    let item = (handle % 65536) as u16;
    if handle < GROUPS {
        Maker::OfRequest(RequestId(handle / 65536), item)
    } else {
        Maker::OfGroup(GroupId((handle - GROUPS) / 65536), item)
    }
}

impl EntityId {
    /// The i-th entity of the request.
    pub fn of_request(r: RequestId, i: u16) -> EntityId
        requires { r.0 ≤ 32767 }
        ensures number { result.0 ≡ item_of_request r.0 i }
        ensures maker { maker_of result.0 ≡ Maker.OfRequest r i }
    {
        EntityId(item_of_request(r, i))
    }

    /// The i-th entity of the group.
    pub fn of_group(g: GroupId, i: u16) -> EntityId
        requires { g.0 ≤ 32767 }
        ensures number { result.0 ≡ item_of_group g.0 i }
        ensures maker { maker_of result.0 ≡ Maker.OfGroup g i }
    {
        EntityId(item_of_group(g, i))
    }

    /// The request or group that makes the entity. It undoes `of_request` and `of_group`.
    pub fn maker(self) -> Maker
        ensures { result ≡ maker_of self.0 }
    {
        maker_of(self.0)
    }
}

impl ParamId {
    /// The i-th parameter of the request.
    pub fn of_request(r: RequestId, i: u16) -> ParamId
        requires { r.0 ≤ 32767 }
        ensures number { result.0 ≡ item_of_request r.0 i }
        ensures maker { maker_of result.0 ≡ Maker.OfRequest r i }
    {
        ParamId(item_of_request(r, i))
    }

    /// The i-th parameter of the group.
    pub fn of_group(g: GroupId, i: u16) -> ParamId
        requires { g.0 ≤ 32767 }
        ensures number { result.0 ≡ item_of_group g.0 i }
        ensures maker { maker_of result.0 ≡ Maker.OfGroup g i }
    {
        ParamId(item_of_group(g, i))
    }

    /// The request or group that makes the parameter. It undoes `of_request` and `of_group`.
    pub fn maker(self) -> Maker
        ensures { result ≡ maker_of self.0 }
    {
        maker_of(self.0)
    }
}

// The values of a group's record.

ghost use Rattle.std.specs.Prelude.{◌≡◌, OnOk, false};
ghost use Rattle.sk_num.specs.Scale.{IsScale};
ghost use Rattle.sk_records.specs.declared.kinds.Kind.TheVariants as record_kind;
ghost use Rattle.sk_model.specs.Chain.{seen_in};
ghost use Rattle.sk_model.specs.Fields.{is_number};
ghost use Rattle.sk_model.specs.Groups.{group_keys, accepted_kind, copies_of, kind_of, lacks_subtype, lacks_scale, is_two_sided, is_by_lines, whole_part};

use crate::faults::{ModelFault, Reason};
use crate::fields::Fields;
use crate::keys::Key;
use indexmap::IndexSet;
use sk_num::Grid;
use sk_types::{GroupKind, Standing, group_kind as number, group_standing};

/// The values of a group's record, other than its remap list and the name of its part.
#[derive(Drop)]
pub(crate) struct GroupKeys<const S: u32> {
    pub(crate) id: u32,
    pub(crate) kind: i32,
    pub(crate) order: i32,
    pub(crate) active: u32,
    pub(crate) source: u32,
    pub(crate) value: Grid<S>,
    pub(crate) subtype: i32,
    pub(crate) skip_first: bool,
    pub(crate) quaternion: [Grid<S>; 4],
    pub(crate) origin: u32,
    pub(crate) entity_b: u32,
    pub(crate) entity_c: u32,
    pub(crate) swap_uv: bool,
    pub(crate) negate_u: bool,
    pub(crate) negate_v: bool,
    pub(crate) relaxed: bool,
    pub(crate) all_reference: bool,
    pub(crate) scale: Grid<S>,
}

impl<const S: u32> GroupKeys<S> {
    /// Reads the values in the order of the keys, to the first that doesn't read.
    #[tactic(auto, unfolding(crate::specs::Groups::group_keys))]
    pub(crate) fn read(fields: &Fields<'_>) -> Result<GroupKeys<S>, ModelFault>
        requires scale { IsScale S }
        requires kind { fields.now.kind ≡ record_kind.Group }
        ensures { result ≡ group_keys S fields.now.rows }
    {
        let zero = Grid::zero();
        let id = fields.handle(Key::GroupHandle)?;
        let kind = fields.whole(Key::GroupType)?;
        let order = fields.whole(Key::GroupOrder)?;
        let active = fields.handle(Key::GroupActive)?;
        let source = fields.handle(Key::GroupSource)?;
        let value = fields.quantity(Key::GroupValue, zero)?;
        let subtype = fields.whole(Key::GroupSubtype)?;
        let skip_first = fields.flag(Key::GroupSkipFirst)?;
        let w = fields.quantity(Key::GroupW, zero)?;
        let x = fields.quantity(Key::GroupX, zero)?;
        let y = fields.quantity(Key::GroupY, zero)?;
        let z = fields.quantity(Key::GroupZ, zero)?;
        let origin = fields.handle(Key::GroupOrigin)?;
        let entity_b = fields.handle(Key::GroupEntityB)?;
        let entity_c = fields.handle(Key::GroupEntityC)?;
        let swap_uv = fields.flag(Key::GroupSwapUv)?;
        let negate_u = fields.flag(Key::GroupNegateU)?;
        let negate_v = fields.flag(Key::GroupNegateV)?;
        let relaxed = fields.flag(Key::GroupRelaxed)?;
        let all_reference = fields.flag(Key::GroupAllReference)?;
        let scale = fields.quantity(Key::GroupScale, Grid::one())?;
        Ok(GroupKeys {
            id,
            kind,
            order,
            active,
            source,
            value,
            subtype,
            skip_first,
            quaternion: [w, x, y, z],
            origin,
            entity_b,
            entity_c,
            swap_uv,
            negate_u,
            negate_v,
            relaxed,
            all_reference,
            scale,
        })
    }

    // What a group of an accepted number makes.
    fn kind(&self) -> GroupKind
        ensures { result ≡ kind_of self.now.kind }
    {
        match u16::try_from(self.kind) {
            Ok(number::DRAWING_IN_SPACE) => GroupKind::Space,
            Ok(number::DRAWING_IN_WORKPLANE) => GroupKind::Plane,
            Ok(number::EXTRUSION) => GroupKind::Extrude,
            Ok(number::TRANSLATION) => GroupKind::Translate,
            _ => GroupKind::Linked,
        }
    }

    /// The group's kind, over the handles of earlier groups, or the first refusal of handle and kind.
    #[tactic(auto, unfolding(crate::specs::Groups::accepted_kind))]
    pub(crate) fn accepted_kind(&self, seen: &IndexSet<u32>) -> Result<GroupKind, ModelFault>
        ensures value { result ≡ accepted_kind seen.now.keys self.now }
        ensures new { OnOk result (seen_in self.now.id seen.now.keys ≡ false) }
    {
        if self.id == 0 || self.id > 32767 {
            return Err(ModelFault::BadValue(self.id));
        }
        if seen.contains(&self.id) {
            return Err(ModelFault::DuplicateHandle(self.id));
        }
        match group_standing(self.kind) {
            Standing::Accepted => {}
            Standing::LeftOut => return Err(ModelFault::LeftOut(self.id, Reason::Group)),
            Standing::Unknown => return Err(ModelFault::UnknownKind(self.id, self.kind)),
        }
        let kind = self.kind();
        if self.lacks_subtype(kind) {
            return Err(ModelFault::UnknownKind(self.id, self.subtype));
        }
        if self.relaxed {
            return Err(ModelFault::LeftOut(self.id, Reason::Relaxed));
        }
        if self.all_reference {
            return Err(ModelFault::LeftOut(self.id, Reason::ReferenceDims));
        }
        if self.lacks_scale(kind) {
            return Err(ModelFault::LeftOut(self.id, Reason::Scale));
        }
        Ok(kind)
    }

    fn is_subtype(&self, number: u16) -> bool
        ensures { result ≡ is_number number self.now.subtype }
    {
        self.subtype == i32::from(number)
    }

    fn lacks_subtype(&self, kind: GroupKind) -> bool
        ensures { result ≡ lacks_subtype kind self.now.subtype }
    {
        match kind {
            GroupKind::Space | GroupKind::Linked => false,
            GroupKind::Plane => {
                !self.is_subtype(number::BY_ORIGIN) && !self.is_subtype(number::BY_LINE_SEGMENTS)
            }
            GroupKind::Extrude | GroupKind::Translate => {
                !self.is_subtype(number::ONE_SIDED) && !self.is_subtype(number::TWO_SIDED)
            }
        }
    }

    fn lacks_scale(&self, kind: GroupKind) -> bool
        ensures { result ≡ lacks_scale kind self.now.scale }
    {
        match kind {
            GroupKind::Linked => self.scale.units() <= 0,
            _ => false,
        }
    }

    /// How many copies a translation makes; 0 in any other group.
    pub(crate) fn copies(&self, kind: GroupKind) -> Result<u16, ModelFault>
        requires { IsScale S }
        ensures { result ≡ copies_of S self.now.id kind self.now.value }
    {
        match kind {
            GroupKind::Translate => {}
            _ => return Ok(0),
        }
        let copies = whole_part(self.value);
        if copies == 0 || copies > 999 {
            return Err(ModelFault::BadValue(self.id));
        }
        Ok(copies as u16)
    }

    /// Whether copies go both ways from the source.
    pub(crate) fn is_two_sided(&self, kind: GroupKind) -> bool
        ensures { result ≡ is_two_sided kind self.now.subtype }
    {
        match kind {
            GroupKind::Extrude | GroupKind::Translate => self.is_subtype(number::TWO_SIDED),
            _ => false,
        }
    }

    /// Whether the frame of a drawing in a workplane is given by two line segments.
    pub(crate) fn is_by_lines(&self, kind: GroupKind) -> bool
        ensures { result ≡ is_by_lines kind self.now.subtype }
    {
        match kind {
            GroupKind::Plane => self.is_subtype(number::BY_LINE_SEGMENTS),
            _ => false,
        }
    }
}

// The whole part of a quantity, 0 for one below 0.
fn whole_part<const S: u32>(quantity: Grid<S>) -> u64
    requires { IsScale S }
    ensures { result ≡ whole_part S quantity.entry }
{
    let units = quantity.units();
    if units < 0 {
        return 0;
    }
    units.unsigned_abs() / Grid::<S>::one().units().unsigned_abs()
}

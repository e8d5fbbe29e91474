// How large groups are.

ghost use Rattle.std.specs.Prelude.{◌≡◌, IfOk, List, length, map, nat_eq, pos};
ghost use Rattle.std.specs.List.{IsDistinct};
ghost use Rattle.sk_types.specs.FixedPoints.{HasFixed};
ghost use Rattle.sk_types.specs.Lookups.{Rise};
ghost use Rattle.sk_types.specs.Standings.{constraint_standing};
ghost use Rattle.sk_chain.specs.Counts.{more, added, zeros, with_groups, with_entities, with_constraints, counted, of_group, of_entity, of_constraint};
ghost use Rattle.sk_chain.specs.Known.{AreConstraints, AreGroups, place_handle};
ghost use Rattle.sk_chain.specs.Order.{group_order, groups_in_order};
ghost use Rattle.sk_chain.specs.Outlines.{first_fault, size_fault};

use crate::NoMemory;
use crate::lookups::place_in;
use indexmap::IndexSet;
use sk_model::{ModelFault, What};
use sk_types::{
    Constraint, Entity, FixedPoints, Group, GroupId, Standing, entity_rows, group_count,
    group_rows, own_count, sizes_in,
};
use std::alloc::Global;

// The most unknowns, and the most rows, of a group.
const MOST: u16 = 400;

// How many unknowns and rows a group has. Both stop at the greatest number, far above what is refused.
#[derive(Clone, Copy, Debug, PartialEq, Eq)]
struct Count {
    unknowns: u16,
    rows: u16,
}

impl Count {
    fn more(self, other: Count) -> Count
        ensures { result ≡ more self other }
    {
        Count {
            unknowns: self.unknowns.saturating_add(other.unknowns),
            rows: self.rows.saturating_add(other.rows),
        }
    }
}

// What a group has of its own.
fn of_group<const S: u32>(group: &Group<S>) -> Count
    ensures { result ≡ of_group group.now }
{
    Count {
        unknowns: group_count(group.kind),
        rows: u16::from(group_rows(group)),
    }
}

// What an entity has, where these points are fixed.
fn of_entity<const S: u32>(fixed: &FixedPoints, entity: &Entity<S>) -> Count
    ensures { (cs : List (Constraint S)) → HasFixed fixed.now cs → result ≡ of_entity cs entity.now }
{
    let unknowns = if fixed.contains(entity) {
        0
    } else {
        own_count(entity) as u16
    };
    Count {
        unknowns,
        rows: u16::from(entity_rows(entity)),
    }
}

// What a constraint has.
fn of_constraint<const S: u32>(entities: &[Entity<S>], constraint: &Constraint<S>) -> Count
    requires rising { Rise entities.now }
    requires accepted { constraint_standing (pos constraint.now.kind) ≡ Standing.Accepted }
    ensures { result ≡ of_constraint entities.now constraint.now }
{
    let (auxiliaries, rows) = sizes_in(entities, constraint);
    Count {
        unknowns: u16::from(auxiliaries),
        rows: u16::from(rows),
    }
}

// The count of each group, by its place.
#[derive(Drop)]
struct Counts {
    by_place: Vec<Count>,
}

impl Counts {
    // Nothing yet for each group.
    fn zeros(alloc: Global, places: &IndexSet<GroupId>) -> Result<Counts, NoMemory>
        ensures { IfOk result (λ c. c.by_place.items ≡ zeros places.now.keys) }
    {
        let nothing = Count {
            unknowns: 0,
            rows: 0,
        };
        let by_place = vec![in alloc; nothing; places.len()]?;
        Ok(Counts { by_place })
    }

    // So much more at a group.
    fn add(&mut self, places: &IndexSet<GroupId>, group: GroupId, count: Count)
        requires distinct { IsDistinct nat_eq (map place_handle places.now.keys) }
        requires counts { length self.old.by_place.items ≡ length places.now.keys }
        ensures counts { self.new.by_place.items ≡ added places.now.keys group.0 count self.old.by_place.items }
        ensures length { length self.new.by_place.items ≡ length places.now.keys }
    {
        if let Some(place) = place_in(places, group) {
            self.by_place[place] = self.by_place[place].more(count);
        }
    }

    fn add_groups<const S: u32>(&mut self, places: &IndexSet<GroupId>, groups: &[Group<S>])
        requires distinct { IsDistinct nat_eq (map place_handle places.now.keys) }
        requires counts { length self.old.by_place.items ≡ length places.now.keys }
        ensures counts { self.new.by_place.items ≡ with_groups places.now.keys groups.now self.old.by_place.items }
        ensures length { length self.new.by_place.items ≡ length places.now.keys }
    {
        for group in groups {
            self.add(places, group.id, of_group(group));
        }
    }

    fn add_entities<const S: u32>(
        &mut self,
        places: &IndexSet<GroupId>,
        fixed: &FixedPoints,
        entities: &[Entity<S>],
    )
        requires distinct { IsDistinct nat_eq (map place_handle places.now.keys) }
        requires counts { length self.old.by_place.items ≡ length places.now.keys }
        ensures counts { (cs : List (Constraint S)) → HasFixed fixed.now cs → self.new.by_place.items ≡ with_entities places.now.keys cs entities.now self.old.by_place.items }
        ensures length { length self.new.by_place.items ≡ length places.now.keys }
    {
        for entity in entities {
            self.add(places, entity.group, of_entity(fixed, entity));
        }
    }

    fn add_constraints<const S: u32>(
        &mut self,
        places: &IndexSet<GroupId>,
        entities: &[Entity<S>],
        constraints: &[Constraint<S>],
    )
        requires distinct { IsDistinct nat_eq (map place_handle places.now.keys) }
        requires counts { length self.old.by_place.items ≡ length places.now.keys }
        requires rising { Rise entities.now }
        requires accepted { AreConstraints constraints.now }
        ensures counts { self.new.by_place.items ≡ with_constraints places.now.keys entities.now constraints.now self.old.by_place.items }
        ensures length { length self.new.by_place.items ≡ length places.now.keys }
    {
        for constraint in constraints {
            self.add(
                places,
                constraint.group,
                of_constraint(entities, constraint),
            );
        }
    }
}

// The unknowns and rows of each group, by its place.
fn counted<const S: u32>(
    alloc: Global,
    places: &IndexSet<GroupId>,
    groups: &[Group<S>],
    entities: &[Entity<S>],
    constraints: &[Constraint<S>],
) -> Result<Counts, NoMemory>
    requires distinct { IsDistinct nat_eq (map place_handle places.now.keys) }
    requires rising { Rise entities.now }
    requires accepted { AreConstraints constraints.now }
    ensures { IfOk result (λ c. c.by_place.items ≡ counted places.now.keys groups.now entities.now constraints.now) }
{
    let fixed = FixedPoints::of(alloc, constraints)?;
    let mut counts = Counts::zeros(alloc, places)?;
    counts.add_groups(places, groups);
    counts.add_entities(places, &fixed, entities);
    counts.add_constraints(places, entities, constraints);
    Ok(counts)
}

/// The first group that has too many unknowns, or rows.
pub(crate) fn size_fault<const S: u32>(
    alloc: Global,
    places: &IndexSet<GroupId>,
    groups: &[Group<S>],
    entities: &[Entity<S>],
    constraints: &[Constraint<S>],
) -> Result<Option<ModelFault>, NoMemory>
    requires groups { AreGroups groups.now }
    requires places { places.now.keys ≡ group_order groups.now }
    requires distinct { IsDistinct nat_eq (map place_handle places.now.keys) }
    requires rising { Rise entities.now }
    requires accepted { AreConstraints constraints.now }
    ensures { IfOk result (λ fault. fault ≡ first_fault (size_fault constraints.now entities.now) (groups_in_order groups.now)) }
{
    let counts = counted(alloc, places, groups, entities, constraints)?;
    for count in counts.by_place.iter() {
        if count.unknowns > MOST {
            return Ok(Some(ModelFault::TooMany(What::Unknowns)));
        }
        if count.rows > MOST {
            return Ok(Some(ModelFault::TooMany(What::Rows)));
        }
    }
    Ok(None)
}

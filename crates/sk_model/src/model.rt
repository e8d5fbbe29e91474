// Models: a book with its typed lists.

ghost use Rattle.std.specs.Prelude.{◌≡◌, ◌≢◌, ◌++◌, ◌==◌, ℕ, OnOk, OnErr, IfOk, Ok, Some, if◌then◌else◌, map, true, nat_eq};
ghost use Rattle.std.specs.List.{All, IsDistinct};
ghost use Rattle.sk_num.specs.Scale.{IsScale};
ghost use Rattle.sk_types.specs.declared.entity.ParamValue.{ParamValue as TypedParam};
ghost use Rattle.sk_types.specs.Lookups.{value_handle, value_of, act_handle, RiseBy};
ghost use Rattle.sk_records.specs.declared.kinds.Kind.TheVariants.{Entity};
ghost use Rattle.sk_records.specs.Blocks.{made_anew};
ghost use Rattle.sk_records.specs.Written.{bytes_of};
ghost use Rattle.sk_model.specs.Chain.{IsAnswer, seen_in};
ghost use Rattle.sk_model.specs.Typed.{typed, group_handle};
ghost use Rattle.sk_model.specs.Changes.{param_set, with_param, params_set, with_params, remap_set, with_remap, list_handle, lists_set, with_lists};
ghost use Rattle.sk_model.specs.EntityRecords.{entity_records};
ghost use Rattle.sk_model.specs.Settable.{IsRemapList, IsGroupList};
ghost use Rattle.sk_model.specs.Checked.{AreChecked};
ghost use Rattle.sk_model.specs.Models.{lists_of, IsTyped};

use crate::NoMemory;
use crate::changes::{put_list, put_lists, put_params, with_params_put};
use crate::copying::copy_groups;
use crate::entity_records::entity_text;
use crate::faults::ModelFault;
use crate::listed::{Listed, type_all};
use crate::remap::GroupList;
use crate::whole::whole_fault;
use indexmap::IndexSet;
use sk_num::Grid;
use sk_records::Book;
use sk_types::{
    Constraint, Group, GroupId, Numbers, Outline, ParamId, ParamValue, RemapEntry, Request,
};
use std::alloc::Global;

/// The typed model of a book.
///
/// Contracts see a model as the blocks of its book and the four lists that these have.
#[derive(Drop)]
pub struct Model<const S: u32> {
    book: Book,
    groups: Vec<Group<S>>,
    group_handles: IndexSet<u32>,
    params: Vec<ParamValue<S>>,
    param_handles: IndexSet<u32>,
    requests: Vec<Request>,
    constraints: Vec<Constraint<S>>,
}

impl<const S: u32> std::marker::Model for Model<S> {
    ghost use Rattle.sk_model.specs.Models.{Modelled, IsTyped, HasHandles};

    ghost Value = { Modelled S };

    ghost view = { λ m. record {
      blocks = m.book;
      lists = record {
        groups = m.groups.items;
        params = m.params.items;
        requests = m.requests.items;
        constraints = m.constraints.items;
      };
    } };

    ghost invariant = { λ m. let value : Modelled S = record {
      blocks = m.book;
      lists = record {
        groups = m.groups.items;
        params = m.params.items;
        requests = m.requests.items;
        constraints = m.constraints.items;
      };
    } in
        IsTyped value × HasHandles value m.group_handles.keys m.param_handles.keys };
}

impl<const S: u32> Model<S> {
    /// Types the records of a book: groups, parameters, requests and constraints, each in file order, then
    /// what holds of all together. The first fault answers.
    #[tactic(auto, unfolding(crate::specs::Typed::typed))]
    pub fn from_book(alloc: Global, book: Book) -> Result<Model<S>, ModelFault>
        requires { IsScale S }
        ensures value { IsAnswer (lists_of result) (typed S book) }
        ensures book { IfOk result (λ m. m.blocks ≡ book) }
    {
        let Listed {
            items: groups,
            handles: group_handles,
        } = type_all::<Group<S>>(alloc, &book)?;
        let Listed {
            items: params,
            handles: param_handles,
        } = type_all::<ParamValue<S>>(alloc, &book)?;
        let requests = type_all::<Request>(alloc, &book)?.items;
        let constraints = type_all::<Constraint<S>>(alloc, &book)?.items;
        if let Some(fault) = whole_fault(&groups, &requests, &constraints) {
            return Err(fault);
        }
        Ok(Model {
            book,
            groups,
            group_handles,
            params,
            param_handles,
            requests,
            constraints,
        })
    }

    /// The book that the model stands for. The i-th group, parameter, request or constraint is the record of its
    /// kind with place i. Handles are in range, each stands once, and every list and value has passed typing.
    pub fn book(&self) -> &Book
        ensures blocks { result.now ≡ self.now.blocks }
        ensures typed { IsTyped self.now }
        ensures checked { AreChecked self.now.lists }
    {
        &self.book
    }

    /// The groups in file order.
    pub fn groups(&self) -> &[Group<S>]
        ensures groups { result.now ≡ self.now.lists.groups }
        ensures checked { AreChecked self.now.lists }
    {
        &self.groups
    }

    /// The requests in file order.
    pub fn requests(&self) -> &[Request]
        ensures requests { result.now ≡ self.now.lists.requests }
        ensures checked { AreChecked self.now.lists }
    {
        &self.requests
    }

    /// The constraints in file order.
    pub fn constraints(&self) -> &[Constraint<S>]
        ensures constraints { result.now ≡ self.now.lists.constraints }
        ensures checked { AreChecked self.now.lists }
    {
        &self.constraints
    }

    /// The value of a parameter; None where no record has the handle.
    pub fn param(&self, p: ParamId) -> Option<Grid<S>>
        ensures { result ≡ value_of p.0 self.now.lists.params }
    {
        let place = self.param_handles.get_index_of(&p.0)?;
        Some(self.params[place].value)
    }

    /// An equal model.
    pub fn copy(&self, alloc: Global) -> Result<Model<S>, NoMemory>
        ensures { IfOk result (λ m. m ≡ self.now) }
    {
        Ok(Model {
            book: self.book.copy(alloc)?,
            groups: copy_groups(alloc, &self.groups)?,
            group_handles: self.group_handles.clone()?,
            params: Vec::from_slice(alloc, &self.params)?,
            param_handles: self.param_handles.clone()?,
            requests: Vec::from_slice(alloc, &self.requests)?,
            constraints: Vec::from_slice(alloc, &self.constraints)?,
        })
    }

    /// Sets the value of a parameter: in its record, or in a new one where it has none. Where it has the value
    /// already, no byte changes. At an `Err` the model is as it was.
    ///
    /// The value is written with 20 decimals, as `quantity_text` gives it.
    pub fn set_param(&mut self, p: ParamId, v: Grid<S>) -> Result<(), NoMemory>
        requires scale { IsScale S }
        requires some { p.0 ≢ 0 }
        ensures blocks { OnOk result (self.new.blocks ≡ param_set p.0 v.entry self.old.lists.params self.old.blocks) }
        ensures lists { OnOk result (self.new.lists ≡ record self.old.lists { params = with_param p.0 v.entry self.old.lists.params }) }
        ensures values { OnOk result ((q : ℕ) → value_of q self.new.lists.params ≡ (if q == p.0 then Some v.entry else value_of q self.old.lists.params)) }
        ensures err { OnErr result (self.new ≡ self.old) }
    {
        self.set_params(&[ParamValue { id: p, value: v }])
    }

    /// Sets the values of parameters, as `set_param` one after the other: those that stand get their values, and the
    /// others are added in one list, in the given order. At an `Err` the model is as it was.
    ///
    /// Each parameter is given once.
    pub fn set_params(&mut self, values: &[ParamValue<S>]) -> Result<(), NoMemory>
        requires scale { IsScale S }
        requires some { All (λ (q : TypedParam S). q.id.0 ≢ 0) values.now }
        requires distinct { IsDistinct nat_eq (map value_handle values.now) }
        ensures blocks { OnOk result (self.new.blocks ≡ params_set values.now self.old.lists.params self.old.blocks) }
        ensures lists { OnOk result (self.new.lists ≡ record self.old.lists { params = with_params values.now self.old.lists.params }) }
        ensures err { OnErr result (self.new ≡ self.old) }
    {
        put_params(
            &mut self.book,
            &mut self.params,
            &mut self.param_handles,
            values,
        )
    }

    /// Sets the remap list of a group: in the place of the first list of its record, whose further lists go. At an
    /// `Err` the model is as it was.
    pub fn set_remap(&mut self, g: GroupId, list: &[RemapEntry]) -> Result<(), NoMemory>
        requires exists { seen_in g.0 (map group_handle self.old.lists.groups) ≡ true }
        requires list { IsRemapList g.0 list.now }
        ensures blocks { OnOk result (self.new.blocks ≡ remap_set g.0 list.now self.old.lists.groups self.old.blocks) }
        ensures lists { OnOk result (self.new.lists ≡ record self.old.lists { groups = with_remap g.0 list.now self.old.lists.groups }) }
        ensures err { OnErr result (self.new ≡ self.old) }
    {
        let place = self.group_handles.get_index_of(&g.0).unwrap();
        put_list(&mut self.book, &mut self.groups, place, g.0, list)
    }

    /// Sets the remap lists of groups, one after the other, each as by `set_remap` where it grew: where it is longer
    /// than the list that stands. At an `Err` the model is as it was.
    ///
    /// Each group is given once.
    pub fn set_remaps(&mut self, lists: Vec<GroupList>) -> Result<(), NoMemory>
        requires lists { All (IsGroupList self.old.lists.groups) lists.items }
        requires distinct { IsDistinct nat_eq (map list_handle lists.items) }
        ensures blocks { OnOk result (self.new.blocks ≡ lists_set lists.items self.old.lists.groups self.old.blocks) }
        ensures lists { OnOk result (self.new.lists ≡ record self.old.lists { groups = with_lists lists.items self.old.lists.groups }) }
        ensures err { OnErr result (self.new ≡ self.old) }
    {
        put_lists(&mut self.book, &mut self.groups, &self.group_handles, lists)
    }

    /// Makes the entity records anew from the model's outline and its numbers: one for each entity, in the order of the
    /// outline. They stand where the first of those before stood, or, where there was none, where new records go. At an
    /// `Err` the model is as it was.
    ///
    /// A record has a line for the handle, the kind and the construction flag; for each point, the normal, the distance and
    /// the workplane that the entity names; for each number at which it stands; and one that says that it is seen. A line
    /// whose value is 0 is left out, but for the first three. Typing doesn't look at these records.
    pub fn set_entities(
        &mut self,
        outline: &Outline<S>,
        numbers: &Numbers<S>,
    ) -> Result<(), NoMemory>
        requires scale { IsScale S }
        requires acts { RiseBy act_handle numbers.now.acts }
        ensures blocks { OnOk result (self.new.blocks ≡ made_anew Entity (entity_records numbers.now.acts outline.now.entities) self.old.blocks) }
        ensures lists { self.new.lists ≡ self.old.lists }
        ensures err { OnErr result (self.new ≡ self.old) }
    {
        let text = entity_text(
            *self.params.allocator(),
            outline.entities.as_slice(),
            numbers.acts.as_slice(),
        )?;
        self.book.set_entities(&text)
    }

    /// The model with the values of parameters set, as by `set_params`. At an `Err` there is no model any more: nothing is copied.
    pub fn into_params_set(self, values: &[ParamValue<S>]) -> Result<Model<S>, NoMemory>
        requires scale { IsScale S }
        requires some { All (λ (q : TypedParam S). q.id.0 ≢ 0) values.now }
        requires distinct { IsDistinct nat_eq (map value_handle values.now) }
        ensures blocks { IfOk result (λ m. m.blocks ≡ params_set values.now self.entry.lists.params self.entry.blocks) }
        ensures lists { IfOk result (λ m. m.lists ≡ record self.entry.lists { params = with_params values.now self.entry.lists.params }) }
    {
        let Model {
            book,
            groups,
            group_handles,
            mut params,
            mut param_handles,
            requests,
            constraints,
        } = self;
        let book = with_params_put(book, &mut params, &mut param_handles, values)?;
        Ok(Model {
            book,
            groups,
            group_handles,
            params,
            param_handles,
            requests,
            constraints,
        })
    }

    /// The model with its entity records made anew, as by `set_entities`. At an `Err` there is no model any more: nothing is copied.
    pub fn into_entities_set(
        self,
        outline: &Outline<S>,
        numbers: &Numbers<S>,
    ) -> Result<Model<S>, NoMemory>
        requires scale { IsScale S }
        requires acts { RiseBy act_handle numbers.now.acts }
        ensures blocks { IfOk result (λ m. m.blocks ≡ made_anew Entity (entity_records numbers.now.acts outline.now.entities) self.entry.blocks) }
        ensures lists { IfOk result (λ m. m.lists ≡ self.entry.lists) }
    {
        let Model {
            book,
            groups,
            group_handles,
            params,
            param_handles,
            requests,
            constraints,
        } = self;
        let text = entity_text(
            *params.allocator(),
            outline.entities.as_slice(),
            numbers.acts.as_slice(),
        )?;
        let book = book.into_entities_set(&text)?;
        Ok(Model {
            book,
            groups,
            group_handles,
            params,
            param_handles,
            requests,
            constraints,
        })
    }

    /// Appends the text. At an `Err` nothing is appended.
    pub fn write(&self, alloc: Global, out: &mut Vec<u8>) -> Result<(), NoMemory>
        ensures ok { OnOk result (out.new.items ≡ out.old.items ++ bytes_of self.now.blocks) }
        ensures err { OnErr result (out.new.items ≡ out.old.items) }
    {
        self.book.write(alloc, out)
    }
}

// Changes of a model's parts. Where memory is wanting all parts stay as they were, but in what takes
// the book over.

ghost use Rattle.std.specs.Prelude.{◌≡◌, ◌<◌, ◌^◌, ◌++◌, ◌∷◌, [], length, map, nat_eq, nat_lt, true, false, Some, OnOk, OnErr, IfOk};
ghost use Rattle.std.specs.List.{All, IsDistinct, position};
ghost use Rattle.std.specs.Ordering.{int_eq};
ghost use Rattle.sk_num.specs.Limit.{IsInLimit};
ghost use Rattle.sk_num.specs.Scale.{IsScale};
ghost use Rattle.sk_num.specs.Spelling.{quantity_text};
ghost use Rattle.sk_types.specs.declared.entity.ParamValue.{ParamValue};
ghost use Rattle.sk_types.specs.Lookups.{value_handle};
ghost use Rattle.sk_records.specs.Blocks.{records, with_tails};
ghost use Rattle.sk_records.specs.ChangeLists.{SetValue};
ghost use Rattle.sk_records.specs.Written.{bytes_of};
ghost use Rattle.sk_model.specs.declared.remap.GroupList.{GroupList as ListOfGroup};
ghost use Rattle.sk_model.specs.Chain.{seen_in};
ghost use Rattle.sk_model.specs.Keys.{key_bytes};
ghost use Rattle.sk_model.specs.Typed.{group_handle};
ghost use Rattle.sk_model.specs.Changes.{new_record, absent, value_changes, with_params, params_set, remap_set, with_remap, list_handle, grown, list_changes, with_lists, lists_set};
ghost use Rattle.sk_model.specs.Settable.{IsRemapList, HasSources};

use crate::NoMemory;
use crate::keys::Key;
use crate::remap::GroupList;
use crate::writing::{list_text, push_param};
use indexmap::IndexSet;
use sk_num::{Grid, Items, quantity_text};
use sk_records::{Book, ChangeList, Kind, RecId};
use sk_types::{Group, ParamValue, RemapEntry};
use std::alloc::Global;

/// Whether two quantities are the same.
pub(crate) fn is_same<const S: u32>(a: Grid<S>, b: Grid<S>) -> bool
    ensures value { result ≡ int_eq a.entry b.entry }
    ensures fits { IsInLimit b.entry }
{
    a.units() == b.units()
}

// Puts a change of a parameter's value behind others.
fn push_change<const S: u32>(
    changes: &mut ChangeList,
    place: usize,
    value: Grid<S>,
) -> Result<(), NoMemory>
    requires scale { IsScale S }
    requires kind { changes.old.kind ≡ Kind.Param }
    ensures { OnOk result (changes.new ≡ record { kind = Kind.Param; list = changes.old.list ++ SetValue place (key_bytes Key.ParamValue) (quantity_text S value.entry) ∷ [] }) }
{
    let text = quantity_text(value);
    changes.set_value(
        place,
        Key::ParamValue.bytes(),
        &text.bytes[..usize::from(text.len)],
    )
}

// Parameters that are to be set: changes of the records that have another value, and the lines of new records.
#[derive(Drop)]
struct ParamChanges<const S: u32> {
    changes: ChangeList,
    lines: Vec<u8>,
    added: Vec<ParamValue<S>>,
}

// Puts one parameter behind those that are to be set.
fn push_set<const S: u32>(
    set: &mut ParamChanges<S>,
    params: &[ParamValue<S>],
    handles: &IndexSet<u32>,
    param: ParamValue<S>,
) -> Result<(), NoMemory>
    requires scale { IsScale S }
    requires handles { handles.now.keys ≡ map value_handle params.now }
    requires kind { set.old.changes.kind ≡ Kind.Param }
    ensures changes { OnOk result (set.new.changes ≡ record { kind = Kind.Param; list = set.old.changes.list ++ value_changes params.now (param.entry ∷ []) }) }
    ensures lines { OnOk result (set.new.lines.items ≡ set.old.lines.items ++ bytes_of (with_tails (map new_record (absent params.now (param.entry ∷ []))))) }
    ensures added { OnOk result (set.new.added.items ≡ set.old.added.items ++ absent params.now (param.entry ∷ [])) }
    ensures fits { OnOk result (IsInLimit param.entry.value × (param.entry.id.0 < 2 ^ 32)) }
{
    let Some(place) = handles.get_index_of(&param.id.0) else {
        push_param(&mut set.lines, param.id.0, param.value)?;
        set.added.push(param)?;
        return Ok(());
    };
    if is_same(params[place].value, param.value) {
        return Ok(());
    }
    push_change(&mut set.changes, place, param.value)
}

// Parameters that are to be set, one behind the other.
fn param_changes<const S: u32>(
    alloc: Global,
    params: &[ParamValue<S>],
    handles: &IndexSet<u32>,
    values: &[ParamValue<S>],
) -> Result<ParamChanges<S>, NoMemory>
    requires scale { IsScale S }
    requires handles { handles.now.keys ≡ map value_handle params.now }
    ensures changes { IfOk result (λ set. set.changes ≡ record { kind = Kind.Param; list = value_changes params.now values.now }) }
    ensures lines { IfOk result (λ set. set.lines.items ≡ bytes_of (with_tails (map new_record (absent params.now values.now)))) }
    ensures added { IfOk result (λ set. set.added.items ≡ absent params.now values.now) }
    ensures fits { IfOk result (λ _. All (λ (p : ParamValue S). IsInLimit p.value) values.now) }
    ensures small { IfOk result (λ _. All (λ (p : ParamValue S). p.id.0 < 2 ^ 32) values.now) }
{
    let mut set = ParamChanges {
        changes: ChangeList::new(alloc, Kind::Param),
        lines: Vec::new(alloc),
        added: Vec::new(alloc),
    };
    for param in values {
        push_set(&mut set, params, handles, *param)?;
    }
    Ok(set)
}

// Puts the handles of new parameters behind others.
fn add_handles<const S: u32>(
    handles: &mut IndexSet<u32>,
    added: &[ParamValue<S>],
) -> Result<(), NoMemory>
    requires new { All (λ (p : ParamValue S). seen_in p.id.0 handles.old.keys ≡ false) added.now }
    requires distinct { IsDistinct nat_eq (map value_handle added.now) }
    ensures ok { OnOk result (handles.new.keys ≡ handles.old.keys ++ map value_handle added.now) }
    ensures err { OnErr result (handles.new.keys ≡ handles.old.keys) }
{
    let before = handles.len();
    for param in added {
        match handles.insert(param.id.0) {
            Ok(_) => {}
            Err(_) => {
                handles.truncate(before);
                return Err(NoMemory);
            }
        }
    }
    Ok(())
}

// Sets the values of parameters that stand.
fn set_values<const S: u32>(
    params: &mut [ParamValue<S>],
    handles: &IndexSet<u32>,
    values: &[ParamValue<S>],
)
    requires handles { handles.now.keys ≡ map value_handle params.old }
    requires stand { All (λ (p : ParamValue S). seen_in p.id.0 handles.now.keys ≡ true) values.now }
    ensures value { params.new ≡ with_params values.now params.old }
    ensures handles { handles.now.keys ≡ map value_handle params.new }
{
    for param in values {
        let place = handles.get_index_of(&param.id.0).unwrap();
        params[place].value = param.value;
    }
}

/// Sets the values of parameters, each in its record or in a new one; the new ones are added in one list. A record that has the
/// value already stays.
pub(crate) fn put_params<const S: u32>(
    book: &mut Book,
    params: &mut Vec<ParamValue<S>>,
    handles: &mut IndexSet<u32>,
    values: &[ParamValue<S>],
) -> Result<(), NoMemory>
    requires scale { IsScale S }
    requires handles { handles.old.keys ≡ map value_handle params.old.items }
    requires count { length (records Kind.Param book.old) ≡ length params.old.items }
    requires distinct { IsDistinct nat_eq (map value_handle values.now) }
    ensures book { OnOk result (book.new ≡ params_set values.now params.old.items book.old) }
    ensures params { OnOk result (params.new.items ≡ with_params values.now params.old.items) }
    ensures handles { OnOk result (handles.new.keys ≡ map value_handle params.new.items) }
    ensures fits { OnOk result (All (λ (p : ParamValue S). IsInLimit p.value) values.now) }
    ensures small { OnOk result (All (λ (p : ParamValue S). p.id.0 < 2 ^ 32) values.now) }
    ensures err_book { OnErr result (book.new ≡ book.old) }
    ensures err_params { OnErr result (params.new.items ≡ params.old.items) }
    ensures err_handles { OnErr result (handles.new.keys ≡ handles.old.keys) }
{
    let set = param_changes(*params.allocator(), params, handles, values)?;
    let (params_before, handles_before) = (params.len(), handles.len());
    params.extend_from_slice(&set.added)?;
    if let Err(error) = add_handles(handles, &set.added) {
        params.truncate(params_before);
        return Err(error);
    }
    if let Err(error) = book.change(&set.changes, &set.lines) {
        params.truncate(params_before);
        handles.truncate(handles_before);
        return Err(error);
    }
    set_values(params, handles, values);
    Ok(())
}

/// A book with the values of parameters set, as by `put_params`. The book is taken over, and at an `Err` it is gone.
pub(crate) fn with_params_put<const S: u32>(
    book: Book,
    params: &mut Vec<ParamValue<S>>,
    handles: &mut IndexSet<u32>,
    values: &[ParamValue<S>],
) -> Result<Book, NoMemory>
    requires scale { IsScale S }
    requires handles { handles.old.keys ≡ map value_handle params.old.items }
    requires count { length (records Kind.Param book) ≡ length params.old.items }
    requires distinct { IsDistinct nat_eq (map value_handle values.now) }
    ensures book { IfOk result (λ b. b ≡ params_set values.now params.old.items book) }
    ensures params { OnOk result (params.new.items ≡ with_params values.now params.old.items) }
    ensures handles { OnOk result (handles.new.keys ≡ map value_handle params.new.items) }
    ensures fits { OnOk result (All (λ (p : ParamValue S). IsInLimit p.value) values.now) }
    ensures small { OnOk result (All (λ (p : ParamValue S). p.id.0 < 2 ^ 32) values.now) }
{
    let set = param_changes(*params.allocator(), params, handles, values)?;
    params.extend_from_slice(&set.added)?;
    add_handles(handles, &set.added)?;
    let changed = book.into_changed(&set.changes, &set.lines)?;
    set_values(params, handles, values);
    Ok(changed)
}

/// Sets the remap list of the group whose record has this place.
pub(crate) fn put_list<const S: u32>(
    book: &mut Book,
    groups: &mut Vec<Group<S>>,
    place: usize,
    id: u32,
    list: &[RemapEntry],
) -> Result<(), NoMemory>
    requires place { position (nat_eq id) (map group_handle groups.old.items) ≡ Some place }
    requires exists { place < length (records Kind.Group book.old) }
    requires list { IsRemapList id list.now }
    ensures book { OnOk result (book.new ≡ remap_set id list.now groups.old.items book.old) }
    ensures groups { OnOk result (groups.new.items ≡ with_remap id list.now groups.old.items) }
    ensures err_book { OnErr result (book.new ≡ book.old) }
    ensures err_groups { OnErr result (groups.new.items ≡ groups.old.items) }
    ensures handles { map group_handle groups.new.items ≡ map group_handle groups.old.items }
    ensures sources { OnOk result (HasSources list.now) }
{
    let alloc = *groups.allocator();
    let items = Vec::from_slice(alloc, list)?;
    let lines = list_text(alloc, list)?;
    let rec = RecId {
        kind: Kind::Group,
        place,
    };
    book.set_map(rec, &lines)?;
    groups[place].remap = Items::of(items);
    Ok(())
}

// Whether a list is longer than the one that its group has.
fn grew<const S: u32>(list: &GroupList, group: &Group<S>) -> bool
    ensures { result ≡ nat_lt (length group.now.remap) (length list.now.entries) }
{
    group.remap.as_slice().len() < list.entries.as_slice().len()
}

// Puts a list that grew behind those that are to be set.
fn push_list<const S: u32>(
    alloc: Global,
    changes: &mut ChangeList,
    groups: &[Group<S>],
    handles: &IndexSet<u32>,
    list: &GroupList,
) -> Result<(), NoMemory>
    requires handles { handles.now.keys ≡ map group_handle groups.now }
    requires exists { seen_in list.now.group.0 handles.now.keys ≡ true }
    requires kind { changes.old.kind ≡ Kind.Group }
    ensures changes { OnOk result (changes.new ≡ record { kind = Kind.Group; list = changes.old.list ++ list_changes groups.now (list.now ∷ []) }) }
    ensures sources { OnOk result (All (λ (x : ListOfGroup). HasSources x.entries) (grown groups.now (list.now ∷ []))) }
{
    let place = handles.get_index_of(&list.group.0).unwrap();
    if !grew(list, &groups[place]) {
        return Ok(());
    }
    let lines = list_text(alloc, list.entries.as_slice())?;
    changes.set_map(place, &lines)
}

// The lists that grew, one behind the other.
fn changes_of_lists<const S: u32>(
    alloc: Global,
    groups: &[Group<S>],
    handles: &IndexSet<u32>,
    lists: &[GroupList],
) -> Result<ChangeList, NoMemory>
    requires handles { handles.now.keys ≡ map group_handle groups.now }
    requires exist { All (λ (x : ListOfGroup). seen_in x.group.0 handles.now.keys ≡ true) lists.now }
    ensures changes { IfOk result (λ c. c ≡ record { kind = Kind.Group; list = list_changes groups.now lists.now }) }
    ensures sources { IfOk result (λ _. All (λ (x : ListOfGroup). HasSources x.entries) (grown groups.now lists.now)) }
{
    let mut changes = ChangeList::new(alloc, Kind::Group);
    for list in lists {
        push_list(alloc, &mut changes, groups, handles, list)?;
    }
    Ok(changes)
}

// Gives groups the lists that grew.
fn set_lists<const S: u32>(groups: &mut [Group<S>], handles: &IndexSet<u32>, lists: Vec<GroupList>)
    requires handles { handles.now.keys ≡ map group_handle groups.old }
    requires exist { All (λ (x : ListOfGroup). seen_in x.group.0 handles.now.keys ≡ true) lists.items }
    ensures { groups.new ≡ with_lists lists.items groups.old }
{
    for list in lists {
        let place = handles.get_index_of(&list.group.0).unwrap();
        if grew(&list, &groups[place]) {
            groups[place].remap = list.entries;
        }
    }
}

/// Sets the remap lists of groups, where they grew.
pub(crate) fn put_lists<const S: u32>(
    book: &mut Book,
    groups: &mut Vec<Group<S>>,
    handles: &IndexSet<u32>,
    lists: Vec<GroupList>,
) -> Result<(), NoMemory>
    requires handles { handles.now.keys ≡ map group_handle groups.old.items }
    requires count { length (records Kind.Group book.old) ≡ length groups.old.items }
    requires exist { All (λ (x : ListOfGroup). seen_in x.group.0 handles.now.keys ≡ true) lists.items }
    requires distinct { IsDistinct nat_eq (map list_handle lists.items) }
    ensures book { OnOk result (book.new ≡ lists_set lists.items groups.old.items book.old) }
    ensures groups { OnOk result (groups.new.items ≡ with_lists lists.items groups.old.items) }
    ensures sources { OnOk result (All (λ (x : ListOfGroup). HasSources x.entries) (grown groups.old.items lists.items)) }
    ensures err_book { OnErr result (book.new ≡ book.old) }
    ensures err_groups { OnErr result (groups.new.items ≡ groups.old.items) }
{
    let changes = changes_of_lists(*groups.allocator(), groups, handles, &lists)?;
    book.change(&changes, b"")?;
    set_lists(groups, handles, lists);
    Ok(())
}

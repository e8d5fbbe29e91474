// The records of a kind, typed one behind the other.

ghost use Rattle.std.specs.Prelude.{◌≡◌, ◌<◌, ℕ, List, [], Option, Result, length, map, IfOk, false};
ghost use Rattle.std.specs.Borrow.{Bor};
ghost use Rattle.sk_num.specs.Scale.{IsScale};
ghost use Rattle.sk_types.specs.Lookups.{value_handle};
ghost use Rattle.sk_records.specs.declared.kinds.Kind.{Kind as KindOfRecord};
ghost use Rattle.sk_records.specs.declared.kinds.Kind.TheVariants as record_kind;
ghost use Rattle.sk_records.specs.Answers.{rows_in};
ghost use Rattle.sk_records.specs.Blocks.{records};
ghost use Rattle.sk_records.specs.Rows.{Row, last_place};
ghost use Rattle.sk_model.specs.declared.faults.ModelFault.{ModelFault as Fault};
ghost use Rattle.sk_model.specs.Chain.{IsAnswer, all_of, seen_in};
ghost use Rattle.sk_model.specs.Keys.{key_bytes, keys_of};
ghost use Rattle.sk_model.specs.Groups.{group_of};
ghost use Rattle.sk_model.specs.Params.{param_of};
ghost use Rattle.sk_model.specs.Requests.{request_of};
ghost use Rattle.sk_model.specs.Constraints.{constraint_of};
ghost use Rattle.sk_model.specs.Typed.{group_handle, request_handle, constraint_handle};
ghost use Rattle.sk_model.specs.Listings.{listed_of};

use crate::constraints::constraint_of;
use crate::faults::ModelFault;
use crate::fields::Fields;
use crate::groups::group_of;
use crate::keys::key_table;
use crate::params::param_of;
use crate::requests::request_of;
use indexmap::IndexSet;
use sk_records::{Book, Kind, RecId};
use sk_types::{Constraint, Group, ParamValue, Request};
use std::alloc::Global;

/// What the records of one kind are typed as.
pub(crate) trait FromFields: Drop + Sized {
    ghost can_type: { Type 0 };

    ghost kind: { KindOfRecord };

    ghost handle: { Self → ℕ };

    ghost typed: { List ℕ → List Row → Result Self Fault };

    /// The kind of the records.
    fn kind() -> Kind
        ensures { result ≡ kind };

    /// The number that tells things of the kind apart.
    fn handle(&self) -> u32
        ensures { result ≡ handle self.now };

    /// A thing over the handles of earlier ones, or its first fault.
    fn from_fields(
        alloc: Global,
        seen: &IndexSet<u32>,
        fields: &Fields<'_>,
    ) -> Result<Self, ModelFault>
        requires can { can_type }
        requires kind { fields.now.kind ≡ kind }
        ensures value { IsAnswer result (typed seen.now.keys fields.now.rows) }
        ensures new { IfOk result (λ x. seen_in (handle x) seen.now.keys ≡ false) };
}

impl<const S: u32> FromFields for Group<S> {
    ghost can_type = { IsScale S };

    ghost kind = { record_kind.Group };

    ghost handle = { group_handle };

    ghost typed = { group_of S };

    fn kind() -> Kind {
        Kind::Group
    }

    fn handle(&self) -> u32 {
        self.id.0
    }

    fn from_fields(
        alloc: Global,
        seen: &IndexSet<u32>,
        fields: &Fields<'_>,
    ) -> Result<Group<S>, ModelFault> {
        group_of(alloc, seen, fields)
    }
}

impl<const S: u32> FromFields for ParamValue<S> {
    ghost can_type = { IsScale S };

    ghost kind = { record_kind.Param };

    ghost handle = { value_handle };

    ghost typed = { param_of S };

    fn kind() -> Kind {
        Kind::Param
    }

    fn handle(&self) -> u32 {
        self.id.0
    }

    #[tactic(auto, using(crate::proofs::Steps::answered))]
    fn from_fields(
        _alloc: Global,
        seen: &IndexSet<u32>,
        fields: &Fields<'_>,
    ) -> Result<ParamValue<S>, ModelFault> {
        param_of(seen, fields)
    }
}

impl FromFields for Request {
    ghost can_type = { Unit {0} };

    ghost kind = { record_kind.Request };

    ghost handle = { request_handle };

    ghost typed = { request_of };

    fn kind() -> Kind {
        Kind::Request
    }

    fn handle(&self) -> u32 {
        self.id.0
    }

    #[tactic(auto, using(crate::proofs::Steps::answered))]
    fn from_fields(
        _alloc: Global,
        seen: &IndexSet<u32>,
        fields: &Fields<'_>,
    ) -> Result<Request, ModelFault> {
        request_of(seen, fields)
    }
}

impl<const S: u32> FromFields for Constraint<S> {
    ghost can_type = { IsScale S };

    ghost kind = { record_kind.Constraint };

    ghost handle = { constraint_handle };

    ghost typed = { constraint_of S };

    fn kind() -> Kind {
        Kind::Constraint
    }

    fn handle(&self) -> u32 {
        self.id.0
    }

    #[tactic(auto, using(crate::proofs::Steps::answered))]
    fn from_fields(
        _alloc: Global,
        seen: &IndexSet<u32>,
        fields: &Fields<'_>,
    ) -> Result<Constraint<S>, ModelFault> {
        constraint_of(seen, fields)
    }
}

/// Things of one kind in file order, and their handles in the same order.
#[derive(Drop)]
pub(crate) struct Listed<T> {
    pub(crate) items: Vec<T>,
    pub(crate) handles: IndexSet<u32>,
}

// The places of the last lines with the keys of a record, in one pass over its lines.
fn find_lines(book: &Book, rec: RecId, table: &[&[u8]], found: &mut [Option<usize>])
    requires exists { rec.place < length (records rec.kind book.now) }
    requires table { map (λ (k : Bor (List ℕ)). k.now) table.now ≡ map key_bytes (keys_of rec.kind) }
    requires room { length found.old ≡ length table.now }
    ensures found { found.new ≡ map (λ k. last_place (key_bytes k) (rows_in rec book.now)) (keys_of rec.kind) }
    ensures room { length found.new ≡ length table.now }
{
    book.find(rec, table, found);
}

/// The things that the records of a kind are, or the first fault.
pub(crate) fn type_all<T: FromFields>(alloc: Global, book: &Book) -> Result<Listed<T>, ModelFault>
    requires can { T.can_type }
    ensures value { IsAnswer (listed_of result) (all_of T.handle T.typed [] (records T.kind book.now)) }
    ensures handles { IfOk result (λ l. l.handles.keys ≡ map T.handle l.items.items) }
{
    let kind = T::kind();
    let table = key_table(alloc, kind)?;
    let mut found = vec![in alloc; None; table.len()]?;
    let mut handles = IndexSet::new(alloc);
    let mut items = Vec::new(alloc);
    for place in 0..book.count(kind) {
        let rec = RecId { kind, place };
        find_lines(book, rec, &table, &mut found);
        let fields = Fields::of(book, rec, &found);
        let item = T::from_fields(alloc, &handles, &fields)?;
        handles.insert(item.handle())?;
        items.push(item)?;
    }
    Ok(Listed { items, handles })
}

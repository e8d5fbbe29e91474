// What trees are made from.
#![tactic(auto, unfolding(crate::specs::Sources::param_tree, crate::specs::Sources::act_numbers))]

ghost use Rattle.std.specs.Prelude.{◌≡◌, ◌+◌, ◌*◌, ◌^◌, ◌≤◌, ◌<◌, map};
ghost use Rattle.sk_types.specs.Handles.{item_of_group};
ghost use Rattle.sk_expr.specs.Trees.{poly_of};
ghost use Rattle.sk_expr.specs.PartViews.{v3_of};
ghost use Rattle.sk_geom.specs.Sources.{IsSource, param_tree, three_params, four_params, group_vector, group_quaternion, act_numbers};
ghost use Rattle.sk_geom.specs.Views.{source_of};

use sk_expr::{Expr, Tree, V3};
use sk_num::Grid;
use sk_types::{EntityId, GroupId, Numbers, Outline, ParamId, act_at, place_of, value_of};

/// What trees are made from. Each list stands in rising handle order.
pub struct Source<'a, const S: u32> {
    /// The entities of all groups.
    pub outline: &'a Outline<S>,
    /// The parameters of this group and of the groups before it, and the numbers at which the entities of the groups before it
    /// stand.
    pub numbers: &'a Numbers<S>,
    /// What is to be solved: the unknown in a tree is the place in this list, of 65535 at most.
    pub unknowns: &'a [ParamId],
    /// The group.
    pub group: GroupId,
}

impl<'a, const S: u32> Source<'a, S> {
    /// The parameter with a handle: its unknown, or the number of its value.
    pub(crate) fn param(&self, handle: u64) -> Tree<S>
        requires { IsSource (source_of self.now) }
        ensures { poly_of result ≡ param_tree (source_of self.now) handle }
    {
        match place_of(self.unknowns, handle) {
            Some(place) => Expr::Var(place as u16),
            None => match value_of(self.numbers.params.as_slice(), handle) {
                Some(value) => Expr::Num(value),
                None => Expr::Num(Grid::zero()),
            },
        }
    }

    /// Three parameters from this one on.
    #[tactic(auto, unfolding(crate::specs::Sources::three_params))]
    pub(crate) fn three_params(&self, handle: u64) -> V3<S>
        requires source { IsSource (source_of self.now) }
        requires fits { handle < 2 ^ 63 }
        ensures { v3_of result ≡ three_params (source_of self.now) handle }
    {
        V3 {
            x: self.param(handle),
            y: self.param(handle + 1),
            z: self.param(handle + 2),
        }
    }

    /// Four parameters from this one on.
    #[tactic(auto, unfolding(crate::specs::Sources::four_params))]
    pub(crate) fn four_params(&self, handle: u64) -> [Tree<S>; 4]
        requires source { IsSource (source_of self.now) }
        requires fits { handle < 2 ^ 63 }
        ensures { map poly_of result ≡ four_params (source_of self.now) handle }
    {
        [
            self.param(handle),
            self.param(handle + 1),
            self.param(handle + 2),
            self.param(handle + 3),
        ]
    }

    /// The handle of the group's i-th own parameter.
    fn own_param(&self, i: u64) -> u64
        requires { i ≤ 6 }
        ensures number { result ≡ item_of_group self.now.group.0 i }
        ensures fits { result < 2 ^ 63 }
    {
        (1 << 31) + u64::from(self.group.0) * 65536 + i
    }

    /// The group's vector: its own parameters 0 to 2.
    #[tactic(auto, unfolding(crate::specs::Sources::group_vector))]
    pub fn group_vector(&self) -> V3<S>
        requires { IsSource (source_of self.now) }
        ensures { v3_of result ≡ group_vector (source_of self.now) }
    {
        self.three_params(self.own_param(0))
    }

    /// The group's quaternion: its own parameters 3 to 6.
    #[tactic(auto, unfolding(crate::specs::Sources::group_quaternion))]
    pub fn group_quaternion(&self) -> [Tree<S>; 4]
        requires { IsSource (source_of self.now) }
        ensures { map poly_of result ≡ group_quaternion (source_of self.now) }
    {
        self.four_params(self.own_param(3))
    }

    /// The numbers at which an entity stands; 0 where it has none.
    pub(crate) fn act_numbers(&self, id: EntityId) -> [Grid<S>; 4]
        requires { IsSource (source_of self.now) }
        ensures { result ≡ act_numbers (source_of self.now) id }
    {
        match act_at(self.numbers.acts.as_slice(), id) {
            Some(act) => act.values,
            None => [Grid::zero(); 4],
        }
    }
}

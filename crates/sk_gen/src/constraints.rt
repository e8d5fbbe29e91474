// The constraints.
ghost use Rattle.std.specs.Prelude.{◌≡◌, ◌++◌, ◌<◌, ◌≤◌, OnOk, codes};
ghost use Rattle.sk_gen.specs.MadeModel.{constraint_head, length_constraint, joint_constraint, turn_constraint, turn_value, turn_kind, line_constraints, of_lines};

use crate::NoMemory;
use crate::chain::item;
use crate::groups::workplane;
use crate::lines::{put_close, put_handle, put_quantity, put_whole};

#[tactic(auto, unfolding(crate::specs::MadeModel::constraint_head))]
fn put_head(out: &mut Vec<u8>, number: u16, kind: u16) -> Result<(), NoMemory>
    ensures { OnOk result (out.new.items ≡ out.old.items ++ constraint_head number kind) }
{
    put_handle(out, "Constraint.h.v", number.into())?;
    put_whole(out, "Constraint.type", kind)?;
    put_handle(out, "Constraint.group.v", 2)?;
    put_handle(out, "Constraint.workplane.v", workplane())
}

#[tactic(auto, unfolding(crate::specs::MadeModel::length_constraint))]
fn put_length(out: &mut Vec<u8>, number: u16, k: u16) -> Result<(), NoMemory>
    requires { k < 90 }
    ensures { OnOk result (out.new.items ≡ out.old.items ++ length_constraint number k) }
{
    put_head(out, number, 30)?;
    put_quantity(out, "Constraint.valA", 10)?;
    put_handle(out, "Constraint.ptA.v", item(k, 1))?;
    put_handle(out, "Constraint.ptB.v", item(k, 2))?;
    put_close(out, "AddConstraint")
}

#[tactic(auto, unfolding(crate::specs::MadeModel::joint_constraint))]
fn put_joint(out: &mut Vec<u8>, number: u16, k: u16) -> Result<(), NoMemory>
    requires { k < 90 }
    ensures { OnOk result (out.new.items ≡ out.old.items ++ joint_constraint number k) }
{
    put_head(out, number, 20)?;
    put_handle(out, "Constraint.ptA.v", item(k, 2))?;
    put_handle(out, "Constraint.ptB.v", item(k + 1, 1))?;
    put_close(out, "AddConstraint")
}

#[tactic(auto, unfolding(crate::specs::MadeModel::turn_value))]
fn put_turn_value(out: &mut Vec<u8>, k: u16) -> Result<(), NoMemory>
    requires { k < 90 }
    ensures { OnOk result (out.new.items ≡ out.old.items ++ turn_value k) }
{
    if (k + 1) % 10 == 0 {
        put_quantity(out, "Constraint.valA", 90)
    } else {
        Ok(())
    }
}

fn turn_kind(k: u16) -> u16
    requires { k < 90 }
    ensures { result ≡ turn_kind k }
{
    if (k + 1) % 10 == 0 { 120 } else { 122 }
}

#[tactic(auto, unfolding(crate::specs::MadeModel::turn_constraint))]
fn put_turn(out: &mut Vec<u8>, number: u16, k: u16) -> Result<(), NoMemory>
    requires { k < 90 }
    ensures { OnOk result (out.new.items ≡ out.old.items ++ turn_constraint number k) }
{
    put_head(out, number, turn_kind(k))?;
    put_turn_value(out, k)?;
    put_handle(out, "Constraint.entityA.v", item(k, 0))?;
    put_handle(out, "Constraint.entityB.v", item(k + 1, 0))?;
    put_close(out, "AddConstraint")
}

#[tactic(auto, unfolding(crate::specs::MadeModel::line_constraints))]
fn put_constraints(out: &mut Vec<u8>, k: u16) -> Result<(), NoMemory>
    requires { k < 90 }
    ensures { OnOk result (out.new.items ≡ out.old.items ++ line_constraints k) }
{
    if k == 0 {
        return put_length(out, 1, 0);
    }
    let before = k - 1;
    put_length(out, 3 * before + 2, k)?;
    put_joint(out, 3 * before + 3, before)?;
    put_turn(out, 3 * before + 4, before)
}

/// Puts the constraints of the first `n` lines.
pub(crate) fn put_line_constraints(out: &mut Vec<u8>, n: u16) -> Result<(), NoMemory>
    requires { n ≤ 90 }
    ensures { OnOk result (out.new.items ≡ out.old.items ++ of_lines n line_constraints) }
{
    for k in 0..n {
        put_constraints(out, k)?;
    }
    Ok(())
}

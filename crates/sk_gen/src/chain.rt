// The chain's places, and its parameters.
ghost use Rattle.std.specs.Prelude.{◌≡◌, ◌++◌, ◌<◌, ◌≤◌, ◌+◌, OnOk, codes};
ghost use Rattle.sk_gen.specs.MadeModel.{request_of, item, point_u, point_v, parameter, line_parameters, vectors, of_lines};

use crate::NoMemory;
use crate::lines::{put_close, put_handle, put_quantity};
use sk_types::{EntityId, GroupId, ParamId, RequestId};

/// The request of line `k`.
pub(crate) fn request_of(k: u16) -> RequestId
    requires { k ≤ 90 }
    ensures { result.0 ≡ request_of k }
{
    RequestId(4 + u32::from(k))
}

/// The i-th item of line `k`.
pub(crate) fn item(k: u16, i: u16) -> u32
    requires { k ≤ 90 }
    ensures { result ≡ item k i }
{
    EntityId::of_request(request_of(k), i).0
}

fn point_u(k: u16) -> u16
    requires { k ≤ 90 }
    ensures value { result ≡ point_u k }
    ensures small { result ≤ 1000 }
{
    (k + 1) / 2 * 10
}

fn point_v(k: u16) -> u16
    requires { k ≤ 90 }
    ensures value { result ≡ point_v k }
    ensures small { result ≤ 1000 }
{
    k / 2 * 10
}

#[tactic(auto, unfolding(crate::specs::MadeModel::parameter))]
fn put_parameter(out: &mut Vec<u8>, handle: u32, number: u16) -> Result<(), NoMemory>
    requires { number ≤ 1000 }
    ensures { OnOk result (out.new.items ≡ out.old.items ++ parameter handle number) }
{
    if number == 0 {
        return Ok(());
    }
    put_handle(out, "Param.h.v.", handle)?;
    put_quantity(out, "Param.val", number)?;
    put_close(out, "AddParam")
}

#[tactic(auto, unfolding(crate::specs::MadeModel::line_parameters))]
fn put_coordinates(out: &mut Vec<u8>, k: u16) -> Result<(), NoMemory>
    requires { k < 90 }
    ensures { OnOk result (out.new.items ≡ out.old.items ++ line_parameters k) }
{
    put_parameter(out, item(k, 16), point_u(k))?;
    put_parameter(out, item(k, 17), point_v(k))?;
    put_parameter(out, item(k, 19), point_u(k + 1))?;
    put_parameter(out, item(k, 20), point_v(k + 1))
}

/// Puts the parameters of the first `n` lines.
pub(crate) fn put_line_parameters(out: &mut Vec<u8>, n: u16) -> Result<(), NoMemory>
    requires { n ≤ 90 }
    ensures { OnOk result (out.new.items ≡ out.old.items ++ of_lines n line_parameters) }
{
    for k in 0..n {
        put_coordinates(out, k)?;
    }
    Ok(())
}

/// Puts the vectors of the extrusion and of the translation.
#[tactic(auto, unfolding(crate::specs::MadeModel::vectors))]
pub(crate) fn put_vectors(out: &mut Vec<u8>) -> Result<(), NoMemory>
    ensures { OnOk result (out.new.items ≡ out.old.items ++ vectors) }
{
    put_parameter(out, ParamId::of_group(GroupId(3), 2).0, 5)?;
    put_parameter(out, ParamId::of_group(GroupId(4), 0).0, 1000)
}

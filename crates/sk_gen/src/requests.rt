// The requests.
ghost use Rattle.std.specs.Prelude.{◌≡◌, ◌++◌, ◌<◌, ◌≤◌, OnOk, codes};
ghost use Rattle.sk_gen.specs.MadeModel.{workplane_request, reference_requests, line_request, of_lines};

use crate::NoMemory;
use crate::chain::request_of;
use crate::groups::workplane;
use crate::lines::{put_close, put_handle, put_whole};

#[tactic(auto, unfolding(crate::specs::MadeModel::workplane_request))]
fn put_workplane_request(out: &mut Vec<u8>, r: u32) -> Result<(), NoMemory>
    ensures { OnOk result (out.new.items ≡ out.old.items ++ workplane_request r) }
{
    put_handle(out, "Request.h.v", r)?;
    put_whole(out, "Request.type", 100)?;
    put_handle(out, "Request.group.v", 1)?;
    put_close(out, "AddRequest")
}

/// Puts the requests of the reference workplanes.
#[tactic(auto, unfolding(crate::specs::MadeModel::reference_requests))]
pub(crate) fn put_reference_requests(out: &mut Vec<u8>) -> Result<(), NoMemory>
    ensures { OnOk result (out.new.items ≡ out.old.items ++ reference_requests) }
{
    put_workplane_request(out, 1)?;
    put_workplane_request(out, 2)?;
    put_workplane_request(out, 3)
}

#[tactic(auto, unfolding(crate::specs::MadeModel::line_request))]
fn put_line_request(out: &mut Vec<u8>, k: u16) -> Result<(), NoMemory>
    requires { k < 90 }
    ensures { OnOk result (out.new.items ≡ out.old.items ++ line_request k) }
{
    put_handle(out, "Request.h.v", request_of(k).0)?;
    put_whole(out, "Request.type", 200)?;
    put_handle(out, "Request.workplane.v", workplane())?;
    put_handle(out, "Request.group.v", 2)?;
    put_close(out, "AddRequest")
}

/// Puts the requests of the first `n` lines.
pub(crate) fn put_line_requests(out: &mut Vec<u8>, n: u16) -> Result<(), NoMemory>
    requires { n ≤ 90 }
    ensures { OnOk result (out.new.items ≡ out.old.items ++ of_lines n line_request) }
{
    for k in 0..n {
        put_line_request(out, k)?;
    }
    Ok(())
}

ghost use Rattle.std.specs.Prelude.{◌≡◌, ◌≤◌, MatchResult, IfOk, Ok, Err};
ghost use Rattle.sk_gen.specs.MadeModel.{made, made_text};
ghost use Rattle.sk_gen.specs.declared.fault.MakeFault.TheVariants as fault;

use crate::NoMemory;
use crate::chain::{put_line_parameters, put_vectors};
use crate::constraints::put_line_constraints;
use crate::fault::MakeFault;
use crate::groups::{put_drawing, put_extrusion, put_header, put_reference_group, put_translation};
use crate::requests::{put_line_requests, put_reference_requests};
use std::alloc::Global;

#[tactic(auto, unfolding(crate::specs::MadeModel::made_text))]
fn text(alloc: Global, n: u16) -> Result<Vec<u8>, NoMemory>
    requires { n ≤ 90 }
    ensures { IfOk result (λ text. text.items ≡ made_text n) }
{
    let mut out = Vec::new(alloc);
    put_header(&mut out)?;
    put_reference_group(&mut out)?;
    put_drawing(&mut out)?;
    put_extrusion(&mut out)?;
    put_translation(&mut out)?;
    put_line_parameters(&mut out, n)?;
    put_vectors(&mut out)?;
    put_reference_requests(&mut out)?;
    put_line_requests(&mut out, n)?;
    put_line_constraints(&mut out, n)?;
    Ok(out)
}

/// The text of a made model of `n` lines. BadCount exactly where `n` isn't from 1 to 90.
pub fn make_model(alloc: Global, n: u32) -> Result<Vec<u8>, MakeFault>
    ensures value { MatchResult result (λ text. made n ≡ Ok text.items) (λ e. e ≡ fault.BadCount → made n ≡ Err fault.BadCount) }
    ensures bad { made n ≡ Err fault.BadCount → result ≡ Err fault.BadCount }
{
    if n == 0 || n > 90 {
        return Err(MakeFault::BadCount);
    }
    let text = text(alloc, n as u16)?;
    Ok(text)
}

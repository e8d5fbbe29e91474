// Why a model is refused, in words.
ghost use Rattle.std.specs.Prelude.{◌≡◌, ◌++◌, OnOk, codes};
ghost use Rattle.std.specs.Fmt.{decimal, signed_decimal};
ghost use Rattle.sk_report.specs.ReportText.{handle as handle_bytes, spaced_handle};
ghost use Rattle.sk_app.specs.Lent.{fault_of};
ghost use Rattle.sk_app.specs.FaultText.{reason_text as reason_bytes, what_text as what_bytes, read_fault_text, model_fault_text, fault_text};

use crate::NoMemory;
use crate::fault::Fault;
use itoa::Buffer;
use sk_model::{ModelFault, Reason, What};
use sk_num::handle_text;
use sk_records::ReadFault;

/// Puts a count behind the text.
pub(crate) fn push_count(out: &mut Vec<u8>, count: u128) -> Result<(), NoMemory>
    ensures { OnOk result (out.new.items ≡ out.old.items ++ decimal count) }
{
    out.extend_from_slice(Buffer::new().format(count).as_bytes())?;
    Ok(())
}

// Puts a handle in eight digits behind the text.
fn push_handle(out: &mut Vec<u8>, handle: u32) -> Result<(), NoMemory>
    ensures { OnOk result (out.new.items ≡ out.old.items ++ handle_bytes handle) }
{
    out.extend_from_slice(&handle_text(handle))?;
    Ok(())
}

#[tactic(auto, unfolding(crate::specs::FaultText::reason_text))]
fn reason_text(reason: Reason) -> &'static [u8]
    ensures { result.now ≡ reason_bytes reason }
{
    match reason {
        Reason::Group => b"group",
        Reason::Request => b"request",
        Reason::Constraint => b"constraint",
        Reason::Relaxed => b"relaxed",
        Reason::ReferenceDims => b"reference-dims",
        Reason::References => b"references",
        Reason::Scale => b"scale",
        Reason::SpaceArc => b"space-arc",
        Reason::NestedWorkplane => b"nested-workplane",
    }
}

#[tactic(auto, unfolding(crate::specs::FaultText::what_text))]
fn what_text(what: What) -> &'static [u8]
    ensures { result.now ≡ what_bytes what }
{
    match what {
        What::Groups => b"groups",
        What::Links => b"links",
        What::Entities => b"entities",
        What::Remap => b"remap",
        What::Unknowns => b"unknowns",
        What::Rows => b"rows",
    }
}

// Puts words with a line's number behind them.
fn push_line(out: &mut Vec<u8>, words: &[u8], line: u128) -> Result<(), NoMemory>
    ensures { OnOk result (out.new.items ≡ out.old.items ++ (words.now ++ decimal line)) }
{
    out.extend_from_slice(words)?;
    push_count(out, line)
}

// Puts words with a handle behind them.
fn push_thing(out: &mut Vec<u8>, words: &[u8], handle: u32) -> Result<(), NoMemory>
    ensures { OnOk result (out.new.items ≡ out.old.items ++ (words.now ++ handle_bytes handle)) }
{
    out.extend_from_slice(words)?;
    push_handle(out, handle)
}

// Puts words with two handles behind them.
fn push_things(out: &mut Vec<u8>, words: &[u8], first: u32, second: u32) -> Result<(), NoMemory>
    ensures { OnOk result (out.new.items ≡ out.old.items ++ (words.now ++ handle_bytes first ++ spaced_handle second)) }
{
    push_thing(out, words, first)?;
    push_thing(out, b" ", second)
}

#[tactic(auto, unfolding(crate::specs::FaultText::read_fault_text))]
fn push_read_fault(out: &mut Vec<u8>, fault: ReadFault) -> Result<(), NoMemory>
    ensures { OnOk result (out.new.items ≡ out.old.items ++ read_fault_text fault) }
{
    match fault {
        ReadFault::TooLarge => out.extend_from_slice(b"too large"),
        ReadFault::BadHeader => out.extend_from_slice(b"bad header"),
        ReadFault::BadLine(line) => push_line(out, b"bad line ", line.into()),
        ReadFault::OpenMap(line) => push_line(out, b"open map ", line.into()),
        ReadFault::OpenRecord(line) => push_line(out, b"open record ", line.into()),
        ReadFault::NoMemory => Ok(()),
    }
}

fn push_unknown(out: &mut Vec<u8>, handle: u32, number: i32) -> Result<(), NoMemory>
    ensures { OnOk result (out.new.items ≡ out.old.items ++ (codes "unknown kind " ++ handle_bytes handle ++ codes " " ++ signed_decimal number)) }
{
    push_thing(out, b"unknown kind ", handle)?;
    out.extend_from_slice(b" ")?;
    out.extend_from_slice(Buffer::new().format(number).as_bytes())
}

fn push_left_out(out: &mut Vec<u8>, handle: u32, reason: Reason) -> Result<(), NoMemory>
    ensures { OnOk result (out.new.items ≡ out.old.items ++ (codes "left out " ++ handle_bytes handle ++ codes " " ++ reason_bytes reason)) }
{
    push_thing(out, b"left out ", handle)?;
    out.extend_from_slice(b" ")?;
    out.extend_from_slice(reason_text(reason))
}

#[tactic(auto, unfolding(crate::specs::FaultText::model_fault_text))]
fn push_model_fault(out: &mut Vec<u8>, fault: ModelFault) -> Result<(), NoMemory>
    ensures { OnOk result (out.new.items ≡ out.old.items ++ model_fault_text fault) }
{
    match fault {
        ModelFault::NumberAt(line) => push_line(out, b"number at ", line as u128),
        ModelFault::DuplicateHandle(handle) => push_thing(out, b"duplicate ", handle),
        ModelFault::UnknownKind(handle, number) => push_unknown(out, handle, number),
        ModelFault::LeftOut(handle, reason) => push_left_out(out, handle, reason),
        ModelFault::NoSuch(handle, target) => push_things(out, b"no such ", handle, target),
        ModelFault::Ahead(handle, target) => push_things(out, b"ahead ", handle, target),
        ModelFault::BadValue(handle) => push_thing(out, b"bad value ", handle),
        ModelFault::TooMany(what) => {
            out.extend_from_slice(b"too many ")?;
            out.extend_from_slice(what_text(what))
        }
        ModelFault::NoMemory => Ok(()),
    }
}

// Puts words with a name behind them.
fn push_name(out: &mut Vec<u8>, words: &[u8], name: &str) -> Result<(), NoMemory>
    ensures { OnOk result (out.new.items ≡ out.old.items ++ (words.now ++ name.now)) }
{
    out.extend_from_slice(words)?;
    out.extend_from_slice(name.as_bytes())
}

fn push_text(out: &mut Vec<u8>, fault: ReadFault) -> Result<(), NoMemory>
    ensures { OnOk result (out.new.items ≡ out.old.items ++ (codes "model " ++ read_fault_text fault)) }
{
    out.extend_from_slice(b"model ")?;
    push_read_fault(out, fault)
}

fn push_model(out: &mut Vec<u8>, fault: ModelFault) -> Result<(), NoMemory>
    ensures { OnOk result (out.new.items ≡ out.old.items ++ (codes "model " ++ model_fault_text fault)) }
{
    out.extend_from_slice(b"model ")?;
    push_model_fault(out, fault)
}

fn push_part(out: &mut Vec<u8>, name: &str, fault: ReadFault) -> Result<(), NoMemory>
    ensures { OnOk result (out.new.items ≡ out.old.items ++ (codes "part " ++ (name.now ++ (codes " " ++ read_fault_text fault)))) }
{
    push_name(out, b"part ", name)?;
    out.extend_from_slice(b" ")?;
    push_read_fault(out, fault)
}

fn push_part_number(out: &mut Vec<u8>, name: &str, line: u128) -> Result<(), NoMemory>
    ensures { OnOk result (out.new.items ≡ out.old.items ++ (codes "part " ++ (name.now ++ (codes " number at " ++ decimal line)))) }
{
    push_name(out, b"part ", name)?;
    push_line(out, b" number at ", line)
}

/// Puts the text of a fault behind the text.
#[tactic(auto, unfolding(crate::specs::FaultText::fault_text))]
pub(crate) fn push_fault(out: &mut Vec<u8>, fault: &Fault<'_>) -> Result<(), NoMemory>
    ensures { OnOk result (out.new.items ≡ out.old.items ++ fault_text (fault_of fault.now)) }
{
    match fault {
        Fault::Words => out.extend_from_slice(b"words"),
        Fault::Text(fault) => push_text(out, *fault),
        Fault::Model(fault) => push_model(out, *fault),
        Fault::Part(name, fault) => push_part(out, name, *fault),
        Fault::PartNumber(name, line) => push_part_number(out, name, *line as u128),
        Fault::Absent(name) => push_name(out, b"absent ", name),
        Fault::Unread(name) => push_name(out, b"read ", name),
        Fault::Group(group) => push_thing(out, b"group ", *group),
    }
}

//! What is told of a load that isn't taken.

ghost use Rattle.std.specs.Prelude.{◌≡◌, IfOk, string_bytes};
ghost use Rattle.pgloaded.specs.Loaded.{input_line, load_text, reason_text, status_of_load};
ghost use Rattle.pgloaded.specs.Loaded.{stream_fault};

use pgcopy::Reason;
use pgload::{InputFault, LoadFault};
use pgsub_core::Fault;
use std::alloc::{AllocError, Global};

/// The fault of a stream for which a load isn't taken, where it is one.
pub fn stream_fault(fault: InputFault) -> Option<Fault>
    ensures { result ≡ stream_fault fault }
{
    match fault {
        InputFault::Load(LoadFault::Wire(fault)) => Some(Fault::Wire(fault)),
        InputFault::Load(LoadFault::Store(fault)) => Some(Fault::Store(fault)),
        InputFault::Load(LoadFault::Memory) => Some(Fault::Memory),
        InputFault::Read => Some(Fault::Read),
        _ => None,
    }
}

/// The exit status of a load that isn't taken for another fault.
pub fn load_status(fault: InputFault) -> u8
    ensures { result ≡ status_of_load fault }
{
    match fault {
        InputFault::Load(LoadFault::NotNew) => 3,
        InputFault::Load(_) => 1,
        InputFault::CutInput | InputFault::Read => 15,
    }
}

/// What is wrong with a line of a text.
fn reason_text(reason: Reason) -> &'static str
    ensures { result.now ≡ reason_text reason }
{
    match reason {
        Reason::MissingColumn => "1 MissingColumn",
        Reason::ExtraColumn => "2 ExtraColumn",
        Reason::CutSequence => "3 CutSequence",
        Reason::CarriageReturn => "4 CarriageReturn",
        Reason::NotUtf8 => "5 NotUtf8",
        Reason::TooLong => "6 TooLong",
    }
}

/// The text of a load's own fault.
fn load_text(alloc: Global, fault: LoadFault) -> Result<String, AllocError>
    ensures { IfOk result (λ text. string_bytes text ≡ load_text fault) }
{
    let text = match fault {
        LoadFault::Line(oid, number, reason) => {
            let reason = reason_text(reason);
            return format!(in alloc; "load 1 Line: table {oid}, line {number}: {reason}");
        }
        LoadFault::Marker(oid) => return format!(in alloc; "load 2 Marker: table {oid}"),
        LoadFault::CutLine(oid) => return format!(in alloc; "load 3 CutLine: table {oid}"),
        LoadFault::Order => "load 4 Order",
        LoadFault::TooManyBatches => "load 5 TooManyBatches",
        LoadFault::BadPoint => "load 6 BadPoint",
        LoadFault::NotNew => "load 7 NotNew",
        LoadFault::BadInput => "load 8 BadInput",
        LoadFault::Wire(_) | LoadFault::Store(_) | LoadFault::Memory => "",
    };
    String::from_str(alloc, text)
}

/// The line of why a load isn't taken.
pub fn input_line(alloc: Global, fault: InputFault) -> Result<String, AllocError>
    ensures { IfOk result (λ line. string_bytes line ≡ input_line fault) }
{
    let text = match fault {
        InputFault::Load(fault) => load_text(alloc, fault)?,
        InputFault::CutInput => String::from_str(alloc, "load 9 CutInput")?,
        InputFault::Read => String::new(alloc),
    };
    format!(in alloc; "pgsub: {text}\n")
}

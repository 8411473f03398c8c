//! The texts of faults, each with the number and the name of its kind.

ghost use Rattle.std.specs.Prelude.{Some};
ghost use Rattle.std.specs.Fmt.{DisplaysOnOk};
ghost use Rattle.pgsub_cli.specs.FaultTexts.{fault_text, stop_line, stop_text, wire_text};
ghost use Rattle.pgsub_cli.specs.FaultTexts.{reason_text, tuple_text, order_text, relation_text};
ghost use Rattle.pgsub_cli.specs.FaultTexts.{spool_text, store_text};

use crate::fault::RunFault;
use pgapply::StoreFault;
use pglogical::{DecodeFault, Reason};
use pgorder::OrderFault;
use pgrel::RelFault;
use pgspool::SpoolFault;
use pgsub_core::{Fault, Side};
use pgtuple::TupleFault;
use pgwire::WireFault;
use std::fmt;

/// A fault of following, as it is printed.
#[derive(Drop)]
struct FaultText(Fault);

impl fmt::Display for FaultText {
    ghost output = { λ text. Some (fault_text text.0) };

    fn fmt<W: fmt::Write>(&self, f: &mut fmt::Formatter<W>) -> fmt::Result {
        match self.0 {
            Fault::Wire(fault) => write_wire(f, fault),
            Fault::Decode(fault) => write_decode(f, fault),
            Fault::Order(fault) => write_order(f, fault),
            Fault::Relation(fault) => write_relation(f, fault),
            Fault::Spool(fault) => write_spool(f, fault),
            Fault::Store(fault) => write_store(f, fault),
            Fault::Read => f.write_str("read"),
            Fault::Closed => f.write_str("closed"),
            Fault::Memory => f.write_str("memory"),
        }
    }
}

/// The line on standard error of a run that stopped. A file that can't be read is named by its
/// path.
#[derive(Drop)]
pub struct StopLine<'t> {
    /// Why the run stopped.
    pub fault: RunFault,
    /// The path of the first file that the run reads.
    pub left: &'t str,
    /// The path of the second file, empty where it reads none.
    pub right: &'t str,
}

impl fmt::Display for StopLine<'_> {
    ghost output = { λ line. Some (stop_line line.fault line.left.now line.right.now) };

    fn fmt<W: fmt::Write>(&self, f: &mut fmt::Formatter<W>) -> fmt::Result {
        let (fault, left, right) = (self.fault, self.left, self.right);
        writeln!(f, "pgsub: {}", StopText { fault, left, right })
    }
}

/// That line without the program's name.
#[derive(Drop)]
struct StopText<'t> {
    fault: RunFault,
    left: &'t str,
    right: &'t str,
}

impl fmt::Display for StopText<'_> {
    ghost output = { λ text. Some (stop_text text.fault text.left.now text.right.now) };

    fn fmt<W: fmt::Write>(&self, f: &mut fmt::Formatter<W>) -> fmt::Result {
        let (left, right) = (self.left, self.right);
        match self.fault {
            RunFault::Stream(fault) => write!(f, "{}", FaultText(fault)),
            RunFault::OfSide(Side::Left, fault) => write!(f, "left: {}", FaultText(fault)),
            RunFault::OfSide(Side::Right, fault) => write!(f, "right: {}", FaultText(fault)),
            RunFault::NotHexadecimal(line) => write!(f, "capture line {line}: not hexadecimal"),
            RunFault::TooLong => f.write_str("capture too long"),
            RunFault::CannotRead(Side::Left) => write!(f, "cannot read {left}"),
            RunFault::CannotRead(Side::Right) => write!(f, "cannot read {right}"),
            RunFault::CannotWrite => f.write_str("cannot write"),
            RunFault::NotAnLsn => f.write_str("not an LSN"),
        }
    }
}

pub(crate) fn write_wire<W: fmt::Write>(f: &mut fmt::Formatter<W>, fault: WireFault) -> fmt::Result
    ensures { DisplaysOnOk W.write_str_gives f.old result (Some (wire_text fault)) f.new }
{
    let name = match fault {
        WireFault::UnknownFrame(byte) => return write!(f, "wire 1 UnknownFrame {byte}"),
        WireFault::BadLength => "wire 2 BadLength",
        WireFault::TooLarge => "wire 3 TooLarge",
        WireFault::AfterDone => "wire 4 AfterDone",
        WireFault::UnknownServerMessage(byte) => {
            return write!(f, "wire 5 UnknownServerMessage {byte}");
        }
        WireFault::Short => "wire 6 Short",
        WireFault::Trailing => "wire 7 Trailing",
        WireFault::BadReplyByte => "wire 8 BadReplyByte",
        WireFault::Memory => "memory",
    };
    f.write_str(name)
}

pub(crate) fn write_decode<W: fmt::Write>(
    f: &mut fmt::Formatter<W>,
    fault: DecodeFault,
) -> fmt::Result
    ensures { DisplaysOnOk W.write_str_gives f.old result
        (Some (reason_text fault.reason fault.place)) f.new }
{
    let place = fault.place;
    let name = match fault.reason {
        Reason::UnknownMessage => "decode 1 UnknownMessage",
        Reason::Short => "decode 2 Short",
        Reason::Trailing => "decode 3 Trailing",
        Reason::BadFlag => "decode 4 BadFlag",
        Reason::BadLetter => "decode 5 BadLetter",
        Reason::NotUtf8 => "decode 6 NotUtf8",
        Reason::BadCount => "decode 7 BadCount",
        Reason::Tuple(inner) => return write_tuple(f, inner, place),
        Reason::Memory => return f.write_str("memory"),
    };
    write!(f, "{name} at {place}")
}

fn write_tuple<W: fmt::Write>(
    f: &mut fmt::Formatter<W>,
    fault: TupleFault,
    place: usize,
) -> fmt::Result
    ensures { DisplaysOnOk W.write_str_gives f.old result (Some (tuple_text fault place)) f.new }
{
    let name = match fault {
        TupleFault::Short(_) => "decode 8 Tuple 1 Short",
        TupleFault::BadKind(_) => "decode 8 Tuple 2 BadKind",
        TupleFault::BadLength(_) => "decode 8 Tuple 3 BadLength",
        TupleFault::NotUtf8(_) => "decode 8 Tuple 4 NotUtf8",
        TupleFault::TooManyColumns(_) => "decode 8 Tuple 5 TooManyColumns",
        TupleFault::Memory => return f.write_str("memory"),
    };
    write!(f, "{name} at {place}")
}

pub(crate) fn write_order<W: fmt::Write>(
    f: &mut fmt::Formatter<W>,
    fault: OrderFault,
) -> fmt::Result
    ensures { DisplaysOnOk W.write_str_gives f.old result (Some (order_text fault)) f.new }
{
    f.write_str(match fault {
        OrderFault::OutsideTransaction => "order 1 OutsideTransaction",
        OrderFault::NestedBegin => "order 2 NestedBegin",
        OrderFault::CommitWithoutBegin => "order 3 CommitWithoutBegin",
        OrderFault::CommitLsnDiffers => "order 4 CommitLsnDiffers",
        OrderFault::NestedStart => "order 5 NestedStart",
        OrderFault::StopWithoutStart => "order 6 StopWithoutStart",
        OrderFault::FirstFlagOnOpen => "order 7 FirstFlagOnOpen",
        OrderFault::LaterFlagOnUnknown => "order 8 LaterFlagOnUnknown",
        OrderFault::CommitOfUnknown => "order 9 CommitOfUnknown",
        OrderFault::StreamInVersion1 => "order 10 StreamInVersion1",
        OrderFault::CommitMisplaced => "order 11 CommitMisplaced",
        OrderFault::AbortMisplaced => "order 12 AbortMisplaced",
        OrderFault::Memory => "memory",
    })
}

fn write_relation<W: fmt::Write>(f: &mut fmt::Formatter<W>, fault: RelFault) -> fmt::Result
    ensures { DisplaysOnOk W.write_str_gives f.old result (Some (relation_text fault)) f.new }
{
    match fault {
        RelFault::Width => f.write_str("relation 1 Width"),
        RelFault::UnknownIdentity => f.write_str("relation 2 UnknownIdentity"),
        RelFault::UnchangedInInsert => f.write_str("relation 3 UnchangedInInsert"),
        RelFault::NoIdentity => f.write_str("relation 4 NoIdentity"),
        RelFault::UnknownRelation(oid) => write!(f, "relation 5 UnknownRelation {oid}"),
        RelFault::Memory => f.write_str("memory"),
    }
}

fn write_spool<W: fmt::Write>(f: &mut fmt::Formatter<W>, fault: SpoolFault) -> fmt::Result
    ensures { DisplaysOnOk W.write_str_gives f.old result (Some (spool_text fault)) f.new }
{
    f.write_str(match fault {
        SpoolFault::SpoolFull => "spool 1 SpoolFull",
        SpoolFault::Memory => "memory",
        SpoolFault::NotWritten => "spool 3 NotWritten",
        SpoolFault::NoRoom => "spool 4 NoRoom",
        SpoolFault::NotRead => "spool 5 NotRead",
        SpoolFault::TooManyOpen => "spool 6 TooManyOpen",
    })
}

fn write_store<W: fmt::Write>(f: &mut fmt::Formatter<W>, fault: StoreFault) -> fmt::Result
    ensures { DisplaysOnOk W.write_str_gives f.old result (Some (store_text fault)) f.new }
{
    f.write_str(match fault {
        StoreFault::Clash => "store 1 Clash",
        StoreFault::NoIdentity => "store 2 NoIdentity",
        StoreFault::UnknownIdentity => "store 3 UnknownIdentity",
        StoreFault::UnchangedInInsert => "store 4 UnchangedInInsert",
        StoreFault::Width => "store 5 Width",
        StoreFault::TooManyCopies => "store 7 TooManyCopies",
        StoreFault::Refused => "store 8 Refused",
        StoreFault::NotAStore => "store 10 NotAStore",
        StoreFault::Memory => "memory",
    })
}

//! The program's line of a fault has the words in which the libraries print it.

use pgapply::StoreFault;
use pgcommand::CommandFault;
use pglogical::{DecodeFault, Reason};
use pgorder::OrderFault;
use pgrel::RelFault;
use pgspool::SpoolFault;
use pgsub_cli::fault::RunFault;
use pgsub_cli::fault_text::StopLine;
use pgsub_core::Fault;
use pgtuple::TupleFault;
use pgwire::WireFault;
use std::process::Abort;

/// One fault of each kind that following can end with.
static FAULTS: [Fault; 38] = [
    Fault::Wire(WireFault::UnknownFrame(120)),
    Fault::Wire(WireFault::BadLength),
    Fault::Wire(WireFault::TooLarge),
    Fault::Wire(WireFault::AfterDone),
    Fault::Wire(WireFault::UnknownServerMessage(255)),
    Fault::Wire(WireFault::Short),
    Fault::Wire(WireFault::Trailing),
    Fault::Wire(WireFault::BadReplyByte),
    Fault::Order(OrderFault::OutsideTransaction),
    Fault::Order(OrderFault::NestedBegin),
    Fault::Order(OrderFault::CommitWithoutBegin),
    Fault::Order(OrderFault::CommitLsnDiffers),
    Fault::Order(OrderFault::NestedStart),
    Fault::Order(OrderFault::StopWithoutStart),
    Fault::Order(OrderFault::FirstFlagOnOpen),
    Fault::Order(OrderFault::LaterFlagOnUnknown),
    Fault::Order(OrderFault::CommitOfUnknown),
    Fault::Order(OrderFault::StreamInVersion1),
    Fault::Order(OrderFault::CommitMisplaced),
    Fault::Order(OrderFault::AbortMisplaced),
    Fault::Relation(RelFault::UnknownRelation(4294967295)),
    Fault::Spool(SpoolFault::SpoolFull),
    Fault::Spool(SpoolFault::NotWritten),
    Fault::Spool(SpoolFault::NoRoom),
    Fault::Spool(SpoolFault::NotRead),
    Fault::Spool(SpoolFault::TooManyOpen),
    Fault::Store(StoreFault::Clash),
    Fault::Store(StoreFault::NoIdentity),
    Fault::Store(StoreFault::UnknownIdentity),
    Fault::Store(StoreFault::UnchangedInInsert),
    Fault::Store(StoreFault::Width),
    Fault::Store(StoreFault::TooManyCopies),
    Fault::Store(StoreFault::Refused),
    Fault::Store(StoreFault::NotAStore),
    Fault::Read,
    Fault::Closed,
    Fault::Memory,
    Fault::Wire(WireFault::Memory),
];

/// Why a message can't be decoded, of each kind.
static REASONS: [Reason; 12] = [
    Reason::UnknownMessage,
    Reason::Short,
    Reason::Trailing,
    Reason::BadFlag,
    Reason::BadLetter,
    Reason::NotUtf8,
    Reason::BadCount,
    Reason::Tuple(TupleFault::Short(3)),
    Reason::Tuple(TupleFault::BadKind(3)),
    Reason::Tuple(TupleFault::BadLength(3)),
    Reason::Tuple(TupleFault::NotUtf8(3)),
    Reason::Tuple(TupleFault::TooManyColumns(3)),
];

/// Whether both texts of a fault are the same.
fn is_told(rt: &(impl Abort + AllocGlobal), fault: Fault) -> bool {
    let alloc = rt.alloc();
    let text = format!(in alloc; "pgsub: {fault}\n").expect(rt, "a text");
    let fault = RunFault::Stream(fault);
    let (left, right) = ("", "");
    let line = format!(in alloc; "{}", StopLine { fault, left, right }).expect(rt, "a line");
    line == text
}

#[test]
fn a_fault_is_told_in_the_words_of_its_library(rt: HostRuntime) {
    for &fault in &FAULTS {
        assert!(rt; is_told(&rt, fault), "{fault}");
    }
}

#[test]
fn a_fault_of_decoding_is_told_in_the_words_of_its_library(rt: HostRuntime) {
    for &reason in &REASONS {
        let place = 12;
        let fault = Fault::Decode(DecodeFault { place, reason });
        assert!(rt; is_told(&rt, fault), "{fault}");
    }
}

#[test]
fn memory_that_ran_out_is_told(rt: HostRuntime) {
    let memory = format!(in rt.alloc(); "{}", CommandFault::Memory).expect(&rt, "a text");
    assert!(rt; memory.as_str() == "memory");
}

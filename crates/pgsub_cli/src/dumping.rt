//! Prints what a store holds, row by row as it is read.

ghost use Rattle.std.specs.Prelude.{◌≡◌, ◌≤◌, ◌++◌, [], ℕ, List, Result, Ok, Some, None, true};
ghost use Rattle.std.specs.Prelude.{OnOk, IfErr, ⊤, Option, is_ok, string_bytes};
ghost use Rattle.pgapply.specs.Dump.{dump};
ghost use Rattle.pgapply.specs.Stored.{IsOwnFault};
ghost use Rattle.pgapply.specs.Taken.{Stays};
ghost use Rattle.pgapply.specs.Value.{Tables};
ghost use Rattle.pgsub_core.specs.Machine.Faults.{IsReadFault};
ghost use Rattle.pgsub_cli.specs.declared.fault.Ending.{Ending};
ghost use Rattle.pgsub_cli.specs.declared.fault.RunFault.{RunFault};
ghost use Rattle.pgsub_cli.specs.declared.dumping.LineFault.TheVariants.{CannotWrite};
ghost use Rattle.pgsub_cli.specs.DumpText.{position_line, row_line};
ghost use Rattle.pgsub_cli.specs.Dumped.{Dumps, EndsPrinting, PrintsLeft, PrintsLines};
ghost use Rattle.pgsub_cli.specs.Lines.{IsWriting, after, run_fault_of};
ghost use Rattle.pgsub_cli.specs.Runs.{Tells, status_of};
ghost use Rattle.pgsub_cli.specs.Storing.{IsShown};

use crate::dump::{line_text, position_text};
use crate::fault::{Ending, RunFault};
use crate::files::Output;
use crate::telling::{status, tell};
use pgapply::{DumpRow, DumpSink, ReplicaStore, StoreFault};
use pglsn::Lsn;
use pgsub_core::Fault;
use std::alloc::{AllocError, Global};

/// Lines are written once they have so many bytes.
const PIECE_LEN: usize = 65_536;

/// Why no more lines are written.
#[derive(Clone, Copy)]
enum LineFault {
    /// Memory ran out.
    Memory,
    /// A write failed.
    CannotWrite,
}

/// The fault of a run whose lines aren't written.
fn run_fault(fault: LineFault) -> RunFault
    ensures { result ≡ run_fault_of fault }
{
    match fault {
        LineFault::Memory => RunFault::Stream(Fault::Memory),
        LineFault::CannotWrite => RunFault::CannotWrite,
    }
}

/// Lines on their way to an output, many of which are written at a time.
#[derive(Drop)]
struct Lines<W: Output + Drop> {
    alloc: Global,
    out: W,
    text: String,
}

impl<W: Output + Drop> Lines<W> {
    /// Writes the lines that are kept.
    fn write(&mut self) -> Result<(), LineFault>
        ensures written { OnOk result ((old : W) (bytes : List ℕ) →
            IsWriting W.takes W.failed old bytes self.old.out (string_bytes self.old.text) None →
            IsWriting W.takes W.failed old bytes self.new.out (string_bytes self.new.text) None) }
        ensures cleared { OnOk result (string_bytes self.new.text ≡ []) }
        ensures failed { IfErr result (λ f. (f ≡ CannotWrite) × W.failed self.old.out) }
    {
        match self.out.write_lines(self.text.as_str()) {
            Ok(()) => {
                self.text.clear();
                Ok(())
            }
            Err(_) => Err(LineFault::CannotWrite),
        }
    }

    /// Keeps a line after the others, and writes all once they are many.
    fn add(&mut self, line: &str) -> Result<(), LineFault>
        ensures added { OnOk result ((old : W) (bytes : List ℕ) →
            IsWriting W.takes W.failed old bytes self.old.out (string_bytes self.old.text) None →
            IsWriting W.takes W.failed old (bytes ++ line.now) self.new.out
            (string_bytes self.new.text) None) }
        ensures stays { IfErr result (λ f. (old : W) (bytes : List ℕ) →
            IsWriting W.takes W.failed old bytes self.old.out (string_bytes self.old.text) None →
            IsWriting W.takes W.failed old bytes self.new.out (string_bytes self.new.text)
            (Some f)) }
    {
        if self.text.push_str(line).is_err() {
            return Err(LineFault::Memory);
        }
        if self.text.len() < PIECE_LEN {
            return Ok(());
        }
        self.write()
    }

    /// Keeps the line of a row.
    fn add_row(&mut self, row: &DumpRow) -> Result<(), LineFault>
        ensures added { OnOk result ((old : W) (bytes : List ℕ) →
            IsWriting W.takes W.failed old bytes self.old.out (string_bytes self.old.text) None →
            IsWriting W.takes W.failed old (bytes ++ row_line row.now) self.new.out
            (string_bytes self.new.text) None) }
        ensures stays { IfErr result (λ f. (old : W) (bytes : List ℕ) →
            IsWriting W.takes W.failed old bytes self.old.out (string_bytes self.old.text) None →
            IsWriting W.takes W.failed old bytes self.new.out (string_bytes self.new.text)
            (Some f)) }
    {
        match line_text(self.alloc, row) {
            Ok(line) => self.add(line.as_str()),
            Err(AllocError) => Err(LineFault::Memory),
        }
    }

    /// Keeps the line of the position.
    fn add_position(&mut self, position: Lsn) -> Result<(), LineFault>
        ensures added { OnOk result ((old : W) (bytes : List ℕ) →
            IsWriting W.takes W.failed old bytes self.old.out (string_bytes self.old.text) None →
            IsWriting W.takes W.failed old (bytes ++ position_line position) self.new.out
            (string_bytes self.new.text) None) }
        ensures stays { IfErr result (λ f. (old : W) (bytes : List ℕ) →
            IsWriting W.takes W.failed old bytes self.old.out (string_bytes self.old.text) None →
            IsWriting W.takes W.failed old bytes self.new.out (string_bytes self.new.text)
            (Some f)) }
    {
        match position_text(self.alloc, position) {
            Ok(line) => self.add(line.as_str()),
            Err(AllocError) => Err(LineFault::Memory),
        }
    }

    /// Writes the line of the position after the others.
    fn finish(&mut self, position: Lsn) -> Result<Ending, RunFault>
        ensures prints { (old : W) (bytes : List ℕ) →
            IsWriting W.takes W.failed old bytes self.old.out (string_bytes self.old.text) None →
            PrintsLines W.takes W.failed (bytes ++ position_line position) old self.new.out result }
        ensures ends { EndsPrinting IsReadFault result }
    {
        if let Err(fault) = self.add_position(position) {
            return Err(run_fault(fault));
        }
        match self.write() {
            Ok(()) => Ok(Ending::Done),
            Err(fault) => Err(run_fault(fault)),
        }
    }
}

/// Writes a line for each row that it accepts, up to the first fault.
#[derive(Drop)]
struct LineSink<W: Output + Drop> {
    lines: Lines<W>,
    fault: Option<LineFault>,
}

impl<W: Output + Drop> LineSink<W> {
    /// Ends where the rows were read so.
    fn end(&mut self, read: Result<bool, StoreFault>, position: Lsn) -> Result<Ending, RunFault>
        ensures prints { (old : W) (bytes more : List ℕ) →
            IsWriting W.takes W.failed old bytes self.old.lines.out
            (string_bytes self.old.lines.text) self.old.fault → IfErr read IsOwnFault →
            (read ≡ Ok true → more ≡ position_line position) →
            PrintsLines W.takes W.failed (bytes ++ more) old self.new.lines.out result }
        ensures ends { EndsPrinting (λ f. IfErr read IsOwnFault → IsReadFault f) result }
        ensures read { OnOk result (is_ok read ≡ true) }
    {
        match (self.fault, read) {
            (Some(fault), _) => Err(run_fault(fault)),
            (None, Ok(true)) => self.lines.finish(position),
            (None, Ok(false)) => Err(RunFault::Stream(Fault::Memory)),
            (None, Err(fault)) => Err(RunFault::Stream(Fault::from(fault))),
        }
    }
}

impl<W: Output + Drop> DumpSink for LineSink<W> {
    ghost use Rattle.std.specs.Prelude.{◌≢◌, ◌++◌, None, string_bytes};
    ghost use Rattle.std.specs.List.{flat_map};
    ghost use Rattle.pgsub_cli.specs.DumpText.{row_line};
    ghost use Rattle.pgsub_cli.specs.Lines.{IsWriting};

    ghost has_taken = { λ start sink rows. IsWriting W.takes W.failed start.lines.out
        (string_bytes start.lines.text ++ flat_map row_line rows) sink.lines.out
        (string_bytes sink.lines.text) sink.fault };

    ghost has_stopped = { λ sink. sink.fault ≢ None };

    fn take(&mut self, row: DumpRow) -> bool {
        if self.fault.is_some() {
            return false;
        }
        match self.lines.add_row(&row) {
            Ok(()) => true,
            Err(fault) => {
                self.fault = Some(fault);
                false
            }
        }
    }
}

/// Prints the rows of a store, as they are read, and its position. Where that stops, some front of
/// the lines is printed.
fn write_rows<C: ReplicaStore + Drop, W: Output + Drop>(
    alloc: Global,
    store: &mut C,
    out: W,
) -> (Result<Ending, RunFault>, W)
    ensures dumps { C.is_honest store.new → (tables : Tables) → C.holds store.old tables →
        Dumps W.takes W.failed (dump tables) (C.place store.old) out result.1 result.0 }
    ensures ends { EndsPrinting (λ f. C.is_honest store.new → IsReadFault f) result.0 }
    ensures open { C.is_honest store.new → OnOk result.0 (C.serves store.new) }
    ensures served { C.serves store.new → C.serves store.old }
    ensures unchanged { C.serves store.new → Stays C.holds store.old store.new }
    ensures place { C.place store.new ≡ C.place store.old }
    ensures crash { C.is_honest store.new → (other : C) → C.reopens store.new other →
        C.reopens store.old other }
    ensures honest { C.is_honest store.new → C.is_honest store.old }
{
    let position = store.position();
    let text = String::new(alloc);
    let lines = Lines { alloc, out, text };
    let sink = LineSink { lines, fault: None };
    let (read, mut sink) = store.each_row(sink);
    let ended = sink.end(read, position);
    (ended, sink.lines.out)
}

/// Accepts no row.
#[derive(Clone, Copy)]
struct NoRow;

impl DumpSink for NoRow {
    ghost use Rattle.std.specs.Prelude.{⊤};

    ghost has_taken = { λ _ _ _. ⊤ };

    ghost has_stopped = { λ _. ⊤ };

    fn take(&mut self, _row: DumpRow) -> bool {
        false
    }
}

/// Fails where a store has shut. It reads no more than its first row.
fn confirm<C: ReplicaStore>(store: &mut C) -> Result<(), Fault>
    ensures open { C.is_honest store.new → OnOk result (C.serves store.new) }
    ensures fault { C.is_honest store.new → IfErr result IsReadFault }
    ensures served { C.serves store.new → C.serves store.old }
    ensures unchanged { C.serves store.new → Stays C.holds store.old store.new }
    ensures place { C.place store.new ≡ C.place store.old }
    ensures crash { C.is_honest store.new → (other : C) → C.reopens store.new other →
        C.reopens store.old other }
    ensures honest { C.is_honest store.new → C.is_honest store.old }
{
    match store.each_row(NoRow).0 {
        Ok(_) => Ok(()),
        Err(fault) => Err(Fault::from(fault)),
    }
}

/// How a run ends whose lines were printed so, where this stopped it before.
fn ended_after(
    stopped: Option<Fault>,
    printed: Result<Ending, RunFault>,
) -> Result<Ending, RunFault>
    ensures { result ≡ after stopped printed }
{
    match (stopped, printed) {
        (Some(fault), Ok(_)) => Err(RunFault::Stream(fault)),
        (_, printed) => printed,
    }
}

/// Prints the rows and the position of a store that serves, as they are read, whatever stopped the
/// run before, and nothing of one that has shut.
pub(crate) fn write_held<C: ReplicaStore + Drop, W: Output + Drop>(
    alloc: Global,
    store: &mut C,
    stopped: Option<Fault>,
    out: W,
) -> (Result<Ending, RunFault>, W)
    ensures ends { EndsPrinting (λ _. ⊤) result.0 }
    ensures prints { C.is_honest store.new → PrintsLeft W.takes W.failed
        (IsShown C.holds C.place C.serves stopped store.old store.new)
        (IsShown C.holds C.place C.serves stopped store.old store.old stopped)
        out result.1 result.0 }
    ensures stays { C.serves store.new → Stays C.holds store.old store.new }
    ensures served { C.serves store.new → C.serves store.old }
    ensures position { C.place store.new ≡ C.place store.old }
    ensures crash { C.is_honest store.new → (other : C) → C.reopens store.new other →
        C.reopens store.old other }
    ensures honest { C.is_honest store.new → C.is_honest store.old }
{
    if let Err(fault) = confirm(store) {
        return (Err(RunFault::Stream(fault)), out);
    }
    let (printed, out) = write_rows(alloc, store, out);
    (ended_after(stopped, printed), out)
}

/// Prints the rows of a store and its position, row by row, with the memory of one row and some
/// lines. Returns the exit status, the store and the output.
///
/// Nothing changes. Where reading or writing stops, some front of the lines is printed, and
/// standard error gets the line of the fault.
pub fn run_dump<C: ReplicaStore + Drop, W: Output + Drop, E: Output>(
    alloc: Global,
    mut store: C,
    out: W,
    err: &mut E,
) -> (u8, C, W)
    ensures status { result.0 ≤ 4 }
    ensures ends { (ended : Result Ending RunFault) × (result.0 ≡ status_of ended)
        × (C.is_honest result.1 → (tables : Tables) → C.holds store tables →
        Dumps W.takes W.failed (dump tables) (C.place store) out result.2 ended)
        × Tells E.takes E.failed [] [] ended err.old err.new }
    ensures unchanged { C.serves result.1 → Stays C.holds store result.1 }
    ensures place { C.place result.1 ≡ C.place store }
    ensures crash { C.is_honest result.1 → (other : C) → C.reopens result.1 other →
        C.reopens store other }
    ensures honest { C.is_honest result.1 → C.is_honest store }
{
    let (ended, out) = write_rows(alloc, &mut store, out);
    tell(alloc, ended, "", "", err);
    (status(ended), store, out)
}

//! The lines of changes.
//!
//! PostgreSQL documentation, Logical Replication Message Formats, Insert, Update, Delete, Truncate.

ghost use Rattle.std.specs.Prelude.{◌≡◌, ◌++◌, OnOk, string_bytes};
ghost use Rattle.serde_json.specs.Written.{compact_text};
ghost use Rattle.pgjson.specs.Cells.{cells_data};
ghost use Rattle.pgjson.specs.Messages.{prior_data};
ghost use Rattle.pgfeed.specs.Texts.{change_front, change_line, image_line, missed_line, row_data};
ghost use Rattle.pgfeed.specs.Texts.{sent_op, sent_rows, sent_text};

use crate::values::{cells_text, old_text};
use pgledger::Image;
use pglogical::OldKind;
use pgtuple::TupleRef;
use std::alloc::{AllocError, Global};
use std::fmt::Write;

/// Appends the cells of a row.
fn push_row(alloc: Global, row: &TupleRef<'_>, out: &mut String) -> Result<(), AllocError>
    ensures { OnOk result (string_bytes out.new
        ≡ string_bytes out.old ++ compact_text (cells_data row.now)) }
{
    let cells = cells_text(alloc, row)?;
    out.push_str(cells.as_str())
}

/// Appends the cells of a row, or null.
fn push_row_or_null(
    alloc: Global,
    row: &Option<TupleRef<'_>>,
    out: &mut String,
) -> Result<(), AllocError>
    ensures { OnOk result (string_bytes out.new
        ≡ string_bytes out.old ++ compact_text (row_data row.now)) }
{
    match row {
        None => out.push_str("null"),
        Some(row) => push_row(alloc, row, out),
    }
}

/// Appends an old tuple, or null.
fn push_prior(
    alloc: Global,
    prior: &Option<(OldKind, TupleRef<'_>)>,
    out: &mut String,
) -> Result<(), AllocError>
    ensures { OnOk result (string_bytes out.new
        ≡ string_bytes out.old ++ compact_text (prior_data prior.now)) }
{
    match prior {
        None => out.push_str("null"),
        Some((kind, row)) => {
            let text = old_text(alloc, *kind, row)?;
            out.push_str(text.as_str())
        }
    }
}

/// Which change it is: where in the segment its definition stands, which tells the relation, and
/// its number in the commit.
#[derive(Clone, Copy)]
pub(crate) struct Which {
    pub(crate) at: usize,
    pub(crate) n: usize,
}

/// Appends how the line of a change begins.
fn push_front(op: &str, which: Which, out: &mut String) -> Result<(), AllocError>
    ensures { OnOk result (string_bytes out.new
        ≡ string_bytes out.old ++ change_front op.now which.at which.n) }
{
    let Which { at, n } = which;
    write!(out, "{{\"op\":\"{op}\",\"at\":{at},\"n\":{n},")
}

/// Appends the line of a change of a row, which was as `before` and is as `after`.
fn push_change(
    alloc: Global,
    op: &str,
    which: Which,
    before: &Option<TupleRef<'_>>,
    after: &Option<TupleRef<'_>>,
    out: &mut String,
) -> Result<(), AllocError>
    ensures { OnOk result (string_bytes out.new
        ≡ string_bytes out.old ++ change_line op.now which.at which.n before.now
        after.now) }
{
    push_front(op, which, out)?;
    out.push_str("\"before\":")?;
    push_row_or_null(alloc, before, out)?;
    out.push_str(",\"after\":")?;
    push_row_or_null(alloc, after, out)?;
    out.push_str("}\n")
}

/// What was sent for a change that found no row.
fn sent_op(new: &Option<TupleRef<'_>>) -> &'static str
    ensures { result.now ≡ sent_op new.now }
{
    match new {
        None => "d",
        Some(_) => "u",
    }
}

/// Appends which change found no row.
fn push_sent(new: &Option<TupleRef<'_>>, out: &mut String) -> Result<(), AllocError>
    ensures { OnOk result (string_bytes out.new ≡ string_bytes out.old ++ sent_text new.now) }
{
    let sent = sent_op(new);
    write!(out, "\"sent\":\"{sent}\",")
}

/// Appends what was sent for a change that found no row.
fn push_sent_rows(
    alloc: Global,
    old: &Option<(OldKind, TupleRef<'_>)>,
    new: &Option<TupleRef<'_>>,
    out: &mut String,
) -> Result<(), AllocError>
    ensures { OnOk result (string_bytes out.new
        ≡ string_bytes out.old ++ sent_rows old.now new.now) }
{
    out.push_str("\"old\":")?;
    push_prior(alloc, old, out)?;
    out.push_str(",\"new\":")?;
    push_row_or_null(alloc, new, out)?;
    out.push_str("}\n")
}

/// Appends the line of a change that found no row.
fn push_missed(
    alloc: Global,
    which: Which,
    old: &Option<(OldKind, TupleRef<'_>)>,
    new: &Option<TupleRef<'_>>,
    out: &mut String,
) -> Result<(), AllocError>
    ensures { OnOk result (string_bytes out.new
        ≡ string_bytes out.old ++ missed_line which.at which.n old.now new.now) }
{
    push_front("x", which, out)?;
    push_sent(new, out)?;
    push_sent_rows(alloc, old, new, out)
}

/// Appends the line of a change.
pub(crate) fn push_image(
    alloc: Global,
    which: Which,
    image: &Image<'_>,
    out: &mut String,
) -> Result<(), AllocError>
    ensures { OnOk result (string_bytes out.new
        ≡ string_bytes out.old ++ image_line which.at which.n image.now) }
{
    match image {
        Image::Inserted { row } => push_change(
            alloc,
            "c",
            which,
            &None,
            &Some(row.reborrow()),
            out,
        ),
        Image::Updated { old, new } => {
            let (before, after) = (Some(old.borrowed()), Some(new.borrowed()));
            push_change(alloc, "u", which, &before, &after, out)
        }
        Image::Deleted { row } => {
            push_change(alloc, "d", which, &Some(row.borrowed()), &None, out)
        }
        Image::Truncated => push_change(alloc, "t", which, &None, &None, out),
        Image::Missed { old, new } => push_missed(alloc, which, old, new, out),
    }
}

//! Messages, items and definitions that are borrowed, from owned ones or from the bytes that encode
//! them.
//!
//! PostgreSQL documentation, Logical Replication Message Formats.

ghost use Rattle.std.specs.Prelude.{◌≡◌, ◌↔◌, ◌<◌, ◌^◌, true, slice_get, IsTrue, IfSome, IfOk};
ghost use Rattle.std.specs.Prelude.{IfErr};
ghost use Rattle.std.specs.Str.{is_utf8};
ghost use Rattle.pgtuple.specs.Limits.{IsWireTuple};
ghost use Rattle.pglogical.specs.Named.{named};
ghost use Rattle.pglogical.specs.Borrowed.{message_value};
ghost use Rattle.pglogical.specs.BorrowedColumns.{column_value};
ghost use Rattle.pglogical.specs.BorrowedItems.{def_value, item_value};
ghost use Rattle.pglogical.specs.Answers.{out_of_memory};
ghost use Rattle.pglogical.specs.Spelling.{IsSpellable, IsWire};
ghost use Rattle.pglogical.specs.Typed.{IsTypedColumn, AreTypedColumns, AreNumbers};

use crate::column_refs::{ColumnRef, ColumnRefs};
use crate::encoding::passes;
use crate::fault::DecodeFault;
use crate::message::{Item, Message, OldKind, RelationDef};
use crate::oid_refs::OidRefs;
use pglsn::Lsn;
use pgtuple::{Bytes, MAX_INT32, Text, Tuple, TupleRef};
use std::alloc::Global;
use std::marker::Model;

/// The greatest of the options bits, CASCADE and RESTART IDENTITY, together.
const MAX_OPTIONS: u8 = 3;

/// A logical message that is borrowed, with the fields of `Message`.
///
/// PostgreSQL documentation, Logical Replication Message Formats.
#[derive(Drop)]
pub enum MessageRef<'a> {
    /// A transaction begins.
    Begin {
        final_lsn: Lsn,
        commit_time: i64,
        xid: u32,
    },
    /// The transaction that began last is committed.
    Commit {
        commit_lsn: Lsn,
        end_lsn: Lsn,
        commit_time: i64,
    },
    /// The transaction came from another server.
    Origin {
        commit_lsn: Lsn,
        name: &'a str,
    },
    /// The name of a data type.
    TypeName {
        xid: Option<u32>,
        oid: u32,
        namespace: &'a str,
        name: &'a str,
    },
    /// Bytes that a client wrote into the log.
    Logical {
        xid: Option<u32>,
        transactional: bool,
        lsn: Lsn,
        prefix: &'a str,
        content: &'a [u8],
    },
    /// A relation or a change.
    Item {
        xid: Option<u32>,
        item: ItemRef<'a>,
    },
    /// A stream block begins.
    StreamStart {
        xid: u32,
        first_segment: bool,
    },
    /// The stream block ends.
    StreamStop,
    /// The streamed transaction is committed.
    StreamCommit {
        xid: u32,
        commit_lsn: Lsn,
        end_lsn: Lsn,
        commit_time: i64,
    },
    /// The streamed transaction or a subtransaction of it is rolled back.
    StreamAbort {
        xid: u32,
        subxid: u32,
    },
}

impl<'a> MessageRef<'a> {
    /// The same message with memory of its own. It returns an error only where memory runs out, at
    /// place 0.
    ///
    /// PostgreSQL documentation, Logical Replication Message Formats.
    pub fn to_message(&self, alloc: Global) -> Result<Message, DecodeFault>
        ensures same { IfOk result (λ m. m ≡ message_value self.now) }
        ensures memory { IfErr result (λ fault. fault ≡ out_of_memory) }
    {
        match self {
            MessageRef::Begin {
                final_lsn,
                commit_time,
                xid,
            } => Ok(Message::Begin {
                final_lsn: *final_lsn,
                commit_time: *commit_time,
                xid: *xid,
            }),
            MessageRef::Commit {
                commit_lsn,
                end_lsn,
                commit_time,
            } => Ok(Message::Commit {
                commit_lsn: *commit_lsn,
                end_lsn: *end_lsn,
                commit_time: *commit_time,
            }),
            MessageRef::Origin { commit_lsn, name } => Ok(Message::Origin {
                commit_lsn: *commit_lsn,
                name: text(alloc, name)?,
            }),
            MessageRef::TypeName {
                xid,
                oid,
                namespace,
                name,
            } => Ok(Message::TypeName {
                xid: *xid,
                oid: *oid,
                namespace: text(alloc, namespace)?,
                name: text(alloc, name)?,
            }),
            MessageRef::Logical {
                xid,
                transactional,
                lsn,
                prefix,
                content,
            } => Ok(Message::Logical {
                xid: *xid,
                transactional: *transactional,
                lsn: *lsn,
                prefix: text(alloc, prefix)?,
                content: Bytes::from_vec(Vec::from_slice(alloc, content)?),
            }),
            MessageRef::Item { xid, item } => Ok(Message::Item {
                xid: *xid,
                item: item.to_item(alloc)?,
            }),
            MessageRef::StreamStart { xid, first_segment } => Ok(Message::StreamStart {
                xid: *xid,
                first_segment: *first_segment,
            }),
            MessageRef::StreamStop => Ok(Message::StreamStop),
            MessageRef::StreamCommit {
                xid,
                commit_lsn,
                end_lsn,
                commit_time,
            } => Ok(Message::StreamCommit {
                xid: *xid,
                commit_lsn: *commit_lsn,
                end_lsn: *end_lsn,
                commit_time: *commit_time,
            }),
            MessageRef::StreamAbort { xid, subxid } => Ok(Message::StreamAbort {
                xid: *xid,
                subxid: *subxid,
            }),
        }
    }
}

/// An item that is borrowed, seen as the item.
///
/// PostgreSQL documentation, Logical Replication Message Formats, Relation, Insert, Update, Delete,
/// Truncate.
#[derive(Drop)]
pub struct ItemRef<'a> {
    parts: ItemParts<'a>,
}

impl<'a> Model for ItemRef<'a> {
    ghost use Rattle.pglogical.specs.declared.message.Item.{Item};
    ghost use Rattle.pglogical.specs.BorrowedItems.{item_value};

    ghost Value = { Item };

    ghost view = { λ i. item_value i.parts };
}

impl<'a> ItemRef<'a> {
    /// An item, borrowed. It asks for no memory.
    ///
    /// PostgreSQL documentation, Logical Replication Message Formats, Relation, Insert, Update,
    /// Delete, Truncate.
    pub fn of(item: &'a Item) -> ItemRef<'a>
        ensures { result ≡ item.now }
    {
        ItemRef {
            parts: ItemParts::of(item),
        }
    }

    /// An item of these parts.
    pub(crate) fn of_parts(parts: ItemParts<'a>) -> ItemRef<'a>
        ensures { result ≡ item_value parts.entry }
    {
        ItemRef { parts }
    }

    /// Its parts, borrowed. It asks for no memory.
    pub fn parts(&self) -> ItemParts<'a>
        ensures { item_value result ≡ self.now }
    {
        self.parts.reborrow()
    }

    /// The OID that a change names, of a Truncate the first; None for a relation and for a Truncate
    /// of none. It asks for no memory.
    ///
    /// PostgreSQL documentation, Logical Replication Message Formats, Insert, Update, Delete,
    /// Truncate.
    pub fn first_oid(&self) -> Option<u32>
        ensures { result ≡ slice_get (named self.now) 0 }
    {
        match self.parts() {
            ItemParts::Relation(_) => None,
            ItemParts::Insert { oid, .. } => Some(oid),
            ItemParts::Update { oid, .. } => Some(oid),
            ItemParts::Delete { oid, .. } => Some(oid),
            ItemParts::Truncate { oids, .. } => {
                let mut oids = oids;
                oids.next()
            }
        }
    }

    /// The same item with memory of its own. It returns an error only where memory runs out, at
    /// place 0.
    ///
    /// PostgreSQL documentation, Logical Replication Message Formats, Relation, Insert, Update,
    /// Delete, Truncate.
    pub fn to_item(&self, alloc: Global) -> Result<Item, DecodeFault>
        ensures same { IfOk result (λ i. i ≡ self.now) }
        ensures memory { IfErr result (λ fault. fault ≡ out_of_memory) }
    {
        self.parts.to_item(alloc)
    }

    /// Whether a message can carry it: a relation as its definition says, a Truncate of options at
    /// most 3 and of at most `MAX_INT32` OIDs, and each other change. It asks for no memory.
    ///
    /// PostgreSQL documentation, Logical Replication Message Formats, Relation, Truncate.
    pub fn spellable(&self) -> bool
        ensures { IsTrue result ↔ IsSpellable self.now }
    {
        match self.parts() {
            ItemParts::Relation(def) => passes(&def),
            ItemParts::Insert { .. } => true,
            ItemParts::Update { .. } => true,
            ItemParts::Delete { .. } => true,
            ItemParts::Truncate { options, oids } => {
                options <= MAX_OPTIONS && oids.len() <= MAX_INT32 as usize
            }
        }
    }

    /// Where it is spellable it is within the limits of the wire, so that its encoding is read as
    /// it: its numbers and texts are what their types have. It does nothing but show it.
    ///
    /// PostgreSQL documentation, Logical Replication Message Formats, Relation, Insert, Update,
    /// Delete, Truncate.
    pub fn fits_wire(&self)
        ensures { IsSpellable self.now → IsWire self.now }
    {
        match self.parts() {
            ItemParts::Relation(def) => {
                show_number(def.oid);
                show_name(def.namespace);
                show_name(def.name);
                show_columns(&def.columns);
            }
            ItemParts::Insert { oid, row } => {
                show_number(oid);
                row.fits_wire();
            }
            ItemParts::Update {
                oid,
                prior: old,
                row,
            } => {
                show_number(oid);
                show_prior(&old);
                row.fits_wire();
            }
            ItemParts::Delete { oid, row, .. } => {
                show_number(oid);
                row.fits_wire();
            }
            ItemParts::Truncate { oids: listed, .. } => show_oids(&listed),
        }
    }
}

/// A relation or a change that is borrowed, with the fields of `Item`.
///
/// PostgreSQL documentation, Logical Replication Message Formats, Relation, Insert, Update, Delete,
/// Truncate.
#[derive(Drop)]
pub enum ItemParts<'a> {
    /// The definition that the changes after it have.
    Relation(DefRef<'a>),
    /// A new row.
    Insert {
        oid: u32,
        row: TupleRef<'a>,
    },
    /// A row in place of another one.
    Update {
        oid: u32,
        prior: Option<(OldKind, TupleRef<'a>)>,
        row: TupleRef<'a>,
    },
    /// A row that goes.
    Delete {
        oid: u32,
        kind: OldKind,
        row: TupleRef<'a>,
    },
    /// All rows of these relations go.
    Truncate {
        options: u8,
        oids: OidRefs<'a>,
    },
}

impl<'a> ItemParts<'a> {
    /// The parts of an item that someone owns.
    pub(crate) fn of(item: &'a Item) -> ItemParts<'a>
        ensures { item_value result ≡ item.now }
    {
        match item {
            Item::Relation(def) => ItemParts::Relation(def.borrowed()),
            Item::Insert { oid, row } => ItemParts::Insert {
                oid: *oid,
                row: row.borrowed(),
            },
            Item::Update { oid, prior, row } => ItemParts::Update {
                oid: *oid,
                prior: borrowed_prior(prior),
                row: row.borrowed(),
            },
            Item::Delete { oid, kind, row } => ItemParts::Delete {
                oid: *oid,
                kind: *kind,
                row: row.borrowed(),
            },
            Item::Truncate { options, oids } => ItemParts::Truncate {
                options: *options,
                oids: OidRefs::of(oids.as_slice()),
            },
        }
    }

    /// The same parts, borrowed once more.
    pub fn reborrow(&self) -> ItemParts<'a>
        ensures { item_value result ≡ item_value self.now }
    {
        match self {
            ItemParts::Relation(def) => ItemParts::Relation(def.reborrow()),
            ItemParts::Insert { oid, row } => ItemParts::Insert {
                oid: *oid,
                row: row.reborrow(),
            },
            ItemParts::Update { oid, prior, row } => ItemParts::Update {
                oid: *oid,
                prior: reborrow_prior(prior),
                row: row.reborrow(),
            },
            ItemParts::Delete { oid, kind, row } => ItemParts::Delete {
                oid: *oid,
                kind: *kind,
                row: row.reborrow(),
            },
            ItemParts::Truncate { options, oids } => ItemParts::Truncate {
                options: *options,
                oids: oids.reborrow(),
            },
        }
    }

    /// The item of these parts with memory of its own.
    pub(crate) fn to_item(&self, alloc: Global) -> Result<Item, DecodeFault>
        ensures same { IfOk result (λ i. i ≡ item_value self.now) }
        ensures memory { IfErr result (λ fault. fault ≡ out_of_memory) }
    {
        match self {
            ItemParts::Relation(def) => Ok(Item::Relation(def.to_def(alloc)?)),
            ItemParts::Insert { oid, row } => Ok(Item::Insert {
                oid: *oid,
                row: tuple(alloc, row)?,
            }),
            ItemParts::Update {
                oid,
                prior: old,
                row,
            } => Ok(Item::Update {
                oid: *oid,
                prior: prior(alloc, old)?,
                row: tuple(alloc, row)?,
            }),
            ItemParts::Delete { oid, kind, row } => Ok(Item::Delete {
                oid: *oid,
                kind: *kind,
                row: tuple(alloc, row)?,
            }),
            ItemParts::Truncate { options, oids } => Ok(Item::Truncate {
                options: *options,
                oids: oids.to_oids(alloc)?,
            }),
        }
    }
}

/// The definition of a relation that is borrowed, with the fields of `RelationDef`.
///
/// PostgreSQL documentation, Logical Replication Message Formats, Relation.
#[derive(Drop)]
pub struct DefRef<'a> {
    /// The OID of the relation.
    pub oid: u32,
    /// Its namespace; an empty one means `pg_catalog`.
    pub namespace: &'a str,
    /// Its name.
    pub name: &'a str,
    /// The letter of the replica identity: `d`, `n`, `f` or `i`.
    pub letter: u8,
    /// Its columns.
    pub columns: ColumnRefs<'a>,
}

impl<'a> DefRef<'a> {
    /// The same definition, borrowed once more.
    pub fn reborrow(&self) -> DefRef<'a>
        ensures { def_value result ≡ def_value self.now }
    {
        DefRef {
            oid: self.oid,
            namespace: self.namespace,
            name: self.name,
            letter: self.letter,
            columns: self.columns.reborrow(),
        }
    }

    /// The same definition with memory of its own. It returns an error only where memory runs out,
    /// at place 0.
    ///
    /// PostgreSQL documentation, Logical Replication Message Formats, Relation.
    pub fn to_def(&self, alloc: Global) -> Result<RelationDef, DecodeFault>
        ensures same { IfOk result (λ d. d ≡ def_value self.now) }
        ensures memory { IfErr result (λ fault. fault ≡ out_of_memory) }
    {
        Ok(RelationDef {
            oid: self.oid,
            namespace: text(alloc, self.namespace)?,
            name: text(alloc, self.name)?,
            letter: self.letter,
            columns: self.columns.to_columns(alloc)?,
        })
    }
}

/// A text with memory of its own.
fn text(alloc: Global, text: &str) -> Result<Text, DecodeFault>
    ensures same { IfOk result (λ t. t ≡ text.now) }
    ensures memory { IfErr result (λ fault. fault ≡ out_of_memory) }
{
    Ok(Text::from_string(String::from_str(alloc, text)?))
}

fn tuple(alloc: Global, row: &TupleRef<'_>) -> Result<Tuple, DecodeFault>
    ensures same { IfOk result (λ t. t ≡ row.now) }
    ensures memory { IfErr result (λ fault. fault ≡ out_of_memory) }
{
    row.to_tuple(alloc)
        .map_err(|_| DecodeFault::out_of_memory())
}

fn reborrow_prior<'a>(prior: &Option<(OldKind, TupleRef<'a>)>) -> Option<(OldKind, TupleRef<'a>)>
    ensures { result ≡ prior.now }
{
    match prior {
        None => None,
        Some((kind, row)) => Some((*kind, row.reborrow())),
    }
}

fn prior(
    alloc: Global,
    prior: &Option<(OldKind, TupleRef<'_>)>,
) -> Result<Option<(OldKind, Tuple)>, DecodeFault>
    ensures same { IfOk result (λ p. p ≡ prior.now) }
    ensures memory { IfErr result (λ fault. fault ≡ out_of_memory) }
{
    match prior {
        None => Ok(None),
        Some((kind, row)) => Ok(Some((*kind, tuple(alloc, row)?))),
    }
}

fn borrowed_prior(prior: &Option<(OldKind, Tuple)>) -> Option<(OldKind, TupleRef<'_>)>
    ensures { result ≡ prior.now }
{
    match prior {
        None => None,
        Some((kind, row)) => Some((*kind, row.borrowed())),
    }
}

fn show_name(text: &str)
    ensures { is_utf8 text.now ≡ true }
{}

fn show_number(number: u32)
    ensures { number < 2 ^ 32 }
{}

fn show_column(column: &ColumnRef<'_>)
    ensures { IsTypedColumn (column_value column.now) }
{
    show_name(column.name);
    show_number(column.type_oid);
    let _modifier = column.modifier;
}

fn show_columns(columns: &ColumnRefs<'_>)
    ensures { AreTypedColumns columns.now }
{
    for each in columns.reborrow() {
        show_column(&each);
    }
}

fn show_oids(oids: &OidRefs<'_>)
    ensures { AreNumbers oids.now }
{
    for oid in oids.reborrow() {
        show_number(oid);
    }
}

fn show_prior(prior: &Option<(OldKind, TupleRef<'_>)>)
    ensures { IfSome prior.now (λ old. IsWireTuple old.1) }
{
    match prior {
        None => {}
        Some((_, row)) => row.fits_wire(),
    }
}

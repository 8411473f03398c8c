//! Which definitions a segment has, and where.
//!
//! PostgreSQL documentation, Logical Replication Message Formats, Relation.

ghost use Rattle.std.specs.Prelude.{◌≡◌, ◌++◌, IfOk, IfSome, OnErr, OnOk, Some};
ghost use Rattle.pgfeed.specs.Next.{Remembers};
ghost use Rattle.pgfeed.specs.Texts.{if_there, newest, place, told_at};

use pglogical::RelationDef;
use std::alloc::{AllocError, Global};

/// How many definitions are remembered at most: a change is compared with each until one is of its
/// relation.
const MOST_TOLD: usize = 1024;

/// A definition that a segment has, and the offset at which its line begins.
#[derive(Debug, Drop)]
pub(crate) struct Told {
    pub(crate) definition: RelationDef,
    pub(crate) offset: usize,
}

impl Told {
    pub(crate) fn of(alloc: Global, def: &RelationDef, offset: usize) -> Result<Told, AllocError>
        ensures definition { IfOk result (λ told. told.definition ≡ def.now) }
        ensures offset { IfOk result (λ told. told.offset ≡ offset) }
    {
        match def.copy(alloc) {
            Ok(definition) => Ok(Told { definition, offset }),
            Err(_) => Err(AllocError),
        }
    }

    /// Where a definition stands, as far as this one tells: nothing of another relation's.
    fn place(&self, def: &RelationDef) -> Option<Option<usize>>
        ensures { result ≡ told_at self.now def.now }
    {
        if self.definition.oid != def.oid {
            return None;
        }
        if self.definition == *def {
            Some(Some(self.offset))
        } else {
            Some(None)
        }
    }
}

/// Where a definition stands, if it is the newest of its relation among these, of which the newest
/// is the last; nothing, where none of its relation is told.
fn newest(told: &[Told], def: &RelationDef) -> Option<Option<usize>>
    ensures { result ≡ newest told.now def.now }
{
    for other in told.iter().rev() {
        let place = other.place(def);
        if place.is_some() {
            return place;
        }
    }
    None
}

/// The place, if there is one.
fn if_there(found: Option<Option<usize>>) -> Option<usize>
    ensures { result ≡ if_there found }
{
    match found {
        Some(place) => place,
        None => None,
    }
}

/// The definition of the last change: its number in the commit, and where it stands.
#[derive(Clone, Copy)]
pub(crate) struct Last {
    pub(crate) number: usize,
    pub(crate) offset: usize,
}

/// Where the definition with a number stands, if it is that of the last change.
pub(crate) fn known(last: Option<Last>, number: usize) -> Option<usize>
    ensures { IfSome result (λ it. last ≡ Some (record { number = number; offset = it })) }
{
    let last = last?;
    if last.number == number {
        Some(last.offset)
    } else {
        None
    }
}

/// Where a definition stands, if it is told: by this commit, else by those before it.
pub(crate) fn place(told: &[Told], fresh: &[Told], def: &RelationDef) -> Option<usize>
    ensures { result ≡ place (told.now ++ fresh.now) def.now }
{
    let by_this = newest(fresh, def);
    if by_this.is_some() {
        return if_there(by_this);
    }
    let before = newest(told, def);
    if_there(before)
}

/// Remembers more definitions. Where these are too many, all are forgotten, and will be told again.
pub(crate) fn remember(told: &mut Vec<Told>, mut fresh: Vec<Told>) -> Result<(), AllocError>
    ensures remembered { OnOk result (Remembers (told.old.items ++ fresh.items) told.new.items) }
    ensures undone { OnErr result (told.new.items ≡ told.old.items) }
{
    told.append(&mut fresh)?;
    if told.len() <= MOST_TOLD {
        return Ok(());
    }
    told.clear();
    Ok(())
}

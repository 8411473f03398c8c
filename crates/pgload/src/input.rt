//! What a frame of a load's input says.
//!
//! PostgreSQL documentation, Message Formats, CopyData; Logical Replication Message Formats,
//! Relation.

ghost use Rattle.std.specs.Prelude.{◌≡◌, ◌≢◌, Some, None, false, IfOk, IfErr, OnOk, MatchOption};
ghost use Rattle.pglogical.specs.Spelling.{IsDefinition};
ghost use Rattle.pglogical.specs.BorrowedItems.{def_value};
ghost use Rattle.pglogical.specs.Reading.{message_at};
ghost use Rattle.pgload.specs.Loading.{Come, Begins, HasCome, IsBounded};
ghost use Rattle.pgload.specs.Inputs.{Gives, definition_in, input_at, input_value, IsSound};
ghost use Rattle.pgload.specs.Inputs.{TakesInput};

use crate::fault::LoadFault;
use crate::load::Load;
use byteorder::{BigEndian, ByteOrder};
use pgapply::ReplicaStore;
use pglogical::{DefRef, ItemParts, MessageRef, decode_ref};
use pglsn::Lsn;
use std::alloc::Global;

/// The first byte of a payload with a piece of a text.
pub const TEXT_TAG: u8 = b't';

/// The payload that ends a text.
pub const END_TEXT_TAG: u8 = b'e';

/// The first byte of the payload that ends the load: the point follows it.
pub const POINT_TAG: u8 = b'p';

/// What a payload says.
#[derive(Drop)]
pub(crate) enum Input<'a> {
    /// A table begins.
    Begin(DefRef<'a>),
    /// A piece of its text comes.
    Text(&'a [u8]),
    /// Its text ends.
    EndText,
    /// The load ends at this point.
    End(u64),
}

/// What a frame has come to.
#[derive(Clone, Copy)]
pub(crate) enum Step {
    /// None was complete.
    Waits,
    /// It was handled.
    Goes,
    /// It has ended the load at this point.
    Ended(Lsn),
}

// The definition in a Relation message.
fn definition_in(payload: &[u8]) -> Option<DefRef<'_>>
    ensures { MatchOption result (definition_in (message_at false payload.now) ≡ None)
        (λ def. (definition_in (message_at false payload.now)
        ≡ Some (Gives (Begins (def_value def)))) × IsDefinition (def_value def)) }
{
    match decode_ref(payload, false) {
        Ok(MessageRef::Item { item, .. }) => match item.parts() {
            ItemParts::Relation(def) => Some(def),
            _ => None,
        },
        _ => None,
    }
}

// What a payload says, where it says something.
fn read_input(payload: &[u8]) -> Option<Input<'_>>
    ensures { MatchOption result (input_at payload.now ≡ None)
        (λ input. (input_at payload.now ≡ Some (input_value input)) × IsSound input) }
{
    let (tag, rest) = payload.split_first()?;
    if *tag == TEXT_TAG {
        return Some(Input::Text(rest));
    }
    if *tag == END_TEXT_TAG && rest.is_empty() {
        return Some(Input::EndText);
    }
    if *tag == POINT_TAG && rest.len() == 8 {
        return Some(Input::End(BigEndian::read_u64(rest)));
    }
    Some(Input::Begin(definition_in(payload)?))
}

/// Gives a load what a payload says, and returns whether that ends it.
pub(crate) fn take_payload<C: ReplicaStore + Drop>(
    alloc: Global,
    load: &mut Load<C>,
    payload: &[u8],
) -> Result<Step, LoadFault>
    ensures takes { (come : Come) → HasCome C.holds C.place C.reopens C.serves C.is_honest
        load.old.limits.max_line come load.old.store load.old.table load.old.closed →
        TakesInput C.holds C.place C.reopens C.serves C.is_honest load.old.limits.max_line come
        (input_at payload.now) load.new.store load.new.table load.new.closed result }
    ensures some { IfOk result (λ step. step ≢ Step.Waits) }
    ensures bounded { IsBounded load.old.limits.batch load.old.table →
        OnOk result (IsBounded load.old.limits.batch load.new.table) }
    ensures limits { load.new.limits ≡ load.old.limits }
    ensures closed { IfErr result (λ fault. load.new.closed ≡ Some fault) }
    ensures honest { C.is_honest load.new.store → C.is_honest load.old.store }
{
    match read_input(payload) {
        Some(Input::Begin(def)) => {
            let Ok(definition) = def.to_def(alloc) else {
                return Err(load.refuse(LoadFault::Memory));
            };
            load.begin(definition)?;
            Ok(Step::Goes)
        }
        Some(Input::Text(piece)) => {
            load.text(piece)?;
            Ok(Step::Goes)
        }
        Some(Input::EndText) => {
            load.end_text()?;
            Ok(Step::Goes)
        }
        Some(Input::End(point)) => {
            let point = Lsn(point);
            load.end(point)?;
            Ok(Step::Ended(point))
        }
        None => Err(load.refuse(LoadFault::BadInput)),
    }
}

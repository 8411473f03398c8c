//! The changes of a commit, one after the other.

ghost use Rattle.std.specs.Prelude.{◌≡◌, length, drop};
ghost use Rattle.pgapply.specs.Works.{op_at, ops_behind, entries_from};

use crate::op::Op;
use std::marker::Model;

// The op at a place, where the first of these may stand there, and those that are still to come. At
// any other place stands a Truncate.
fn split_at_place<'w, 'a>(
    ops: &'w [(usize, Op<'a>)],
    place: usize,
) -> (Op<'a>, &'w [(usize, Op<'a>)])
    ensures op { result.0 ≡ op_at place ops.now }
    ensures behind { result.1.now ≡ ops_behind place ops.now }
{
    let Some((first, others)) = ops.split_first() else {
        return (Op::Truncate, ops);
    };
    if first.0 == place {
        (first.1.reborrow(), others)
    } else {
        (Op::Truncate, ops)
    }
}

// What the changes are made of: the numbers of all definitions, the place among them of the first
// change that is still to come, and the ops that are.
#[derive(Clone, Copy)]
struct Rest<'w, 'a> {
    place: usize,
    numbers: &'w [usize],
    ops: &'w [(usize, Op<'a>)],
}

/// The changes of a work that are still to come, each with the number of its definition, seen as
/// their list.
#[derive(Drop)]
pub struct ChangeRefs<'w, 'a> {
    rest: Rest<'w, 'a>,
}

impl<'w, 'a> Model for ChangeRefs<'w, 'a> {
    ghost use Rattle.std.specs.Prelude.{ℕ, List, drop};
    ghost use Rattle.pgapply.specs.declared.op.Op.{Op as Change};
    ghost use Rattle.pgapply.specs.Works.{entries_from};

    ghost Value = { List (ℕ × Change) };

    ghost view = { λ c. entries_from c.rest.place (drop c.rest.place c.rest.numbers.now)
        c.rest.ops.now };
}

impl<'w, 'a> ChangeRefs<'w, 'a> {
    /// All changes of a work.
    pub(crate) fn of(numbers: &'w [usize], ops: &'w [(usize, Op<'a>)]) -> ChangeRefs<'w, 'a>
        ensures { result ≡ entries_from 0 numbers.now ops.now }
    {
        ChangeRefs {
            rest: Rest {
                place: 0,
                numbers,
                ops,
            },
        }
    }

    /// The same changes, borrowed once more.
    pub fn reborrow(&self) -> ChangeRefs<'w, 'a>
        ensures { result ≡ self.now }
    {
        ChangeRefs { rest: self.rest }
    }

    /// How many changes are still to come.
    pub fn len(&self) -> usize
        ensures { result ≡ length self.now }
    {
        self.rest.numbers.len().saturating_sub(self.rest.place)
    }
}

impl<'w, 'a> Iterator for ChangeRefs<'w, 'a> {
    ghost use Rattle.std.specs.Iterator.{YieldsFirst, item_count};

    type Item = (usize, Op<'a>);

    ghost next_gives = { YieldsFirst (λ s. s) };

    ghost remaining = { item_count (λ s. s) };

    fn next(&mut self) -> Option<(usize, Op<'a>)> {
        let Rest {
            place,
            numbers,
            ops,
        } = self.rest;
        let number = *numbers.get(place)?;
        let (op, others) = split_at_place(ops, place);
        self.rest = Rest {
            place: place + 1,
            numbers,
            ops: others,
        };
        Some((number, op))
    }
}

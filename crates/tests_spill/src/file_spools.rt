//! Spools over a file beside spools in memory: the same items after any calls, also where the file
//! fails or has another byte.

ghost use Rattle.std.specs.Prelude.{IsTrue};

use pgfilespools::{FileSpools, MOST_OPEN};
use pglogical::{ItemRef, MessageRef, decode_ref, encode_item};
use pgspool::{ByteSpools, SpoolFault, Spools};
use sqlite_disk::{Disk, Fuse, Memory, Rot};
use std::process::Abort;

/// So many bytes of all items stay in memory.
const IN_MEMORY: u64 = 8_000;

/// The largest item's cost.
const LARGEST: u64 = 8 + 13 + 1023;

/// Numbers that look like any.
#[derive(Drop)]
struct Numbers {
    last: u64,
}

impl Numbers {
    fn next(&mut self) -> u32 {
        self.last = self
            .last
            .wrapping_mul(6364136223846793005)
            .wrapping_add(1442695040888963407);
        (self.last >> 40) as u32
    }
}

/// An Insert of one cell of so many bytes, at most 1,023.
fn insert(rt: &(impl Abort + AllocGlobal), number: u32) -> Vec<u8> {
    let len = number % 1024;
    let mut body = Vec::new(rt.alloc());
    body.extend_from_slice(&[73, 0, 0, 64, 0, 78, 0, 1, 116])
        .expect(rt, "insert");
    body.extend_from_slice(&len.to_be_bytes())
        .expect(rt, "insert");
    body.resize(13 + len as usize, 97 + (len % 26) as u8)
        .expect(rt, "insert");
    body
}

fn item_over<'a>(rt: &impl Abort, body: &'a [u8]) -> ItemRef<'a> {
    match decode_ref(body, false) {
        Ok(MessageRef::Item { item, .. }) => item,
        _ => panic!(rt; "an item"),
    }
}

/// A transaction's items, one behind the other.
fn read<P: Spools>(
    rt: &(impl Abort + AllocGlobal),
    spools: &mut P,
    xid: u32,
) -> Result<Vec<u8>, SpoolFault> {
    let mut bytes = Vec::new(rt.alloc());
    spools.load(xid)?;
    for place in 0..spools.count(xid) {
        let item = spools.item(xid, place).expect(rt, "an item");
        encode_item(&item, &mut bytes).expect(rt, "memory");
    }
    Ok(bytes)
}

/// Pushes the item to both, unless it can't be held.
fn push<P: Spools>(
    rt: &(impl Abort + AllocGlobal),
    spools: &mut P,
    model: &mut ByteSpools,
    xid: u32,
    number: u32,
) -> Result<(), SpoolFault> {
    let body = insert(rt, number);
    let item = item_over(rt, body.as_slice());
    let subxid = number % 7;
    assert!(rt; item.spellable());
    assert!(rt; spools.is_open(xid));
    assert!(rt; model.is_open(xid));
    spools.push(xid, subxid, &item)?;
    model.push(xid, subxid, &item).expect(rt, "push");
    Ok(())
}

/// The items of both are the same, where those of the file can be read.
fn compare<P: Spools>(
    rt: &(impl Abort + AllocGlobal),
    spools: &mut P,
    model: &mut ByteSpools,
    xid: u32,
) -> Result<(), SpoolFault> {
    let bytes = read(rt, spools, xid)?;
    let expected = read(rt, model, xid).expect(rt, "load");
    assert!(rt; bytes.as_slice() == expected.as_slice());
    Ok(())
}

/// One call of both.
fn step<P: Spools>(
    rt: &(impl Abort + AllocGlobal),
    spools: &mut P,
    model: &mut ByteSpools,
    numbers: &mut Numbers,
) -> Result<(), SpoolFault> {
    let xid = 1 + numbers.next() % 6;
    if !spools.is_open(xid) {
        assert!(rt; !model.is_open(xid));
        model.open(xid).expect(rt, "open");
        return spools.open(xid);
    }
    match numbers.next() % 64 {
        0 => {
            spools.drop_xid(xid);
            model.drop_xid(xid);
            Ok(())
        }
        1 => {
            let subxid = numbers.next() % 7;
            model.cut(xid, subxid).expect(rt, "cut");
            spools.cut(xid, subxid)
        }
        2 | 3 => compare(rt, spools, model, xid),
        _ => push(rt, spools, model, xid, numbers.next()),
    }
}

/// So many calls of both: whether one of them failed, with one of these faults.
fn run<D: Disk + Drop>(
    rt: &(impl Abort + AllocGlobal),
    spools: &mut FileSpools<D>,
    seed: u64,
    faults: &[SpoolFault],
) -> bool {
    let mut model = ByteSpools::new(rt.alloc(), 1 << 40);
    let mut numbers = Numbers { last: seed };
    let mut failed = false;
    for _call in 0..250 {
        if let Err(fault) = step(rt, spools, &mut model, &mut numbers) {
            assert!(rt; faults.contains(&fault));
            failed = true;
        }
        assert!(rt; spools.bytes() == model.bytes());
        assert!(rt; spools.in_memory() <= IN_MEMORY + LARGEST);
    }
    for xid in 1..7u32 {
        assert!(rt; spools.count(xid) == model.count(xid));
        if let Err(fault) = compare(rt, spools, &mut model, xid) {
            assert!(rt; faults.contains(&fault));
            failed = true;
        }
    }
    failed
}

/// As many calls over a disk, in two sessions: whether one of them failed.
fn run_over<D: Disk + Drop>(
    rt: &(impl Abort + AllocGlobal),
    disk: D,
    seed: u64,
    faults: &[SpoolFault],
) -> bool
    requires { IsTrue (D.is_usable disk) }
{
    let mut spools = FileSpools::new(rt.alloc(), disk, 1 << 40, IN_MEMORY);
    let first = run(rt, &mut spools, seed, faults);
    spools.clear();
    assert!(rt; spools.bytes() == 0);
    assert!(rt; spools.blocks() == 0);
    // what the file had is nothing to a second session
    let second = run(rt, &mut spools, seed.wrapping_add(1), faults);
    assert!(rt; spools.blocks() > 0);
    first || second
}

#[test]
fn the_same_items_as_in_memory(rt: HostRuntime) {
    let disk = Memory::new(rt.alloc());
    assert!(&rt; !run_over(&rt, disk, 1, &[]));
}

#[test]
fn a_file_that_fails_changes_nothing(rt: HostRuntime) {
    let faults = [SpoolFault::NotWritten, SpoolFault::NotRead];
    for calls in 0..12u64 {
        let disk = Fuse::new(Memory::new(rt.alloc()), calls);
        assert!(&rt; run_over(&rt, disk, 7, &faults));
    }
}

#[test]
fn another_byte_is_a_fault(rt: HostRuntime) {
    for block in 0..3usize {
        let disk = Rot::new(Memory::new(rt.alloc()), 65536 * block + 100);
        assert!(&rt; run_over(&rt, disk, 11, &[SpoolFault::NotRead]));
    }
}

/// A transaction of fifty items, which is dropped.
fn one_by_itself<D: Disk + Drop>(
    rt: &(impl Abort + AllocGlobal),
    spools: &mut FileSpools<D>,
    xid: u32,
) {
    let mut model = ByteSpools::new(rt.alloc(), 1 << 40);
    assert!(rt; !spools.is_open(xid));
    assert!(rt; !model.is_open(xid));
    spools.open(xid).expect(rt, "open");
    model.open(xid).expect(rt, "open");
    for _item in 0..50 {
        push(rt, spools, &mut model, xid, 1023).expect(rt, "push");
    }
    compare(rt, spools, &mut model, xid).expect(rt, "compare");
    spools.drop_xid(xid);
    assert!(rt; spools.in_memory() == 0);
}

/// Such transactions, one after the other, in the blocks of the first.
fn one_after_the_other<D: Disk + Drop>(rt: &(impl Abort + AllocGlobal), disk: D)
    requires { IsTrue (D.is_usable disk) }
{
    let mut spools = FileSpools::new(rt.alloc(), disk, 1 << 40, IN_MEMORY);
    one_by_itself(rt, &mut spools, 1);
    let blocks = spools.blocks();
    assert!(rt; blocks > 4);
    for xid in 2..5u32 {
        one_by_itself(rt, &mut spools, xid);
    }
    assert!(rt; spools.blocks() == blocks);
}

#[test]
fn freed_blocks_are_used_again(rt: HostRuntime) {
    one_after_the_other(&rt, Memory::new(rt.alloc()));
}

/// An item that costs 31 bytes, once within that limit and then over it.
fn refuse_the_second<D: Disk + Drop>(rt: &(impl Abort + AllocGlobal), disk: D)
    requires { IsTrue (D.is_usable disk) }
{
    let body = insert(rt, 10);
    let item = item_over(rt, body.as_slice());
    assert!(rt; item.spellable());
    let mut spools = FileSpools::new(rt.alloc(), disk, 31, IN_MEMORY);
    assert!(rt; !spools.is_open(1));
    spools.open(1).expect(rt, "open");
    assert!(rt; spools.is_open(1));
    spools.push(1, 1, &item).expect(rt, "push");
    assert!(rt; spools.bytes() == 31);
    assert!(rt; spools.is_open(1));
    let refused = spools.push(1, 1, &item);
    assert!(rt; refused == Err(SpoolFault::SpoolFull));
    assert!(rt; spools.count(1) == 1);
}

#[test]
fn an_item_over_the_limit_is_refused(rt: HostRuntime) {
    refuse_the_second(&rt, Memory::new(rt.alloc()));
}

/// Pushes an Insert of one cell of so many bytes, which costs 21 more, to a transaction, which is
/// opened first unless it is open.
fn push_one<D: Disk + Drop>(
    rt: &(impl Abort + AllocGlobal),
    spools: &mut FileSpools<D>,
    xid: u32,
    number: u32,
) {
    let body = insert(rt, number);
    let item = item_over(rt, body.as_slice());
    assert!(rt; item.spellable());
    if !spools.is_open(xid) {
        spools.open(xid).expect(rt, "open");
    }
    assert!(rt; spools.is_open(xid));
    spools.push(xid, xid, &item).expect(rt, "push");
}

/// Once memory is full, all but short ones leave it.
fn leave_together<D: Disk + Drop>(rt: &(impl Abort + AllocGlobal), disk: D)
    requires { IsTrue (D.is_usable disk) }
{
    let mut spools = FileSpools::new(rt.alloc(), disk, 1 << 40, IN_MEMORY);
    push_one(rt, &mut spools, 100, 10);
    for xid in 0..73u32 {
        push_one(rt, &mut spools, xid, 87);
    }
    assert!(rt; spools.in_memory() == 31 + 73 * 108);
    assert!(rt; spools.blocks() == 0);
    push_one(rt, &mut spools, 5, 87);
    assert!(rt; spools.in_memory() == 31 + 108);
    assert!(rt; spools.blocks() == 73);
}

#[test]
fn short_ones_stay_in_memory(rt: HostRuntime) {
    leave_together(&rt, Memory::new(rt.alloc()));
}

/// Opens a transaction that isn't open.
fn open<P: Spools>(rt: &impl Abort, spools: &mut P, xid: u32) -> Result<(), SpoolFault> {
    assert!(rt; !spools.is_open(xid));
    spools.open(xid)
}

/// As many transactions as may be open over a file.
fn open_most<P: Spools>(rt: &impl Abort, spools: &mut P) {
    for xid in 0..MOST_OPEN as u32 {
        open(rt, spools, xid).expect(rt, "open");
    }
}

/// One more isn't opened, until one of them is forgotten.
fn refuse_one_more<D: Disk + Drop>(rt: &(impl Abort + AllocGlobal), disk: D)
    requires { IsTrue (D.is_usable disk) }
{
    let mut spools = FileSpools::new(rt.alloc(), disk, 1 << 40, IN_MEMORY);
    open_most(rt, &mut spools);
    for _again in 0..2 {
        assert!(rt; open(rt, &mut spools, 70_000) == Err(SpoolFault::TooManyOpen));
        assert!(rt; !spools.is_open(70_000));
        assert!(rt; spools.is_open(7));
    }
    spools.drop_xid(7);
    open(rt, &mut spools, 70_000).expect(rt, "open");
    assert!(rt; open(rt, &mut spools, 7) == Err(SpoolFault::TooManyOpen));
    spools.clear();
    open_most(rt, &mut spools);
}

#[test]
fn too_many_transactions_are_refused(rt: HostRuntime) {
    refuse_one_more(&rt, Memory::new(rt.alloc()));
}

#[test]
fn more_transactions_are_open_in_memory(rt: HostRuntime) {
    let mut spools = ByteSpools::new(rt.alloc(), 1 << 40);
    open_most(&rt, &mut spools);
    open(&rt, &mut spools, 70_000).expect(&rt, "open");
}

//! A long transaction, part after part: the parts come in order, and together they are all items.

ghost use Rattle.std.specs.Prelude.{IsTrue};

use pgfilespools::FileSpools;
use pglogical::{ItemRef, MessageRef, decode_ref, encode_item};
use pgspool::{ByteSpools, SpoolFault, Spools};
use sqlite_disk::{Disk, Memory, Rot};
use std::process::Abort;

/// The transaction.
const XID: u32 = 20;

/// So many bytes of all items stay in memory, where not all do.
const IN_MEMORY: u64 = 100_000;

/// An Insert of one cell of so many bytes.
fn insert(rt: &(impl Abort + AllocGlobal), len: u32) -> Vec<u8> {
    let mut body = Vec::new(rt.alloc());
    body.extend_from_slice(&[73, 0, 0, 64, 0, 78, 0, 1, 116])
        .expect(rt, "insert");
    body.extend_from_slice(&len.to_be_bytes())
        .expect(rt, "insert");
    body.resize(13 + len as usize, 97 + (len % 26) as u8)
        .expect(rt, "insert");
    body
}

fn item_over<'a>(rt: &impl Abort, body: &'a [u8]) -> ItemRef<'a> {
    match decode_ref(body, false) {
        Ok(MessageRef::Item { item, .. }) => item,
        _ => panic!(rt; "an item"),
    }
}

/// So many items of a subtransaction, of these lengths.
fn fill<P: Spools>(
    rt: &(impl Abort + AllocGlobal),
    spools: &mut P,
    subxid: u32,
    count: u32,
    least: u32,
) {
    for number in 0..count {
        let body = insert(rt, least.saturating_add(number % 100));
        let item = item_over(rt, body.as_slice());
        assert!(rt; item.spellable());
        assert!(rt; spools.is_open(XID));
        spools.push(XID, subxid, &item).expect(rt, "push");
    }
}

fn open<P: Spools>(rt: &(impl Abort + AllocGlobal), spools: &mut P) {
    assert!(rt; !spools.is_open(XID));
    spools.open(XID).expect(rt, "open");
}

/// The items, one behind the other.
fn read<P: Spools>(rt: &(impl Abort + AllocGlobal), spools: &mut P) -> Vec<u8> {
    let mut bytes = Vec::new(rt.alloc());
    spools.load(XID).expect(rt, "load");
    for place in 0..spools.count(XID) {
        let item = spools.item(XID, place).expect(rt, "an item");
        encode_item(&item, &mut bytes).expect(rt, "memory");
    }
    bytes
}

/// The same, part after part, and how many parts there are.
fn read_parts<P: Spools>(
    rt: &(impl Abort + AllocGlobal),
    spools: &mut P,
) -> Result<(Vec<u8>, u32), SpoolFault> {
    let mut bytes = Vec::new(rt.alloc());
    let mut from = 0;
    for part in 0..100u32 {
        if from >= spools.count(XID) {
            return Ok((bytes, part));
        }
        let to = spools.load_part(XID, from)?;
        for place in from..to {
            let item = spools.part_item(XID, place).expect(rt, "an item");
            encode_item(&item, &mut bytes).expect(rt, "memory");
        }
        from = to;
    }
    panic!(rt; "parts without end")
}

/// All parts are all items, in so many parts.
fn compare<D: Disk + Drop>(
    rt: &(impl Abort + AllocGlobal),
    spools: &mut FileSpools<D>,
    model: &mut ByteSpools,
    parts: u32,
) {
    let expected = read(rt, model);
    let (bytes, count) = read_parts(rt, spools).expect(rt, "parts");
    assert!(rt; bytes.as_slice() == expected.as_slice());
    assert!(rt; count == parts);
    let (bytes, count) = read_parts(rt, model).expect(rt, "parts");
    assert!(rt; bytes.as_slice() == expected.as_slice());
    assert!(rt; count == 1);
}

/// Items of three subtransactions, of which the last and then the second are cut.
fn fill_and_cut<D: Disk + Drop>(rt: &(impl Abort + AllocGlobal), disk: D, in_memory: u64)
    requires { IsTrue (D.is_usable disk) }
{
    let mut spools = FileSpools::new(rt.alloc(), disk, 1 << 40, in_memory);
    let mut model = ByteSpools::new(rt.alloc(), 1 << 40);
    open(rt, &mut spools);
    open(rt, &mut model);
    for subxid in 1..4u32 {
        fill(rt, &mut spools, subxid, 20, 30_000);
        fill(rt, &mut model, subxid, 20, 30_000);
    }
    compare(rt, &mut spools, &mut model, 2);
    spools.cut(XID, 3);
    model.cut(XID, 3).expect(rt, "cut");
    compare(rt, &mut spools, &mut model, 2);
    spools.cut(XID, 2);
    model.cut(XID, 2).expect(rt, "cut");
    compare(rt, &mut spools, &mut model, 1);
    fill(rt, &mut spools, 4, 40, 20_000);
    fill(rt, &mut model, 4, 40, 20_000);
    compare(rt, &mut spools, &mut model, 2);
    spools.cut(XID, 1);
    assert!(rt; spools.load_part(XID, 0) == Ok(0));
}

#[test]
fn parts_are_all_items_of_a_file(rt: HostRuntime) {
    fill_and_cut(&rt, Memory::new(rt.alloc()), IN_MEMORY);
}

#[test]
fn parts_are_all_items_in_memory(rt: HostRuntime) {
    fill_and_cut(&rt, Memory::new(rt.alloc()), 1 << 40);
}

#[test]
fn many_items_in_memory_are_parts(rt: HostRuntime) {
    let mut spools = ByteSpools::new(rt.alloc(), 1 << 40);
    open(&rt, &mut spools);
    fill(&rt, &mut spools, XID, 70_000, 0);
    assert!(&rt; spools.is_long(XID));
    let expected = read(&rt, &mut spools);
    let (bytes, parts) = read_parts(&rt, &mut spools).expect(&rt, "parts");
    assert!(&rt; bytes.as_slice() == expected.as_slice());
    assert!(&rt; parts == 2);
}

/// Where no part begins none is loaded, and the one that was is let go of.
fn load_between<D: Disk + Drop>(rt: &(impl Abort + AllocGlobal), disk: D)
    requires { IsTrue (D.is_usable disk) }
{
    let mut spools = FileSpools::new(rt.alloc(), disk, 1 << 40, IN_MEMORY);
    open(rt, &mut spools);
    fill(rt, &mut spools, XID, 50, 30_000);
    assert!(rt; spools.count(XID) == 50);
    // the first part has a megabyte and what the last item goes beyond
    assert!(rt; spools.load_part(XID, 0) == Ok(35));
    assert!(rt; spools.part_item(XID, 34).is_some());
    assert!(rt; spools.part_item(XID, 35).is_none());
    assert!(rt; spools.part_item(XID + 1, 1).is_none());
    assert!(rt; spools.load_part(XID, 1) == Err(SpoolFault::NotRead));
    assert!(rt; spools.part_item(XID, 1).is_none());
    assert!(rt; spools.load_part(XID, 35) == Ok(50));
    assert!(rt; spools.part_item(XID, 34).is_none());
    assert!(rt; spools.load_part(XID, 50) == Ok(50));
    assert!(rt; spools.part_item(XID, 50).is_none());
    assert!(rt; !spools.is_long(XID));
    assert!(rt; !spools.is_long(XID + 1));
    fill(rt, &mut spools, XID, 90, 30_000);
    assert!(rt; spools.is_long(XID));
}

#[test]
fn no_part_begins_between(rt: HostRuntime) {
    load_between(&rt, Memory::new(rt.alloc()));
}

/// The first part of two where the disk fails behind it.
fn fail_behind_the_first<D: Disk + Drop>(rt: &(impl Abort + AllocGlobal), disk: D)
    requires { IsTrue (D.is_usable disk) }
{
    let mut spools = FileSpools::new(rt.alloc(), disk, 1 << 40, IN_MEMORY);
    open(rt, &mut spools);
    fill(rt, &mut spools, XID, 60, 30_000);
    assert!(rt; spools.count(XID) == 60);
    assert!(rt; spools.load_part(XID, 0) == Ok(35));
    assert!(rt; spools.load_part(XID, 35) == Err(SpoolFault::NotRead));
    // what is held stays, and the first part can be read again
    assert!(rt; spools.count(XID) == 60);
    assert!(rt; spools.load_part(XID, 0) == Ok(35));
}

#[test]
fn damage_is_found_in_its_part(rt: HostRuntime) {
    let disk = Rot::new(Memory::new(rt.alloc()), 65536 * 25 + 100);
    fail_behind_the_first(&rt, disk);
}

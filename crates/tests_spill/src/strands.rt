//! One strand over disks that work, stop and rot.

use pgspill::{Blocks, SpillFault, Strand};
use sqlite_disk::{Fuse, Memory, Rot};
use std::process::Abort;

/// So many bytes, other ones in each block.
fn text(rt: &(impl Abort + AllocGlobal), len: u32) -> Vec<u8> {
    let mut bytes = Vec::new(rt.alloc());
    for number in 0..len {
        bytes.push((number % 251) as u8).expect(rt, "bytes");
    }
    bytes
}

#[test]
fn bytes_come_back(rt: HostRuntime) {
    let bytes = text(&rt, 150000);
    let mut blocks = Blocks::new(rt.alloc(), Memory::new(rt.alloc()));
    let mut strand = Strand::new(rt.alloc(), 20);
    strand.append(bytes.as_slice()).expect(&rt, "append");
    strand.spill(&mut blocks).expect(&rt, "spill");
    assert!(&rt; strand.in_memory() == 0);
    strand.cut(&mut blocks, 70000);
    let mut out = Vec::new(rt.alloc());
    strand.read(&mut blocks, &mut out).expect(&rt, "read");
    assert!(&rt; out.len() == 70000);
    assert!(&rt; bytes.as_slice().starts_with(out.as_slice()));
}

#[test]
fn free_blocks_are_used_again(rt: HostRuntime) {
    let bytes = text(&rt, 150000);
    let mut blocks = Blocks::new(rt.alloc(), Memory::new(rt.alloc()));
    let mut strand = Strand::new(rt.alloc(), 20);
    strand.append(bytes.as_slice()).expect(&rt, "append");
    strand.spill(&mut blocks).expect(&rt, "spill");
    assert!(&rt; blocks.len() == 3);
    strand.cut(&mut blocks, 0);
    strand.append(bytes.as_slice()).expect(&rt, "append");
    strand.spill(&mut blocks).expect(&rt, "spill");
    assert!(&rt; blocks.len() == 3);
}

#[test]
fn cleared_blocks_are_free(rt: HostRuntime) {
    let bytes = text(&rt, 70000);
    let mut blocks = Blocks::new(rt.alloc(), Memory::new(rt.alloc()));
    let mut strand = Strand::new(rt.alloc(), 20);
    strand.append(bytes.as_slice()).expect(&rt, "append");
    strand.spill(&mut blocks).expect(&rt, "spill");
    blocks.clear();
    assert!(&rt; blocks.len() == 0);
    assert!(&rt; blocks.into_disk().bytes().is_empty());
}

#[test]
fn failed_write_keeps_the_bytes(rt: HostRuntime) {
    let bytes = text(&rt, 150000);
    // the third write fails, and each read
    let disk = Fuse::new(Memory::new(rt.alloc()), 2);
    let mut blocks = Blocks::new(rt.alloc(), disk);
    let mut strand = Strand::new(rt.alloc(), 20);
    strand.append(bytes.as_slice()).expect(&rt, "append");
    let written = strand.spill(&mut blocks);
    assert!(&rt; written == Err(SpillFault::NotWritten));
    let mut out = Vec::new(rt.alloc());
    let read = strand.read(&mut blocks, &mut out);
    assert!(&rt; read == Err(SpillFault::NotRead));
}

#[test]
fn damage_is_a_fault(rt: HostRuntime) {
    let bytes = text(&rt, 150000);
    let disk = Rot::new(Memory::new(rt.alloc()), 70000);
    let mut blocks = Blocks::new(rt.alloc(), disk);
    let mut strand = Strand::new(rt.alloc(), 20);
    strand.append(bytes.as_slice()).expect(&rt, "append");
    strand.spill(&mut blocks).expect(&rt, "spill");
    let mut out = Vec::new(rt.alloc());
    let read = strand.read(&mut blocks, &mut out);
    assert!(&rt; read == Err(SpillFault::NotRead));
    // the damaged block isn't read where none of it is left
    strand.cut(&mut blocks, 65536);
    let mut front = Vec::new(rt.alloc());
    strand.read(&mut blocks, &mut front).expect(&rt, "read");
    assert!(&rt; front.len() == 65536);
}

//! A region of raw memory: each width at both ends, fills, and copies that overlap.
use ffi3_memory::Region;

#[test]
fn a_region_keeps_its_bytes(rt: HostRuntime) {
    let Ok(mut region) = Region::new(rt.alloc(), 0x1000, 9) else {
        panic!(rt; "no memory");
    };
    region.store(0x1000, 8, 0x1122_3344_5566_7788);
    region.store(0x1008, 1, 0x99);
    assert!(rt; region.load(0x1001, 8) == 0x9911_2233_4455_6677);
    assert!(rt; region.load(0x1000, 4) == 0x5566_7788 && region.load(0x1007, 2) == 0x9911);
    region.fill(0x1001, 7, 0xA5);
    assert!(rt; region.lend(0x1006, 3) == [0xA5, 0xA5, 0x99].as_slice());
    assert!(rt; region.has(0x1009, 0) && !region.has(0x1001, 9) && !region.has(0xFFF, 1));
}

#[test]
fn copies_overlap(rt: HostRuntime) {
    let Ok(mut region) = Region::new(rt.alloc(), 0x1000, 9) else {
        panic!(rt; "no memory");
    };
    region.copy_in(0x1000, &[1, 2, 3, 4, 5, 6, 7, 8]);
    region.copy_within(0x1000, 0x1001, 8);
    assert!(rt; region.lend(0x1000, 9) == [1, 1, 2, 3, 4, 5, 6, 7, 8].as_slice());
    region.copy_within(0x1002, 0x1000, 7);
    assert!(rt; region.lend(0x1000, 9) == [2, 3, 4, 5, 6, 7, 8, 7, 8].as_slice());
}

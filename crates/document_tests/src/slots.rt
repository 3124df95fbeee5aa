// Which slot is free.

use dbp_slots::free_slot;

// Claims, kept slots, the number of slots, and which is free.
static FREE: [(&[u32], &[u32], u32, u32); 8] = [
    (&[], &[], 1, 0),
    (&[0], &[], 2, 1),
    (&[], &[0], 2, 1),
    (&[1], &[2], 3, 0),
    (&[0, 2], &[1], 4, 3),
    (&[1, 0], &[1, 3], 5, 2),
    (&[1, 1], &[0, 0], 5, 2),
    (&[4, 0], &[7, 1], 9, 2),
];

// None if the lists are too long to call it.
fn free_slot_of(claims: &[u32], kept: &[u32], slots: u32) -> Option<u32> {
    if claims.len() + kept.len() < slots as usize {
        Some(free_slot(claims, kept, slots))
    } else {
        None
    }
}

#[test]
fn the_least_free_slot_is_found(rt: HostRuntime) {
    for (claims, kept, slots, free) in &FREE {
        assert_eq!(rt; free_slot_of(claims, kept, *slots), Some(*free));
    }
}

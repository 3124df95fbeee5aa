// Which slot of a task may be written next.
ghost use Rattle.std.specs.Prelude.{◌≡◌, ◌+◌, ◌<◌, ◌≤◌, length};
ghost use Rattle.std.specs.List.{prefix_len};
ghost use Rattle.dbp_slots.specs.FreeSlot.{IsLeastFree};
ghost use Rattle.dbp_slots.specs.Marks.{marks_after};

// How many slots are marked at most. The links and the kept slots of a task are fewer.
const MARKS: usize = 256;

/// The least slot, from 0, below `slots` that is in neither list. There is one, since the lists together are required
/// to be shorter than that.
pub fn free_slot(claims: &[u32], kept: &[u32], slots: u32) -> u32
    requires { length claims.now + length kept.now < slots }
    ensures { IsLeastFree claims.now kept.now slots result }
{
    if claims.len() + kept.len() >= MARKS {
        return first_unlisted(claims, kept, slots);
    }
    let mut marks = [false; MARKS];
    mark(&mut marks, claims);
    mark(&mut marks, kept);
    first_unmarked(&marks) as u32
}

// Marks the slots of the list that have a mark.
fn mark(marks: &mut [bool], slots: &[u32])
    ensures { marks.new ≡ marks_after marks.old slots.now }
{
    for slot in slots {
        if (*slot as usize) < marks.len() {
            marks[*slot as usize] = true;
        }
    }
}

// The first slot that isn't marked, or the number of marks.
fn first_unmarked(marks: &[bool]) -> usize
    ensures value { result ≡ prefix_len (λ is_marked. is_marked) marks.now }
    ensures within { result ≤ length marks.now }
{
    marks.iter().take_while(|is_marked| **is_marked).count()
}

// The first slot that is in neither list, by a look through both for each slot.
fn first_unlisted(claims: &[u32], kept: &[u32], slots: u32) -> u32
    requires { length claims.now + length kept.now < slots }
    ensures { IsLeastFree claims.now kept.now slots result }
{
    for slot in 0..slots {
        if !claims.contains(&slot) && !kept.contains(&slot) {
            return slot;
        }
    }
    unreachable!()
}

//! How many threads have room in the address space that is left. A stack may take the last of it, and then the thread has
//! no area of the allocator: each piece of memory that it asks for is a mapping of its own, and soon there is none. So as
//! much as is wanted is asked for at once, and given back.
ghost use Rattle.std.specs.Prelude.{◌≤◌};

use std::alloc::Global;

/// What the allocator takes for the area of a thread, and what it asks for at first to find a place for it, in bytes.
const AREA: usize = 1 << 26;

const PLACE_OF_AREA: usize = 1 << 27;

/// What is left to terms beside the stacks and areas of the workers, in bytes.
const BESIDE: usize = 1 << 29;

/// Whether a thread with a stack of so many bytes has room for its area too.
pub fn has_room(alloc: Global, stack: usize) -> bool {
    can_be_had(alloc, stack.saturating_add(PLACE_OF_AREA))
}

/// How many workers, of those wanted, have room, each with a stack of so many bytes.
pub fn with_room(alloc: Global, stack: usize, wanted: usize) -> usize
    ensures few { result ≤ wanted }
{
    let each = stack.saturating_add(AREA);
    for fewer in 0..wanted {
        let count = wanted - fewer;
        if can_be_had(alloc, each.saturating_mul(count).saturating_add(BESIDE)) {
            return count;
        }
    }
    0
}

/// Whether so many bytes can be had now.
fn can_be_had(alloc: Global, size: usize) -> bool {
    let mut bytes: Vec<u8> = Vec::new(alloc);
    bytes.reserve(size).is_ok()
}

//! The bytes of a disk in memory: a file in the front of a buffer that has its room.

ghost use Rattle.std.specs.Prelude.{◌≡◌, ℕ, ◌+◌, ◌-◌, ◌<◌, ◌≤◌, ◌++◌, length, take, drop, replicate, min, slice_index, IfOk};
ghost use Rattle.mp_outside.specs.Disks.{written};
ghost use Rattle.mp_outside.specs.Marks.{mark_at, left_of};
ghost use Rattle.mp_outside.specs.declared.marks.Mark.TheVariants.{Untouched};

use crate::marks::Mark;
use mp_model::Memory;
use std::alloc::Global;

/// A buffer of as many bytes as there is room for, with these in its front.
pub fn with_front(alloc: Global, bytes: &[u8], room: usize) -> Result<Vec<u8>, Memory>
    requires { length bytes.now ≤ room }
    ensures front { IfOk result (λ buffer. take (length bytes.now) buffer.items ≡ bytes.now) }
    ensures room { IfOk result (λ buffer. length buffer.items ≡ room) }
{
    let mut buffer = vec![in alloc; 0u8; room]?;
    put(&mut buffer, 0, 0, bytes);
    Ok(buffer)
}

/// Writes into a file of `size` bytes, and fills what lies between its end and the place with zeros. It answers where
/// what was written ends.
pub fn put(buffer: &mut [u8], size: usize, place: usize, bytes: &[u8]) -> usize
    requires within { place + length bytes.now ≤ length buffer.old }
    requires size { size ≤ length buffer.old }
    ensures end { result ≡ place + length bytes.now }
    ensures buffer { buffer.new ≡ take (min place size) buffer.old
        ++ (replicate (place - size) 0 ++ (bytes.now ++ drop (place + length bytes.now) buffer.old)) }
{
    buffer[place.min(size)..place].fill(0);
    let end = place + bytes.len();
    buffer[place..end].copy_from_slice(bytes);
    end
}

/// Makes a range of what was synced as it reads now, and its marks untouched. Outside it they are so already.
pub fn settle(buffer: &[u8], synced: &mut [u8], marks: &mut [Mark], from: usize, to: usize)
    requires rooms { (length synced.old ≡ length buffer.now) × (length marks.old ≡ length buffer.now) }
    requires range { (from ≤ to) × (to ≤ length buffer.now) }
    requires below { (take from buffer.now ≡ take from synced.old)
        × (take from marks.old ≡ replicate from Untouched) }
    requires above { (drop to buffer.now ≡ drop to synced.old)
        × (drop to marks.old ≡ replicate (length buffer.now - to) Untouched) }
    ensures synced { synced.new ≡ buffer.now }
    ensures marks { marks.new ≡ replicate (length buffer.now) Untouched }
{
    synced[from..to].copy_from_slice(&buffer[from..to]);
    marks[from..to].fill(Mark::Untouched);
}

/// Leaves of each byte of a file of `size` bytes what a crash of this choice leaves of it.
pub fn leave(buffer: &mut [u8], size: usize, synced: &[u8], marks: &[Mark], choice: u8)
    requires buffer { size ≤ length buffer.old }
    requires marks { size ≤ length marks.now }
    ensures each { (place : ℕ) → place < size → slice_index buffer.new place
        ≡ left_of (mark_at marks.now place) choice (slice_index buffer.old place) (slice_index synced.now place) }
    ensures others { (place : ℕ) → size ≤ place → slice_index buffer.new place ≡ slice_index buffer.old place }
{
    for place in 0..size {
        let was = if place < synced.len() {
            synced[place]
        } else {
            0
        };
        buffer[place] = marks[place].leaves(choice, buffer[place], was);
    }
}

//! Records: what was written is read.
ghost use Rattle.std.specs.Prelude.{◌≡◌, ◌≤◌, ◌+◌, IfOk, IfSome, Ok, Some};
ghost use Rattle.loop_record.specs.Geometry.{slot_size};

use crate::SMALL;
use loop_record::laws::written_is_read;
use loop_record::{
    CLIP_SIZE, Damage, Frame, FrameHead, Geometry, Span, TAGGED, decode_clip, decode_slot,
    encode_clip, encode_slot, put_u32, put_u64, u32_at, u64_at,
};
use std::alloc::{AllocError, Allocator};

/// Numbers come back from the places that they were written to.
pub fn numbers_come_back(small: u32, large: u64) -> (u32, u64)
    ensures { result ≡ (small, large) }
{
    let (mut first, mut second) = ([0; 12], [0; 12]);
    put_u32(&mut first, 7, small);
    put_u64(&mut second, 3, large);
    (u32_at(&first, 7), u64_at(&second, 3))
}

/// A clip comes back from its entry.
pub fn a_clip_comes_back(span: Span) -> Result<Option<Span>, Damage>
    ensures { span.from ≤ span.to → result ≡ Ok (Some span) }
{
    let mut entry = [0; CLIP_SIZE];
    encode_clip(span, &mut entry);
    written_is_read();
    decode_clip(TAGGED, &entry)
}

/// The head of a frame of twelve bytes comes back from its slot.
pub fn a_head_comes_back<A: Allocator>(
    alloc: A,
    number: u64,
    timestamp: u64,
) -> Result<Result<FrameHead, Damage>, AllocError>
    ensures { IfOk result (λ read. read
        ≡ Ok (record { number = number; sequence = 5; flags = 8192; timestamp = timestamp })) }
{
    let frame = Frame {
        sequence: 5,
        flags: 0x2000,
        timestamp,
        bytes: vec![in alloc; 7; 12]?,
    };
    let mut slot = [0; 44];
    encode_slot(number, &frame, &mut slot);
    written_is_read();
    Ok(decode_slot(&slot, number))
}

/// Where the last slot of a good geometry begins, and where the disk ends: just behind it.
pub fn the_last_slot_ends_the_disk(geometry: &Geometry) -> Option<(u64, u64)>
    ensures { IfSome result (λ places. places.0 + slot_size geometry.now ≡ places.1) }
{
    let Ok(()) = geometry.check() else {
        return None;
    };
    let slot = geometry.slot_at(geometry.segments - 1, geometry.slots - 1);
    Some((slot, geometry.disk_size()))
}

/// The frame gate of the first slot lies in its segment's header, of which the first slot begins the rest.
pub fn a_gate_lies_in_its_header() -> (u64, u64, u64)
    ensures { result ≡ (3160, 3416, 3672) }
{
    (
        SMALL.segment_at(1),
        SMALL.gate_at(1, 0),
        SMALL.slot_at(1, 0),
    )
}

// Which block goes when room is needed, by the segments and how many clips meet the block of each.
ghost use Rattle.std.specs.Prelude.{◌≡◌, length, min};
ghost use Rattle.std.specs.List.{filter_map, reduce, zip};
ghost use Rattle.loop_ring.specs.Entries.{IsIndexed};
ghost use Rattle.loop_ring.specs.Heads.{floor_block, free_block, going_free, has_frame, is_free};

use loop_record::{Found, SegmentHead};

/// The block that goes when room is needed: the least block of a held frame that no clip meets and that isn't among
/// the `keep` newest blocks of held frames. The newest one stays even where `keep` is 0. Nothing where none may go. A
/// segment without frames holds no such block and is skipped.
pub(crate) fn victim_of(
    heads: &[Option<SegmentHead>],
    clips: &[u32],
    entries: &[Found],
    keep: u32,
) -> Option<u64>
    requires order { IsIndexed heads.now entries.now (length heads.now) }
    requires counted { length clips.now ≡ length heads.now }
    ensures { result ≡ going_free (record { heads = heads.now; clips = clips.now; keep = keep }) }
{
    let floor = floor_block(heads, entries, keep)?;
    oldest_free(heads, clips, entries, floor)
}

/// Whether a segment is open and has a whole frame.
pub(crate) fn has_frame(head: Option<SegmentHead>) -> bool
    ensures { result ≡ has_frame head }
{
    head.is_some_and(|head| head.frames > 0)
}

// Whether a segment has a whole frame, its block is below the floor, and no clip meets its block.
fn is_free(head: Option<SegmentHead>, clips: u32, floor: u64) -> bool
    ensures { result ≡ is_free floor head clips }
{
    head.is_some_and(|head| head.frames > 0 && head.block < floor && clips == 0)
}

// The block from which on no block may go: the oldest of the blocks of held frames that are kept. Nothing where fewer
// are held.
fn floor_block(heads: &[Option<SegmentHead>], entries: &[Found], keep: u32) -> Option<u64>
    requires { IsIndexed heads.now entries.now (length heads.now) }
    ensures { result ≡ floor_block keep heads.now }
{
    let mut left = keep.max(1);
    for entry in entries.iter().rev() {
        if has_frame(heads[entry.segment as usize]) {
            if left == 1 {
                return Some(entry.block);
            }
            left -= 1;
        }
    }
    None
}

// The least block of a held frame below the floor that no clip meets: the first such one in the order of the blocks.
fn oldest_free(
    heads: &[Option<SegmentHead>],
    clips: &[u32],
    entries: &[Found],
    floor: u64,
) -> Option<u64>
    requires order { IsIndexed heads.now entries.now (length heads.now) }
    requires counted { length clips.now ≡ length heads.now }
    ensures { result ≡ reduce min (filter_map (λ x. free_block floor x.0 x.1) (zip heads.now clips.now)) }
{
    for entry in entries {
        let segment = entry.segment as usize;
        if is_free(heads[segment], clips[segment], floor) {
            return Some(entry.block);
        }
    }
    None
}

// How many clips meet the block of each segment.
ghost use Rattle.std.specs.Prelude.{◌≡◌, ◌<◌, ◌^◌, All, IsTrue, is_some, length, map};
ghost use Rattle.std.specs.List.{list_any, zip};
ghost use Rattle.loop_record.specs.Geometry.{is_good};
ghost use Rattle.loop_record.specs.Recording.{ring_of};
ghost use Rattle.loop_ring.specs.Heads.{clip_counts, clips_on, meets_head, without_one, with_one};

use loop_record::{Geometry, SegmentHead, Span, meets};

/// How many of these clips meet the block of a segment: none where it is closed.
pub fn clips_on(geometry: &Geometry, clips: &[Option<Span>], head: Option<SegmentHead>) -> u32
    requires good { IsTrue (is_good geometry.now) }
    requires few { length clips.now < 2 ^ 32 }
    ensures { result ≡ clips_on (ring_of geometry.now) clips.now head }
{
    // Where there is no clip, none has to be looked at.
    if !some_stands(clips) {
        return 0;
    }
    match head {
        None => 0,
        Some(head) => clips
            .iter()
            .filter(|clip| meets(geometry, head.block, **clip))
            .count() as u32,
    }
}

// Whether some id has a clip.
fn some_stands(clips: &[Option<Span>]) -> bool
    ensures { result ≡ list_any is_some clips.now }
{
    clips.iter().any(|clip| clip.is_some())
}

/// Sets the count of each segment, where these are all the clips.
pub(crate) fn count_clips(
    counts: &mut [u32],
    geometry: &Geometry,
    heads: &[Option<SegmentHead>],
    clips: &[Option<Span>],
)
    requires good { IsTrue (is_good geometry.now) }
    requires few { length clips.now < 2 ^ 32 }
    requires counted { length counts.old ≡ length heads.now }
    ensures { counts.new ≡ clip_counts (ring_of geometry.now) clips.now heads.now }
{
    for (segment, head) in heads.iter().enumerate() {
        counts[segment] = clips_on(geometry, clips, *head);
    }
}

// Whether some number of a clip is of a segment's block.
fn meets_head(geometry: &Geometry, clip: Option<Span>, head: Option<SegmentHead>) -> bool
    requires { IsTrue (is_good geometry.now) }
    ensures { result ≡ meets_head (ring_of geometry.now) clip head }
{
    head.is_some_and(|head| meets(geometry, head.block, clip))
}

/// Adds one to the count of each segment whose block a clip meets.
pub(crate) fn raise_counts(
    counts: &mut [u32],
    geometry: &Geometry,
    heads: &[Option<SegmentHead>],
    span: Span,
)
    requires good { IsTrue (is_good geometry.now) }
    requires counted { length counts.old ≡ length heads.now }
    requires few { All (λ count. count < 64) counts.old }
    ensures { counts.new ≡ map (λ x. with_one (ring_of geometry.now) span x.0 x.1) (zip heads.now counts.old) }
{
    for (segment, head) in heads.iter().enumerate() {
        if meets_head(geometry, Some(span), *head) {
            counts[segment] += 1;
        }
    }
}

/// Subtracts one from the count of each segment whose block a clip meets.
pub(crate) fn lower_counts(
    counts: &mut [u32],
    geometry: &Geometry,
    heads: &[Option<SegmentHead>],
    span: Span,
)
    requires good { IsTrue (is_good geometry.now) }
    requires counted { length counts.old ≡ length heads.now }
    ensures { counts.new ≡ map (λ x. without_one (ring_of geometry.now) span x.0 x.1) (zip heads.now counts.old) }
{
    for (segment, head) in heads.iter().enumerate() {
        if meets_head(geometry, Some(span), *head) {
            counts[segment] = counts[segment].saturating_sub(1);
        }
    }
}

//! What a camera's store holds, as the line of an object.

use crate::part::ended;
use json::Writer;
use loop_script::{Listing, run_length};
use loop_store::Clip;
use std::alloc::{AllocError, Allocator, Global};

/// What a camera's store holds, with the number of it where it has several, without the brace that opens the object.
pub fn camera_json<A: Allocator + Copy>(
    alloc: Global,
    camera: &str,
    store: Option<u32>,
    listing: &Listing<A>,
) -> Result<Vec<u8>, AllocError> {
    let mut out = Writer::new(Vec::new(alloc));
    out.key("kind")?;
    out.string("camera")?;
    out.key("camera")?;
    out.string(camera)?;
    if let Some(store) = store {
        out.key("store")?;
        out.u64(u64::from(store))?;
    }
    out.key("next")?;
    out.u64(listing.next)?;
    out.key("frames")?;
    write_runs(&listing.numbers, &mut out)?;
    out.key("clips")?;
    write_clips(&listing.clips, &mut out)?;
    ended(out)
}

// Writes each longest run of numbers that follow one another.
fn write_runs(numbers: &[u64], out: &mut Writer) -> Result<(), AllocError> {
    out.begin_array()?;
    let mut rest = numbers;
    for _ in 0..numbers.len() {
        if rest.is_empty() {
            break;
        }
        let (run, behind) = rest.split_at(run_length(rest));
        if let (Some(first), Some(last)) = (run.first(), run.last()) {
            write_run(*first, *last, out)?;
        }
        rest = behind;
    }
    out.end_array()
}

// Writes one run.
fn write_run(first: u64, last: u64, out: &mut Writer) -> Result<(), AllocError> {
    out.begin_object()?;
    out.key("first")?;
    out.u64(first)?;
    out.key("last")?;
    out.u64(last)?;
    out.end_object()
}

// Writes each clip.
fn write_clips(clips: &[Clip], out: &mut Writer) -> Result<(), AllocError> {
    out.begin_array()?;
    for clip in clips {
        out.begin_object()?;
        out.key("id")?;
        out.u64(u64::from(clip.id))?;
        out.key("first")?;
        out.u64(clip.from)?;
        out.key("last")?;
        out.u64(clip.to)?;
        out.key("tag")?;
        out.u64(clip.tag)?;
        out.end_object()?;
    }
    out.end_array()
}

//! Which blocks clips lock.

ghost use Rattle.std.specs.Prelude.{◌≡◌, IsTrue};
ghost use Rattle.std.specs.List.{list_any};
ghost use Rattle.loop_record.specs.Geometry.{is_good};
ghost use Rattle.loop_record.specs.Recording.{block, meets, ring_of};

use crate::{Geometry, Span};

// The block of a number.
fn block(geometry: &Geometry, number: u64) -> u64
    requires { IsTrue (is_good geometry.now) }
    ensures { result ≡ block (ring_of geometry.now) number }
{
    number / u64::from(geometry.slots)
}

/// Whether some number of a clip has this block. No number has it where there is no clip.
pub fn meets(geometry: &Geometry, wanted: u64, clip: Option<Span>) -> bool
    requires { IsTrue (is_good geometry.now) }
    ensures { result ≡ meets (ring_of geometry.now) wanted clip }
{
    match clip {
        None => false,
        Some(span) => {
            span.from <= span.to
                && block(geometry, span.from) <= wanted
                && wanted <= block(geometry, span.to)
        }
    }
}

/// Whether some clip has a number of a block. The clips are in the order of their ids.
pub fn is_locked(geometry: &Geometry, wanted: u64, clips: &[Option<Span>]) -> bool
    requires { IsTrue (is_good geometry.now) }
    ensures { result ≡ list_any (meets (ring_of geometry.now) wanted) clips.now }
{
    clips.iter().any(|clip| meets(geometry, wanted, *clip))
}

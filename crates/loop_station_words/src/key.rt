//! Keys of the configuration file that nobody knows.

use std::alloc::{AllocError, Global};
use std::fmt;
use std::fmt::{Display, Formatter};
use strsim::osa_distance;
use toml::Table;

// How many bytes of a key are kept at most.
const MOST: usize = 32;

// The known key that is nearest is named where fewer letters than this are wrong.
const FAR: usize = 3;

/// A key that isn't known: how it begins, and the known one that is nearest, if one is near.
#[derive(Clone, Copy, Debug, PartialEq, Eq)]
pub struct UnknownKey {
    bytes: [u8; MOST],
    // Of the whole key.
    length: usize,
    near: Option<&'static str>,
}

impl UnknownKey {
    // A key, and the known one that is near.
    fn of(key: &str, near: Option<&'static str>) -> Self {
        let mut bytes = [0; MOST];
        for (place, byte) in bytes.iter_mut().zip(key.bytes()) {
            *place = if byte.is_ascii_graphic() { byte } else { b'?' };
        }
        UnknownKey {
            bytes,
            length: key.len(),
            near,
        }
    }
}

// The key; and whether the nearest one is meant.
impl Display for UnknownKey {
    fn fmt<W: fmt::Write>(&self, f: &mut Formatter<W>) -> fmt::Result {
        for byte in self.bytes.iter().take(self.length) {
            f.write_char(char::from(*byte))?;
        }
        match self.near {
            Some(near) => write!(f, ": is {near} meant?"),
            None => Ok(()),
        }
    }
}

/// The first key of a table that isn't one of these, if there is one.
pub(crate) fn unknown_key(
    alloc: Global,
    table: &Table,
    known: &[&'static str],
) -> Result<Option<UnknownKey>, AllocError> {
    for key in table.keys() {
        let key = key.as_str();
        if !is_among(key, &*known) {
            let near = nearest(alloc, key, &*known)?;
            return Ok(Some(UnknownKey::of(key, near)));
        }
    }
    Ok(None)
}

// Whether a key is one of these.
fn is_among(key: &str, known: &[&'static str]) -> bool {
    known.iter().any(|other| *other == key)
}

// The known key that fewest changes of letters make of this one; `None` where that takes too many.
fn nearest(
    alloc: Global,
    key: &str,
    known: &[&'static str],
) -> Result<Option<&'static str>, AllocError> {
    let (mut near, mut least) = (None, FAR);
    for other in known {
        let far = osa_distance(alloc, key, other)?;
        if far < least {
            (near, least) = (Some(*other), far);
        }
    }
    Ok(near)
}

// What is wrong with a configuration file.

use crate::key::UnknownKey;
use std::alloc::{AllocError, AllocFailed};
use thiserror::Error;

/// Why the file can't be used.
#[derive(Clone, Copy, Debug, PartialEq, Eq, Error)]
pub enum ConfigFault {
    /// Memory was refused.
    #[error("no memory")]
    NoMemory,
    /// The text isn't TOML, on the line of this number, from 1.
    #[error("line {0} can't be read as TOML")]
    BadToml(u64),
    /// A key that no file has: this one.
    #[error("there is no key {0}")]
    UnknownKey(UnknownKey),
    /// `orders` isn't a text, or is empty.
    #[error("orders is a path")]
    BadOrders,
    /// `answers` isn't a text, or is empty.
    #[error("answers is a path")]
    BadAnswers,
    /// `answers_form` is neither `text` nor `json`.
    #[error("answers_form is \"text\" or \"json\"")]
    BadAnswersForm,
    /// `saves` isn't a text, or is empty.
    #[error("saves is the path of a folder")]
    BadSaves,
    /// `orders` and `answers` are the same path.
    #[error("orders and answers are two paths")]
    SamePath,
    /// `times` is neither true nor false.
    #[error("times is true or false")]
    BadTimes,
    /// `events` is neither true nor false.
    #[error("events is true or false")]
    BadEvents,
    /// `when_full` is none of the rules.
    #[error("when_full is \"stop\", \"release saved\", \"release oldest\" or \"release oldest tag 9\"")]
    BadWhenFull,
    /// `camera` isn't an array of tables.
    #[error("cameras are written below [[camera]]")]
    BadCameras,
    /// There is no camera.
    #[error("there is no camera")]
    NoCameras,
    /// More than 16 cameras.
    #[error("there are more than 16 cameras")]
    TooMany,
    /// Something is wrong with the camera at this place, from 1.
    #[error("camera {0}: {1}")]
    Camera(usize, CameraFault),
}

/// What is wrong with a camera.
#[derive(Clone, Copy, Debug, PartialEq, Eq, Error)]
pub enum CameraFault {
    /// Memory was refused.
    #[error("no memory")]
    NoMemory,
    /// It isn't a table.
    #[error("it is no table")]
    NoTable,
    /// A key that cameras don't have: this one.
    #[error("cameras have no key {0}")]
    UnknownKey(UnknownKey),
    /// No name, or one that isn't 1 to 32 letters, digits, `-` and `_`, or all digits.
    #[error("a name is 1 to 32 letters, digits, - and _, and not digits alone")]
    BadName,
    /// An earlier camera has this name.
    #[error("another camera has this name")]
    SameName,
    /// `source` isn't a text, is empty, or is missing.
    #[error("source is a path or \"pattern\"")]
    BadSource,
    /// `store` isn't a text, is empty, or is missing.
    #[error("store is a path")]
    BadStore,
    /// An earlier camera has this store, or its path with a number.
    #[error("another camera has this store")]
    SameStore,
    /// Neither `hours` nor `minutes` nor `bytes` is there.
    #[error("hours, minutes or bytes has to be there")]
    NoRoom,
    /// Two of `hours`, `minutes` and `bytes` are there.
    #[error("of hours, minutes and bytes only one can be there")]
    TwoRooms,
    /// `hours` isn't a number above 0.
    #[error("hours is a number above 0")]
    BadHours,
    /// `minutes` isn't a number above 0.
    #[error("minutes is a number above 0")]
    BadMinutes,
    /// `bytes` isn't a whole number above 0.
    #[error("bytes is a whole number above 0")]
    BadBytes,
    /// `keep` isn't a whole number of 32 bits.
    #[error("keep is a whole number of seconds")]
    BadSeconds,
    /// `after` isn't a whole number from 0 to 3600.
    #[error("after is a whole number of seconds, 3600 at most")]
    BadAfter,
    /// `tag` isn't a whole number, or is negative.
    #[error("tag is a whole number, not negative")]
    BadTag,
    /// `buffers` isn't a whole number from 4 to 32.
    #[error("buffers is a whole number from 4 to 32")]
    BadBuffers,
    /// `memory` is neither a whole number of bytes above 0 nor a text of seconds.
    #[error("memory is a number of bytes above 0, or a text of seconds, as \"4 s\"")]
    BadMemory,
    /// `save_to` isn't a text, or is empty.
    #[error("save_to is the path of a folder")]
    BadSaveTo,
    /// `release` is neither true nor false.
    #[error("release is true or false")]
    BadRelease,
    /// `release` is true, and there is no `save_to`.
    #[error("release stands only beside save_to")]
    NoSaveTo,
    /// `times_from` is neither `arrival` nor `source`.
    #[error("times_from is \"arrival\" or \"source\"")]
    BadTimesFrom,
    /// `losses` is neither `numbers` nor `times` nor `none`.
    #[error("losses is \"numbers\", \"times\" or \"none\"")]
    BadLosses,
    /// `when_full` is none of the rules.
    #[error("when_full is \"stop\", \"release saved\", \"release oldest\" or \"release oldest tag 9\"")]
    BadWhenFull,
    /// `pattern` can't be read, or no store may have such frames.
    #[error("pattern is a size, a format and a rate, as 640x480 YM12 25:1")]
    BadPattern,
    /// `pattern` is there, and the source is another one.
    #[error("pattern stands only beside the source \"pattern\"")]
    NoPattern,
}

impl From<AllocError> for ConfigFault {
    fn from(_refused: AllocError) -> ConfigFault {
        ConfigFault::NoMemory
    }
}

impl<T: Drop> From<AllocFailed<T>> for ConfigFault {
    fn from(_refused: AllocFailed<T>) -> ConfigFault {
        ConfigFault::NoMemory
    }
}

impl From<AllocError> for CameraFault {
    fn from(_refused: AllocError) -> CameraFault {
        CameraFault::NoMemory
    }
}

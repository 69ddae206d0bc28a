/// A clip, as a caller sees it: the frames from `from` to `to`, both included, are kept until it is unlocked.
#[derive(Clone, Copy, Debug, PartialEq, Eq)]
pub struct Clip {
    /// Its id, from 0 to 63.
    pub id: u32,
    /// The number of its first frame.
    pub from: u64,
    /// The number of its last frame.
    pub to: u64,
    /// The name that its maker gave it; 0 in version 1 of the layout.
    pub tag: u64,
}

// What C gives and gets. c/lapyrei.c has the same structs.
ghost use Rattle.std.specs.Prelude.{◌≡◌};
ghost use Rattle.lapyrei.specs.Shown.{clip_run, detail_of, shown_head, named_by, refusal_of, shown_shape, shaped, span_run};
ghost use Rattle.lapyrei.specs.Told.{Values};

use loop_disk::DiskFault;
use loop_overlay::Wanted;
use loop_record::{FrameHead, Geometry, PixelFormat, Span};
use loop_store::{Clip, StoreFault};

/// A call was made. Its refusal is 0 or the store's, and the log is whole.
pub const MADE: u32 = 0;
/// Bytes are needed that aren't there: the call is to be made again once they are.
pub const WANTS_BYTES: u32 = 1;
/// The log is too short: the call is to be made again with a longer one.
pub const WANTS_LOG: u32 = 2;

/// What a call answers.
#[repr(C)]
#[derive(Clone, Copy)]
pub struct Answer {
    /// Whether it was made, or what it needs. Only where it was made do `refusal`, `detail`, `value` and `log` count.
    pub state: u32,
    /// 0, or the number of the store's refusal.
    pub refusal: u32,
    /// What the refusal names: which call of the disk, which damage, or which number.
    pub detail: u64,
    /// A number, a clip's id or a count, as the call says.
    pub value: u64,
    /// How many bytes of the log say what is to be done to the file.
    pub log: u64,
    /// The place of the bytes that are needed.
    pub at: u64,
    /// How many bytes are needed, of the file from that place on or of the log.
    pub count: u64,
}

/// The shape of a store.
#[repr(C)]
#[derive(Clone, Copy)]
pub struct Shape {
    pub width: u32,
    pub height: u32,
    pub format: u32,
    pub rate_num: u32,
    pub rate_den: u32,
    pub segments: u32,
    pub slots: u32,
    pub version: u32,
}

/// The head of a frame.
#[repr(C)]
#[derive(Clone, Copy)]
pub struct Head {
    pub number: u64,
    pub timestamp: u64,
    pub sequence: u32,
    pub flags: u32,
}

/// A clip, or a run of numbers.
#[repr(C)]
#[derive(Clone, Copy)]
pub struct Run {
    pub id: u64,
    pub from: u64,
    pub to: u64,
    pub tag: u64,
}

/// What the store knows in memory.
#[repr(C)]
#[derive(Clone, Copy)]
pub struct Known {
    /// The number that the next frame gets.
    pub next: u64,
    /// How many frames are held.
    pub held: u64,
    /// The least number from the one that was asked for on that a frame has; 2^64 - 1 where there is none.
    pub from: u64,
    /// The block that goes next; 2^64 - 1 where none may go.
    pub victim: u64,
    /// The most frames that one append may store now, but for the limit of a group.
    pub room: u64,
    /// The most frames of a group.
    pub group: u64,
}

impl Answer {
    /// A call that was made.
    pub fn made(outcome: Result<u64, StoreFault>, log: u64) -> Answer
        ensures state { result.state ≡ 0 }
        ensures log { result.log ≡ log }
        ensures refusal { result.refusal ≡ refusal_of outcome }
        ensures detail { result.detail ≡ detail_of outcome }
        ensures value { Values outcome result.value }
    {
        let (refusal, detail, value) = match outcome {
            Ok(value) => (0, 0, value),
            Err(fault) => (u32::from(fault.number()), detail_of(fault), 0),
        };
        Answer {
            state: MADE,
            refusal,
            detail,
            value,
            log,
            at: 0,
            count: 0,
        }
    }

    /// A call that needs bytes of the file, or a longer log, before it can be made.
    pub fn needs(state: u32, wanted: Wanted) -> Answer
        ensures state { result.state ≡ state }
        ensures at { result.at ≡ wanted.at }
        ensures count { result.count ≡ wanted.count }
    {
        Answer {
            state,
            refusal: 0,
            detail: 0,
            value: 0,
            log: 0,
            at: wanted.at,
            count: wanted.count,
        }
    }
}

// What a refusal names.
fn detail_of(fault: StoreFault) -> u64
    ensures { result ≡ named_by fault }
{
    match fault {
        StoreFault::Disk(DiskFault::Read) => 1,
        StoreFault::Disk(DiskFault::Write) => 2,
        StoreFault::Disk(DiskFault::Sync) => 3,
        StoreFault::Damaged(damage) => u64::from(damage.number()),
        StoreFault::ClipNotHeld(number) => number,
        _ => 0,
    }
}

impl Head {
    /// The head of a stored frame.
    pub fn of(head: FrameHead) -> Head
        ensures { result ≡ shown_head head }
    {
        Head {
            number: head.number,
            timestamp: head.timestamp,
            sequence: head.sequence,
            flags: head.flags,
        }
    }
}

impl Run {
    /// A clip.
    pub fn of_clip(clip: Clip) -> Run
        ensures { result ≡ clip_run clip }
    {
        Run {
            id: u64::from(clip.id),
            from: clip.from,
            to: clip.to,
            tag: clip.tag,
        }
    }

    /// A run of numbers.
    pub fn of_span(span: Span) -> Run
        ensures { result ≡ span_run span }
    {
        Run {
            id: 0,
            from: span.from,
            to: span.to,
            tag: 0,
        }
    }
}

impl Shape {
    /// The shape of a store with this geometry, in this version of the layout.
    pub fn of(geometry: Geometry, version: u32) -> Shape
        ensures { result ≡ shown_shape geometry version }
    {
        Shape {
            width: geometry.width,
            height: geometry.height,
            format: match geometry.format {
                PixelFormat::Grey => 0,
                PixelFormat::Ym12 => 1,
                PixelFormat::Ym16 => 2,
                PixelFormat::Ym24 => 3,
            },
            rate_num: geometry.rate_num,
            rate_den: geometry.rate_den,
            segments: geometry.segments,
            slots: geometry.slots,
            version,
        }
    }

    /// The geometry, where the format is one.
    pub fn geometry(&self) -> Option<Geometry>
        ensures { result ≡ shaped self.now }
    {
        let format = match self.format {
            0 => PixelFormat::Grey,
            1 => PixelFormat::Ym12,
            2 => PixelFormat::Ym16,
            3 => PixelFormat::Ym24,
            _ => return None,
        };
        Some(Geometry {
            width: self.width,
            height: self.height,
            format,
            rate_num: self.rate_num,
            rate_den: self.rate_den,
            segments: self.segments,
            slots: self.slots,
        })
    }
}

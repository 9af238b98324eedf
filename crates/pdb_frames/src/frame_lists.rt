//! The records of the streams of frame data.

ghost use Rattle.std.specs.Prelude.{◌≡◌, ◌/◌, ◌*◌, ◌<◌, length, nat_lt};
ghost use Rattle.std.specs.Option.{SomeIff};
ghost use Rattle.pdb_frames.specs.Frames.{fpo_at, frame_data_at};

use crate::frame_data::{FrameData, fpo_data, frame_data};

/// The records of the newer stream of frame data, `FRAMEDATA`: each whole 32 bytes. They are read when they are asked for.
///
/// ```text
/// let records = FrameDataRecords::new(stream);
/// for k in 0..records.len() {
///     let frame = records.get(k)?;
///     // frame.code_start, frame.program
/// }
/// ```
#[derive(Clone, Copy, Debug)]
pub struct FrameDataRecords<'f> {
    bytes: &'f [u8],
}

impl<'f> FrameDataRecords<'f> {
    ghost use Rattle.pdb_frames.specs.FrameViews.{frame_bytes};

    /// The records of a stream.
    pub fn new(bytes: &'f [u8]) -> Self
        ensures { frame_bytes result ≡ bytes.entry.now }
    {
        FrameDataRecords { bytes }
    }

    /// How many records there are.
    pub fn len(&self) -> usize
        ensures { result ≡ length (frame_bytes self.now) / 32 }
    {
        self.bytes.len() / 32
    }

    /// Whether there is no record.
    pub fn is_empty(&self) -> bool
        ensures { result ≡ nat_lt (length (frame_bytes self.now)) 32 }
    {
        self.bytes.len() < 32
    }

    /// The record of a number, counted from 0; none where there are fewer.
    pub fn get(&self, k: usize) -> Option<FrameData>
        ensures { SomeIff result (k < length (frame_bytes self.now) / 32) (frame_data_at (frame_bytes self.now) k) }
    {
        if k >= self.len() {
            return None;
        }
        Some(frame_data(&self.bytes[32 * k..]))
    }
}

/// The records of the older stream of frame data, `FPO_DATA`: each whole 16 bytes. They are read when they are asked for.
#[derive(Clone, Copy, Debug)]
pub struct FpoRecords<'f> {
    bytes: &'f [u8],
}

impl<'f> FpoRecords<'f> {
    ghost use Rattle.pdb_frames.specs.FrameViews.{fpo_bytes};

    /// The records of a stream.
    pub fn new(bytes: &'f [u8]) -> Self
        ensures { fpo_bytes result ≡ bytes.entry.now }
    {
        FpoRecords { bytes }
    }

    /// How many records there are.
    pub fn len(&self) -> usize
        ensures { result ≡ length (fpo_bytes self.now) / 16 }
    {
        self.bytes.len() / 16
    }

    /// Whether there is no record.
    pub fn is_empty(&self) -> bool
        ensures { result ≡ nat_lt (length (fpo_bytes self.now)) 16 }
    {
        self.bytes.len() < 16
    }

    /// The record of a number, counted from 0; none where there are fewer.
    pub fn get(&self, k: usize) -> Option<FrameData>
        ensures { SomeIff result (k < length (fpo_bytes self.now) / 16) (fpo_at (fpo_bytes self.now) k) }
    {
        if k >= self.len() {
            return None;
        }
        Some(fpo_data(&self.bytes[16 * k..]))
    }
}

//! How functions lay out their frames: the records of the streams of frame data, by which debuggers of 32-bit programs
//! walk stacks.
#![tactic(auto)]

mod frame_data;
mod frame_lists;

pub use frame_data::{FrameData, FrameType};
pub use frame_lists::{FpoRecords, FrameDataRecords};

//! Pieces of a stream, and the frames that are handed out behind each.
use crate::vectors::refused;
use crate::words::{bytes_of, number_of, push_digits};
use std::alloc::{AllocError, Global};
use std::fmt::Write;
use wire_bytes::{Deframer, FrameError, frame_of};

/// Longest row of pieces and of frames.
const MANY: usize = 100;

/// Most zeros of a row.
const MOST: u32 = 0x100_0000;

// A refusal, for which is asked again.
fn push_refusal(
    said: &mut String,
    frames: &mut Deframer,
    refusal: FrameError,
) -> Result<(), AllocError> {
    write!(said, "{refusal:?}, ")?;
    match frames.next() {
        Err(again) => refused(said, &again),
        Ok(_) => said.push_str("no refusal"),
    }
}

fn push_piece(said: &mut String, bytes: &[u8]) -> Result<(), AllocError> {
    if bytes.is_empty() {
        return said.push_str("empty, ");
    }
    push_digits(said, bytes)?;
    said.push_str(", ")
}

// The next frame, and whether more may be handed out.
fn push_next(said: &mut String, frames: &mut Deframer) -> Result<bool, AllocError> {
    let (told, more) = match frames.next() {
        Ok(Some(frame)) => (push_piece(said, frame.bytes.as_slice()), true),
        Ok(None) => (said.push_str("None"), false),
        Err(refusal) => (push_refusal(said, frames, refusal), false),
    };
    told?;
    Ok(more)
}

// What `next` answers until it hands out nothing.
fn push_frames(said: &mut String, frames: &mut Deframer) -> Result<(), AllocError> {
    for _ in 0..MANY {
        if !push_next(said, frames)? {
            break;
        }
    }
    Ok(())
}

// What is handed out behind a piece.
fn feed(
    said: &mut String,
    alloc: Global,
    frames: &mut Deframer,
    piece: &str,
) -> Result<(), AllocError> {
    frames.feed(&bytes_of(alloc, piece)?)?;
    push_frames(said, frames)
}

fn push_pieces(
    said: &mut String,
    alloc: Global,
    frames: &mut Deframer,
    pieces: &[&str],
) -> Result<(), AllocError> {
    let mut mark = "stream: ";
    for piece in pieces {
        said.push_str(mark)?;
        feed(said, alloc, frames, piece)?;
        mark = "; ";
    }
    Ok(())
}

/// The pieces of a row, fed one after the other.
pub fn answers(said: &mut String, alloc: Global, words: &[&str]) -> Result<(), AllocError> {
    let mut frames = Deframer::new(alloc);
    push_pieces(said, alloc, &mut frames, words.get(1..).unwrap_or(&[]))
}

// The first bytes of a frame, and how many are behind them.
fn push_front(said: &mut String, frame: &[u8]) -> Result<(), AllocError> {
    match frame.split_at_checked(4) {
        Some((front, rest)) => {
            push_digits(said, front)?;
            write!(said, " and {} bytes", rest.len())
        }
        None => said.push_str("no frame"),
    }
}

/// The first bytes of the frame of so many zeros, and how many are behind them.
pub fn zeros(said: &mut String, alloc: Global, count: &str) -> Result<(), AllocError> {
    said.push_str("zeros: ")?;
    let message = vec![in alloc; 0u8; number_of(count).min(MOST) as usize]?;
    match frame_of(alloc, &message) {
        Ok(frame) => push_front(said, frame.as_slice()),
        Err(refusal) => refused(said, &refusal),
    }
}

/// The frame of a message.
pub fn framed(said: &mut String, alloc: Global, digits: &str) -> Result<(), AllocError> {
    said.push_str("frame: ")?;
    let message = bytes_of(alloc, digits)?;
    match frame_of(alloc, &message) {
        Ok(bytes) => push_digits(said, bytes.as_slice()),
        Err(refusal) => refused(said, &refusal),
    }
}

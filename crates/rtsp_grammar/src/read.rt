//! Reading the item at the front of the input.

ghost use Rattle.std.specs.Prelude.{◌≡◌, ◌<◌, ◌≤◌, ◌⊎◌, length, take, drop, IfOk, IfErr, IfSome, IfNone, ℕ, Result};
ghost use Rattle.rtsp_grammar.specs.Answer.{HasFault, IsUndecided, Decides, Answers, FindsNothing};
ghost use Rattle.rtsp_grammar.specs.Frame.{BeginsFrame};
ghost use Rattle.rtsp_grammar.specs.Scan.{IsFront};
ghost use Rattle.rtsp_grammar.specs.Item.{IsBlank, HasBlank, Spells};
ghost use Rattle.rtsp_grammar.specs.declared.message.Item.{Item};
ghost use Rattle.rtsp_grammar.specs.declared.fault.MessageFault.{MessageFault};
ghost use Rattle.rtsp_grammar.specs.declared.fault.MessageFault.TheVariants.{OutOfMemory};

use crate::fault::MessageFault;
use crate::frame::{frame_len, read_frame};
use crate::head::head_of;
use crate::head_at::{HeadAt, head_at};
use crate::message::Item;
use rtsp_text::Text;
use std::alloc::Global;

/// The bytes that a head may have, with the empty lines before it.
pub const HEAD_LIMIT: usize = 8192;

// How many bytes of empty lines there are at the front.
fn blank_len(bytes: &[u8]) -> usize
    ensures { HasBlank bytes.now result }
{
    let mut at = 0;
    'blank: while bytes.len() - at >= 2 && bytes[at] == b'\r' && bytes[at + 1] == b'\n' {
        at += 2;
    }
    at
}

// The bytes within which a head has to end.
fn head_window(bytes: &[u8]) -> &[u8]
    ensures { result.now ≡ take 8192 bytes.now }
{
    if bytes.len() < HEAD_LIMIT {
        return bytes;
    }
    &bytes[..HEAD_LIMIT]
}

/// What stands at the front of the input.
pub enum Front {
    /// An item, in this many bytes.
    Item { item: Item, len: usize },
    /// A head whose end hasn't come, or less.
    OpenHead,
    /// A part of a message whose head is whole, or of a frame: the item isn't whole in fewer than
    /// `whole` bytes.
    Short { whole: usize },
}

// The frame after this many bytes of empty lines.
fn frame_front(alloc: Global, bytes: &[u8], blank: usize) -> Result<Front, MessageFault>
    requires front { IsBlank bytes.now blank }
    requires few { blank < 8192 }
    requires frame { BeginsFrame (drop blank bytes.now) }
    ensures front { IfOk result (IsFront bytes.now) }
    ensures fault { IfErr result (λ f. f ≡ OutOfMemory) }
{
    let (_, frame) = bytes.split_at(blank);
    match read_frame(alloc, frame)? {
        Some((frame, len)) => Ok(Front::Item {
            item: Item::Frame(frame),
            len: blank + len,
        }),
        None => Ok(Front::Short {
            whole: blank + frame_len(frame),
        }),
    }
}

// The message after this many bytes of empty lines; `message` is the window after them.
fn message_front(
    alloc: Global,
    bytes: &[u8],
    blank: usize,
    message: &[u8],
) -> Result<Front, MessageFault>
    requires front { HasBlank (take 8192 bytes.now) blank }
    requires message { message.now ≡ drop blank (take 8192 bytes.now) }
    requires no_frame { ¬ BeginsFrame message.now }
    ensures front { IfOk result (IsFront bytes.now) }
    ensures fault { IfErr result (λ f. (f ≡ OutOfMemory) ⊎ HasFault bytes.now f) }
{
    match head_at(message) {
        HeadAt::Broken => Err(MessageFault::BadLine),
        HeadAt::Open => {
            if bytes.len() >= HEAD_LIMIT {
                return Err(MessageFault::HeadTooLong);
            }
            Ok(Front::OpenHead)
        }
        HeadAt::Ended { head, len } => {
            let (head, announced) = head_of(alloc, head)?;
            let (_, rest) = bytes.split_at(blank + len);
            let whole = blank + len + announced;
            if rest.len() < announced {
                return Ok(Front::Short { whole });
            }
            let body = Text::from_slice(alloc, &rest[..announced])?;
            Ok(Front::Item {
                item: head.with_body(body),
                len: whole,
            })
        }
    }
}

/// What stands at the front of the input, with what is known of an item that isn't whole.
pub fn front_of(alloc: Global, bytes: &[u8]) -> Result<Front, MessageFault>
    ensures front { IfOk result (IsFront bytes.now) }
    ensures fault { IfErr result (λ f. (f ≡ OutOfMemory) ⊎ HasFault bytes.now f) }
{
    let window = head_window(bytes);
    let blank = blank_len(window);
    let (_, message) = window.split_at(blank);
    if !message.is_empty() && message[0] == b'$' {
        return frame_front(alloc, bytes, blank);
    }
    message_front(alloc, bytes, blank, message)
}

fn item_at(alloc: Global, bytes: &[u8]) -> Result<Option<(Item, usize)>, MessageFault>
    ensures length { IfOk result (λ found. IfSome found (λ x. x.1 ≤ length bytes.now)) }
    ensures item { IfOk result (λ found. IfSome found (λ x. Spells (take x.1 bytes.now) x.0)) }
    ensures none { IfOk result (λ found. IfNone found (IsUndecided bytes.now)) }
    ensures fault { IfErr result (λ f. (f ≡ OutOfMemory) ⊎ HasFault bytes.now f) }
{
    match front_of(alloc, bytes)? {
        Front::Item { item, len } => Ok(Some((item, len))),
        Front::OpenHead | Front::Short { whole: _ } => Ok(None),
    }
}

/// Reads the item at the front of the bytes, and how many of them it takes.
///
/// None: more bytes are needed. Any other answer is that of each longer input too, unless memory
/// runs out. A fault is that of the first rule that the bytes break: line ends, the head's length,
/// the first line, folds, headers, the body's length. It takes memory for the URI or the reason, for
/// the headers (twice), for a header line with folds, for the body or the payload where there is one,
/// and for a method or a version that isn't known.
pub fn read_item(alloc: Global, bytes: &[u8]) -> Result<Option<(Item, usize)>, MessageFault>
    // The first bytes spell the item.
    ensures length { IfOk result (λ found. IfSome found (λ x. x.1 ≤ length bytes.now)) }
    ensures item { IfOk result (λ found. IfSome found (λ x. Spells (take x.1 bytes.now) x.0)) }
    // A longer text is needed to decide.
    ensures none { IfOk result (λ found. IfNone found (IsUndecided bytes.now)) }
    ensures fault { IfErr result (λ f. (f ≡ OutOfMemory) ⊎ HasFault bytes.now f) }
    // Where the text has an answer it is given, and where it is undecided nothing is found.
    ensures only { (a : Result (Item × ℕ) MessageFault) → Decides bytes.now a → Answers result a }
    ensures open { IsUndecided bytes.now → FindsNothing result }
{
    item_at(alloc, bytes)
}

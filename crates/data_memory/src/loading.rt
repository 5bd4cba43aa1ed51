// The bytes that an image and a number of harts begin with.
ghost use Rattle.std.specs.Prelude.{◌≡◌, ◌<◌, ◌≤◌, OnOk, None};
ghost use Rattle.data_memory.specs.Paged.{Holds};
ghost use Rattle.data_memory.specs.Start.{data_byte, image_byte, stack_top, start_byte};

use crate::access::Access;
use crate::filling::{fill, fill_data};
use crate::frames::Frames;
use crate::page_table::PageTable;
use elf32_read::Image;
use std::alloc::AllocError;

/// The flag of a segment that may be written (gABI, `PF_W`).
const WRITABLE: u32 = 2;

/// The stack pointer of hart 0, and how far apart the harts' stacks are.
const STACK_TOP: u32 = 0xF000_0000;

const STACK_STEP: u32 = 0x0002_0000;

const STACK_SIZE: u32 = 0x0001_0000;

/// The address above a hart's stack.
pub fn stack_top(hart: u32) -> u32
    requires { hart < 16 }
    ensures { result ≡ stack_top hart }
{
    STACK_TOP - hart * STACK_STEP
}

/// Puts the segments; of two at one address the first stays.
fn load_segments(
    pages: &mut PageTable,
    frames: &mut Frames,
    image: &Image,
) -> Result<(), AllocError>
    requires { Holds pages.old frames.old (λ q. None) }
    ensures { OnOk result (Holds pages.new frames.new (data_byte image.now.segments)) }
{
    let mut k = image.segment_count();
    while k > 0 {
        k -= 1;
        let segment = image.segment(k);
        let is_writable = segment.flags & WRITABLE == WRITABLE;
        fill_data(
            pages,
            frames,
            segment.address,
            u64::from(segment.size),
            segment.bytes,
            is_writable,
        )?;
    }
    Ok(())
}

/// Takes the bytes of the text away.
fn hide_text(pages: &mut PageTable, frames: &mut Frames, image: &Image) -> Result<(), AllocError>
    requires { Holds pages.old frames.old (data_byte image.now.segments) }
    ensures { OnOk result (Holds pages.new frames.new (image_byte image.now)) }
{
    let mut k = image.text_count();
    while k > 0 {
        k -= 1;
        let text = image.text(k);
        let size = text.bytes.len() as u64 / 4 * 4;
        fill(pages, frames, text.address, size, Access::Absent)?;
    }
    Ok(())
}

/// Puts the stacks of the first harts.
fn add_stacks(
    pages: &mut PageTable,
    frames: &mut Frames,
    image: &Image,
    harts: u32,
) -> Result<(), AllocError>
    requires few { harts ≤ 16 }
    requires data { Holds pages.old frames.old (image_byte image.now) }
    ensures { OnOk result (Holds pages.new frames.new (start_byte image.now harts)) }
{
    for hart in 0..harts {
        let bottom = stack_top(hart) - STACK_SIZE;
        fill(
            pages,
            frames,
            bottom,
            u64::from(STACK_SIZE),
            Access::Writable,
        )?;
    }
    Ok(())
}

/// Puts the data of the image and the stacks of the first harts.
pub fn begin(
    pages: &mut PageTable,
    frames: &mut Frames,
    image: &Image,
    harts: u32,
) -> Result<(), AllocError>
    requires few { harts ≤ 16 }
    requires none { Holds pages.old frames.old (λ q. None) }
    ensures { OnOk result (Holds pages.new frames.new (start_byte image.now harts)) }
{
    load_segments(pages, frames, image)?;
    hide_text(pages, frames, image)?;
    add_stacks(pages, frames, image, harts)
}

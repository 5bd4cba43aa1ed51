// What an image shows.
use elf32_read::{Image, TextSpans};
use std::alloc::Global;
use test_rows::Piece::{Count, Hex, Maybe, Number, Text, Whether};
use test_rows::{RowFault, number_at, push_told, shown, told};

/// Whether a row asks of the image.
pub fn asks(word: &str) -> bool {
    matches!(
        word,
        "entry" | "place" | "segments" | "texts" | "sections" | "size" | "bytes" | "last"
    )
}

// The word of text there, whether text is there by both look-ups, the byte that is loaded there, and whether it may be stored.
fn told_place(alloc: Global, image: &Image, address: u32) -> Result<String, RowFault> {
    let spans = image.text_spans(alloc)?;
    told(
        alloc,
        &[
            Maybe(image.text_word(address)),
            Text(" "),
            Whether(image.in_text(address)),
            Text(" "),
            Whether(spans.contains(address)),
            Text(" "),
            Maybe(image.mapped(address).map(u32::from)),
            Text(" "),
            Whether(image.writable(address)),
        ],
    )
}

fn push_segments(alloc: Global, image: &Image, into: &mut String) -> Result<(), RowFault> {
    for k in 0..image.segment_count() {
        let s = image.segment(k);
        push_told(
            alloc,
            into,
            &[
                Hex(s.address),
                Text(" "),
                Number(s.size),
                Text(" "),
                Number(s.flags),
                Text(" "),
                Count(s.bytes.len() as u64),
                Text("; "),
            ],
        )?;
    }
    Ok(())
}

fn push_text(
    alloc: Global,
    (address, size): (u32, u64),
    end: &str,
    into: &mut String,
) -> Result<(), RowFault> {
    push_told(
        alloc,
        into,
        &[
            Hex(address),
            Text(" "),
            Count(size),
            Text(" "),
            Text(end),
            Text("; "),
        ],
    )
}

// The address, the size and the end of each section of text.
fn push_spans(
    alloc: Global,
    image: &Image,
    spans: &TextSpans,
    into: &mut String,
) -> Result<(), RowFault> {
    for k in 0..image.text_count() {
        let s = image.text(k);
        let end = shown(alloc, &spans.end_at(s.address))?;
        push_text(alloc, (s.address, s.bytes.len() as u64), end.as_str(), into)?;
    }
    Ok(())
}

fn push_texts(alloc: Global, image: &Image, into: &mut String) -> Result<(), RowFault> {
    let spans = image.text_spans(alloc)?;
    push_spans(alloc, image, &spans, into)
}

fn push_sections(alloc: Global, image: &Image, into: &mut String) -> Result<(), RowFault> {
    for k in 0..image.section_count() {
        let s = image.section_at(k);
        push_told(
            alloc,
            into,
            &[
                Hex(s.kind),
                Text(" "),
                Number(s.flags),
                Text(" "),
                Hex(s.address),
                Text(" "),
                Number(s.link),
                Text(" "),
                Count(s.bytes.len() as u64),
                Text("; "),
            ],
        )?;
    }
    Ok(())
}

// What is told of each of several.
fn told_each(alloc: Global, image: &Image, word: &str) -> Result<String, RowFault> {
    let mut text = String::new(alloc);
    match word {
        "segments" => push_segments(alloc, image, &mut text)?,
        "texts" => push_texts(alloc, image, &mut text)?,
        _ => push_sections(alloc, image, &mut text)?,
    }
    Ok(text)
}

// The bytes of the last segment.
fn last_bytes(image: &Image) -> Option<&[u8]> {
    match image.segment_count() {
        0 => None,
        count => Some(image.segment(count - 1).bytes),
    }
}

// How many bytes there are, or which.
fn told_bytes(alloc: Global, word: &str, bytes: Option<&[u8]>) -> Result<String, RowFault> {
    match bytes {
        Some(bytes) if word == "size" => told(alloc, &[Count(bytes.len() as u64)]),
        Some(bytes) => Ok(hex::encode(alloc, bytes)?),
        None => told(alloc, &[Text("none")]),
    }
}

/// What came of a row: `entry`, `place ADDRESS`, `segments` with their addresses, sizes, flags and sizes in the file, `texts`,
/// `sections` with their types, flags, addresses, links and sizes in the file, `size NAME` or `bytes NAME` of a section, or
/// `last`.
pub fn answer(alloc: Global, image: &Image, word: &str, rest: &str) -> Result<String, RowFault> {
    match word {
        "entry" => told(alloc, &[Hex(image.entry())]),
        "place" => told_place(alloc, image, number_at(rest, 0)),
        "segments" | "texts" | "sections" => told_each(alloc, image, word),
        "last" => told_bytes(alloc, word, last_bytes(image)),
        _ => told_bytes(alloc, word, image.section(rest.as_bytes())),
    }
}

//! The boxes of all texts, bars and arrows on an SVG page, which has one element a line.
use crate::pen::{Pen, Place};
use std::alloc::{AllocError, Global};
use unicode_width::UnicodeWidthChar;

/// The width of a character, and how far a text extends above and below its baseline.
const COLUMN: u64 = 7;

const UP: u64 = 9;

const DOWN: u64 = 3;

/// Returns what is between these words and the next quote.
fn attribute<'a>(mark: &'a str, words: &str) -> Option<&'a str> {
    let (_, after) = mark.split_once(words)?;
    let (value, _) = after.split_once('"')?;
    Some(value)
}

/// Returns the number after these words.
fn number(mark: &str, words: &str) -> Option<u64> {
    match attribute(mark, words)?.parse::<u64>() {
        Ok(number) => Some(number),
        Err(_) => None,
    }
}

/// Returns the width of a text in characters, counting an escape such as `&lt;` as one.
fn columns(text: &str) -> u64 {
    let mut columns: u64 = 0;
    let mut is_within = false;
    for letter in text.chars() {
        let more = match letter {
            '&' => {
                is_within = true;
                1
            }
            ';' if is_within => {
                is_within = false;
                0
            }
            _ if is_within => 0,
            _ => letter.width().unwrap_or(0) as u64,
        };
        columns = columns.saturating_add(more);
    }
    columns
}

/// The box of a text.
fn text_place(mark: &str) -> Option<Place> {
    let class = attribute(mark, " class=\"")?;
    let x = number(mark, " x=\"")?;
    let y = number(mark, " y=\"")?;
    let (_, after) = mark.split_once('>')?;
    let (text, _) = after.split_once('<')?;
    let width = columns(text).saturating_mul(COLUMN);
    let left = match class {
        "label" | "head-text" | "head-more" => x.saturating_sub(width / 2),
        "number" => x.saturating_sub(width),
        _ => x,
    };
    Some(Place {
        left,
        right: left.saturating_add(width),
        top: y.saturating_sub(UP),
        bottom: y.saturating_add(DOWN),
    })
}

/// The box of a bar; None for any other box.
fn bar_place(mark: &str) -> Option<Place> {
    let class = attribute(mark, " class=\"")?;
    if !matches!(class, "run" | "ready" | "wait" | "idle" | "bare") {
        return None;
    }
    let left = number(mark, " x=\"")?;
    let top = number(mark, " y=\"")?;
    Some(Place {
        left,
        right: left.saturating_add(number(mark, " width=\"")?),
        top,
        bottom: top.saturating_add(number(mark, " height=\"")?),
    })
}

/// The boxes of a page: of its texts, and of its bars and arrows.
#[derive(Drop)]
struct Places {
    texts: Vec<Place>,
    marks: Vec<Place>,
}

impl Places {
    /// Takes a line of the page.
    fn take(&mut self, line: &str) -> Result<(), AllocError> {
        if let Some((_, mark)) = line.split_once("<text") {
            if let Some(place) = text_place(mark) {
                self.texts.push(place)?;
            }
        }
        if let Some((_, mark)) = line.split_once("<rect") {
            if let Some(place) = bar_place(mark) {
                self.marks.push(place)?;
            }
        }
        if let Some((_, mark)) = line.split_once("<path class=\"arrow ") {
            if let Some(path) = attribute(mark, " d=\"") {
                Pen::new().follow(&mut self.marks, path)?;
            }
        }
        Ok(())
    }

    /// Returns whether a text touches no bar, no arrow, and none of the texts after it.
    fn stands_clear(&self, at: usize, place: Place) -> bool {
        self.marks.iter().all(|mark| !place.is_on(*mark))
            && self
                .texts
                .iter()
                .skip(at.saturating_add(1))
                .all(|text| !place.is_on(*text))
    }
}

/// Returns whether a page has texts, and none of them touches another, a bar or an arrow.
pub fn is_clear(alloc: Global, page: &str) -> Result<bool, AllocError> {
    let mut places = Places {
        texts: Vec::new(alloc),
        marks: Vec::new(alloc),
    };
    for line in page.lines() {
        places.take(line)?;
    }
    for (at, place) in places.texts.iter().enumerate() {
        if !places.stands_clear(at, *place) {
            return Ok(false);
        }
    }
    Ok(!places.texts.is_empty())
}

// The picture of a histogram. No clause says what it is: scripts hold it.

use crate::drawn::{STYLE, TAIL};
use crate::filled::write_filled;
use crate::{Bins, Tallied};
use std::io::{Result, Write};
use texts::{write_number, write_text};

/// What a histogram shows: the values of a word in messages that were handled before a time.
#[derive(Clone, Copy)]
pub struct Histogram<'a> {
    /// The name of the sort of these messages; empty if they have none.
    pub sort: &'a str,
    /// The name of the word.
    pub word: &'a str,
    /// The time in ticks.
    pub time: u64,
    /// The figures of the values, if there are any.
    pub tallied: Option<&'a Tallied>,
    /// How many are in each bin.
    pub bins: Option<&'a Bins>,
    /// Whether the counts of the bins and the percentiles are exact.
    pub is_exact: bool,
}

const HEAD: &str = "\
<svg xmlns=\"http://www.w3.org/2000/svg\" viewBox=\"0 0 1000 420\" width=\"1000\" height=\"420\" role=\"img\">
<title>Histogram of ";

const CAPTION: &str = "<text x=\"60\" y=\"24\">";

const FIGURES: &str = "</text>\n<text x=\"60\" y=\"44\">";

const ROUNDED: &str = "\
<text x=\"60\" y=\"64\">more than 65536 values: each counts as the greatest of its class of relative width 1/128</text>
";

// A number replaces each `$`.
const BAR: &str = "\
<rect class=\"load\" x=\"$\" y=\"$\" width=\"$\" height=\"$\"><title>$ to $: $</title></rect>
";

const LABEL: &str = "\
<line class=\"row\" x1=\"$\" y1=\"360\" x2=\"$\" y2=\"366\"/><text x=\"$\" y=\"380\" text-anchor=\"middle\">$</text>
";

const AXES: &str = "\
<line class=\"row\" x1=\"60\" y1=\"360\" x2=\"960\" y2=\"360\"/>
<text x=\"52\" y=\"364\" text-anchor=\"end\">0</text><text x=\"52\" y=\"84\" text-anchor=\"end\">$</text>
<text x=\"-220\" y=\"10\" transform=\"rotate(-90)\" text-anchor=\"middle\">messages</text>
<text x=\"960\" y=\"410\" text-anchor=\"end\">";

/// Writes a histogram as a stand-alone SVG: a bar for each bin, an axis with the least values of
/// some bins and the one after the last bin, and a caption with the figures of the values, which say
/// if they are not exact.
///
/// If the writer fails, its error is returned, and it has taken a beginning of the text.
pub fn write_histogram<W: Write>(histogram: &Histogram<'_>, out: &mut W) -> Result<()> {
    write_text(HEAD, out)?;
    write_title(histogram, out)?;
    write_text("</title>\n", out)?;
    write_text(STYLE, out)?;
    write_text(CAPTION, out)?;
    write_title(histogram, out)?;
    write_text(FIGURES, out)?;
    write_figures(histogram.tallied, out)?;
    write_text("</text>\n", out)?;
    if !histogram.is_exact {
        write_text(ROUNDED, out)?;
    }
    if let Some(bins) = histogram.bins {
        write_bins(bins, histogram.word, out)?;
    }
    write_text(TAIL, out)
}

/// Writes which word it is, of which messages.
fn write_title<W: Write>(histogram: &Histogram<'_>, out: &mut W) -> Result<()> {
    write_escaped(histogram.word, out)?;
    if !histogram.sort.is_empty() {
        write_text(" of ", out)?;
        write_escaped(histogram.sort, out)?;
    }
    write_number(
        " in messages handled before virtual time ",
        histogram.time,
        out,
    )
}

/// Writes figures with the names that tables have for them.
fn write_figures<W: Write>(tallied: Option<&Tallied>, out: &mut W) -> Result<()> {
    let Some(figures) = tallied else {
        return write_text("count 0", out);
    };
    write_number("count ", figures.count, out)?;
    write!(out, " mean {}", figures.mean)?;
    if let Some(deviation) = figures.deviation {
        write!(out, " deviation {deviation}")?;
    }
    write_number(" least ", figures.least, out)?;
    write_number(" most ", figures.most, out)?;
    let [half, ninety, ninety_five, ninety_nine] = figures.percentiles;
    write_number(" p50 ", half, out)?;
    write_number(" p90 ", ninety, out)?;
    write_number(" p95 ", ninety_five, out)?;
    write_number(" p99 ", ninety_nine, out)
}

/// Writes the bars and the axes.
fn write_bins<W: Write>(bins: &Bins, word: &str, out: &mut W) -> Result<()> {
    let mut most = 1u64;
    for count in bins.counts.as_slice() {
        most = most.max(*count);
    }
    for (bin, count) in bins.counts.iter().enumerate() {
        write_bar(bins, bin as u64, *count, most, out)?;
    }
    write_filled(AXES, &[most], out)?;
    write_escaped(word, out)?;
    write_text("</text>\n", out)?;
    write_labels(bins, out)
}

/// Writes the bar of a bin, where the fullest one has `most` values.
fn write_bar<W: Write>(bins: &Bins, bin: u64, count: u64, most: u64, out: &mut W) -> Result<()> {
    let (left, right) = (edge(bins, bin), edge(bins, bin.saturating_add(1)));
    let height = (280 * u128::from(count) / u128::from(most.max(1))).min(280) as u64;
    let first = bound(bins, bin);
    let last = first.saturating_add(bins.width.saturating_sub(1));
    let width = right.saturating_sub(left).saturating_sub(1).max(1);
    let numbers = [left, 360 - height, width, height, first, last, count];
    write_filled(BAR, &numbers, out)
}

/// Writes the least value of at most ten bins, and the value after the last bin.
fn write_labels<W: Write>(bins: &Bins, out: &mut W) -> Result<()> {
    let count = bins.counts.as_slice().len() as u64;
    let step = count.saturating_add(9) / 10;
    for place in 0..10 {
        let bin = step.saturating_mul(place);
        if bin < count {
            write_label(bins, bin, out)?;
        }
    }
    write_label(bins, count, out)
}

/// Writes the least value of a bin at its left edge.
fn write_label<W: Write>(bins: &Bins, bin: u64, out: &mut W) -> Result<()> {
    let x = edge(bins, bin);
    write_filled(LABEL, &[x, x, x, bound(bins, bin)], out)
}

/// Returns the x coordinate of the left edge of a bin.
fn edge(bins: &Bins, bin: u64) -> u64 {
    let count = bins.counts.as_slice().len().max(1) as u64;
    60 + bin.min(50) * 900 / count
}

/// Returns the least value of a bin, or the greatest number if that is less.
fn bound(bins: &Bins, bin: u64) -> u64 {
    bins.least.saturating_add(bins.width.saturating_mul(bin))
}

/// Writes a text as content of an element.
fn write_escaped<W: Write>(text: &str, out: &mut W) -> Result<()> {
    for letter in text.chars() {
        match letter {
            '&' => write_text("&amp;", out)?,
            '<' => write_text("&lt;", out)?,
            '>' => write_text("&gt;", out)?,
            _ => write!(out, "{letter}")?,
        }
    }
    Ok(())
}

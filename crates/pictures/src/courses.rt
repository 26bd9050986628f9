// The course of a run, round by round, as a drawing.

ghost use Rattle.std.specs.List.{filter};
ghost use Rattle.std.specs.Prelude.{◌≡◌, ◌≤◌, ◌<◌, ◌+◌, ◌-◌, ◌*◌, ◌/◌, ◌^◌, ◌++◌, ◌&&◌, ◌==◌, ℕ};
ghost use Rattle.std.specs.Prelude.{flat_map, length, not};
ghost use Rattle.eventkey.specs.Writing.{Writes};
ghost use Rattle.model.specs.World.{below};
ghost use Rattle.pictures.specs.Course.{at_first, capped, column_of, column_start, column_text};
ghost use Rattle.pictures.specs.Course.{bar_text, bar_within, bars_of, bars_text, column_bar};
ghost use Rattle.pictures.specs.Course.{column_left, column_width, slice_text, standing_on};
ghost use Rattle.pictures.specs.Course.{columns_text, committing, course_text, efficiency_of};
ghost use Rattle.pictures.specs.Course.{events_before, foot_text, is_between as is_within};
ghost use Rattle.pictures.specs.Course.{last_round as last_of, least_round as least_of};
ghost use Rattle.pictures.specs.Course.{most_antimessages as most_of, picture_text, pixels_of};
ghost use Rattle.pictures.specs.Course.{reached, round_of as round_at, slice_of as slice_from};
ghost use Rattle.pictures.specs.Course.{sum_between, title_text, window_of as window_from};
ghost use Rattle.pictures.specs.declared.turns.Row.{Row};

use crate::drawn::STYLE;
use crate::filled::write_filled;
use crate::turns::Row;
use std::io::{Result, Write};
use texts::write_text;

/// The rounds of a run, and the number of columns that show them.
#[derive(Clone, Copy)]
struct Window {
    first: u64,
    rounds: u64,
    columns: u64,
}

/// The work of a run in a range of its rounds.
#[derive(Clone, Copy)]
struct Slice {
    /// The first round.
    from: u64,
    /// The round after the last.
    to: u64,
    /// GVT at its end, in ticks.
    gvt: u64,
    /// Events committed in it.
    events: u64,
    /// Messages handled in it.
    handled: u64,
    /// Antimessages delivered in it.
    antimessages: u64,
    /// Commits in it.
    commits: u64,
}

/// How far a run had come before a round: GVT in ticks, and events committed.
#[derive(Clone, Copy)]
struct Reached {
    gvt: u64,
    events: u64,
}

/// Messages handled and antimessages delivered in a range of rounds.
#[derive(Clone, Copy)]
struct Work {
    handled: u64,
    antimessages: u64,
}

/// A bar of a column, in pixels.
#[derive(Clone, Copy)]
struct Bar {
    /// Its left edge.
    x: u64,
    /// Its upper edge.
    y: u64,
    width: u64,
    height: u64,
}

/// The bars of a column.
#[derive(Clone, Copy)]
struct Bars {
    /// The whole column: it is seen while a pointer is over it.
    slice: Bar,
    gvt: Bar,
    efficiency: Bar,
    antimessages: Bar,
    commit: Bar,
}

/// The cap of numbers and sums, so that no calculation overflows.
const MOST: u64 = 1 << 56;

// A number replaces each `$`.
const COURSE_HEAD: &str = "\
<svg xmlns=\"http://www.w3.org/2000/svg\" viewBox=\"0 0 1000 520\" width=\"1000\" height=\"520\" role=\"img\">
<title>Course of a run of $ rounds</title>
<style>
.gvt{fill:#0072b2}.efficiency{fill:#009e73}.antimessages{fill:#d55e00}.commit{fill:#cc79a7}
.slice{fill:#999;fill-opacity:0}.slice:hover{fill-opacity:.2}
@media(prefers-color-scheme:dark){.gvt{fill:#56b4e9}.antimessages{fill:#e69f00}}
</style>
";

const TITLE: &str = "\
<g><title>rounds $ to $: GVT $, $ handled, $ events committed, efficiency $ %, $ antimessages, $ commits</title>
";

const BAR_CLASS: &str = "<rect class=\"";

const BAR_EDGES: &str = "\" x=\"$\" y=\"$\" width=\"$\" height=\"$\"/>";

const COURSE_FOOT: &str = "\
<line class=\"row\" x1=\"60\" y1=\"160\" x2=\"960\" y2=\"160\"/><text x=\"60\" y=\"50\">GVT, 0 to $ ticks</text>
<line class=\"row\" x1=\"60\" y1=\"300\" x2=\"960\" y2=\"300\"/>\
<text x=\"60\" y=\"190\">efficiency, 0 to 100 %: events committed of messages handled</text>
<line class=\"row\" x1=\"60\" y1=\"440\" x2=\"960\" y2=\"440\"/>\
<text x=\"60\" y=\"330\">antimessages delivered, 0 to $</text>
<text x=\"2\" y=\"458\">commits</text>
<text x=\"60\" y=\"476\">round $</text><text x=\"960\" y=\"476\" text-anchor=\"end\">round $</text>
<text x=\"60\" y=\"504\">$ rounds, $ rows, $ messages handled, $ events committed, efficiency $ %, \
$ antimessages, $ commits</text>
</svg>
";

/// Writes the course of a run, from the rows of its trace, as a stand-alone SVG.
///
/// It has at most 90 columns, each for a slice of the rounds. A column shows GVT at the end of its
/// slice, the events committed as a percentage of the messages handled, the antimessages delivered,
/// and whether there was a commit. A line of text has the sums. Rounds above 2^32 count as 2^32,
/// and other numbers and sums above 2^56 as 2^56.
///
/// If the writer fails, its error is returned, and it has taken a beginning of the text. The rows
/// are read eight times for each column, and nothing is allocated.
pub fn write_course<W: Write>(rows: &[Row], out: &mut W) -> Result<()>
    ensures { Writes (W.contents out.old) (W.contents out.new) result (course_text rows.now) }
{
    let window = window_of(rows);
    let whole = slice_of(rows, window.first, window.first + window.rounds);
    let most = most_antimessages(rows, &window);
    write_picture(rows, &window, &whole, most, out)
}

fn write_picture<W: Write>(
    rows: &[Row],
    window: &Window,
    whole: &Slice,
    most: u64,
    out: &mut W,
) -> Result<()>
    requires first { window.now.first ≤ 2 ^ 32 }
    requires rounds { window.now.rounds ≤ 2 ^ 32 + 1 }
    requires columns { window.now.columns ≤ 90 }
    requires events { whole.now.events ≤ 2 ^ 56 }
    ensures { Writes (W.contents out.old) (W.contents out.new) result
        (picture_text rows.now window.now whole.now most) }
{
    write_filled(COURSE_HEAD, &[window.rounds], out)?;
    write_text(STYLE, out)?;
    write_columns(rows, window, whole.gvt, most, out)?;
    write_foot(window, most, rows.len() as u64, whole, out)
}

fn write_columns<W: Write>(
    rows: &[Row],
    window: &Window,
    gvt: u64,
    most: u64,
    out: &mut W,
) -> Result<()>
    requires first { window.now.first ≤ 2 ^ 32 }
    requires rounds { window.now.rounds ≤ 2 ^ 32 + 1 }
    requires columns { window.now.columns ≤ 90 }
    ensures { Writes (W.contents out.old) (W.contents out.new) result
        (flat_map (column_text rows.now window.now gvt most) (below window.now.columns)) }
{
    for place in 0..window.columns {
        write_column(rows, window, gvt, most, place, out)?;
    }
    Ok(())
}

fn write_column<W: Write>(
    rows: &[Row],
    window: &Window,
    gvt: u64,
    most: u64,
    place: u64,
    out: &mut W,
) -> Result<()>
    requires first { window.now.first ≤ 2 ^ 32 }
    requires rounds { window.now.rounds ≤ 2 ^ 32 + 1 }
    requires columns { window.now.columns ≤ 90 }
    requires place { place < window.now.columns }
    ensures { Writes (W.contents out.old) (W.contents out.new) result
        (column_text rows.now window.now gvt most place) }
{
    let slice = column(rows, window, place);
    write_slice(window, gvt, most, place, &slice, out)
}

/// Writes the column at a place, which shows this slice.
fn write_slice<W: Write>(
    window: &Window,
    gvt: u64,
    most: u64,
    place: u64,
    slice: &Slice,
    out: &mut W,
) -> Result<()>
    requires columns { window.now.columns ≤ 90 }
    requires place { place < window.now.columns }
    requires gvt { slice.now.gvt ≤ 2 ^ 56 }
    requires events { slice.now.events ≤ 2 ^ 56 }
    requires antimessages { slice.now.antimessages ≤ 2 ^ 56 }
    ensures { Writes (W.contents out.old) (W.contents out.new) result
        (slice_text window.now gvt most place slice.now) }
{
    let bars = bars_at(window, gvt, most, place, slice);
    write_title(slice, out)?;
    write_bars(&bars, out)?;
    write_text("</g>\n", out)
}

/// Writes the words that a browser shows for a slice.
fn write_title<W: Write>(slice: &Slice, out: &mut W) -> Result<()>
    requires { slice.now.events ≤ 2 ^ 56 }
    ensures { Writes (W.contents out.old) (W.contents out.new) result (title_text slice.now) }
{
    let numbers = [
        slice.from,
        slice.to.saturating_sub(1),
        slice.gvt,
        slice.handled,
        slice.events,
        efficiency(slice),
        slice.antimessages,
        slice.commits,
    ];
    write_filled(TITLE, &numbers, out)
}

fn write_bars<W: Write>(bars: &Bars, out: &mut W) -> Result<()>
    ensures { Writes (W.contents out.old) (W.contents out.new) result (bars_text bars.now) }
{
    write_bar("slice", &bars.slice, out)?;
    write_bar("gvt", &bars.gvt, out)?;
    write_bar("efficiency", &bars.efficiency, out)?;
    write_bar("antimessages", &bars.antimessages, out)?;
    write_bar("commit", &bars.commit, out)
}

fn write_bar<W: Write>(class: &str, bar: &Bar, out: &mut W) -> Result<()>
    ensures { Writes (W.contents out.old) (W.contents out.new) result
        (bar_text class.now bar.now) }
{
    write_text(BAR_CLASS, out)?;
    write_text(class, out)?;
    write_filled(BAR_EDGES, &[bar.x, bar.y, bar.width, bar.height], out)
}

/// Returns the bars of the column at a place, which shows this slice.
fn bars_at(window: &Window, gvt: u64, most: u64, place: u64, slice: &Slice) -> Bars
    requires columns { window.now.columns ≤ 90 }
    requires place { place < window.now.columns }
    requires gvt { slice.now.gvt ≤ 2 ^ 56 }
    requires events { slice.now.events ≤ 2 ^ 56 }
    requires antimessages { slice.now.antimessages ≤ 2 ^ 56 }
    ensures { result ≡ bars_of window.now gvt most place slice.now }
{
    let column = column_bar(window, place);
    Bars {
        slice: column,
        gvt: standing(&column, 160, pixels(slice.gvt, gvt)),
        efficiency: standing(&column, 300, efficiency(slice)),
        antimessages: standing(&column, 440, pixels(slice.antimessages, most)),
        commit: within(&column, 450, 8 * slice.commits.min(1)),
    }
}

/// Returns the bar of the whole column at a place.
fn column_bar(window: &Window, place: u64) -> Bar
    requires columns { window.now.columns ≤ 90 }
    requires place { place < window.now.columns }
    ensures { result ≡ column_bar window.now place }
{
    Bar {
        x: left(window, place),
        y: 40,
        width: width(window, place),
        height: 420,
    }
}

/// Returns a column's bar of this height, which stands on the line at `foot`.
fn standing(column: &Bar, foot: u64, height: u64) -> Bar
    ensures { result ≡ standing_on column.now foot height }
{
    within(column, foot.saturating_sub(height), height)
}

/// Returns a column's bar of this height, whose upper edge is at `y`.
fn within(column: &Bar, y: u64, height: u64) -> Bar
    ensures { result ≡ bar_within column.now y height }
{
    Bar {
        x: column.x,
        y,
        width: column.width,
        height,
    }
}

/// Returns the left edge of a column in pixels.
fn left(window: &Window, place: u64) -> u64
    requires some { 1 ≤ window.now.columns }
    requires place { place ≤ 90 }
    ensures { result ≡ column_left window.now place }
{
    60 + place * 900 / window.columns
}

fn width(window: &Window, place: u64) -> u64
    requires some { 1 ≤ window.now.columns }
    requires place { place < 90 }
    ensures { result ≡ column_width window.now place }
{
    let columns = window.columns;
    ((place + 1) * 900 / columns).saturating_sub(place * 900 / columns)
}

fn write_foot<W: Write>(
    window: &Window,
    most: u64,
    rows: u64,
    whole: &Slice,
    out: &mut W,
) -> Result<()>
    requires first { window.now.first ≤ 2 ^ 32 }
    requires rounds { window.now.rounds ≤ 2 ^ 32 + 1 }
    requires events { whole.now.events ≤ 2 ^ 56 }
    ensures { Writes (W.contents out.old) (W.contents out.new) result
        (foot_text window.now most rows whole.now) }
{
    let numbers = [
        whole.gvt,
        most,
        window.first,
        (window.first + window.rounds).saturating_sub(1),
        window.rounds,
        rows,
        whole.handled,
        whole.events,
        efficiency(whole),
        whole.antimessages,
        whole.commits,
    ];
    write_filled(COURSE_FOOT, &numbers, out)
}

/// Returns the pixels of a number, on a scale where the greatest one has 100.
fn pixels(number: u64, greatest: u64) -> u64
    requires { number ≤ 2 ^ 56 }
    ensures { result ≡ pixels_of number greatest }
{
    100 * number / greatest.max(1)
}

/// Returns the events committed as a percentage of the messages handled, at most 100.
fn efficiency(slice: &Slice) -> u64
    requires { slice.now.events ≤ 2 ^ 56 }
    ensures { result ≡ efficiency_of slice.now }
{
    if slice.handled == 0 {
        return 0;
    }
    (100 * slice.events / slice.handled).min(100)
}

/// Returns the most antimessages of a column.
fn most_antimessages(rows: &[Row], window: &Window) -> u64
    requires first { window.now.first ≤ 2 ^ 32 }
    requires rounds { window.now.rounds ≤ 2 ^ 32 + 1 }
    requires columns { window.now.columns ≤ 90 }
    ensures { result ≡ most_of rows.now window.now window.now.columns }
{
    let mut most = 0u64;
    for place in 0..window.columns {
        most = most.max(column(rows, window, place).antimessages);
    }
    most
}

/// Returns the slice that a column shows.
fn column(rows: &[Row], window: &Window, place: u64) -> Slice
    requires first { window.now.first ≤ 2 ^ 32 }
    requires rounds { window.now.rounds ≤ 2 ^ 32 + 1 }
    requires columns { window.now.columns ≤ 90 }
    requires place { place < window.now.columns }
    ensures slice { result ≡ column_of rows.now window.now place }
    ensures gvt { result.gvt ≤ 2 ^ 56 }
    ensures events { result.events ≤ 2 ^ 56 }
    ensures antimessages { result.antimessages ≤ 2 ^ 56 }
{
    slice_of(rows, start(window, place), start(window, place + 1))
}

/// Returns the first round of a column.
fn start(window: &Window, place: u64) -> u64
    requires first { window.now.first ≤ 2 ^ 32 }
    requires rounds { window.now.rounds ≤ 2 ^ 32 + 1 }
    requires some { 1 ≤ window.now.columns }
    requires place { place ≤ 90 }
    ensures { result ≡ column_start window.now place }
{
    window.first + place * window.rounds / window.columns
}

/// Returns the window of all rounds of a run, from the least to the greatest.
fn window_of(rows: &[Row]) -> Window
    ensures window { result ≡ window_from rows.now }
    ensures first { result.first ≤ 2 ^ 32 }
    ensures rounds { result.rounds ≤ 2 ^ 32 + 1 }
    ensures columns { result.columns ≤ 90 }
{
    let least = least_round(rows);
    let last = last_round(rows);
    let rounds = (last + 1).saturating_sub(least);
    Window {
        first: least.min(last),
        rounds,
        columns: rounds.min(90),
    }
}

fn least_round(rows: &[Row]) -> u64
    ensures round { result ≡ least_of rows.now }
    ensures within { result ≤ 2 ^ 32 }
{
    let mut least = 1u64 << 32;
    for row in rows {
        least = least.min(row.round);
    }
    least
}

fn last_round(rows: &[Row]) -> u64
    ensures round { result ≡ last_of rows.now }
    ensures within { result ≤ 2 ^ 32 }
{
    let mut last = 0u64;
    for row in rows {
        last = last.max(row.round.min(1 << 32));
    }
    last
}

/// Returns the slice of the rounds from `from` on and before `to`.
fn slice_of(rows: &[Row], from: u64, to: u64) -> Slice
    ensures slice { result ≡ slice_from rows.now from to }
    ensures gvt { result.gvt ≤ 2 ^ 56 }
    ensures events { result.events ≤ 2 ^ 56 }
    ensures antimessages { result.antimessages ≤ 2 ^ 56 }
{
    let reached = reached_before(rows, to);
    let work = work_between(rows, from, to);
    Slice {
        from,
        to,
        gvt: reached.gvt,
        events: reached
            .events
            .saturating_sub(reached_before(rows, from).events),
        handled: work.handled,
        antimessages: work.antimessages,
        commits: commits_between(rows, from, to),
    }
}

/// Returns whether the round of a row is from `from` on and before `to`.
fn is_between(row: &Row, from: u64, to: u64) -> bool
    ensures { result ≡ is_within from to row.now }
{
    let round = row.round.min(1 << 32);
    from <= round && round < to
}

/// Returns how far the run had come before round `to`.
fn reached_before(rows: &[Row], to: u64) -> Reached
    ensures gvt { result.gvt ≡ reached (λ (r : Row). r.gvt) to rows.now }
    ensures events { result.events ≡ events_before to rows.now }
{
    let mut gvt = 0u64;
    let mut events = events_at_first(rows);
    for row in rows {
        if is_between(row, 0, to) {
            gvt = gvt.max(row.gvt.min(MOST));
            events = events.max(row.events.min(MOST));
        }
    }
    Reached { gvt, events }
}

/// Returns how many events were committed at the first row, or 0 if there are no rows.
fn events_at_first(rows: &[Row]) -> u64
    ensures { result ≡ capped (at_first (λ (r : Row). r.events) rows.now) }
{
    match rows.first() {
        None => 0,
        Some(row) => row.events.min(MOST),
    }
}

/// Returns the work in the rounds from `from` on and before `to`.
fn work_between(rows: &[Row], from: u64, to: u64) -> Work
    ensures handled { result.handled ≡ sum_between (λ (r : Row). r.handled) from to rows.now }
    ensures antimessages { result.antimessages
        ≡ sum_between (λ (r : Row). r.antimessages) from to rows.now }
{
    let mut handled = 0u64;
    let mut antimessages = 0u64;
    for row in rows {
        if is_between(row, from, to) {
            handled = handled.saturating_add(row.handled).min(MOST);
            antimessages = antimessages.saturating_add(row.antimessages).min(MOST);
        }
    }
    Work {
        handled,
        antimessages,
    }
}

/// Returns how many rows of these rounds have another last commit than the row before.
fn commits_between(rows: &[Row], from: u64, to: u64) -> u64
    ensures { result ≡ capped (length (filter (is_within from to)
        (committing (at_first (λ (r : Row). r.committed) rows.now) rows.now))) }
{
    let mut time = time_at_first(rows);
    let mut commits = 0u64;
    for row in rows {
        if is_commit(row, time, from, to) {
            commits = commits.saturating_add(1).min(MOST);
        }
        time = row.committed;
    }
    commits
}

/// Returns whether a row is of these rounds, and its last commit is not the one at `time`.
fn is_commit(row: &Row, time: u64, from: u64, to: u64) -> bool
    ensures { result ≡ not (row.now.committed == time) && is_within from to row.now }
{
    row.committed != time && is_between(row, from, to)
}

/// Returns the time of the last commit before the first row, or 0 if there are no rows.
fn time_at_first(rows: &[Row]) -> u64
    ensures { result ≡ at_first (λ (r : Row). r.committed) rows.now }
{
    match rows.first() {
        None => 0,
        Some(row) => row.committed,
    }
}

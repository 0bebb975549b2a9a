//! Where the parts of a picture lie.
ghost use Rattle.std.specs.Prelude.{◌≡◌, ◌<◌, ◌≤◌, length};
ghost use Rattle.coflow_units.specs.declared.limits.TheConstants.{MAX_SLOT};
ghost use Rattle.picture.specs.Layout.{IsDrawable, IsInside, IsSpan, bar_width, bar_x, bars_end, bars_height, curve_end, curve_top, edge_x, hairline, middle, port_y, row_height, slot_count, slot_x, slots_of, span_edge, span_of};

use crate::value::{Bar, Picture, Span};

/// The slots of the window.
pub fn span_of(picture: &Picture) -> Span
    requires { IsDrawable picture.now }
    ensures slots { result ≡ span_of picture.now }
    ensures span { IsSpan result }
{
    Span {
        first: picture.window.first,
        last: picture.window.last,
    }
}

/// How many slots a span has.
pub fn slots_of(span: Span) -> u64
    requires { IsSpan span }
    ensures count { result ≡ slots_of span }
    ensures some { 1 ≤ result }
    ensures short { result ≤ MAX_SLOT }
{
    span.last - (span.first - 1)
}

/// How many slots the window has.
pub fn slot_count(picture: &Picture) -> u64
    requires { IsDrawable picture.now }
    ensures count { result ≡ slot_count picture.now }
    ensures some { 1 ≤ result }
    ensures short { result ≤ MAX_SLOT }
{
    slots_of(span_of(picture))
}

/// The height of the bars.
pub fn bars_height(picture: &Picture) -> u64
    requires { IsDrawable picture.now }
    ensures height { result ≡ bars_height picture.now }
    ensures most { result ≤ 480 }
{
    (16 * picture.rows.as_slice().len() as u64).min(480)
}

/// Where the bars end.
pub fn bars_end(picture: &Picture) -> u64
    requires { IsDrawable picture.now }
    ensures end { result ≡ bars_end picture.now }
    ensures most { result ≤ 560 }
{
    80 + bars_height(picture)
}

/// Where the curve begins.
pub fn curve_top(picture: &Picture) -> u64
    requires { IsDrawable picture.now }
    ensures top { result ≡ curve_top picture.now }
    ensures least { 10 ≤ result }
    ensures most { result ≤ 640 }
{
    bars_end(picture) + 80
}

/// Where the curve ends.
pub fn curve_end(picture: &Picture) -> u64
    requires { IsDrawable picture.now }
    ensures end { result ≡ curve_end picture.now }
    ensures most { result ≤ 760 }
{
    curve_top(picture) + 120
}

/// The middle of one of so many equal parts of a length, which count from 0.
fn middle(part: u64, count: u64, size: u64) -> u64
    requires part { part < count }
    requires few { count ≤ MAX_SLOT }
    requires size { size ≤ 720 }
    ensures middle { result ≡ middle part count size }
    ensures inside { result ≤ size }
{
    (2 * part + 1) * size / (2 * count)
}

/// Where the middle of a slot of the span lies, from left.
pub fn slot_x(span: Span, slot: u64) -> u64
    requires span { IsSpan span }
    requires from { span.first ≤ slot }
    requires upto { slot ≤ span.last }
    ensures { result ≡ slot_x span slot }
{
    70 + middle(slot - span.first, slots_of(span), 720)
}

/// Where the middle of a port's row lies, from above.
pub fn port_y(picture: &Picture, port: u64) -> u64
    requires drawable { IsDrawable picture.now }
    requires port { port < length picture.now.rows }
    ensures y { result ≡ port_y picture.now port }
    ensures most { result ≤ 560 }
{
    let ports = picture.rows.as_slice().len() as u64;
    80 + middle(port, ports, bars_height(picture))
}

/// How high the row of a port is.
pub fn row_height(picture: &Picture) -> u64
    requires { IsDrawable picture.now }
    ensures { result ≡ row_height picture.now }
{
    bars_height(picture) / picture.rows.as_slice().len() as u64
}

/// Where the edge behind so many slots of the span lies, from left.
pub fn span_edge(span: Span, slots: u64) -> u64
    requires span { IsSpan span }
    requires short { slots ≤ MAX_SLOT }
    ensures { result ≡ span_edge span slots }
{
    70 + slots * 720 / slots_of(span)
}

/// Where the edge behind so many slots of the window lies, from left.
pub fn edge_x(picture: &Picture, slots: u64) -> u64
    requires drawable { IsDrawable picture.now }
    requires short { slots ≤ MAX_SLOT }
    ensures { result ≡ edge_x picture.now slots }
{
    span_edge(span_of(picture), slots)
}

/// How wide a bar is.
pub fn bar_width(picture: &Picture, bar: Bar) -> u64
    requires drawable { IsDrawable picture.now }
    requires inside { IsInside picture.now.window bar }
    ensures { result ≡ bar_width picture.now bar }
{
    (bar.last - (bar.first - 1)) * 720 / slot_count(picture)
}

/// Where the middle of a bar lies, from left.
pub fn bar_x(picture: &Picture, bar: Bar) -> u64
    requires drawable { IsDrawable picture.now }
    requires inside { IsInside picture.now.window bar }
    ensures { result ≡ bar_x picture.now bar }
{
    let left = bar.first - picture.window.first;
    let right = bar.last - (picture.window.first - 1);
    70 + (left + right) * 360 / slot_count(picture)
}

/// The width of the white line around a bar, in thousandths of a slot.
pub fn hairline(picture: &Picture) -> u64
    requires { IsDrawable picture.now }
    ensures { result ≡ hairline picture.now }
{
    (slot_count(picture) * 25 / 18).min(400)
}

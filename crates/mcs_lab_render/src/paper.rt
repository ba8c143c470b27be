//! The marks of an SVG page.
use crate::texts::put_escaped;
use mcs_lab_inspect::TextBuffer;

/// A box on the page.
#[derive(Clone, Copy)]
pub struct Area {
    pub x: u64,
    pub y: u64,
    pub width: u64,
    pub height: u64,
}

/// Appends an attribute with a number as value, from its name to the closing quote.
pub fn put_attribute(to: &mut TextBuffer, name: &[u8], value: u64) {
    to.put(name);
    to.number(value);
    to.put(b"\"");
}

/// Appends a command of a path with its target.
pub fn put_point(to: &mut TextBuffer, command: &[u8], x: u64, y: u64) {
    to.put(command);
    to.number(x);
    to.put(b",");
    to.number(y);
}

/// Appends a command of a path with a single number.
pub fn put_far(to: &mut TextBuffer, command: &[u8], at: u64) {
    to.put(command);
    to.number(at);
}

/// Appends a text at a position; its class says whether the baseline begins there, is centred or
/// ends.
pub fn put_text(to: &mut TextBuffer, class: &str, x: u64, y: u64, text: &str) {
    to.put(b"<text class=\"");
    to.put(class.as_bytes());
    put_attribute(to, b"\" x=\"", x);
    put_attribute(to, b" y=\"", y);
    to.put(b">");
    put_escaped(to, text);
    to.put(b"</text>\n");
}

/// Appends a box up to the end of its attributes.
fn put_box(to: &mut TextBuffer, class: &str, area: Area) {
    to.put(b"<rect class=\"");
    to.put(class.as_bytes());
    put_attribute(to, b"\" x=\"", area.x);
    put_attribute(to, b" y=\"", area.y);
    put_attribute(to, b" width=\"", area.width);
    put_attribute(to, b" height=\"", area.height);
}

/// Appends a box with a tooltip.
pub fn put_area(to: &mut TextBuffer, class: &str, area: Area, title: &str) {
    put_box(to, class, area);
    if title.is_empty() {
        return to.put(b"/>\n");
    }
    to.put(b"><title>");
    put_escaped(to, title);
    to.put(b"</title></rect>\n");
}

/// The length of the line of a lost send. Its text is this much farther from its lane.
const LOST: u64 = 16;

pub const LOST_TEXT: u64 = 18;

/// Appends a cross.
fn put_cross(to: &mut TextBuffer, x: u64, y: u64) {
    let (left, right) = (x.saturating_sub(3), x.saturating_add(3));
    let (up, down) = (y.saturating_sub(3), y.saturating_add(3));
    put_point(to, b"M", left, up);
    put_point(to, b"L", right, down);
    put_point(to, b"M", left, down);
    put_point(to, b"L", right, up);
}

/// Appends the line of a lost send, of this line of the book, from a position to the right; it ends
/// in a cross.
pub fn put_lost_line(to: &mut TextBuffer, number: Option<usize>, x: u64, y: u64) {
    let end = x.saturating_add(LOST);
    to.put(b"<path class=\"arrow lost\"");
    if let Some(number) = number {
        put_attribute(to, b" data-line=\"", number as u64);
    }
    to.put(b" d=\"");
    put_cross(to, end, y);
    put_point(to, b"M", x, y);
    put_far(to, b"H", end);
    to.put(b"\"/>\n");
}

/// Whether a short line leads from its lane or to it.
#[derive(Clone, Copy)]
pub enum Way {
    Off,
    Back,
}

/// Appends a short line, of this line of the book, for an arrow whose end to the left has no lane.
pub fn put_short_line(
    to: &mut TextBuffer,
    class: &str,
    number: Option<usize>,
    x: u64,
    y: u64,
    way: Way,
) {
    let end = x.saturating_add(LOST);
    let (from, far) = match way {
        Way::Off => (x, end),
        Way::Back => (end, x),
    };
    to.put(b"<path class=\"arrow ");
    to.put(class.as_bytes());
    to.put(b"\"");
    if let Some(number) = number {
        put_attribute(to, b" data-line=\"", number as u64);
    }
    to.put(b" marker-end=\"url(#tip)\" d=\"");
    put_point(to, b"M", from, y);
    put_far(to, b"H", far);
    to.put(b"\"/>\n");
}

/// The page's styles: colours that most readers can tell apart, by Okabe and Ito, on light and dark
/// backgrounds. Refusals have the colour that looks like an alarm, so contexts get it last.
pub const STYLE: &str = "<style>
text{font:11px 'DejaVu Sans Mono',Menlo,Consolas,monospace;fill:#111;paint-order:stroke;stroke:#fff;stroke-width:3px;stroke-linejoin:round}
.ground{fill:#fff}
.head{fill:#f2f2f2;stroke:#555}
.head-text{font-weight:bold;text-anchor:middle;stroke:none}
.head-more{text-anchor:middle;stroke:none}
.number{text-anchor:end;fill:#767676}
.result{fill:#00664a}
.refused{fill:#a63c00;font-weight:bold}
.away{fill:#767676;font-style:italic}
.note{fill:#444}
.mark{fill:#3b4a7a}
text.lost{fill:#6b6b6b}
.label{text-anchor:middle}
.strong{font-weight:bold}
.rule{stroke:#ddd}
.dot{fill:#111;stroke:#fff;stroke-width:2;paint-order:stroke}
.idle-dot{fill:#fff;stroke:#555}
.arrow{fill:none;stroke:#111;stroke-width:1.4}
.answer{stroke-dasharray:7 3}
.word{stroke-dasharray:2 3}
path.lost{stroke:#8a8a8a}
.tip{fill:#111}
.k0{fill:#0072b2;stroke:#0072b2}
.k1{fill:#e69f00;stroke:#e69f00}
.k2{fill:#009e73;stroke:#009e73}
.k3{fill:#cc79a7;stroke:#cc79a7}
.k4{fill:#56b4e9;stroke:#56b4e9}
.k5{fill:#f0e442;stroke:#b5a800}
.k6{fill:#d55e00;stroke:#d55e00}
.run{stroke-width:1}
.ready{fill-opacity:.3;stroke-width:1}
.again{fill:#fff;fill-opacity:.8}
.bare{fill:#555}
.wait{fill:url(#hatch);stroke:#999}
.idle{fill:none;stroke:#999;stroke-dasharray:4 3}
.hatch{fill:#eee}
.hatch-line{fill:#aaa}
@media (prefers-color-scheme:dark){
text{fill:#eee;stroke:#161616}
.ground{fill:#161616}
.head{fill:#2a2a2a;stroke:#999}
.number,.away{fill:#9a9a9a}
.result{fill:#4fd1a5}
.refused{fill:#ff9a5c}
.mark{fill:#b3c2f2}
text.lost{fill:#9a9a9a}
.note{fill:#bbb}
.rule{stroke:#333}
.dot,.tip{fill:#eee}
.dot{stroke:#161616}
.idle-dot{fill:#161616;stroke:#bbb}
.arrow{stroke:#eee}
path.lost{stroke:#8a8a8a}
.bare{fill:#aaa}
.hatch{fill:#2a2a2a}
.hatch-line{fill:#666}
}
</style>
<defs>
<marker id=\"tip\" markerWidth=\"10\" markerHeight=\"8\" refX=\"9\" refY=\"4\" orient=\"auto\" markerUnits=\"userSpaceOnUse\"><path class=\"tip\" d=\"M0,0L10,4L0,8z\"/></marker>
<pattern id=\"hatch\" width=\"6\" height=\"6\" patternUnits=\"userSpaceOnUse\" patternTransform=\"rotate(45)\"><rect class=\"hatch\" width=\"6\" height=\"6\"/><rect class=\"hatch-line\" width=\"2\" height=\"6\"/></pattern>
</defs>
";

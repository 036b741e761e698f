//! What stands around the lanes: the styles, the title, the legend and the axis.

use crate::run::{Kind, Run};
use crate::svg::marks::SHAPES;
use crate::svg::page::{LEFT, Page, TOP, WHOLE};
use crate::title::title;
use std::alloc::{AllocError, Global};
use std::fmt::Write;

/// The styles of all that is drawn.
const STYLES: &str = r##"<style>
text{font-family:sans-serif;font-size:12px;fill:#222}
.b{font-weight:bold}.h1{font-size:16px;font-weight:bold}
.l{text-anchor:end}.m{text-anchor:middle}.s{font-size:11px}
.n{text-anchor:middle;font-size:11px;font-weight:bold;fill:#fff}
.e{stroke:#ddd;fill:none}.y{stroke:#bbb;stroke-dasharray:2 3;fill:none}
.w{stroke:#888;stroke-width:2;fill:none}
.t{stroke:#d9731a;stroke-width:2.5;stroke-dasharray:6 3;fill:none}
.h{stroke:#222;stroke-width:7;stroke-dasharray:1.5 3;fill:none}
.f{stroke:#222;stroke-width:4;fill:none}
.q{stroke:#c1121f;stroke-width:4;stroke-dasharray:4 2;fill:none}
.a{stroke:#fff;stroke-width:.5}
.j{fill:url(#j);stroke:#8a6d1a}
.c{fill-opacity:.55}.k{fill-opacity:.2}
.p0{fill:#2f5d8c}.p1{fill:#c4661f}.p2{fill:#3b8a3e}.p3{fill:#8b4fa3}.p4{fill:#7a5230}
.p5{fill:#12858b}.p6{fill:#b8407f}.p7{fill:#6b7a1a}.p8{fill:#5a5a5a}.p9{fill:#3f51b5}
</style>
"##;

/// The fill of a phase in which a response is judged.
const PATTERN: &str =
    r##"<pattern id="j" width="6" height="6" patternUnits="userSpaceOnUse" patternTransform="rotate(45)"><rect width="6" height="6" fill="#fff6d0"/><path d="M0 0V6" stroke="#b8901f" stroke-width="3"/></pattern>
"##;

/// What the shapes of a key's lane are, and where each stands.
const KEY_LEGEND: &str = r##"<path class="w" d="M84 60h26"/><text x="116" y="64">waits</text>
<path class="t" d="M164 60h26"/><text x="196" y="64">waits to be tried again</text>
<rect class="j" x="346" y="54" width="26" height="12"/><text x="378" y="64">is judged</text>
<use href="#v" x="450" y="60"/><text x="460" y="64">handed out</text>
<use href="#r" x="543" y="60"/><text x="553" y="64">put back</text>
<use href="#o" x="621" y="60"/><text x="631" y="64">done</text>
<use href="#d" x="681" y="60"/><text x="691" y="64">dropped</text>
<use href="#n" x="757" y="60"/><text x="767" y="64">an input was refused</text>
"##;

/// The same of an actor.
const SOURCE_LEGEND: &str =
    r##"<rect class="a p0" x="84" y="76" width="26" height="12"/><text x="116" y="86">the source was asked</text>
"##;

/// The same of an engine and its peers.
const PEER_LEGEND: &str =
    r##"<rect class="a p0" x="84" y="76" width="26" height="12"/><text class="n" x="97" y="86">4</text><text x="116" y="86">peer 4 was asked</text>
<path class="h" d="M230 82h26"/><text x="262" y="86">nobody may be asked</text>
<use href="#g" x="408" y="82"/><text x="418" y="86">credited</text>
<use href="#x" x="484" y="82"/><text x="494" y="86">wrong: to be blocked</text>
<use href="#u" x="636" y="82"/><text x="646" y="86">not before later</text>
<path class="f" d="M752 82h20"/><text x="778" y="86">is full</text>
<path class="q" d="M830 82h20"/><text x="856" y="86">is blocked</text>
"##;

/// The styles, the title and the legend.
pub fn write_head(
    alloc: Global,
    out: &mut String,
    run: &Run,
    page: &Page,
) -> Result<(), AllocError> {
    let height = page.height();
    let title = title(alloc, run, &page.axis)?;
    writeln!(
        out,
        "<svg xmlns=\"http://www.w3.org/2000/svg\" viewBox=\"0 0 {WHOLE} {height}\">\n<title>{title}</title>"
    )?;
    out.push_str(STYLES)?;
    out.push_str("<defs>\n")?;
    out.push_str(PATTERN)?;
    out.push_str(SHAPES)?;
    writeln!(
        out,
        "</defs>\n<rect width=\"{WHOLE}\" height=\"{height}\" fill=\"#fff\"/>\n<text class=\"h1\" x=\"{LEFT}\" y=\"30\">{title}</text>"
    )?;
    out.push_str(KEY_LEGEND)?;
    out.push_str(match run.kind {
        Kind::Opaque => SOURCE_LEGEND,
        Kind::Peers { .. } => PEER_LEGEND,
    })
}

/// The ticks of the axis, through all lanes, with their numbers above and below.
pub fn write_grid(alloc: Global, out: &mut String, page: &Page) -> Result<(), AllocError> {
    let (top, end) = (TOP - 14, page.end);
    let below = end.saturating_add(18);
    let ticks = page.axis.ticks(alloc)?;
    for tick in ticks.iter() {
        let (x, amount) = (LEFT.saturating_add(tick.place), tick.amount());
        writeln!(
            out,
            "<path class=\"y\" d=\"M{x} {top}V{end}\"/><text class=\"m s\" x=\"{x}\" y=\"{}\">{amount}</text><text class=\"m s\" x=\"{x}\" y=\"{below}\">{amount}</text>",
            TOP - 18
        )?;
    }
    Ok(())
}

/// The end of a picture.
pub fn write_foot(out: &mut String) -> Result<(), AllocError> {
    out.push_str("</svg>\n")
}

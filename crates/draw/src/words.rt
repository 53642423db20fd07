// The fixed parts of the picture: styles, symbols and legend.
use std::fmt::{Result, Write};

// The styles of text (t title, g legend, n numbers along the edge, e letters, c cells, m moved cells), of lines (u tracks, j joins, l links),
// of paths by direction (b bands, h arrowheads, o processors with moved cells), of processors (p inner, s spare, f fault, x its cross, k what
// it joins, d dead, z its ring) and of switches (w); and a white ground.
const STYLES: &str = "<style type='text/css'>
text{font-family:sans-serif;fill:#222}
.t{font-size:18px;font-weight:bold}
.g{font-size:13px}
.n text{font-size:12px;fill:#666;text-anchor:middle}
.e{font-size:10px;text-anchor:middle}
.c text{font-size:9px;fill:#888;text-anchor:middle}
.c .m{font-size:12px;font-weight:bold;fill:#000}
.u{fill:none;stroke:#e2e2e2;stroke-width:2}
.j{fill:none;stroke:#d0d0d0;stroke-width:2}
.l{fill:none;stroke:#222;stroke-width:2.4}
.S{color:#0072b2;fill:#cfe6f5}
.N{color:#e69f00;fill:#fbe6bd}
.E{color:#009e73;fill:#c7ebdf}
.W{color:#cc79a7;fill:#f5dcea}
.b{fill:none;stroke:currentColor;stroke-width:26;stroke-opacity:.45}
.h{fill:currentColor}
.o{stroke:currentColor;stroke-width:2}
.p{fill:#fff;stroke:#8a8a8a;stroke-width:1.5}
.s{fill:#f2ecd9;stroke:#b5a46a;stroke-width:1.5}
.f{fill:#7a0c12;stroke:#4d0509;stroke-width:1.5}
.x{fill:none;stroke:#e8a0a0;stroke-width:3}
.k{fill:none;stroke:#f6dede;stroke-width:6}
.d{fill:#161616;stroke:#000;stroke-width:1.5}
.z{fill:none;stroke:#fff;stroke-width:3}
.w{fill:#fff;stroke:#9a9a9a}
</style>
<rect width='100%' height='100%' fill='#fff'/>
";

// The symbols of processors: inner, spare, a fault that joins nothing, its N and S, or its W and E, a dead one, one with a moved
// cell, by direction; the arrow of the legend; and the symbols of across and down switches, by their letters, at the processor under which
// they are filed.
pub const SYMBOLS: &str = "<defs>
<rect id='q' x='-20' y='-20' width='40' height='40' rx='7'/>
<use id='pi' xlink:href='#q' class='p'/>
<use id='sp' xlink:href='#q' class='s'/>
<g id='fo'><use xlink:href='#q' class='f'/><path class='x' d='M-11-11 11 11M11-11-11 11'/></g>
<g id='fv'><use xlink:href='#fo'/><path class='k' d='M0-20V20'/></g>
<g id='fh'><use xlink:href='#fo'/><path class='k' d='M-20 0H20'/></g>
<g id='fd'><use xlink:href='#q' class='d'/><circle class='z' r='12'/><path class='z' d='M-8 8 8-8'/></g>
<use id='mS' xlink:href='#q' class='o S'/>
<use id='mN' xlink:href='#q' class='o N'/>
<use id='mE' xlink:href='#q' class='o E'/>
<use id='mW' xlink:href='#q' class='o W'/>
<g id='ar'><path class='b' d='M0-20V2'/><path class='h' d='M0 22l-20-22h40z'/></g>
<rect id='r' class='w' x='-9' y='-9' width='18' height='18' rx='3'/>
<path id='jv' class='j' d='M0-9V9'/>
<path id='jh' class='j' d='M-9 0H9'/>
<path id='jc' class='j' d='M-9 0Q0 0 0 9M9 0Q0 0 0-9'/>
<path id='jd' class='j' d='M-9 0Q0 0 0-9M9 0Q0 0 0 9'/>
<use id='ao' xlink:href='#r' x='36'/>
<g id='aa'><use xlink:href='#ao'/><use xlink:href='#jv' x='36'/><text class='e' x='43' y='-12'>a</text></g>
<g id='ab'><use xlink:href='#ao'/><use xlink:href='#jh' x='36'/><text class='e' x='43' y='-12'>b</text></g>
<g id='ac'><use xlink:href='#ao'/><use xlink:href='#jc' x='36'/><text class='e' x='43' y='-12'>c</text></g>
<g id='ad'><use xlink:href='#ao'/><use xlink:href='#jd' x='36'/><text class='e' x='43' y='-12'>d</text></g>
<use id='do' xlink:href='#r' y='36'/>
<g id='da'><use xlink:href='#do'/><use xlink:href='#jh' y='36'/><text class='e' x='14' y='32'>a</text></g>
<g id='db'><use xlink:href='#do'/><use xlink:href='#jv' y='36'/><text class='e' x='14' y='32'>b</text></g>
<g id='dc'><use xlink:href='#do'/><use xlink:href='#jc' y='36'/><text class='e' x='14' y='32'>c</text></g>
<g id='dd'><use xlink:href='#do'/><use xlink:href='#jd' y='36'/><text class='e' x='14' y='32'>d</text></g>
</defs>
";

// The beginning of a picture of a width and a height.
pub fn open(out: &mut impl Write, width: usize, height: usize) -> Result {
    writeln!(
        out,
        "<svg xmlns='http://www.w3.org/2000/svg' xmlns:xlink='http://www.w3.org/1999/xlink'"
    )?;
    writeln!(
        out,
        "version='1.1' width='{width}' height='{height}' viewBox='0 0 {width} {height}'>"
    )?;
    out.write_str(STYLES)
}

// The legend of what only a plan has: paths, cells, switches and tracks.
const PLAN_ROWS: &str = "<use xlink:href='#ar' class='S' transform='translate(0 165) scale(.7)'/>
<text class='g' x='26' y='170'>path to the south</text>
<use xlink:href='#ar' class='N' transform='translate(0 198) rotate(180) scale(.7)'/>
<text class='g' x='26' y='203'>path to the north</text>
<use xlink:href='#ar' class='E' transform='translate(0 231) rotate(-90) scale(.7)'/>
<text class='g' x='26' y='236'>path to the east</text>
<use xlink:href='#ar' class='W' transform='translate(0 264) rotate(90) scale(.7)'/>
<text class='g' x='26' y='269'>path to the west</text>
<g class='c' transform='translate(0 99) scale(.7)'><use xlink:href='#mS'/><text class='m' y='4'>2,1</text></g>
<text class='g' x='26' y='104'>cell that moved</text>
<g class='c' transform='translate(0 132) scale(.7)'><use xlink:href='#pi'/><text y='4'>1,2</text></g>
<text class='g' x='26' y='137'>cell in its own place</text>
<use xlink:href='#ac' transform='translate(-36 299)'/>
<text class='g' x='26' y='302'>switch with its letter</text>
<path class='l' d='M-14 330H14'/>
<text class='g' x='26' y='335'>link</text>
<path class='u' d='M-14 363H14'/>
<text class='g' x='26' y='368'>track not in use</text>
";

// The legend of what every map has: faults, dead processors and spares.
const MAP_ROWS: &str = "<use xlink:href='#fo' transform='scale(.7)'/>
<text class='g' x='26' y='5'>fault</text>
<use xlink:href='#fd' transform='translate(0 33) scale(.7)'/>
<text class='g' x='26' y='38'>dead processor</text>
<use xlink:href='#sp' transform='translate(0 66) scale(.7)'/>
<text class='g' x='26' y='71'>spare</text>
";

// The legend, at a distance from the left.
pub fn legend(out: &mut impl Write, x: usize, planned: bool) -> Result {
    writeln!(out, "<g transform='translate({x} 100)'>")?;
    out.write_str(MAP_ROWS)?;
    if planned {
        out.write_str(PLAN_ROWS)?;
    }
    writeln!(out, "</g>")
}

// What a refusal of a map file means.
pub fn reason(number: u8) -> &'static str {
    match number {
        1 => "the number of rows or columns is not 1 to 30",
        8 => "the file ends too early",
        9 => "a number is longer than three bytes or not in its shortest form",
        10 => "a fault is at a place without a processor",
        11 => "a fault is listed a second time",
        12 => "bytes follow the last place, or a second count is 0",
        19 => "the faults are not in row order",
        20 => "a dead processor is not inside the array",
        _ => "this is not a map",
    }
}

//! How a page looks: colours, and the page's style.
ghost use Rattle.std.specs.Prelude.{◌≡◌, ◌%◌};
ghost use Rattle.fr_picture.specs.Styles.{letter_of, style_text};

/// The style of a page.
const STYLE: &str = "
@page{size:A4 landscape;margin:12mm 10mm}
body{font:14px/1.4 sans-serif;color:#111;margin:1em auto;max-width:1600px;padding:0 1em}
h1{font-size:1.5em;margin:0}
h2{font-size:1.15em;margin:1.2em 0 .3em;break-after:avoid}
p{margin:.3em 0;max-width:75em}
a{color:inherit}
.c0{fill:#56B4E9;background:#56B4E9;stroke:#56B4E9}
.c1{fill:#E69F00;background:#E69F00;stroke:#E69F00}
.c2{fill:#009E73;background:#009E73;stroke:#009E73}
.c3{fill:#F0E442;background:#F0E442;stroke:#F0E442}
.c4{fill:#CC79A7;background:#CC79A7;stroke:#CC79A7}
.c5{fill:#D55E00;background:#D55E00;stroke:#D55E00}
.c6{fill:#0072B2;background:#0072B2;stroke:#0072B2}
.c7{fill:#882255;background:#882255;stroke:#882255}
.c0 .o{fill:#B3DDF5}
.c1 .o{fill:#F1CA73}
.c2 .o{fill:#A6DDCE}
.c3 .o{fill:#F7F097}
.c4 .o{fill:#7A4964}
.c5 .o{fill:#E8A673}
.c6 .o{fill:#004A74}
.c7 .o{fill:#C99CB2}
.defs svg{width:0;height:0;position:absolute}
.plan{overflow-x:auto}
.plan>svg{display:block;width:100%;min-width:1240px}
svg[x]{overflow:visible}
nav{display:flex;flex-wrap:wrap;gap:8px;--text:none;--line:0}
nav a{text-decoration:none;border:1px solid #777;padding:2px 2px 0}
nav svg{display:block;width:138px;pointer-events:none}
text{font-size:.85px;dominant-baseline:hanging;fill:#111;stroke:none;transform:translate(.15px,.1px);display:var(--text,inline)}
.s{font-size:.65px}
.v,.n{writing-mode:vertical-rl;transform:translate(.5px,.3px);dominant-baseline:middle}
.names{text-anchor:end}
.band{font-size:1.2px;font-weight:bold}
path{stroke:var(--edge,#222);stroke-width:var(--line,.08px)}
a text{paint-order:stroke;stroke:#fff;stroke-width:.2px}
svg a:target,svg a:focus{--edge:#d00;--line:.3px}
.n{stroke:none}
#gap{fill:#ccc;stroke:none}
#free{fill:none;stroke:#bbb;stroke-width:var(--line,.06px)}
#held rect{fill:none;pointer-events:all;stroke:#777;stroke-width:var(--line,.06px)}
#held path{stroke:inherit;stroke-opacity:.5;stroke-width:var(--line,.1px)}
ul{list-style:none;padding:0;columns:28em;margin:.5em 0}
li{break-inside:avoid}
i{display:inline-block;width:2.4em;border:1px solid #222;text-align:center;font-style:normal;paint-order:stroke;-webkit-text-stroke:3px #fff}
.h{fill:var(--p,none);stroke:none;pointer-events:none}
.t1{--p:url(#t1)}
.t2{--p:url(#t2)}
.t3{--p:url(#t3)}
.t4{--p:url(#t4)}
.t5{--p:url(#t5)}
.t6{--p:url(#t6)}
.t7{--p:url(#t7)}
i.t1{background-image:radial-gradient(#fff 1.5px,#111 1.5px 2px,#fff0 2.2px);background-size:5px 5px}
i.t2{background-image:repeating-linear-gradient(90deg,#fff0 0 3px,#fff 3px 5px,#111 5px 6px)}
i.t3{background-image:repeating-linear-gradient(0deg,#fff0 0 3px,#fff 3px 5px,#111 5px 6px)}
i.t4{background-image:repeating-linear-gradient(0deg,#fff0 0 3px,#fff 3px 5px,#111 5px 6px),repeating-linear-gradient(90deg,#fff0 0 3px,#fff 3px 5px,#111 5px 6px)}
i.t5{background-image:repeating-linear-gradient(45deg,#fff0 0 3px,#fff 3px 5px,#111 5px 6px)}
i.t6{background-image:repeating-linear-gradient(-45deg,#fff0 0 3px,#fff 3px 5px,#111 5px 6px)}
i.t7{background-image:repeating-linear-gradient(45deg,#fff0 0 3px,#fff 3px 5px,#111 5px 6px),repeating-linear-gradient(-45deg,#fff0 0 3px,#fff 3px 5px,#111 5px 6px)}
pattern path{stroke:#fff;stroke-width:.2px}
pattern .k{stroke:#111;stroke-width:.07px}
circle{fill:#fff;stroke:#111;stroke-width:.05px}
table{border-collapse:collapse;width:100%;font-size:.85em}
th,td{text-align:left;vertical-align:top;padding:.2em .5em;border-bottom:1px solid #ccc}
tr{break-inside:avoid}
.index{columns:16em;font-size:.85em}
.index a{font-weight:bold}
.frames td:nth-child(5){white-space:pre-line}
.frames th:nth-child(7){min-width:400px}
.frames td:nth-child(6),.frames th:nth-child(6){text-align:right}
.frames td:nth-child(7){background:linear-gradient(#e4e4e4,#e4e4e4) .5em .2em/400px 12px no-repeat}
:target{background:#ffd}
td svg{display:block;width:400px;height:12px}
td path{stroke:#0072B2;stroke-width:6px}
*{-webkit-print-color-adjust:exact;print-color-adjust:exact}
@media print{body{margin:0;max-width:none;padding:0}.plan{overflow:visible}.plan>svg{min-width:0;break-inside:avoid}}
";

/// The style of a page.
#[tactic(auto, unfolding(crate::specs::Styles::style_text))]
pub(crate) fn style() -> &'static str
    ensures { result.now ≡ style_text }
{
    STYLE
}

/// The letter of a supplier's colour, by the supplier's number. There are eight colours, which
/// colour-blind readers can tell apart; then they come again.
#[tactic(auto, unfolding(crate::specs::Styles::letter_of))]
pub(crate) fn letter(number: usize) -> &'static str
    ensures { result.now ≡ letter_of (number % 8) }
{
    match number % 8 {
        0 => "a",
        1 => "b",
        2 => "c",
        3 => "d",
        4 => "e",
        5 => "f",
        6 => "g",
        _ => "h",
    }
}

//! The style sheet of a picture.

pub(crate) const STYLE: &str = "<style>
.picture { background: #fff }
.picture text { font: 15px ui-monospace, Menlo, 'DejaVu Sans Mono', 'Liberation Mono', monospace; fill: #1f2328; \
text-anchor: middle; white-space: pre; direction: ltr; unicode-bidi: bidi-override; pointer-events: none }
.picture .words, .picture .role { font-size: 11px; fill: #59636e }
.picture .pattern, .picture .role, .picture .frame .words, .picture .parts .words { text-anchor: start }
.picture .rail { fill: none; stroke: #59636e; stroke-width: 2; pointer-events: none }
.picture .cut { fill: none; stroke: #fff; stroke-width: 4; pointer-events: none }
.picture .arrow, .picture .end { fill: #59636e }
.picture .box, .picture .area { fill: transparent }
.picture .character .box, .picture .character .area { fill: #ddf4ff }
.picture .leaf .box, .picture .leaf .area { fill: #eff2f5 }
.picture .leaf .box { stroke: #8c959f }
.picture .frame .box, .picture .parts .box { stroke: #8c959f; stroke-dasharray: 4 3 }
.picture .parts .box { fill: #fff }
.picture .character .area, .picture .leaf .area { fill-opacity: .6 }
.picture .insensitive .text { font-style: italic }
.picture .group .box { stroke-dasharray: none; stroke-width: 1.5 }
.picture .group:target .box { stroke-width: 4 }
.picture .colour0 .box { stroke: #0969da } .picture .colour0 .words, .picture .colour0 .area { fill: #0969da }
.picture .colour1 .box { stroke: #1a7f37 } .picture .colour1 .words, .picture .colour1 .area { fill: #1a7f37 }
.picture .colour2 .box { stroke: #9a6700 } .picture .colour2 .words, .picture .colour2 .area { fill: #9a6700 }
.picture .colour3 .box { stroke: #8250df } .picture .colour3 .words, .picture .colour3 .area { fill: #8250df }
.picture .colour4 .box { stroke: #cf222e } .picture .colour4 .words, .picture .colour4 .area { fill: #cf222e }
.picture .colour5 .box { stroke: #0e7490 } .picture .colour5 .words, .picture .colour5 .area { fill: #0e7490 }
.picture .colour6 .box { stroke: #bf3989 } .picture .colour6 .words, .picture .colour6 .area { fill: #bf3989 }
.picture .colour7 .box { stroke: #bc4c00 } .picture .colour7 .words, .picture .colour7 .area { fill: #bc4c00 }
.picture .colour8 .box { stroke: #4d7c0f } .picture .colour8 .words, .picture .colour8 .area { fill: #4d7c0f }
.picture .colour9 .box { stroke: #3730a3 } .picture .colour9 .words, .picture .colour9 .area { fill: #3730a3 }
.picture .colour10 .box { stroke: #7f1d1d } .picture .colour10 .words, .picture .colour10 .area { fill: #7f1d1d }
.picture .colour11 .box { stroke: #115e59 } .picture .colour11 .words, .picture .colour11 .area { fill: #115e59 }
.picture [class*=colour] .area { fill-opacity: .15 }
.picture .node:hover .box, .picture .node:hover .area { fill: #fff08a; fill-opacity: .7 }
@media (prefers-color-scheme: dark) {
.picture { background: #0d1117 }
.picture text { fill: #e6edf3 }
.picture .words, .picture .role { fill: #9198a1 }
.picture .rail { stroke: #9198a1 }
.picture .cut { stroke: #0d1117 }
.picture .arrow, .picture .end { fill: #9198a1 }
.picture .character .box, .picture .character .area { fill: #12324f }
.picture .leaf .box, .picture .leaf .area { fill: #21262d }
.picture .leaf .box, .picture .frame .box, .picture .parts .box { stroke: #6e7681 }
.picture .parts .box { fill: #0d1117 }
.picture .colour0 .box { stroke: #58a6ff } .picture .colour0 .words, .picture .colour0 .area { fill: #58a6ff }
.picture .colour1 .box { stroke: #3fb950 } .picture .colour1 .words, .picture .colour1 .area { fill: #3fb950 }
.picture .colour2 .box { stroke: #d29922 } .picture .colour2 .words, .picture .colour2 .area { fill: #d29922 }
.picture .colour3 .box { stroke: #bc8cff } .picture .colour3 .words, .picture .colour3 .area { fill: #bc8cff }
.picture .colour4 .box { stroke: #ff7b72 } .picture .colour4 .words, .picture .colour4 .area { fill: #ff7b72 }
.picture .colour5 .box { stroke: #39c5cf } .picture .colour5 .words, .picture .colour5 .area { fill: #39c5cf }
.picture .colour6 .box { stroke: #f778ba } .picture .colour6 .words, .picture .colour6 .area { fill: #f778ba }
.picture .colour7 .box { stroke: #ffa657 } .picture .colour7 .words, .picture .colour7 .area { fill: #ffa657 }
.picture .colour8 .box { stroke: #a3e635 } .picture .colour8 .words, .picture .colour8 .area { fill: #a3e635 }
.picture .colour9 .box { stroke: #a5b4fc } .picture .colour9 .words, .picture .colour9 .area { fill: #a5b4fc }
.picture .colour10 .box { stroke: #e5c9a8 } .picture .colour10 .words, .picture .colour10 .area { fill: #e5c9a8 }
.picture .colour11 .box { stroke: #99f6e4 } .picture .colour11 .words, .picture .colour11 .area { fill: #99f6e4 }
.picture .node:hover .box, .picture .node:hover .area { fill: #6b5b00 }
}
</style>
";

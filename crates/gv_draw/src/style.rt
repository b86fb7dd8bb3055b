//! How the parts of a picture look.

/// How texts and lines look.
pub const STYLE: &str = "<style>\
text{font-family:'DejaVu Sans',Verdana,sans-serif}\
.heading{font-size:20px;font-weight:bold;fill:#1b2430}\
.under,.foot{font-size:12px;fill:#5b6675}\
.legend{font-size:13px;fill:#1b2430}\
.label{font-family:'DejaVu Sans Mono',monospace;font-size:12px;fill:#1b2430}\
.number{font-size:13px;fill:#7c8898}\
.answer{font-size:11px}\
.note{font-size:10.5px;fill:#7c8898}\
.count{font-size:12px;fill:#1b2430}\
.tables,.cut{font-size:10.5px;fill:#7c8898}\
.addr{font-family:'DejaVu Sans Mono',monospace;font-size:10.5px;fill:#3b4654}\
.box{font-size:11.5px}\
.grid{stroke:#e3e7ec;stroke-width:1}\
.tick{stroke:#aab4c2;stroke-width:1}\
.zigzag{fill:none;stroke:#c3cad4;stroke-width:1}\
</style>\n";

/// What zeros and read-only pages are filled with.
pub const PATTERNS: &str = "<defs>\
<pattern id=\"zero\" width=\"8\" height=\"8\" patternUnits=\"userSpaceOnUse\" patternTransform=\"rotate(45)\">\
<rect width=\"8\" height=\"8\" fill=\"#eef1f4\"/><line x1=\"0\" y1=\"0\" x2=\"0\" y2=\"8\" stroke=\"#aab4c2\" stroke-width=\"1.6\"/></pattern>\
<pattern id=\"dots\" width=\"6\" height=\"6\" patternUnits=\"userSpaceOnUse\">\
<circle cx=\"3\" cy=\"3\" r=\"1.1\" fill=\"#ffffff\" fill-opacity=\"0.9\"/></pattern>\
</defs>\n";

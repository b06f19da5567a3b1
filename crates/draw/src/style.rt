//! How the shapes of a picture look: the classes of its style, on light and on dark pages.
use requests::Kind;
use sseq::Index;

/// What the classes mean. A page that is dark has the second part.
pub const STYLE: &str = "\
.page{fill:#fff}text{fill:#1d2733}.number{fill:#7d8793;font-size:10px}.comment{fill:#6b7580;font-style:italic;font-size:11px}
.reply{fill:#44505c}.wrong{fill:#b03020}.ground{fill:#fbe9e7}.rule{stroke:#eceff2}.frame{fill:none;stroke:#cfd6dd}
.first{fill:#d5e8da}.second{fill:#95c4a2}.edge,.flip{stroke:#2e7d4f;stroke-width:2}.flip{stroke-dasharray:3 2}.end{fill:#2e7d4f}
.wait{stroke:#c0392b;stroke-width:1.4;stroke-dasharray:2 2}.waits{fill:#c0392b}
.job,.out,.queued{stroke:#7b4fa3}.job{stroke-dasharray:1 3}.queued,.given,.at-zero,.at-one{fill:#fff}.ran{fill:#7b4fa3}
.given,.shared{stroke:#5b6672}.done{fill:#5b6672}.shared{fill:#e4e8ec}
.zero{fill:#2f6fc4}.zero-held{fill:#a9c6ea}.zero-held,.to-zero,.at-zero{stroke:#2f6fc4}
.one{fill:#c9720b}.one-held{fill:#f3cf9f}.one-held,.to-one,.at-one{stroke:#c9720b}
.to-zero,.at-zero,.to-one,.at-one{stroke-width:2}.name{fill:#fff;font-size:10px}.held-name{font-size:10px}
@media(prefers-color-scheme:dark){
.page{fill:#14181d}text{fill:#dde3ea}.number{fill:#8d98a4}.comment{fill:#98a3ae}
.reply{fill:#b7c1cb}.wrong{fill:#ff8a7a}.ground{fill:#4a211d}.rule{stroke:#242b32}.frame{stroke:#46505b}
.first{fill:#23432f}.second{fill:#3f7d56}.edge,.flip{stroke:#6fce94}.end{fill:#6fce94}
.wait{stroke:#ff7b6b}.waits{fill:#ff7b6b}
.job,.out,.queued{stroke:#b792dd}.queued,.given,.at-zero,.at-one{fill:#14181d}.ran{fill:#b792dd}
.given,.shared{stroke:#aab4be}.done{fill:#aab4be}.shared{fill:#333c45}
.zero{fill:#3f82dc}.zero-held{fill:#1f3f66}.zero-held,.to-zero,.at-zero{stroke:#5b97e6}
.one{fill:#b8690f}.one-held{fill:#5f3d0f}.one-held,.to-one,.at-one{stroke:#e0983f}.name{fill:#fff}
}
";

/// A section: blue or orange by its index, and paler where any processor may end it.
pub fn colour(index: Index, kind: Kind) -> &'static str {
    match (index, kind) {
        (Index::Zero, Kind::Reading) => "zero",
        (Index::Zero, _) => "zero-held",
        (Index::One, Kind::Reading) => "one",
        (Index::One, _) => "one-held",
    }
}

/// A section's name.
pub fn name_colour(kind: Kind) -> &'static str {
    match kind {
        Kind::Reading => "name",
        _ => "held-name",
    }
}

/// A line from a section.
pub fn stroke(index: Index) -> &'static str {
    match index {
        Index::Zero => "to-zero",
        Index::One => "to-one",
    }
}

/// The dot where such a line ends.
pub fn dot(index: Index) -> &'static str {
    match index {
        Index::Zero => "at-zero",
        Index::One => "at-one",
    }
}

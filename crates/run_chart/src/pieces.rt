//! The fixed pieces of a page.
ghost use Rattle.std.specs.Prelude.{◌≡◌, ◌++◌, OnOk, string_bytes};
ghost use Rattle.run_chart.specs.Pieces as pieces;

use std::alloc::AllocError;

/// The rest of the page's head: its title, what the classes of bars look like, and its ground. In grey the classes differ by
/// brightness and by hatching.
pub const STYLE: &str =
    "\" font-family=\"sans-serif\" font-size=\"1100\">\n<title>Runs of jobs</title>\n\
<style>text{fill:#222}.head{font-size:1500px;font-weight:bold}.axis{text-anchor:middle}.slot{text-anchor:end;fill:#555}\
.grid{stroke:#bbb;stroke-width:80;fill:none}.drawn rect{stroke:#222;stroke-width:60}.done rect{fill:#d6e6f2}.failed rect{fill:url(#failed)}\
.killed rect{fill:url(#killed)}.unknown rect{fill:url(#unknown)}.unstarted rect{fill:url(#unstarted)}.running rect{fill:url(#running)}.many rect{stroke-width:4}\
.drawn .reserved rect{fill:#777;fill-opacity:.12;stroke:#000;stroke-width:140;stroke-dasharray:600 300}.submitted{stroke:#222;stroke-width:90;fill:none}\
.now{stroke:#000;stroke-width:130;stroke-dasharray:100 300;fill:none}.labels text{paint-order:stroke;stroke:#fff;stroke-width:300}</style>\n\
<defs><pattern id='failed' width='7' height='7' patternUnits='userSpaceOnUse' patternTransform='scale(100) rotate(45)'>\
<rect width='7' height='7' fill='#a33a32'/><path d='M0 0v7' stroke='#fff' stroke-width='3'/></pattern>\
<pattern id='killed' width='7' height='7' patternUnits='userSpaceOnUse' patternTransform='scale(100) rotate(-45)'>\
<rect width='7' height='7' fill='#f0b45a'/><path d='M0 0v7M0 0h7' stroke='#5a3200' stroke-width='2'/></pattern>\
<pattern id='unknown' width='6' height='6' patternUnits='userSpaceOnUse' patternTransform='scale(100)'>\
<rect width='6' height='6' fill='#fff'/><circle cx='3' cy='3' r='1.6' fill='#666'/></pattern>\
<pattern id='unstarted' width='6' height='4' patternUnits='userSpaceOnUse' patternTransform='scale(100)'>\
<rect width='6' height='4' fill='#fff'/><path d='M0 1h6' stroke='#333'/></pattern>\
<pattern id='running' width='6' height='6' patternUnits='userSpaceOnUse' patternTransform='scale(100)'>\
<rect width='6' height='6' fill='#c9e8c4'/><path d='M1 0v6' stroke='#2c6a25'/></pattern></defs>\n\
<rect width=\"100%\" height=\"100%\" fill=\"#fff\"/>\n";

/// What the colours mean.
pub const LEGEND: &str = "<g class='drawn' transform='translate(7000 3800)'>\
<g class='done'><rect width='2200' height='1200'/></g><g class='failed'><rect x='12500' width='2200' height='1200'/></g>\
<g class='killed'><rect x='25000' width='2200' height='1200'/></g><g class='unknown'><rect x='37500' width='2200' height='1200'/></g>\
<g class='unstarted'><rect x='50000' width='2200' height='1200'/></g><g class='running'><rect x='62500' width='2200' height='1200'/></g>\
<g class='reserved'><rect x='75000' width='2200' height='1200'/></g><path class='submitted' d='M88100 200v800M88500 200v800M89300 200v800'/></g>\n\
<g transform='translate(9800 4800)'><text>code 0</text><text x='12500'>another code</text><text x='25000'>a signal</text><text x='37500'>end not known</text>\
<text x='50000'>not started</text><text x='62500'>no end as yet</text><text x='75000'>reservation</text><text x='87500'>submissions</text></g>\n";

/// A fixed piece of a page.
#[derive(Clone, Copy)]
pub enum Piece {
    /// The page, up to its height.
    Opening,
    /// Its size in hundredths of a pixel.
    ViewBox,
    /// The rest of the head.
    Style,
    /// The heading.
    Heading,
    Runs,
    Reservations,
    Submissions,
    HeadingEnd,
    /// What the colours mean.
    Legend,
    /// The group of lanes and axis.
    Frame,
    /// The lanes: a line above each.
    Lanes,
    LaneLine,
    FirstLane,
    /// The line of a moment of the axis.
    GridLine,
    Down,
    TickLabel,
    TextEnd,
    /// The group of what is drawn.
    Drawn,
    /// The same, with thin outlines.
    ManyDrawn,
    /// The marks of submissions.
    Marks,
    /// The line of the moment of the machine.
    NowLine,
    PathEnd,
    /// The group of the numbers of jobs.
    Numbers,
    /// The number of a job in its bar.
    JobNumber,
    End,
    /// What is told of a bar.
    JobTitle,
    Attempt,
    Slots,
    From,
    Until,
    TitleEnd,
    /// A reservation.
    Reserved,
    GroupEnd,
}

/// The text of a piece.
#[tactic(auto, unfolding(crate::specs::Pieces::fixed))]
fn fixed(piece: Piece) -> &'static str
    ensures { result.now ≡ pieces.fixed piece }
{
    match piece {
        Piece::Opening => "<svg xmlns=\"http://www.w3.org/2000/svg\" width=\"1140\"",
        Piece::ViewBox => " viewBox=\"0 0 114000 ",
        Piece::Style => STYLE,
        Piece::Heading => "<text class=\"head\" x=\"7000\" y=\"2400\">Slots: ",
        Piece::Runs => ". Runs: ",
        Piece::Reservations => ". Reservations: ",
        Piece::Submissions => ". Submissions: ",
        Piece::HeadingEnd => ".</text>\n",
        Piece::Legend => LEGEND,
        Piece::Frame => "<g transform=\"translate(7000 7600)\">\n",
        Piece::Lanes => "<pattern id=\"lanes\" width=\"100000\"",
        Piece::LaneLine =>
            " patternUnits=\"userSpaceOnUse\"><path d=\"M0 0h100000\" stroke=\"#ccc\" stroke-width=\"80\"/></pattern><rect width=\"100000\"",
        Piece::FirstLane =>
            " fill=\"url(#lanes)\" stroke=\"#888\" stroke-width=\"100\"/><text class=\"slot\" x=\"-800\" y=\"1100\">1</text><text class=\"slot\" x=\"-800\"",
        Piece::GridLine => "<path class=\"grid\" d=\"M",
        Piece::Down => " 0v",
        Piece::TickLabel => "v500\"/><text class=\"axis\" dy=\"1800\"",
        Piece::TextEnd => "</text>\n",
        Piece::Drawn => "<g class=\"drawn\" transform=\"translate(7000 7600)\">\n",
        Piece::ManyDrawn => "<g class=\"drawn many\" transform=\"translate(7000 7600)\">\n",
        Piece::Marks => "<path class=\"submitted\" d=\"",
        Piece::NowLine => "<path class=\"now\" d=\"M",
        Piece::PathEnd => "\"/>\n",
        Piece::Numbers => "<g class=\"labels\" transform=\"translate(7000 7600)\">\n",
        Piece::JobNumber => "<text dx=\"300\"",
        Piece::End => "</g>\n</svg>\n",
        Piece::JobTitle => "<title>job ",
        Piece::Attempt => ", attempt ",
        Piece::Slots => ", slots ",
        Piece::From => ", from ",
        Piece::Until => " until ",
        Piece::TitleEnd => "</title>",
        Piece::Reserved => "<g class=\"reserved\"><title>reservation ",
        Piece::GroupEnd => "</g>\n",
    }
}

/// Writes a piece.
pub(crate) fn push_piece(out: &mut String, piece: Piece) -> Result<(), AllocError>
    ensures { OnOk result (string_bytes out.new ≡ string_bytes out.old ++ pieces.fixed piece) }
{
    out.push_str(fixed(piece))
}

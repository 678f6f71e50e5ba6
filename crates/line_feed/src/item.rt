use ids::LineFault;
use mc_lines::Request;

/// What a connection brings.
#[derive(Clone, Copy, Debug, PartialEq, Eq)]
pub enum Item<'a> {
    /// A request, and whether its line has the word `noreply`.
    Request(Request<'a>, bool),
    /// The line `quit`. Nothing is read behind it.
    Quit,
    /// A line that is neither. Nothing is read behind it, but after `UnknownName` the next line is.
    Bad(LineFault),
}

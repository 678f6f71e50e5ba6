/// How fast a replica asks. Times are milliseconds.
#[derive(Clone, Copy, Debug, PartialEq, Eq)]
pub struct Pace {
    /// How far behind it asks: more heights than so many.
    pub least: u64,
    /// How near it has to come before it asks no more: so many heights.
    pub near: u64,
    /// After how long in which nothing was executed the next one is asked; as much more for each round in which none of the
    /// others brought something new. So long an answer is awaited, too, at first and at least: twice as long as the last one
    /// took that brought something new, and twice as long again behind each that didn't come.
    pub pause: u64,
    /// It is no longer than this.
    pub most_pause: u64,
    /// For how long one is asked again and again, at most, before it's the next one's turn. The last question of a turn is
    /// awaited as any other.
    pub turn: u64,
    /// How many bytes are asked for at once, at first and at least. Twice as many behind each answer that brought nothing
    /// new: of long frames an answer has few heights, and only behind some of them something is executed. Half as many
    /// behind each that did, or didn't come.
    pub bytes: u64,
    /// It is no more than this.
    pub most_bytes: u64,
}

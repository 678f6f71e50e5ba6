/// What ended a connection.
#[derive(Clone, Copy, Debug, PartialEq, Eq)]
pub enum End {
    /// The line `quit` came.
    Quit,
    /// A read told the end. What was unfinished then is dropped.
    Input,
    /// A line came that is no request, behind which nothing can be read.
    Closed,
    /// The service refused.
    NoReply,
}

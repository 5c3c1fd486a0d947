use lines::LineState;

// How far a line is read: the bytes taken or dropped, and the state behind them.
#[derive(Clone, Copy, Debug, PartialEq, Eq)]
pub(crate) struct Cursor {
    pub(crate) taken: usize,
    pub(crate) state: LineState,
}

impl Cursor {
    // Nothing of the line is read.
    pub(crate) const START: Cursor = Cursor {
        taken: 0,
        state: LineState::NewLine,
    };
}

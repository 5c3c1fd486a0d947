/// A number or a word that stands for nothing of the kind that is asked for.
#[derive(Clone, Copy, Debug, PartialEq, Eq)]
pub struct Unknown(pub u32);

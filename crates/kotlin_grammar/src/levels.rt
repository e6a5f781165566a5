// How deep what an action builds is.

/// How many parts.
#[derive(Clone, Copy)]
pub enum Parts {
    Zero,
    One,
    Two,
    Three,
}

/// What is made of the depth of parts.
#[derive(Clone, Copy)]
pub enum Level {
    /// It is as deep as they are.
    Same,
    /// It is one deeper.
    Deeper,
    /// It has no depth.
    Gone,
}

/// Of so many parts the depth counts, of so many below them it doesn't.
#[derive(Clone, Copy)]
pub struct Levels {
    pub parts: Parts,
    pub under: Parts,
    pub level: Level,
}

// What may be wrong with brackets.

/// What is wrong with a bracket.
#[derive(Clone, Copy, Debug)]
pub enum Flaw {
    /// It has no partner.
    Lonely,
    /// It opens where 1,600 others are open.
    TooDeep,
}

/// A bracket at fault: its number among the tokens, from 0, and what is wrong with it.
#[derive(Clone, Copy)]
pub struct Flawed {
    pub number: u32,
    pub flaw: Flaw,
}

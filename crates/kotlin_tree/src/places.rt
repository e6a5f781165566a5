// Places in a raw file.

/// Where something stands in a raw file: the byte from 0, the line and the column from 1.
/// Lines end at LF, CR or CR LF, and a column counts bytes. What was made and not read stands at 0, 1, 1.
#[derive(Clone, Copy, Debug, PartialEq, Eq)]
pub struct Position {
    pub offset: u32,
    pub line: u32,
    pub column: u32,
}

/// Where `(` and `)` stand, or `[` and `]`, or `<` and `>`, or `{` and `}`.
#[derive(Clone, Copy, Debug, PartialEq, Eq)]
pub struct Brackets {
    pub opens: Position,
    pub closes: Position,
}

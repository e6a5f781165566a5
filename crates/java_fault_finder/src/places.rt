//! Where a run is, and what a token does there.

ghost use Rattle.std.specs.Prelude.{◌≡◌, ◌<◌, ◌-◌};
ghost use Rattle.java_fault_grammar.specs.Runs.{outside, inside, turned};
ghost use Rattle.java_fault_finder.specs.Ends.{kind_seen, turn_seen, place_seen, Deeper};

/// What ends a run.
#[derive(Clone, Copy, Debug, PartialEq, Eq)]
pub enum End {
    /// `;`
    Semicolon,
    /// The `{` of the body of a type.
    Body,
    /// The `}` of a `{` before which no `=` stood in the run.
    Block,
    /// The end of its level, which is no part of it: a bracket that closes, or the end of the tokens.
    Level,
}

/// What a token is in a run.
#[derive(Clone, Copy)]
pub enum Kind {
    OpenCurly,
    CloseCurly,
    /// `(` or `[`.
    Opens,
    /// `)` or `]`.
    Closes,
    Semicolon,
    /// `=`
    Assign,
    /// `class`, `interface` or `enum`.
    Declares,
    Other,
}

/// Where a run is.
#[derive(Clone, Copy)]
pub struct Place {
    /// How many of its brackets are open.
    pub depth: usize,
    /// Whether the `}` of the outermost ends it.
    pub ends: bool,
    /// Whether outside of its brackets a token that declares came with no `=` before it.
    pub is_type: bool,
    /// Whether outside of its brackets a `=` came.
    pub has_value: bool,
}

/// What a token does.
#[derive(Clone, Copy)]
pub enum Turn {
    /// The run goes on, at this place.
    On(Place),
    /// It ends with the token.
    Stop(End),
    /// It ends before the token.
    Left,
}

/// Where no bracket is open.
fn outside(place: Place, kind: Kind) -> Turn
    ensures { turn_seen result ≡ outside place.is_type place.has_value (kind_seen kind) }
{
    let Place {
        is_type,
        has_value,
        ..
    } = place;
    let level = Place {
        depth: 0,
        ends: false,
        is_type,
        has_value,
    };
    match kind {
        Kind::OpenCurly if is_type => Turn::Stop(End::Body),
        Kind::OpenCurly => Turn::On(Place {
            depth: 1,
            ends: !has_value,
            is_type,
            has_value,
        }),
        Kind::Opens => Turn::On(Place { depth: 1, ..level }),
        Kind::CloseCurly | Kind::Closes => Turn::Left,
        Kind::Semicolon => Turn::Stop(End::Semicolon),
        Kind::Assign => Turn::On(Place {
            has_value: true,
            ..level
        }),
        Kind::Declares if !has_value => Turn::On(Place {
            is_type: true,
            ..level
        }),
        Kind::Declares | Kind::Other => Turn::On(level),
    }
}

/// Where brackets are open.
fn inside(place: Place, kind: Kind) -> Turn
    requires few { place.depth < usize.MAX }
    requires some { 0 < place.depth }
    ensures { turn_seen result ≡ inside (place.depth - 1) place.ends place.is_type place.has_value (kind_seen kind) }
{
    let deeper = Place {
        depth: place.depth + 1,
        ..place
    };
    let outer = Place {
        depth: place.depth - 1,
        ..place
    };
    match kind {
        Kind::OpenCurly | Kind::Opens => Turn::On(deeper),
        Kind::CloseCurly if outer.depth == 0 && place.ends => Turn::Stop(End::Block),
        Kind::CloseCurly | Kind::Closes => Turn::On(outer),
        _ => Turn::On(place),
    }
}

/// What a token does at a place.
pub fn turned(place: Place, kind: Kind) -> Turn
    requires { place.depth < usize.MAX }
    ensures same { turn_seen result ≡ turned (place_seen place) (kind_seen kind) }
    ensures deeper { Deeper place.depth result }
{
    if place.depth == 0 {
        outside(place, kind)
    } else {
        inside(place, kind)
    }
}

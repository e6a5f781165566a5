// Places of expressions.

ghost use Rattle.std.specs.Prelude.{◌≡◌};
ghost use Rattle.kotlin_layout.specs.Parens as r;

use kotlin_layout::{Neighbor, Place, level_of};
use kotlin_tree::{KBinary, KPrefix};

/// Where everything stands as it is.
pub const FREE: Place = Place {
    level: 0,
    in_list: false,
    neighbor: Neighbor::Other,
};

/// Between commas.
pub const LISTED: Place = Place {
    level: 0,
    in_list: true,
    neighbor: Neighbor::Other,
};

/// An operand at a level, within the place of the whole.
pub fn operand(level: u8, place: Place) -> Place
    ensures { result ≡ r.operand_place level place }
{
    Place {
        level,
        in_list: place.in_list,
        neighbor: Neighbor::Other,
    }
}

fn behind_left(operator: KBinary) -> Neighbor
    ensures { result ≡ r.behind_left operator }
{
    match operator {
        KBinary::Less => Neighbor::Less,
        KBinary::Greater => Neighbor::Greater,
        _ => Neighbor::Other,
    }
}

/// The left operand of an operator.
pub fn left_place(operator: KBinary, place: Place) -> Place
    ensures { result ≡ r.left_place operator place }
{
    Place {
        level: level_of(operator),
        in_list: place.in_list,
        neighbor: behind_left(operator),
    }
}

fn right_level(operator: KBinary) -> u8
    ensures { result ≡ r.right_level operator }
{
    match level_of(operator) {
        1 => 2,
        2 => 3,
        3 => 4,
        4 => 5,
        6 => 7,
        7 => 8,
        _ => 9,
    }
}

/// The right operand of an operator.
pub fn right_place(operator: KBinary, place: Place) -> Place
    ensures { result ≡ r.right_place operator place }
{
    Place {
        level: right_level(operator),
        in_list: place.in_list,
        neighbor: place.neighbor,
    }
}

/// The operand of an operator before it.
pub fn prefix_place(operator: KPrefix, place: Place) -> Place
    ensures { result ≡ r.prefix_place operator place }
{
    Place {
        level: 10,
        in_list: place.in_list,
        neighbor: Neighbor::Prefix(operator),
    }
}

// The types of the library's parameters and results. What a name ends in is its mark: nullable, checked or not null.

use crate::numbers;
use crate::rows::{LibKind, LibType, Mark};
use j2k_base::Kind;

pub const VOID: LibType = LibType {
    kind: LibKind::Void,
    mark: Mark::Plain,
};

pub const BOOLEAN: LibType = LibType {
    kind: LibKind::Boolean,
    mark: Mark::Plain,
};

pub const BYTE: LibType = LibType {
    kind: LibKind::Number(Kind::Byte),
    mark: Mark::Plain,
};

pub const SHORT: LibType = LibType {
    kind: LibKind::Number(Kind::Short),
    mark: Mark::Plain,
};

pub const CHAR: LibType = LibType {
    kind: LibKind::Number(Kind::Char),
    mark: Mark::Plain,
};

pub const INT: LibType = LibType {
    kind: LibKind::Number(Kind::Int),
    mark: Mark::Plain,
};

pub const LONG: LibType = LibType {
    kind: LibKind::Number(Kind::Long),
    mark: Mark::Plain,
};

pub const CHARS: LibType = LibType {
    kind: LibKind::Chars,
    mark: Mark::Plain,
};

pub const CHARS_CHECKED: LibType = LibType {
    kind: LibKind::Chars,
    mark: Mark::Checked,
};

pub const OBJECT: LibType = LibType {
    kind: LibKind::Object(numbers::OBJECT),
    mark: Mark::Plain,
};

pub const OBJECT_NULLABLE: LibType = LibType {
    kind: LibKind::Object(numbers::OBJECT),
    mark: Mark::MayBeNull,
};

pub const STRING: LibType = LibType {
    kind: LibKind::Object(numbers::STRING),
    mark: Mark::Plain,
};

pub const STRING_NULLABLE: LibType = LibType {
    kind: LibKind::Object(numbers::STRING),
    mark: Mark::MayBeNull,
};

pub const STRING_CHECKED: LibType = LibType {
    kind: LibKind::Object(numbers::STRING),
    mark: Mark::Checked,
};

pub const STRING_BUILDER: LibType = LibType {
    kind: LibKind::Object(numbers::STRING_BUILDER),
    mark: Mark::Plain,
};

pub const RUNNABLE_NOT_NULL: LibType = LibType {
    kind: LibKind::Object(numbers::RUNNABLE),
    mark: Mark::NotNull,
};

pub const FIRST: LibType = LibType {
    kind: LibKind::Variable(0),
    mark: Mark::Plain,
};

pub const SECOND: LibType = LibType {
    kind: LibKind::Variable(1),
    mark: Mark::Plain,
};

pub const SECOND_NULLABLE: LibType = LibType {
    kind: LibKind::Variable(1),
    mark: Mark::MayBeNull,
};

// The classes of the library by their places in the table.

pub const OBJECT: u8 = 0;

pub const STRING: u8 = 1;

pub const STRING_BUILDER: u8 = 2;

pub const INTEGER: u8 = 3;

pub const LONG: u8 = 4;

pub const SHORT: u8 = 5;

pub const BYTE: u8 = 6;

pub const CHARACTER: u8 = 7;

pub const BOOLEAN: u8 = 8;

pub const MATH: u8 = 9;

pub const ARRAY_LIST: u8 = 10;

pub const HASH_MAP: u8 = 11;

pub const LIST: u8 = 12;

pub const MAP: u8 = 13;

pub const RUNNABLE: u8 = 14;

pub const THREAD: u8 = 15;

pub const SYSTEM: u8 = 16;

pub const THROWABLE: u8 = 17;

pub const EXCEPTION: u8 = 18;

pub const ERROR: u8 = 19;

pub const RUNTIME_EXCEPTION: u8 = 20;

pub const INTERRUPTED_EXCEPTION: u8 = 21;

pub const IO_EXCEPTION: u8 = 22;

pub const ARITHMETIC_EXCEPTION: u8 = 23;

pub const CLASS_CAST_EXCEPTION: u8 = 24;

pub const ILLEGAL_ARGUMENT_EXCEPTION: u8 = 25;

pub const ILLEGAL_STATE_EXCEPTION: u8 = 26;

pub const INDEX_OUT_OF_BOUNDS_EXCEPTION: u8 = 27;

pub const NEGATIVE_ARRAY_SIZE_EXCEPTION: u8 = 28;

pub const NULL_POINTER_EXCEPTION: u8 = 29;

pub const CONCURRENT_MODIFICATION_EXCEPTION: u8 = 30;

pub const NUMBER_FORMAT_EXCEPTION: u8 = 31;

pub const ILLEGAL_THREAD_STATE_EXCEPTION: u8 = 32;

pub const ARRAY_INDEX_OUT_OF_BOUNDS_EXCEPTION: u8 = 33;

pub const STRING_INDEX_OUT_OF_BOUNDS_EXCEPTION: u8 = 34;

pub const EXCEPTION_IN_INITIALIZER_ERROR: u8 = 35;

pub const NO_CLASS_DEF_FOUND_ERROR: u8 = 36;

// The members of the classes of the library.
ghost use Rattle.std.specs.Prelude.{◌≡◌, ◌<◌, ◌≤◌, IsTrue, Some, length, slice_get, map};
ghost use Rattle.java_lib.specs.Library.{members};
ghost use Rattle.java_lib.specs.Members.{member_of, members_differ, members_stand};

use crate::numbers;
use crate::rows::{Form, LibKind, LibType, Mark, MemberRow};
use crate::types::*;

macro_rules! member {
    ($form:ident $java:literal ($($param:expr),*) $result:expr, $kotlin:literal) => {
        MemberRow {
            java: $java,
            kotlin: $kotlin,
            form: Form::$form,
            params: &[$($param),*],
            result: $result,
            throws: None,
        }
    };
    ($form:ident $java:literal ($($param:expr),*) $result:expr, $kotlin:literal, $throws:expr) => {
        MemberRow {
            java: $java,
            kotlin: $kotlin,
            form: Form::$form,
            params: &[$($param),*],
            result: $result,
            throws: Some($throws),
        }
    };
}

macro_rules! create {
    ($java:literal, $kotlin:literal, $number:path, ($($param:expr),*)) => {
        MemberRow {
            java: $java,
            kotlin: $kotlin,
            form: Form::Create,
            params: &[$($param),*],
            result: LibType {
                kind: LibKind::Object($number),
                mark: Mark::Plain,
            },
            throws: None,
        }
    };
}

macro_rules! throwable {
    ($name:literal, $number:path) => {
        [
            create!($name, $name, $number, ()),
            create!($name, $name, $number, (STRING_NULLABLE)),
            member!(Property "getMessage" () STRING_NULLABLE, "message"),
        ]
    };
}

static OBJECT_MEMBERS: [MemberRow; 4] = [
    create!("Object", "Any", numbers::OBJECT, ()),
    member!(Method "equals" (OBJECT_NULLABLE) BOOLEAN, "equals"),
    member!(Method "hashCode" () INT, "hashCode"),
    member!(Method "toString" () STRING, "toString"),
];

static STRING_MEMBERS: [MemberRow; 15] = [
    member!(Property "length" () INT, "length"),
    member!(Method "charAt" (INT) CHAR, "get"),
    member!(Method "toString" () STRING, "toString"),
    member!(Method "hashCode" () INT, "hashCode"),
    member!(Method "isEmpty" () BOOLEAN, "isEmpty"),
    member!(Method "substring" (INT) STRING, "substring"),
    member!(Method "substring" (INT, INT) STRING, "substring"),
    member!(Method "indexOf" (STRING_CHECKED) INT, "indexOf"),
    member!(Method "startsWith" (STRING_CHECKED) BOOLEAN, "startsWith"),
    member!(Method "endsWith" (STRING_CHECKED) BOOLEAN, "endsWith"),
    member!(Method "contains" (STRING_CHECKED) BOOLEAN, "contains"),
    member!(Method "compareTo" (STRING_CHECKED) INT, "compareTo"),
    member!(Method "equals" (OBJECT_NULLABLE) BOOLEAN, "equals"),
    member!(Method "toCharArray" () CHARS, "toCharArray"),
    create!("String", "String", numbers::STRING, (CHARS_CHECKED)),
];

static STRING_BUILDER_MEMBERS: [MemberRow; 13] = [
    create!(
        "StringBuilder",
        "StringBuilder",
        numbers::STRING_BUILDER,
        ()
    ),
    create!(
        "StringBuilder",
        "StringBuilder",
        numbers::STRING_BUILDER,
        (STRING_CHECKED)
    ),
    member!(Method "append" (BOOLEAN) STRING_BUILDER, "append"),
    member!(Method "append" (CHAR) STRING_BUILDER, "append"),
    member!(Method "append" (INT) STRING_BUILDER, "append"),
    member!(Method "append" (LONG) STRING_BUILDER, "append"),
    member!(Method "append" (STRING_NULLABLE) STRING_BUILDER, "append"),
    member!(Method "append" (OBJECT_NULLABLE) STRING_BUILDER, "append"),
    member!(Method "reverse" () STRING_BUILDER, "reverse"),
    member!(Method "deleteCharAt" (INT) STRING_BUILDER, "deleteCharAt"),
    member!(Method "toString" () STRING, "toString"),
    member!(Property "length" () INT, "length"),
    member!(Method "charAt" (INT) CHAR, "get"),
];

static INTEGER_MEMBERS: [MemberRow; 10] = [
    member!(Constant "MAX_VALUE" () INT, "Int.MAX_VALUE"),
    member!(Constant "MIN_VALUE" () INT, "Int.MIN_VALUE"),
    member!(Static "parseInt" (STRING_NULLABLE) INT, "java.lang.Integer.parseInt"),
    member!(Static "toString" (INT) STRING, "java.lang.Integer.toString"),
    member!(Static "compare" (INT, INT) INT, "java.lang.Integer.compare"),
    member!(Method "intValue" () INT, "toInt"),
    member!(Method "longValue" () LONG, "toLong"),
    member!(Method "equals" (OBJECT_NULLABLE) BOOLEAN, "equals"),
    member!(Method "hashCode" () INT, "hashCode"),
    member!(Method "toString" () STRING, "toString"),
];

static LONG_MEMBERS: [MemberRow; 10] = [
    member!(Constant "MAX_VALUE" () LONG, "Long.MAX_VALUE"),
    member!(Constant "MIN_VALUE" () LONG, "Long.MIN_VALUE"),
    member!(Static "parseLong" (STRING_NULLABLE) LONG, "java.lang.Long.parseLong"),
    member!(Static "toString" (LONG) STRING, "java.lang.Long.toString"),
    member!(Static "compare" (LONG, LONG) INT, "java.lang.Long.compare"),
    member!(Method "intValue" () INT, "toInt"),
    member!(Method "longValue" () LONG, "toLong"),
    member!(Method "equals" (OBJECT_NULLABLE) BOOLEAN, "equals"),
    member!(Method "hashCode" () INT, "hashCode"),
    member!(Method "toString" () STRING, "toString"),
];

static SHORT_MEMBERS: [MemberRow; 6] = [
    member!(Constant "MAX_VALUE" () SHORT, "Short.MAX_VALUE"),
    member!(Constant "MIN_VALUE" () SHORT, "Short.MIN_VALUE"),
    member!(Receiver "shortValue" () SHORT, ""),
    member!(Method "equals" (OBJECT_NULLABLE) BOOLEAN, "equals"),
    member!(Method "hashCode" () INT, "hashCode"),
    member!(Method "toString" () STRING, "toString"),
];

static BYTE_MEMBERS: [MemberRow; 6] = [
    member!(Constant "MAX_VALUE" () BYTE, "Byte.MAX_VALUE"),
    member!(Constant "MIN_VALUE" () BYTE, "Byte.MIN_VALUE"),
    member!(Receiver "byteValue" () BYTE, ""),
    member!(Method "equals" (OBJECT_NULLABLE) BOOLEAN, "equals"),
    member!(Method "hashCode" () INT, "hashCode"),
    member!(Method "toString" () STRING, "toString"),
];

static CHARACTER_MEMBERS: [MemberRow; 4] = [
    member!(Receiver "charValue" () CHAR, ""),
    member!(Method "equals" (OBJECT_NULLABLE) BOOLEAN, "equals"),
    member!(Method "hashCode" () INT, "hashCode"),
    member!(Method "toString" () STRING, "toString"),
];

static BOOLEAN_MEMBERS: [MemberRow; 4] = [
    member!(Receiver "booleanValue" () BOOLEAN, ""),
    member!(Method "equals" (OBJECT_NULLABLE) BOOLEAN, "equals"),
    member!(Method "hashCode" () INT, "hashCode"),
    member!(Method "toString" () STRING, "toString"),
];

static MATH_MEMBERS: [MemberRow; 6] = [
    member!(Static "max" (INT, INT) INT, "Math.max"),
    member!(Static "max" (LONG, LONG) LONG, "Math.max"),
    member!(Static "min" (INT, INT) INT, "Math.min"),
    member!(Static "min" (LONG, LONG) LONG, "Math.min"),
    member!(Static "abs" (INT) INT, "Math.abs"),
    member!(Static "abs" (LONG) LONG, "Math.abs"),
];

static ARRAY_LIST_MEMBERS: [MemberRow; 11] = [
    create!("ArrayList", "ArrayList", numbers::ARRAY_LIST, ()),
    create!("ArrayList", "ArrayList", numbers::ARRAY_LIST, (INT)),
    member!(Method "add" (FIRST) BOOLEAN, "add"),
    member!(Method "add" (INT, FIRST) VOID, "add"),
    member!(Method "get" (INT) FIRST, "get"),
    member!(Method "set" (INT, FIRST) FIRST, "set"),
    member!(Method "isEmpty" () BOOLEAN, "isEmpty"),
    member!(Method "clear" () VOID, "clear"),
    member!(Method "remove" (INT) FIRST, "removeAt"),
    member!(Property "size" () INT, "size"),
    member!(Barred "remove" (OBJECT) BOOLEAN, ""),
];

static HASH_MAP_MEMBERS: [MemberRow; 8] = [
    create!("HashMap", "HashMap", numbers::HASH_MAP, ()),
    member!(Method "put" (FIRST, SECOND) SECOND_NULLABLE, "put"),
    member!(Method "get" (FIRST) SECOND_NULLABLE, "get"),
    member!(Method "remove" (FIRST) SECOND_NULLABLE, "remove"),
    member!(Method "containsKey" (FIRST) BOOLEAN, "containsKey"),
    member!(Method "isEmpty" () BOOLEAN, "isEmpty"),
    member!(Method "clear" () VOID, "clear"),
    member!(Property "size" () INT, "size"),
];

static LIST_MEMBERS: [MemberRow; 9] = [
    member!(Method "add" (FIRST) BOOLEAN, "add"),
    member!(Method "add" (INT, FIRST) VOID, "add"),
    member!(Method "get" (INT) FIRST, "get"),
    member!(Method "set" (INT, FIRST) FIRST, "set"),
    member!(Method "isEmpty" () BOOLEAN, "isEmpty"),
    member!(Method "clear" () VOID, "clear"),
    member!(Method "remove" (INT) FIRST, "removeAt"),
    member!(Property "size" () INT, "size"),
    member!(Barred "remove" (OBJECT) BOOLEAN, ""),
];

static MAP_MEMBERS: [MemberRow; 7] = [
    member!(Method "put" (FIRST, SECOND) SECOND_NULLABLE, "put"),
    member!(Method "get" (FIRST) SECOND_NULLABLE, "get"),
    member!(Method "remove" (FIRST) SECOND_NULLABLE, "remove"),
    member!(Method "containsKey" (FIRST) BOOLEAN, "containsKey"),
    member!(Method "isEmpty" () BOOLEAN, "isEmpty"),
    member!(Method "clear" () VOID, "clear"),
    member!(Property "size" () INT, "size"),
];

static RUNNABLE_MEMBERS: [MemberRow; 1] = [member!(Method "run" () VOID, "run")];

static THREAD_MEMBERS: [MemberRow; 3] = [
    create!("Thread", "Thread", numbers::THREAD, (RUNNABLE_NOT_NULL)),
    member!(Method "start" () VOID, "start"),
    member!(Method "join" () VOID, "join", numbers::INTERRUPTED_EXCEPTION),
];

static SYSTEM_MEMBERS: [MemberRow; 14] = [
    member!(Function "out.print" (BOOLEAN) VOID, "print"),
    member!(Function "out.print" (CHAR) VOID, "print"),
    member!(Function "out.print" (INT) VOID, "print"),
    member!(Function "out.print" (LONG) VOID, "print"),
    member!(Function "out.print" (STRING_NULLABLE) VOID, "print"),
    member!(Function "out.print" (OBJECT_NULLABLE) VOID, "print"),
    member!(Function "out.println" (BOOLEAN) VOID, "println"),
    member!(Function "out.println" (CHAR) VOID, "println"),
    member!(Function "out.println" (INT) VOID, "println"),
    member!(Function "out.println" (LONG) VOID, "println"),
    member!(Function "out.println" (STRING_NULLABLE) VOID, "println"),
    member!(Function "out.println" (OBJECT_NULLABLE) VOID, "println"),
    member!(Function "out.println" () VOID, "println"),
    member!(Input "in.read" () INT, "System.`in`.read", numbers::IO_EXCEPTION),
];

static THROWABLE_MEMBERS: [MemberRow; 3] = throwable!("Throwable", numbers::THROWABLE);

static EXCEPTION_MEMBERS: [MemberRow; 3] = throwable!("Exception", numbers::EXCEPTION);

static ERROR_MEMBERS: [MemberRow; 3] = throwable!("Error", numbers::ERROR);

static RUNTIME_EXCEPTION_MEMBERS: [MemberRow; 3] = throwable!(
    "RuntimeException",
    numbers::RUNTIME_EXCEPTION
);

static INTERRUPTED_EXCEPTION_MEMBERS: [MemberRow; 3] = throwable!(
    "InterruptedException",
    numbers::INTERRUPTED_EXCEPTION
);

static IO_EXCEPTION_MEMBERS: [MemberRow; 3] = throwable!("IOException", numbers::IO_EXCEPTION);

static ARITHMETIC_EXCEPTION_MEMBERS: [MemberRow; 3] = throwable!(
    "ArithmeticException",
    numbers::ARITHMETIC_EXCEPTION
);

static CLASS_CAST_EXCEPTION_MEMBERS: [MemberRow; 3] = throwable!(
    "ClassCastException",
    numbers::CLASS_CAST_EXCEPTION
);

static ILLEGAL_ARGUMENT_EXCEPTION_MEMBERS: [MemberRow; 3] = throwable!(
    "IllegalArgumentException",
    numbers::ILLEGAL_ARGUMENT_EXCEPTION
);

static ILLEGAL_STATE_EXCEPTION_MEMBERS: [MemberRow; 3] = throwable!(
    "IllegalStateException",
    numbers::ILLEGAL_STATE_EXCEPTION
);

static INDEX_OUT_OF_BOUNDS_EXCEPTION_MEMBERS: [MemberRow; 3] = throwable!(
    "IndexOutOfBoundsException",
    numbers::INDEX_OUT_OF_BOUNDS_EXCEPTION
);

static NEGATIVE_ARRAY_SIZE_EXCEPTION_MEMBERS: [MemberRow; 3] = throwable!(
    "NegativeArraySizeException",
    numbers::NEGATIVE_ARRAY_SIZE_EXCEPTION
);

static NULL_POINTER_EXCEPTION_MEMBERS: [MemberRow; 3] = throwable!(
    "NullPointerException",
    numbers::NULL_POINTER_EXCEPTION
);

static CONCURRENT_MODIFICATION_EXCEPTION_MEMBERS: [MemberRow; 3] = throwable!(
    "ConcurrentModificationException",
    numbers::CONCURRENT_MODIFICATION_EXCEPTION
);

static NUMBER_FORMAT_EXCEPTION_MEMBERS: [MemberRow; 3] = throwable!(
    "NumberFormatException",
    numbers::NUMBER_FORMAT_EXCEPTION
);

static ILLEGAL_THREAD_STATE_EXCEPTION_MEMBERS: [MemberRow; 3] = throwable!(
    "IllegalThreadStateException",
    numbers::ILLEGAL_THREAD_STATE_EXCEPTION
);

static ARRAY_INDEX_OUT_OF_BOUNDS_EXCEPTION_MEMBERS: [MemberRow; 3] = throwable!(
    "ArrayIndexOutOfBoundsException",
    numbers::ARRAY_INDEX_OUT_OF_BOUNDS_EXCEPTION
);

static STRING_INDEX_OUT_OF_BOUNDS_EXCEPTION_MEMBERS: [MemberRow; 3] = throwable!(
    "StringIndexOutOfBoundsException",
    numbers::STRING_INDEX_OUT_OF_BOUNDS_EXCEPTION
);

static EXCEPTION_IN_INITIALIZER_ERROR_MEMBERS: [MemberRow; 3] = throwable!(
    "ExceptionInInitializerError",
    numbers::EXCEPTION_IN_INITIALIZER_ERROR
);

static NO_CLASS_DEF_FOUND_ERROR_MEMBERS: [MemberRow; 3] = throwable!(
    "NoClassDefFoundError",
    numbers::NO_CLASS_DEF_FOUND_ERROR
);

/// The members of the class of this number. It takes no memory.
pub fn member_rows(class: u8) -> &'static [MemberRow]
    requires { class < length members }
    ensures value { slice_get members class ≡ Some (map member_of result.now) }
    ensures stands { IsTrue (members_stand class (map member_of result.now)) }
    ensures distinct { IsTrue (members_differ (map member_of result.now)) }
{
    if class < numbers::ARRAY_LIST {
        value_members(class)
    } else if class < numbers::THROWABLE {
        other_members(class)
    } else {
        throwable_members(class)
    }
}

// Object, Strings, boxes and Math.
fn value_members(class: u8) -> &'static [MemberRow]
    requires { class < 10 }
    ensures { slice_get members class ≡ Some (map member_of result.now) }
{
    match class {
        numbers::OBJECT => &OBJECT_MEMBERS,
        numbers::STRING => &STRING_MEMBERS,
        numbers::STRING_BUILDER => &STRING_BUILDER_MEMBERS,
        numbers::INTEGER => &INTEGER_MEMBERS,
        numbers::LONG => &LONG_MEMBERS,
        numbers::SHORT => &SHORT_MEMBERS,
        numbers::BYTE => &BYTE_MEMBERS,
        numbers::CHARACTER => &CHARACTER_MEMBERS,
        numbers::BOOLEAN => &BOOLEAN_MEMBERS,
        _ => &MATH_MEMBERS,
    }
}

// Lists, maps, threads and System.
fn other_members(class: u8) -> &'static [MemberRow]
    requires below { class < 17 }
    requires from { 10 ≤ class }
    ensures { slice_get members class ≡ Some (map member_of result.now) }
{
    match class {
        numbers::ARRAY_LIST => &ARRAY_LIST_MEMBERS,
        numbers::HASH_MAP => &HASH_MAP_MEMBERS,
        numbers::LIST => &LIST_MEMBERS,
        numbers::MAP => &MAP_MEMBERS,
        numbers::RUNNABLE => &RUNNABLE_MEMBERS,
        numbers::THREAD => &THREAD_MEMBERS,
        _ => &SYSTEM_MEMBERS,
    }
}

// Throwables.
fn throwable_members(class: u8) -> &'static [MemberRow]
    requires below { class < 37 }
    requires from { 17 ≤ class }
    ensures { slice_get members class ≡ Some (map member_of result.now) }
{
    match class {
        numbers::THROWABLE => &THROWABLE_MEMBERS,
        numbers::EXCEPTION => &EXCEPTION_MEMBERS,
        numbers::ERROR => &ERROR_MEMBERS,
        numbers::RUNTIME_EXCEPTION => &RUNTIME_EXCEPTION_MEMBERS,
        numbers::INTERRUPTED_EXCEPTION => &INTERRUPTED_EXCEPTION_MEMBERS,
        numbers::IO_EXCEPTION => &IO_EXCEPTION_MEMBERS,
        numbers::ARITHMETIC_EXCEPTION => &ARITHMETIC_EXCEPTION_MEMBERS,
        numbers::CLASS_CAST_EXCEPTION => &CLASS_CAST_EXCEPTION_MEMBERS,
        numbers::ILLEGAL_ARGUMENT_EXCEPTION => &ILLEGAL_ARGUMENT_EXCEPTION_MEMBERS,
        numbers::ILLEGAL_STATE_EXCEPTION => &ILLEGAL_STATE_EXCEPTION_MEMBERS,
        numbers::INDEX_OUT_OF_BOUNDS_EXCEPTION => &INDEX_OUT_OF_BOUNDS_EXCEPTION_MEMBERS,
        numbers::NEGATIVE_ARRAY_SIZE_EXCEPTION => &NEGATIVE_ARRAY_SIZE_EXCEPTION_MEMBERS,
        numbers::NULL_POINTER_EXCEPTION => &NULL_POINTER_EXCEPTION_MEMBERS,
        numbers::CONCURRENT_MODIFICATION_EXCEPTION => &CONCURRENT_MODIFICATION_EXCEPTION_MEMBERS,
        numbers::NUMBER_FORMAT_EXCEPTION => &NUMBER_FORMAT_EXCEPTION_MEMBERS,
        numbers::ILLEGAL_THREAD_STATE_EXCEPTION => &ILLEGAL_THREAD_STATE_EXCEPTION_MEMBERS,
        numbers::ARRAY_INDEX_OUT_OF_BOUNDS_EXCEPTION =>
            &ARRAY_INDEX_OUT_OF_BOUNDS_EXCEPTION_MEMBERS,
        numbers::STRING_INDEX_OUT_OF_BOUNDS_EXCEPTION =>
            &STRING_INDEX_OUT_OF_BOUNDS_EXCEPTION_MEMBERS,
        numbers::EXCEPTION_IN_INITIALIZER_ERROR => &EXCEPTION_IN_INITIALIZER_ERROR_MEMBERS,
        _ => &NO_CLASS_DEF_FOUND_ERROR_MEMBERS,
    }
}

// The classes of the library, in the order of their numbers.
ghost use Rattle.std.specs.Prelude.{◌≡◌, ◌↔◌, ◌<◌, IsTrue, IsNone, IfSome, All, Some, length, map};
ghost use Rattle.std.specs.Str.{bytes_eq};
ghost use Rattle.std.specs.Option.{option_copied, option_map};
ghost use Rattle.j2k_base.specs.Keys.{keys_differ};
ghost use Rattle.java_lib.specs.Library.{classes, members};
ghost use Rattle.java_lib.specs.Classes.{named, qualified, class_of, class_simple, class_named, value_qualified, above_stands, HasName, HasNoName, HasItsPlace};

use crate::numbers::*;
use crate::rows::ClassRow;
use j2k_base::{Row, Table};

macro_rules! class {
    ($java:literal, $number:expr, $package:literal, $kotlin:literal, $params:literal, $above:expr) => {
        Row {
            key: $java,
            value: ClassRow {
                number: $number,
                package: $package,
                kotlin: $kotlin,
                params: $params,
                above: $above,
            },
        }
    };
}

/// The classes by their simple names.
static CLASSES: [Row<ClassRow>; 37] = [
    class!("Object", OBJECT, "java.lang", "Any", 0, None),
    class!("String", STRING, "java.lang", "String", 0, Some(OBJECT)),
    class!(
        "StringBuilder",
        STRING_BUILDER,
        "java.lang",
        "StringBuilder",
        0,
        Some(OBJECT)
    ),
    class!("Integer", INTEGER, "java.lang", "Int", 0, Some(OBJECT)),
    class!("Long", LONG, "java.lang", "Long", 0, Some(OBJECT)),
    class!("Short", SHORT, "java.lang", "Short", 0, Some(OBJECT)),
    class!("Byte", BYTE, "java.lang", "Byte", 0, Some(OBJECT)),
    class!("Character", CHARACTER, "java.lang", "Char", 0, Some(OBJECT)),
    class!("Boolean", BOOLEAN, "java.lang", "Boolean", 0, Some(OBJECT)),
    class!("Math", MATH, "java.lang", "Math", 0, Some(OBJECT)),
    class!(
        "ArrayList",
        ARRAY_LIST,
        "java.util",
        "ArrayList",
        1,
        Some(LIST)
    ),
    class!("HashMap", HASH_MAP, "java.util", "HashMap", 2, Some(MAP)),
    class!("List", LIST, "java.util", "MutableList", 1, Some(OBJECT)),
    class!("Map", MAP, "java.util", "MutableMap", 2, Some(OBJECT)),
    class!(
        "Runnable",
        RUNNABLE,
        "java.lang",
        "Runnable",
        0,
        Some(OBJECT)
    ),
    class!("Thread", THREAD, "java.lang", "Thread", 0, Some(OBJECT)),
    class!("System", SYSTEM, "java.lang", "System", 0, Some(OBJECT)),
    class!(
        "Throwable",
        THROWABLE,
        "java.lang",
        "Throwable",
        0,
        Some(OBJECT)
    ),
    class!(
        "Exception",
        EXCEPTION,
        "java.lang",
        "Exception",
        0,
        Some(THROWABLE)
    ),
    class!("Error", ERROR, "java.lang", "Error", 0, Some(THROWABLE)),
    class!(
        "RuntimeException",
        RUNTIME_EXCEPTION,
        "java.lang",
        "RuntimeException",
        0,
        Some(EXCEPTION)
    ),
    class!(
        "InterruptedException",
        INTERRUPTED_EXCEPTION,
        "java.lang",
        "InterruptedException",
        0,
        Some(EXCEPTION)
    ),
    class!(
        "IOException",
        IO_EXCEPTION,
        "java.io",
        "IOException",
        0,
        Some(EXCEPTION)
    ),
    class!(
        "ArithmeticException",
        ARITHMETIC_EXCEPTION,
        "java.lang",
        "ArithmeticException",
        0,
        Some(RUNTIME_EXCEPTION)
    ),
    class!(
        "ClassCastException",
        CLASS_CAST_EXCEPTION,
        "java.lang",
        "ClassCastException",
        0,
        Some(RUNTIME_EXCEPTION)
    ),
    class!(
        "IllegalArgumentException",
        ILLEGAL_ARGUMENT_EXCEPTION,
        "java.lang",
        "IllegalArgumentException",
        0,
        Some(RUNTIME_EXCEPTION)
    ),
    class!(
        "IllegalStateException",
        ILLEGAL_STATE_EXCEPTION,
        "java.lang",
        "IllegalStateException",
        0,
        Some(RUNTIME_EXCEPTION)
    ),
    class!(
        "IndexOutOfBoundsException",
        INDEX_OUT_OF_BOUNDS_EXCEPTION,
        "java.lang",
        "IndexOutOfBoundsException",
        0,
        Some(RUNTIME_EXCEPTION)
    ),
    class!(
        "NegativeArraySizeException",
        NEGATIVE_ARRAY_SIZE_EXCEPTION,
        "java.lang",
        "NegativeArraySizeException",
        0,
        Some(RUNTIME_EXCEPTION)
    ),
    class!(
        "NullPointerException",
        NULL_POINTER_EXCEPTION,
        "java.lang",
        "NullPointerException",
        0,
        Some(RUNTIME_EXCEPTION)
    ),
    class!(
        "ConcurrentModificationException",
        CONCURRENT_MODIFICATION_EXCEPTION,
        "java.util",
        "ConcurrentModificationException",
        0,
        Some(RUNTIME_EXCEPTION)
    ),
    class!(
        "NumberFormatException",
        NUMBER_FORMAT_EXCEPTION,
        "java.lang",
        "NumberFormatException",
        0,
        Some(ILLEGAL_ARGUMENT_EXCEPTION)
    ),
    class!(
        "IllegalThreadStateException",
        ILLEGAL_THREAD_STATE_EXCEPTION,
        "java.lang",
        "IllegalThreadStateException",
        0,
        Some(ILLEGAL_ARGUMENT_EXCEPTION)
    ),
    class!(
        "ArrayIndexOutOfBoundsException",
        ARRAY_INDEX_OUT_OF_BOUNDS_EXCEPTION,
        "java.lang",
        "ArrayIndexOutOfBoundsException",
        0,
        Some(INDEX_OUT_OF_BOUNDS_EXCEPTION)
    ),
    class!(
        "StringIndexOutOfBoundsException",
        STRING_INDEX_OUT_OF_BOUNDS_EXCEPTION,
        "java.lang",
        "StringIndexOutOfBoundsException",
        0,
        Some(INDEX_OUT_OF_BOUNDS_EXCEPTION)
    ),
    class!(
        "ExceptionInInitializerError",
        EXCEPTION_IN_INITIALIZER_ERROR,
        "java.lang",
        "ExceptionInInitializerError",
        0,
        Some(ERROR)
    ),
    class!(
        "NoClassDefFoundError",
        NO_CLASS_DEF_FOUND_ERROR,
        "java.lang",
        "NoClassDefFoundError",
        0,
        Some(ERROR)
    ),
];

/// The class of this simple or qualified name. It takes no memory.
pub fn class_row(name: &[u8]) -> Option<&'static ClassRow>
    ensures value { option_map class_of (option_copied result) ≡ class_named name.now classes }
    ensures named { All (λ class. HasName name.now class → option_map class_of (option_copied result) ≡ Some class.1) classes }
    ensures absent { IsNone result ↔ All (HasNoName name.now) classes }
    ensures number { IfSome result (λ row. HasItsPlace (class_of row.now)) }
    ensures above { IfSome result (λ row. IsTrue (above_stands (class_of row.now))) }
    ensures members { IfSome result (λ row. row.now.number < length members) }
{
    simple_row(name).or(first_qualified(class_rows(), name))
}

/// The class of this simple name. It takes no memory.
pub fn simple_row(name: &[u8]) -> Option<&'static ClassRow>
    ensures { option_map class_of (option_copied result) ≡ class_simple name.now classes }
{
    Table::new(class_rows()).get(name)
}

// The rows of the classes are those of the library.
fn class_rows() -> &'static [Row<ClassRow>]
    ensures rows { map named result.now ≡ classes }
    ensures differ { IsTrue (keys_differ result.now) }
{
    &CLASSES
}

// The first class of this qualified name.
fn first_qualified<'a>(rows: &'a [Row<ClassRow>], name: &[u8]) -> Option<&'a ClassRow>
    ensures { option_copied result ≡ value_qualified name.now rows.entry.now }
{
    rows.iter()
        .find(|row| is_qualified(row, name))
        .map(|row| &row.value)
}

// Whether the name is the package, a dot and the simple name of the class.
fn is_qualified(row: &Row<ClassRow>, name: &[u8]) -> bool
    ensures { result ≡ bytes_eq name.now (qualified (named row.now)) }
{
    let Some(rest) = name.strip_prefix(row.value.package.as_bytes()) else {
        return false;
    };
    let Some(simple) = rest.strip_prefix(b".") else {
        return false;
    };
    simple == row.key.as_bytes()
}

// The classes and their names.

use j2k_base::NoMemory;
use java_lib::ClassRow;

// The names of the classes in the order of their numbers.
static NAMES: [&str; 37] = [
    "Object",
    "String",
    "StringBuilder",
    "Integer",
    "Long",
    "Short",
    "Byte",
    "Character",
    "Boolean",
    "Math",
    "ArrayList",
    "HashMap",
    "List",
    "Map",
    "Runnable",
    "Thread",
    "System",
    "Throwable",
    "Exception",
    "Error",
    "RuntimeException",
    "InterruptedException",
    "IOException",
    "ArithmeticException",
    "ClassCastException",
    "IllegalArgumentException",
    "IllegalStateException",
    "IndexOutOfBoundsException",
    "NegativeArraySizeException",
    "NullPointerException",
    "ConcurrentModificationException",
    "NumberFormatException",
    "IllegalThreadStateException",
    "ArrayIndexOutOfBoundsException",
    "StringIndexOutOfBoundsException",
    "ExceptionInInitializerError",
    "NoClassDefFoundError",
];

pub fn class_name(number: u8) -> &'static str {
    NAMES.get(usize::from(number)).copied().unwrap_or("none")
}

pub fn put_class(class: Option<&ClassRow>, out: &mut String) -> Result<(), NoMemory> {
    let Some(class) = class else {
        return Ok(out.push_str("none")?);
    };
    let above = class.above.map_or("none", class_name);
    Ok(write!(
        out,
        "{} {} {} {} {above}",
        class.number, class.package, class.kotlin, class.params
    )?)
}

// The classes of the library in the order of their numbers.
ghost use Rattle.std.specs.Prelude.{◌≡◌, map};
ghost use Rattle.java_library_heads.specs.LibraryHeads as s;
ghost use Rattle.java_library_heads.specs.Rows.{head_of};

use java_type_relations::ClassForm;

/// A class above another, and the places of the type parameters that are its arguments.
#[derive(Clone, Copy)]
pub struct Above {
    pub class: u8,
    pub places: &'static [u32],
}

/// A class: its number, its form, the places of its type parameters, and its direct supertypes.
#[derive(Clone, Copy)]
pub struct HeadRow {
    pub number: u8,
    pub form: ClassForm,
    pub places: &'static [u32],
    pub supers: &'static [Above],
}

macro_rules! row {
    ($number:literal $form:ident [$($place:literal)*] [$($class:literal [$($argument:literal)*])*]) => {
        HeadRow {
            number: $number,
            form: ClassForm::$form,
            places: &[$($place),*],
            supers: &[$(Above { class: $class, places: &[$($argument),*] }),*],
        }
    };
}

static ROWS: [HeadRow; 37] = [
    // Object
    row!(0 Class [] []),
    // String
    row!(1 Final [] [0 []]),
    // StringBuilder
    row!(2 Final [] [0 []]),
    // Integer
    row!(3 Final [] [0 []]),
    // Long
    row!(4 Final [] [0 []]),
    // Short
    row!(5 Final [] [0 []]),
    // Byte
    row!(6 Final [] [0 []]),
    // Character
    row!(7 Final [] [0 []]),
    // Boolean
    row!(8 Final [] [0 []]),
    // Math
    row!(9 Final [] [0 []]),
    // ArrayList
    row!(10 Class [0] [12 [0]]),
    // HashMap
    row!(11 Class [0 1] [13 [0 1]]),
    // List
    row!(12 Interface [0] [0 []]),
    // Map
    row!(13 Interface [0 1] [0 []]),
    // Runnable
    row!(14 Interface [] [0 []]),
    // Thread
    row!(15 Class [] [0 [] 14 []]),
    // System
    row!(16 Final [] [0 []]),
    // Throwable
    row!(17 Class [] [0 []]),
    // Exception
    row!(18 Class [] [17 []]),
    // Error
    row!(19 Class [] [17 []]),
    // RuntimeException
    row!(20 Class [] [18 []]),
    // InterruptedException
    row!(21 Class [] [18 []]),
    // IOException
    row!(22 Class [] [18 []]),
    // ArithmeticException
    row!(23 Class [] [20 []]),
    // ClassCastException
    row!(24 Class [] [20 []]),
    // IllegalArgumentException
    row!(25 Class [] [20 []]),
    // IllegalStateException
    row!(26 Class [] [20 []]),
    // IndexOutOfBoundsException
    row!(27 Class [] [20 []]),
    // NegativeArraySizeException
    row!(28 Class [] [20 []]),
    // NullPointerException
    row!(29 Class [] [20 []]),
    // ConcurrentModificationException
    row!(30 Class [] [20 []]),
    // NumberFormatException
    row!(31 Class [] [25 []]),
    // IllegalThreadStateException
    row!(32 Class [] [25 []]),
    // ArrayIndexOutOfBoundsException
    row!(33 Class [] [27 []]),
    // StringIndexOutOfBoundsException
    row!(34 Class [] [27 []]),
    // ExceptionInInitializerError
    row!(35 Class [] [19 []]),
    // NoClassDefFoundError
    row!(36 Class [] [19 []]),
];

// The rows are those of the library.
pub fn head_rows() -> &'static [HeadRow]
    ensures { map head_of result.now ≡ s.library_heads }
{
    &ROWS
}

// The fixed parts of the texts that are printed and written, and of the names of files.

pub const LINE_END: &str = "\n";

pub const DOT: &str = ".";

pub const DOTS: &str = "..";

pub const SLASH: &str = "/";

pub const CONVERT: &str = "convert";

pub const KOTLIN_END: &str = ".kt";

pub const REPORT_FILE: &str = "j2k-report.txt";

pub const CONVERTED_FILES: &str = "converted: files ";

pub const CONVERTED_CLASSES: &str = ", classes ";

pub const CONVERTED_CHOICES: &str = ", choices ";

pub const USAGE: &str =
    "usage: j2k convert SRC DST | check DIR | explain SRC | sample SEED COUNT\n";

pub const READ_FAULT: &str = "j2k: read fault\n";

pub const WRITE_FAULT: &str = "j2k: write fault\n";

pub const NO_MEMORY: &str = "j2k: no memory\n";

pub const NOT_EMPTY: &str = "j2k: not empty: ";

pub const TOO_LARGE: &str = "j2k: too large: ";

// Comments that are printed.

use j2k_base::Text;
use sqlite_items::Items;

/// Comments in their order, each with its marks: `//` and the rest of the line without its end, or `/*` to `*/`.
pub type Comments = Items<Text>;

// Units.

use crate::JMember;
use j2k_base::Text;
use java_member_grammar::{JImport, JPackage};
use java_tree::Comments;
use sqlite_items::Items;

/// What a file declares (JLS 7.3): the path of the file, the package line where one stands, the imports, the types and
/// each `;` among them, and the comments of the file.
#[derive(Drop)]
pub struct JUnit {
    pub path: Text,
    pub package: Option<JPackage>,
    pub imports: Items<JImport>,
    pub types: Items<JMember>,
    pub comments: Comments,
}

//! What acceptance looks at beside the types of the keys.
use class_rows::ClassRows;
use type_terms::facts::Facts;

/// The order of the classes and what is known of the text.
#[derive(Drop)]
pub(crate) struct Rules<'a, F: Facts> {
    pub classes: &'a ClassRows,
    pub facts: &'a F,
}

use std::collections::BTreeSet;

/// The titles of the categories that were met, each once, in the order of their bytes: found in steps with the
/// logarithm of their number, whatever titles somebody chose.
#[derive(Drop)]
pub struct Titles {
    pub met: BTreeSet<Vec<u8>>,
}

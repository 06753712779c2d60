/// Why the text of an attribute is refused: it is no JSON, it has not the shape that the attribute
/// has, or a number in it is not a whole one from 0 to 4,294,967,295 written in digits alone.
#[derive(Clone, Copy, Debug, PartialEq, Eq)]
pub enum DataWhy {
    Json,
    Shape,
    Number,
}

/// Why an attribute was not read.
#[derive(Clone, Copy, Debug, PartialEq, Eq)]
pub enum DataRefusal {
    BadData(DataWhy),
    NoMemory,
}

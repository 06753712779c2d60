ghost use Rattle.std.specs.Prelude.{◌≡◌};
ghost use Rattle.wt_commands.specs.Outputs.{output_bytes};

use wt_span::{List, Str};

/// An answer: what goes to standard output.
#[derive(Drop)]
pub enum Output {
    /// Bytes, as the writers of HTML and of listings give them.
    Bytes(List<u8>),
    /// The source of a page.
    Text(Str),
}

impl Output {
    pub fn as_bytes(&self) -> &[u8]
        ensures { result.now ≡ output_bytes self.now }
    {
        match self {
            Output::Bytes(bytes) => bytes.as_slice(),
            Output::Text(text) => text.as_str().as_bytes(),
        }
    }
}
